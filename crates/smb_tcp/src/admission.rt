//! Who is let in.

use super::network::Network;
use std::alloc::Global;
use std::collections::BTreeMap;
use std::net::{IpAddr, Ipv6Addr};

/// Why a connection was closed as it was accepted.
#[derive(Clone, Copy, Debug, PartialEq, Eq)]
pub enum KeptOut {
    /// Its address is of none of the networks.
    Network,
    /// As many connections of its address are open as there may be, so many.
    Address(usize),
}

/// Of which networks clients are let in, and how many connections of one address. Only where these are limited they are counted; the
/// counts take memory with the connections.
#[derive(Drop)]
pub(crate) struct Admission {
    // None: of all.
    networks: Option<Vec<Network>>,
    // None: as many as there are.
    most: Option<usize>,
    // How many there are, by the address that they are counted under.
    counts: BTreeMap<IpAddr, usize>,
}

/// The address that connections of an address are counted under: itself, and of IPv6 the first one with the same 64 bits.
pub(crate) fn counted_under(address: IpAddr) -> IpAddr {
    match address.to_canonical() {
        IpAddr::V4(address) => IpAddr::V4(address),
        IpAddr::V6(address) => {
            let [a, b, c, d, ..] = address.segments();
            IpAddr::V6(Ipv6Addr::new(a, b, c, d, 0, 0, 0, 0))
        }
    }
}

impl Admission {
    /// All are let in.
    pub(crate) fn of_all(alloc: Global) -> Self {
        Admission {
            networks: None,
            most: None,
            counts: BTreeMap::new(alloc),
        }
    }

    /// Sets of which networks they are let in.
    pub(crate) fn limit_networks(&mut self, networks: Vec<Network>) {
        self.networks = Some(networks);
    }

    /// Sets how many connections of one address are let in.
    pub(crate) fn limit_each(&mut self, most: usize) {
        self.most = Some(most);
    }

    /// Whether an address is of one of the networks.
    fn is_of_networks(&self, address: IpAddr) -> bool {
        match &self.networks {
            Some(networks) => networks.iter().any(|network| network.has(address)),
            None => true,
        }
    }

    /// Why one more connection of an address is not let in; None where it is.
    pub(crate) fn refusal(&self, address: IpAddr) -> Option<KeptOut> {
        if !self.is_of_networks(address) {
            return Some(KeptOut::Network);
        }
        let most = self.most?;
        let count = self.counts.get(&counted_under(address)).copied();
        if count.unwrap_or(0) >= most {
            return Some(KeptOut::Address(most));
        }
        None
    }

    /// Counts one more connection of an address; false where there is no memory for it.
    pub(crate) fn add(&mut self, address: IpAddr) -> bool {
        if self.most.is_none() {
            return true;
        }
        let address = counted_under(address);
        let count = self.counts.get(&address).copied().unwrap_or(0);
        self.counts.insert(address, count.saturating_add(1)).is_ok()
    }

    /// Counts one less.
    pub(crate) fn remove(&mut self, address: IpAddr) {
        let address = counted_under(address);
        match self.counts.get_mut(&address) {
            Some(count) if *count > 1 => *count -= 1,
            Some(_) => {
                let _ = self.counts.remove(&address);
            }
            None => {}
        }
    }
}
