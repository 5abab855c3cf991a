//! Networks of IP addresses.

ghost use Rattle.std.specs.Prelude.{◌↔◌, IsTrue};
ghost use Rattle.smb_tcp.specs.Networks.{Has, HasCanonical, SameBefore};

use std::fmt;
use std::net::{IpAddr, Ipv4Addr, Ipv6Addr};
use thiserror::Error;

/// How many digits a prefix has at most.
const LONGEST_PREFIX: usize = 3;

/// All addresses that begin with the same bits; one address alone, where that is all of them. An IPv4-mapped IPv6 address,
/// `::ffff:a.b.c.d`, counts as `a.b.c.d`.
#[derive(Clone, Copy, Debug, PartialEq, Eq)]
pub struct Network {
    // The first of its addresses, which is not IPv4-mapped.
    first: IpAddr,
    // How many of its last bits differ.
    free: u32,
}

/// Why a text is no network.
#[derive(Clone, Copy, Debug, PartialEq, Eq, Error)]
pub enum NetworkFault {
    #[error("not an IP address, nor a network of them: say such as 10.1.2.3, 192.168.1.0/24 or fd00::/8; no name is looked up")]
    NotAnAddress,
    /// An address has so many bits.
    #[error("not a prefix of it: say a number from 0 to {0} behind the slash")]
    NotAPrefix(u32),
    /// What it would be with them cleared.
    #[error("bits behind its prefix are set: say {0}")]
    BitsBehind(Network),
}

/// How many bits an address has.
fn width_of(address: IpAddr) -> u32 {
    match address {
        IpAddr::V4(_) => Ipv4Addr::BITS,
        IpAddr::V6(_) => Ipv6Addr::BITS,
    }
}

/// The number of bits that the text behind a slash says, where an address has so many.
fn read_prefix(digits: &str, width: u32) -> Option<u32> {
    if digits.len() > LONGEST_PREFIX || !digits.bytes().all(|byte| byte.is_ascii_digit()) {
        return None;
    }
    match digits.parse::<u32>() {
        Ok(prefix) if prefix <= width => Some(prefix),
        _ => None,
    }
}

/// An address with its last bits cleared, so many.
fn cleared(address: IpAddr, free: u32) -> IpAddr {
    match address {
        IpAddr::V4(address) => {
            let kept = u32::MAX.checked_shl(free).unwrap_or(0);
            IpAddr::V4(Ipv4Addr::from_bits(address.to_bits() & kept))
        }
        IpAddr::V6(address) => {
            let kept = u128::MAX.checked_shl(free).unwrap_or(0);
            IpAddr::V6(Ipv6Addr::from_bits(address.to_bits() & kept))
        }
    }
}

/// Whether two numbers have the same bits but for the last ones, so many.
fn is_same_before(free: u32, a: u128, b: u128) -> bool
    ensures { IsTrue result ↔ SameBefore free a b }
{
    if free < u128::BITS {
        a >> free == b >> free
    } else {
        true
    }
}

impl Network {
    /// The network that a text says: an address, or the first one of a network, a slash and how many bits are the same in all.
    pub fn read(text: &str) -> Result<Network, NetworkFault> {
        let (address, prefix) = match text.split_once('/') {
            Some((address, prefix)) => (address, Some(prefix)),
            None => (text, None),
        };
        let Ok(address) = address.parse::<IpAddr>() else {
            return Err(NetworkFault::NotAnAddress);
        };
        let width = width_of(address);
        let free = match prefix {
            None => 0,
            Some(digits) => match read_prefix(digits, width) {
                Some(prefix) => width.saturating_sub(prefix),
                None => return Err(NetworkFault::NotAPrefix(width)),
            },
        };
        let first = cleared(address, free);
        if first != address {
            return Err(NetworkFault::BitsBehind(Network { first, free }));
        }
        Ok(Network {
            first: first.to_canonical(),
            free,
        })
    }

    /// Whether it has an address that is not IPv4-mapped.
    fn has_canonical(&self, address: IpAddr) -> bool
        ensures { IsTrue result ↔ HasCanonical self.now address }
    {
        match (self.first, address) {
            (IpAddr::V4(first), IpAddr::V4(address)) => {
                is_same_before(
                    self.free,
                    first.to_bits() as u128,
                    address.to_bits() as u128,
                )
            }
            (IpAddr::V6(first), IpAddr::V6(address)) => {
                is_same_before(self.free, first.to_bits(), address.to_bits())
            }
            _ => false,
        }
    }

    /// Whether an address is of it.
    pub fn has(&self, address: IpAddr) -> bool
        ensures { IsTrue result ↔ Has self.now address }
    {
        self.has_canonical(address.to_canonical())
    }
}

impl fmt::Display for Network {
    fn fmt<W: fmt::Write>(&self, f: &mut fmt::Formatter<W>) -> fmt::Result {
        let prefix = width_of(self.first).saturating_sub(self.free);
        write!(f, "{}/{}", self.first, prefix)
    }
}
