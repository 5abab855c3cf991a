//! The clients that may connect, as the words of a command list them.

use crate::fault::Fault;
use smb_reason::Shown;
use smb_tcp::{Network, NetworkFault};
use std::alloc::{AllocError, Global};
use std::io::Write;

/// How many networks a list has at most.
const MOST_NETWORKS: usize = 64;

/// Why a list of networks is not taken.
#[derive(Debug, Drop)]
pub enum HostsFault {
    /// It has none.
    Empty,
    /// It has more than 64.
    TooMany,
    /// The list, as it was given: nothing is on one side of a comma.
    Gap(String),
    /// One of them, as it was given.
    NotANetwork { text: String, fault: NetworkFault },
}

impl HostsFault {
    /// Writes what is printed of it, in one line.
    pub(crate) fn report<E: Write>(&self, errors: &mut E) {
        let _ = match self {
            HostsFault::Empty => writeln!(
                errors,
                "hosts: none: say at least one address or network, such as 10.1.2.3 or 192.168.1.0/24"
            ),
            HostsFault::TooMany => {
                writeln!(
                    errors,
                    "hosts: too many networks: give at most {MOST_NETWORKS}"
                )
            }
            HostsFault::Gap(list) => {
                let list = Shown(list.as_bytes());
                writeln!(
                    errors,
                    "hosts: {list}: nothing on one side of a comma: say an address or a network on each"
                )
            }
            HostsFault::NotANetwork { text, fault } => {
                let text = Shown(text.as_bytes());
                writeln!(errors, "hosts: {text}: {fault}")
            }
        };
    }
}

/// The network that a text of a list says.
fn network_of(alloc: Global, list: &str, text: &str) -> Result<Network, Fault> {
    if text.is_empty() {
        let list = String::from_str(alloc, list)?;
        return Err(Fault::Hosts(HostsFault::Gap(list)));
    }
    match Network::read(text) {
        Ok(network) => Ok(network),
        Err(fault) => {
            let text = String::from_str(alloc, text)?;
            Err(Fault::Hosts(HostsFault::NotANetwork { text, fault }))
        }
    }
}

/// The networks of a list, apart by commas, of which there are 64 at most.
fn networks_of(alloc: Global, list: &str) -> Result<Vec<Network>, Fault> {
    if list.is_empty() {
        return Err(Fault::Hosts(HostsFault::Empty));
    }
    let mut networks = Vec::new(alloc);
    for text in list.split(',') {
        if networks.len() >= MOST_NETWORKS {
            return Err(Fault::Hosts(HostsFault::TooMany));
        }
        networks
            .push(network_of(alloc, list, text)?)
            .map_err(AllocError::from)?;
    }
    Ok(networks)
}

/// The networks of the list that the words have; None where they have none.
pub fn hosts_of(alloc: Global, list: Option<&str>) -> Result<Option<Vec<Network>>, Fault> {
    match list {
        Some(list) => Ok(Some(networks_of(alloc, list)?)),
        None => Ok(None),
    }
}
