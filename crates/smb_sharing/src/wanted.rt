//! What the words of the command ask for.

use crate::fault::{SharingFault, SharingRule};
use crate::passwords::accounts_named;
use crate::size::size_of;
use smb_ntlm::Account;
use std::alloc::Global;
use std::net::SocketAddr;

/// What the words of the command say.
#[derive(Clone, Copy)]
pub struct SharingWords<'a> {
    /// The folder whose files are served.
    pub folder: &'a str,
    /// Whether what of it can't be in the share is left out.
    pub skips: bool,
    /// The share's name, where it is not to be the folder's last one.
    pub name: Option<&'a str>,
    /// Who may log in, in the order of their passwords.
    pub accounts: &'a [&'a str],
    /// The file of their passwords; standard input where there is none.
    pub passwords: Option<&'a str>,
    /// Whether guests may come from other machines, and beside accounts.
    pub guests: bool,
    /// How much room there is, as a text.
    pub capacity: Option<&'a str>,
    /// IP addresses with a port.
    pub listen: &'a [&'a str],
    /// Who may connect, IP addresses and networks apart by commas; everyone where there is none.
    pub hosts: Option<&'a str>,
    /// How many clients of one address may be connected, where that is limited.
    pub per_address: Option<u64>,
    /// The file that changes are kept in.
    pub journal: Option<&'a str>,
}

/// What the words ask for, each of them looked at.
#[derive(Drop)]
pub struct Wanted {
    /// How much room is asked for.
    pub capacity: Option<u64>,
    /// The accounts, whose passwords are not known yet.
    pub accounts: Vec<Account>,
    /// Whether guests may come.
    pub guest: bool,
}

/// How much room the words ask for.
fn capacity_of(alloc: Global, text: Option<&str>) -> Result<Option<u64>, SharingFault> {
    let Some(text) = text else {
        return Ok(None);
    };
    match size_of(text) {
        Ok(bytes) => Ok(Some(bytes)),
        Err(rule) => Err(SharingFault::of_word(alloc, "--capacity", text, rule)),
    }
}

/// Sees that an address is one, and on this machine alone unless others are `expected`.
fn check_address(alloc: Global, listen: &str, expected: bool) -> Result<(), SharingFault> {
    let rule = match listen.parse::<SocketAddr>() {
        Ok(address) if expected || address.ip().is_loopback() => return Ok(()),
        Ok(_) => SharingRule::Open,
        Err(_) => SharingRule::NotAnAddress,
    };
    Err(SharingFault::of_word(alloc, "--listen", listen, rule))
}

impl Wanted {
    /// What the words ask for. Where accounts are named, guests may come with `--guests` alone; where none is, they may
    /// come from this machine, and with `--guests` from others.
    ///
    /// Of [`SharingRule`] the words' own: a size, an account, an address, and passwords without an account.
    pub fn of(alloc: Global, words: SharingWords<'_>) -> Result<Self, SharingFault> {
        let capacity = capacity_of(alloc, words.capacity)?;
        let accounts = accounts_named(alloc, words.accounts)?;
        for listen in words.listen {
            check_address(alloc, listen, words.guests || !accounts.is_empty())?;
        }
        if accounts.is_empty()
            && let Some(name) = words.passwords
        {
            let rule = SharingRule::NoAccount;
            return Err(SharingFault::of_word(alloc, "--passwords", name, rule));
        }
        let guest = words.guests || accounts.is_empty();
        Ok(Wanted {
            capacity,
            accounts,
            guest,
        })
    }
}
