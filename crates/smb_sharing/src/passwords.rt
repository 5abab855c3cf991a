//! Accounts of names and passwords.

use crate::fault::{SharingFault, SharingRule};
use smb_config::{CONFIG_LIMIT, read_past};
use smb_ntlm::{Account, AccountFault, account_fault, nt_hash_of};
use smb_reason::{Reason, Shown};
use std::alloc::{AllocError, Global};
use std::io::{ErrorKind, Read};

/// Where passwords are read from.
#[derive(Clone, Copy, Debug, PartialEq, Eq)]
pub enum Passwords<'a> {
    StandardInput,
    File(&'a str),
}

impl Passwords<'_> {
    /// The fault of what was read there.
    fn fault(self, alloc: Global, rule: SharingRule) -> SharingFault {
        let what = match self {
            Passwords::StandardInput => String::from_str(alloc, "passwords on standard input"),
            Passwords::File(name) => {
                format!(in alloc; "passwords of {}", Shown(name.as_bytes()))
            }
        };
        match what {
            Ok(what) => SharingFault::Refused { what, rule },
            Err(_) => SharingFault::NoMemory,
        }
    }

    /// What a failed opening or read is.
    pub fn unread(self, alloc: Global, kind: ErrorKind) -> SharingFault {
        match kind {
            ErrorKind::OutOfMemory => SharingFault::NoMemory,
            kind => self.fault(alloc, SharingRule::PasswordsUnread(Reason(kind))),
        }
    }
}

/// The place in the list of the account that a fault is of.
fn place_of(fault: AccountFault) -> usize {
    match fault {
        AccountFault::NameLength(place)
        | AccountFault::NameCharacter(place)
        | AccountFault::NameIsGuest(place)
        | AccountFault::NameTaken(place) => place,
    }
}

/// Accounts of these names, whose passwords are not known yet.
///
/// [`SharingRule::Account`] where a login can't have them.
pub(crate) fn accounts_named(alloc: Global, names: &[&str]) -> Result<Vec<Account>, SharingFault> {
    let mut accounts = Vec::new(alloc);
    for name in names {
        let account = Account {
            name: Vec::from_slice(alloc, name.as_bytes())?,
            nt_hash: [0; 16],
            read_only: false,
        };
        accounts.push(account).map_err(AllocError::from)?;
    }
    let Some(fault) = account_fault(&accounts) else {
        return Ok(accounts);
    };
    let name = names.get(place_of(fault)).copied().unwrap_or("");
    Err(SharingFault::of_word(alloc, "--account", name, SharingRule::Account(fault)))
}

/// The bytes of passwords, at most 1,048,576.
///
/// [`SharingRule::PasswordsUnread`] and [`SharingRule::TooLong`], or want of memory.
pub fn read_passwords<R: Read + Drop>(
    alloc: Global,
    from: Passwords<'_>,
    input: R,
) -> Result<Vec<u8>, SharingFault> {
    match read_past(alloc, input, CONFIG_LIMIT) {
        Ok(bytes) if bytes.len() as u64 > CONFIG_LIMIT => {
            Err(from.fault(alloc, SharingRule::TooLong))
        }
        Ok(bytes) => Ok(bytes),
        Err(error) => Err(from.unread(alloc, error.kind())),
    }
}

/// The text of passwords, without one line feed at its end.
fn text_of(read: &[u8]) -> Result<&str, SharingRule> {
    let Ok(text) = str::from_utf8(read) else {
        return Err(SharingRule::NotText);
    };
    if text.is_empty() {
        return Err(SharingRule::NoPassword);
    }
    Ok(text.strip_suffix('\n').unwrap_or(text))
}

/// The lines of passwords, one for each of so many accounts.
fn check_lines(text: &str, accounts: usize) -> Result<(), SharingRule> {
    let lines = text.split('\n').count();
    if lines != accounts {
        return Err(SharingRule::OtherNumber(lines, accounts));
    }
    match text.split('\n').position(|line| line.is_empty()) {
        Some(place) => Err(SharingRule::EmptyPassword(place.saturating_add(1))),
        None => Ok(()),
    }
}

/// The passwords in what was read, a line for each of so many accounts.
fn lines_of(read: &[u8], accounts: usize) -> Result<&str, SharingRule> {
    let text = text_of(read)?;
    check_lines(text, accounts)?;
    Ok(text)
}

/// Gives accounts the passwords that were read, a line for each, in their order. Each is a text in UTF-8, of at least
/// one character; a carriage return before its line feed is a part of it.
///
/// [`SharingRule::NotText`], [`SharingRule::NoPassword`], [`SharingRule::OtherNumber`] and
/// [`SharingRule::EmptyPassword`], looked at in this order, or want of memory.
pub fn accounts_of(
    alloc: Global,
    from: Passwords<'_>,
    read: &[u8],
    mut accounts: Vec<Account>,
) -> Result<Vec<Account>, SharingFault> {
    let text = match lines_of(read, accounts.len()) {
        Ok(text) => text,
        Err(rule) => return Err(from.fault(alloc, rule)),
    };
    for (account, line) in accounts.iter_mut().zip(text.split('\n')) {
        account.nt_hash = nt_hash_of(alloc, line)?;
    }
    Ok(accounts)
}
