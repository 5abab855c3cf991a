//! A change of a text of accounts.

use crate::fault::AccountsFault;
use crate::reading::{fault_of_text, name_fault, read_accounts};
use crate::tables::{Span, hash_in, tables_in};
use smb_config::{CONFIG_LIMIT, ConfigFault};
use smb_ntlm::Account;
use std::alloc::{AllocError, Global};

/// A change of accounts.
#[derive(Clone, Copy)]
pub enum Change<'a> {
    /// One more, at the end.
    Add(&'a Account),
    /// Takes the account of a name away.
    Remove(&'a str),
    /// Gives the account of a name another password, of this hash.
    Password(&'a str, [u8; 16]),
}

/// Bytes in the place of some of a text.
#[derive(Drop)]
struct Splice {
    place: Span,
    bytes: Vec<u8>,
}

/// The account of a name, in any case: its number, counted from 1.
fn number_of(accounts: &[Account], name: &[u8]) -> Option<usize> {
    let place = accounts.iter().position(|account| account
        .name
        .as_slice()
        .eq_ignore_ascii_case(name))?;
    Some(place.saturating_add(1))
}

/// Adds a name as TOML writes a text.
fn push_quoted(text: &mut Vec<u8>, name: &[u8]) -> Result<(), AllocError> {
    text.extend_from_slice(b"\"")?;
    for byte in name {
        if *byte == b'"' || *byte == b'\\' {
            text.extend_from_slice(b"\\")?;
        }
        text.extend_from_slice(&[*byte])?;
    }
    text.extend_from_slice(b"\"\n")
}

/// Adds the hex digits of a hash.
fn push_hex(alloc: Global, text: &mut Vec<u8>, hash: &[u8; 16]) -> Result<(), AllocError> {
    let digits = hex::encode(alloc, hash.as_slice())?;
    text.extend_from_slice(digits.as_bytes())
}

/// The table of an account, with what parts it from the text before it.
fn table_of(alloc: Global, document: &str, account: &Account) -> Result<Vec<u8>, AllocError> {
    let mut text = Vec::new(alloc);
    if !document.is_empty() {
        if !document.ends_with('\n') {
            text.extend_from_slice(b"\n")?;
        }
        text.extend_from_slice(b"\n")?;
    }
    text.extend_from_slice(b"[[account]]\nname = ")?;
    push_quoted(&mut text, &account.name)?;
    text.extend_from_slice(b"nt_hash = \"")?;
    push_hex(alloc, &mut text, &account.nt_hash)?;
    text.extend_from_slice(b"\"\n")?;
    if account.read_only {
        text.extend_from_slice(b"readonly = true\n")?;
    }
    Ok(text)
}

/// The lines of the table of an account, where each account has one.
fn lines_of(document: &str, accounts: &[Account], name: &str) -> Result<Span, AccountsFault> {
    let Some(number) = number_of(accounts, name.as_bytes()) else {
        return Err(AccountsFault::Unknown);
    };
    let tables = tables_in(document, number);
    match tables.found {
        Some(lines) if tables.count == accounts.len() => Ok(lines),
        _ => Err(AccountsFault::Layout),
    }
}

/// What is to be written of an account that is added, and where.
fn adding(
    alloc: Global,
    document: &str,
    accounts: &[Account],
    account: &Account,
) -> Result<Splice, AccountsFault> {
    if let Some(rule) = name_fault(account) {
        return Err(AccountsFault::Name(rule));
    }
    if number_of(accounts, &account.name).is_some() {
        return Err(AccountsFault::Taken);
    }
    let place = Span {
        begin: document.len(),
        end: document.len(),
    };
    let bytes = table_of(alloc, document, account)?;
    Ok(Splice { place, bytes })
}

/// What is to be written for a new password, and where.
fn exchanging(
    alloc: Global,
    document: &str,
    accounts: &[Account],
    name: &str,
    hash: &[u8; 16],
) -> Result<Splice, AccountsFault> {
    let table = lines_of(document, accounts, name)?;
    let Some(place) = hash_in(document, table) else {
        return Err(AccountsFault::Layout);
    };
    let mut bytes = Vec::new(alloc);
    push_hex(alloc, &mut bytes, hash)?;
    Ok(Splice { place, bytes })
}

/// What a change writes, and where.
fn splice_of(
    alloc: Global,
    document: &str,
    accounts: &[Account],
    change: Change<'_>,
) -> Result<Splice, AccountsFault> {
    match change {
        Change::Add(account) => adding(alloc, document, accounts, account),
        Change::Remove(name) => Ok(Splice {
            place: lines_of(document, accounts, name)?,
            bytes: Vec::new(alloc),
        }),
        Change::Password(name, hash) => exchanging(alloc, document, accounts, name, &hash),
    }
}

/// A text with some of its bytes exchanged.
fn spliced(alloc: Global, document: &str, splice: &Splice) -> Result<Vec<u8>, AllocError> {
    let bytes = document.as_bytes();
    let mut text = Vec::new(alloc);
    text.extend_from_slice(bytes.get(..splice.place.begin).unwrap_or(bytes))?;
    text.extend_from_slice(&splice.bytes)?;
    text.extend_from_slice(bytes.get(splice.place.end..).unwrap_or(b""))?;
    Ok(text)
}

/// Whether two accounts are the same, with this hash.
fn is_same(account: &Account, other: &Account, hash: &[u8; 16]) -> bool {
    account.name.as_slice() == other.name.as_slice()
        && account.read_only == other.read_only
        && *hash == other.nt_hash
}

/// Whether an account is the one of a name.
fn is_named(account: &Account, name: &str) -> bool {
    account
        .name
        .as_slice()
        .eq_ignore_ascii_case(name.as_bytes())
}

/// The hash that an account has after a change; None where it is taken away.
fn hash_after(account: &Account, change: Change<'_>) -> Option<[u8; 16]> {
    match change {
        Change::Remove(name) if is_named(account, name) => None,
        Change::Password(name, hash) if is_named(account, name) => Some(hash),
        _ => Some(account.nt_hash),
    }
}

/// Whether these accounts are those of before, with the change.
fn is_changed(before: &[Account], after: &[Account], change: Change<'_>) -> bool {
    let mut place = 0usize;
    for account in before {
        if let Some(hash) = hash_after(account, change) {
            match after.get(place) {
                Some(found) if is_same(account, found, &hash) => place = place.saturating_add(1),
                _ => return false,
            }
        }
    }
    let behind = after.get(place..).unwrap_or(&[]);
    match (change, behind) {
        (Change::Add(account), [found]) => is_same(account, found, &account.nt_hash),
        (Change::Add(_), _) => false,
        (_, _) => behind.is_empty(),
    }
}

/// Sees that a changed text is read, as the accounts of before with the change.
fn see_changed(
    alloc: Global,
    text: &[u8],
    before: &[Account],
    change: Change<'_>,
) -> Result<(), AccountsFault> {
    let Ok(document) = std::str::from_utf8(text) else {
        return Err(AccountsFault::Layout);
    };
    match read_accounts(alloc, document) {
        Ok(after) if is_changed(before, &after, change) => Ok(()),
        Err(ConfigFault::NoMemory) => Err(AccountsFault::NoMemory),
        _ => Err(AccountsFault::Layout),
    }
}

/// A text of accounts with a change.
pub(crate) fn changed(
    alloc: Global,
    document: &str,
    change: Change<'_>,
) -> Result<Vec<u8>, AccountsFault> {
    let before = match read_accounts(alloc, document) {
        Ok(accounts) => accounts,
        Err(fault) => return Err(fault_of_text(alloc, document, fault)),
    };
    let splice = splice_of(alloc, document, &before, change)?;
    let text = spliced(alloc, document, &splice)?;
    if text.len() as u64 > CONFIG_LIMIT {
        return Err(AccountsFault::Full);
    }
    see_changed(alloc, &text, &before, change)?;
    Ok(text)
}
