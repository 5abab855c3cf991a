//! Accounts, read out of a text.

use crate::fault::AccountsFault;
use smb_config::{ConfigFault, ConfigRule, read_account_list, write_place};
use smb_ntlm::{Account, AccountFault, account_fault};
use std::alloc::{AllocError, Global};
use std::io::Write;

/// The rule that the name of an account breaks by itself, whatever the others are called; None where it is lawful.
pub fn name_fault(account: &Account) -> Option<ConfigRule> {
    let fault = account_fault(std::slice::from_ref(account))?;
    Some(ConfigRule::OfAccount(fault))
}

/// Whether two accounts have one name, in any case. It takes a step for each, and their sorting.
fn has_twins(alloc: Global, accounts: &[Account]) -> Result<bool, AllocError> {
    let mut names = Vec::new(alloc);
    for account in accounts {
        let mut name = Vec::from_slice(alloc, account.name.as_slice())?;
        name.as_mut_slice().make_ascii_lowercase();
        names.push(name).map_err(AllocError::from)?;
    }
    names.sort()?;
    let nexts = names.iter().skip(1);
    Ok(names.iter().zip(nexts).any(|(name, next)| name == next))
}

/// What is wrong with the first faulty account. Where nothing is, that is seen without comparing each with all others.
fn fault_in(alloc: Global, accounts: &[Account]) -> Result<Option<AccountFault>, AllocError> {
    let are_lawful = accounts.iter().all(|account| name_fault(account).is_none());
    if are_lawful && !has_twins(alloc, accounts)? {
        return Ok(None);
    }
    Ok(account_fault(accounts))
}

/// The accounts of a text, as a share reads them.
pub(crate) fn read_accounts(alloc: Global, document: &str) -> Result<Vec<Account>, ConfigFault> {
    let accounts = read_account_list(alloc, document)?;
    match fault_in(alloc, &accounts)? {
        Some(fault) => Err(ConfigFault::Refused(ConfigRule::OfAccount(fault))),
        None => Ok(accounts),
    }
}

/// What a text that breaks a rule is: a fault with the rule and its place.
fn refused(alloc: Global, document: &str, rule: ConfigRule) -> AccountsFault {
    let mut said = Vec::new(alloc);
    let written = write!(said, "{rule}");
    if written.is_err() || write_place(alloc, document, rule, &mut said).is_err() {
        return AccountsFault::NoMemory;
    }
    match String::from_utf8_lossy(alloc, &said) {
        Ok(said) => AccountsFault::Refused(said),
        Err(_) => AccountsFault::NoMemory,
    }
}

/// What a fault of a text of accounts is.
pub(crate) fn fault_of_text(alloc: Global, document: &str, fault: ConfigFault) -> AccountsFault {
    match fault {
        ConfigFault::Unread(reason) => AccountsFault::Unread(reason),
        ConfigFault::Refused(rule) => refused(alloc, document, rule),
        ConfigFault::NoMemory => AccountsFault::NoMemory,
    }
}
