//! A file of accounts: TOML.

ghost use Rattle.std.specs.Prelude.{map, IfOk};
ghost use Rattle.smb_ntlm.specs.Accounts.{known, AreLawful};

use crate::configuration::{ConfigFault, flag, only_keys, read_sixteen, read_table, text};
use crate::rule::ConfigRule;
use smb_ntlm::{Account, account_fault};
use std::alloc::{AllocError, Global};
use toml::{Table, Value};

/// The keys that a file of accounts has, none required.
pub(crate) const ACCOUNTS_KEYS: [&str; 1] = ["account"];

/// The keys that an account has, all but `readonly` required.
pub(crate) const ACCOUNT_KEYS: [&str; 3] = ["name", "nt_hash", "readonly"];

/// What a file of accounts says: who may log in by a password.
#[derive(Debug, Drop)]
pub struct Accounts {
    /// The accounts, in which [`account_fault`] finds no fault.
    pub list: Vec<Account>,
    ghost lawful: { AreLawful (map known list.items) },
}

/// The account of a number. Whether its name is lawful is looked at once all are read.
fn read_account(alloc: Global, number: usize, value: &Value) -> Result<Account, ConfigFault> {
    let table = value
        .as_table()
        .ok_or(ConfigFault::Refused(ConfigRule::Accounts))?;
    only_keys(table, &ACCOUNT_KEYS, ConfigRule::AccountKeys(number))?;
    let name = text(table, "name", ConfigRule::AccountName(number))?;
    let nt_hash = read_sixteen(table, "nt_hash", ConfigRule::AccountHash(number))?;
    let read_only = flag(table, "readonly", ConfigRule::AccountReadonly(number))?;
    let name = Vec::from_slice(alloc, name.as_bytes())?;
    Ok(Account {
        name,
        nt_hash,
        read_only,
    })
}

/// The accounts of a table, with any names.
fn read_list(alloc: Global, table: &Table) -> Result<Vec<Account>, ConfigFault> {
    let mut list = Vec::new(alloc);
    let Some(value) = table.get("account") else {
        return Ok(list);
    };
    let values = value
        .as_array()
        .ok_or(ConfigFault::Refused(ConfigRule::Accounts))?;
    for value in values {
        let number = list.len().saturating_add(1);
        let account = read_account(alloc, number, value)?;
        list.push(account).map_err(AllocError::from)?;
    }
    Ok(list)
}

/// The accounts of a text, in which no rule of names is looked at: who takes them asks [`account_fault`], or the same
/// otherwise. It takes time in proportion to the text.
pub fn read_account_list(alloc: Global, document: &str) -> Result<Vec<Account>, ConfigFault> {
    let table = read_table(alloc, document)?;
    only_keys(&table, &ACCOUNTS_KEYS, ConfigRule::AccountsKeys)?;
    read_list(alloc, &table)
}

impl Accounts {
    /// No accounts.
    #[tactic(auto, unfolding(smb_ntlm::specs::Accounts::fault_behind))]
    pub fn none(alloc: Global) -> Self {
        Accounts {
            list: Vec::new(alloc),
        }
    }

    /// Reads a file of accounts whole: a table `[[account]]` for each, with its `name`, its `nt_hash` and, where it may
    /// only read, `readonly`. Which rule is named where it is refused, and that no other text is, is tested. It takes
    /// time in proportion to the square of their number.
    pub fn read(alloc: Global, document: &str) -> Result<Self, ConfigFault>
        ensures lawful { IfOk result (λ read. AreLawful (map known read.list.items)) }
    {
        let list = read_account_list(alloc, document)?;
        match account_fault(&list) {
            Some(fault) => Err(ConfigFault::Refused(ConfigRule::OfAccount(fault))),
            None => Ok(Accounts { list }),
        }
    }
}
