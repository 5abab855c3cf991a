//! The rules of a text that a share is made by, a configuration or accounts, and their words.

use crate::limits::LimitKey;
use smb_ntlm::AccountFault;
use std::fmt;

/// A rule of a configuration, or of a file of accounts, by the key that it is about.
#[derive(Clone, Copy, Debug, PartialEq, Eq)]
pub enum ConfigRule {
    /// How long the file may be.
    Size,
    /// The file is a text.
    Text,
    /// What is wrong begins in the line of this number, where the reader says.
    Toml(Option<usize>),
    /// Which keys there are.
    Keys,
    Limits,
    /// Which keys the table of limits has.
    LimitKeys,
    OfLimit(LimitKey),
    Share,
    Label,
    Guid,
    Capacity,
    Created,
    Hello,
    Guest,
    GuestReadonly,
    Signing,
    /// Nothing is signed where nobody logs in by an account.
    SigningUnused,
    Users,
    /// Which keys the user of this number has; users are counted from 1.
    UserKeys(usize),
    UserName(usize),
    UserToken(usize),
    UserReadonly(usize),
    /// No two users have one token; the later one has this number.
    OwnTokens(usize),
    /// Nobody but its owner may read or write a file of accounts.
    Mode,
    /// Which keys a file of accounts has.
    AccountsKeys,
    Accounts,
    /// Which keys the account of this number has; accounts are counted from 1.
    AccountKeys(usize),
    /// The name is a text.
    AccountName(usize),
    AccountHash(usize),
    AccountReadonly(usize),
    /// What a login asks of accounts' names; they are counted from 0.
    OfAccount(AccountFault),
}

impl fmt::Display for ConfigRule {
    fn fmt<W: fmt::Write>(&self, f: &mut fmt::Formatter<W>) -> fmt::Result {
        write!(f, "{}", self.text())
    }
}

impl ConfigRule {
    /// The key, and what it is to be.
    pub fn text(self) -> &'static str {
        match self {
            ConfigRule::Size => "file: at most 1048576 bytes",
            ConfigRule::Text => "file: a text in UTF-8",
            ConfigRule::Toml(_) => "file: a text in TOML, no key given twice",
            ConfigRule::Keys => {
                "keys: none but share, label, guid, capacity, created, hello, guest, guest_readonly, signing, limits and user"
            }
            ConfigRule::Limits => "limits: a table [limits], where it is given",
            ConfigRule::LimitKeys => {
                "limits: no keys but connections, opens, locks, entries, file_bytes and capacity"
            }
            ConfigRule::OfLimit(key) => limit_text(key),
            ConfigRule::Share => {
                "share: a text of 1 to 80 characters from ! to ~, none of them one of \" * / : < > ? \\ |"
            }
            ConfigRule::Label => "label: a text of at most 32 characters from blank to ~",
            ConfigRule::Guid => "guid: a text of 32 hex digits",
            ConfigRule::Capacity =>
                "capacity: a multiple of 4096 from 4096 to limits.capacity, by default 67108864",
            ConfigRule::Created => "created: a number of 0 or more, in units of 100 ns since 1601",
            ConfigRule::Hello => "hello: at most 4096 bytes in hex, as a text",
            ConfigRule::Guest => "guest: true or false",
            ConfigRule::GuestReadonly => "guest_readonly: true or false, where it is given",
            ConfigRule::Signing => "signing: off, offered or required, where it is given",
            ConfigRule::SigningUnused => "signing: off, without accounts",
            ConfigRule::Users => "user: a table [[user]] for each user",
            ConfigRule::UserKeys(_) => "user: no keys but name, token and readonly",
            ConfigRule::UserName(_) => "user.name: a text of 1 to 256 bytes",
            ConfigRule::UserToken(_) => "user.token: at most 4096 bytes in hex, as a text",
            ConfigRule::UserReadonly(_) => "user.readonly: true or false, where it is given",
            ConfigRule::OwnTokens(_) => "user.token: no two users have the same token",
            ConfigRule::Mode => "file: no rights for anyone but its owner, such as mode 600",
            ConfigRule::AccountsKeys => "keys: none but account",
            ConfigRule::Accounts => "account: a table [[account]] for each account",
            ConfigRule::AccountKeys(_) => "account: no keys but name, nt_hash and readonly",
            ConfigRule::AccountName(_) => "account.name: a text",
            ConfigRule::AccountHash(_) => "account.nt_hash: a text of 32 hex digits",
            ConfigRule::AccountReadonly(_) => "account.readonly: true or false, where it is given",
            ConfigRule::OfAccount(fault) => name_text(fault),
        }
    }
}

/// What a limit is to be.
fn limit_text(key: LimitKey) -> &'static str {
    match key {
        LimitKey::Connections => "limits.connections: 1 to 4096",
        LimitKey::Opens => "limits.opens: 1 to 1048576",
        LimitKey::Locks => "limits.locks: 1 to 4096",
        LimitKey::Entries => "limits.entries: 1 to 4294967295",
        LimitKey::FileBytes => "limits.file_bytes: 4096 to 8796093022208",
        LimitKey::Capacity => "limits.capacity: 4096 to 70368744177664",
    }
}

/// What an account's name is to be.
fn name_text(fault: AccountFault) -> &'static str {
    match fault {
        AccountFault::NameLength(_) => "account.name: 1 to 256 bytes",
        AccountFault::NameCharacter(_) => "account.name: no character but those from blank to ~",
        AccountFault::NameIsGuest(_) => {
            "account.name: not guest, in any case, which is the name of guests"
        }
        AccountFault::NameTaken(_) => {
            "account.name: no two accounts have the same name, in any case"
        }
    }
}
