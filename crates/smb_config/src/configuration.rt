//! A configuration's text: TOML.

ghost use Rattle.std.specs.Prelude.{◌≡◌, ◌≤◌, ◌++◌, ◌∷◌, [], true, false, OnOk, IfOk, length, map};
ghost use Rattle.std.specs.List.{AllByRecursion, list_any};
ghost use Rattle.std.specs.Str.{bytes_eq};
ghost use Rattle.smb_session.specs.Tokens.{HaveOwnTokens};
ghost use Rattle.smb_session.specs.Answers.{known_user};
ghost use Rattle.smb_request.specs.Settings.{settings_within, is_lawful};

use crate::limits::read_limits;
use crate::rule::ConfigRule;
use hex::{FromHex, FromHexError};
use smb_ntlm::SigningMode;
use smb_reason::Reason;
use smb_request::Config;
use smb_session::{Tokens, User};
use smb_wire::limits::Limits;
use std::alloc::{AllocError, Global};
use thiserror::Error;
use toml::{Table, Value};

/// The configuration that holds where none is given.
pub const BUILT_IN: &str = "share = \"data\"
label = \"DATA\"
guid = \"000102030405060708090a0b0c0d0e0f\"
capacity = 67108864
created = 116444736000000000
hello = \"\"
guest = false

[[user]]
name = \"ann\"
token = \"61\"
";

/// The keys that a configuration has, all but `guest_readonly`, `signing`, `limits` and `user` required.
pub(crate) const KEYS: [&str; 11] = [
    "share",
    "label",
    "guid",
    "capacity",
    "created",
    "hello",
    "guest",
    "guest_readonly",
    "signing",
    "limits",
    "user",
];

/// The keys that a user has, all but `readonly` required.
pub(crate) const USER_KEYS: [&str; 3] = ["name", "token", "readonly"];

/// How many bytes a hello or a token has at most.
const TOKEN_LIMIT: usize = 4_096;

/// How many bytes a user's name has at most.
const NAME_LIMIT: usize = 256;

/// The least capacity that there is.
const LEAST_CAPACITY: u64 = 4_096;

/// Why a configuration is not taken.
#[derive(Clone, Copy, Debug, PartialEq, Eq, Error)]
pub enum ConfigFault {
    /// The file cannot be read, for this reason.
    #[error("the configuration cannot be read: {0}")]
    Unread(Reason),
    /// It breaks this rule, the first that it breaks.
    #[error("the configuration is refused: {0}")]
    Refused(ConfigRule),
    #[error("no memory")]
    NoMemory,
}

impl From<AllocError> for ConfigFault {
    fn from(_error: AllocError) -> ConfigFault {
        ConfigFault::NoMemory
    }
}

/// What a configuration file says: the share, and who may come in.
#[derive(Debug, Drop)]
pub struct Configuration {
    /// How much there may be of everything in the share.
    pub limits: Limits,
    /// The configuration of the share, which keeps its rules under these limits.
    pub config: Config,
    /// Whether guests may come.
    pub guest: bool,
    /// Whether guests may only read.
    pub guest_read_only: bool,
    /// How sessions of accounts are signed, where the text has the key `signing`.
    pub signing: Option<SigningMode>,
    /// How many users there are, each with a token.
    pub users: usize,
    /// Knows the users by their tokens, and lets guests in where they may come.
    pub authenticator: Tokens,
}

/// Whether a key is one of these.
pub(crate) fn is_known(key: &str, keys: &[&str]) -> bool {
    keys.iter().any(|known| *known == key)
}

/// Refuses a table with another key than these, by a rule.
pub(crate) fn only_keys(table: &Table, keys: &[&str], rule: ConfigRule) -> Result<(), ConfigFault> {
    if table.keys().all(|key| is_known(key.as_str(), keys)) {
        Ok(())
    } else {
        Err(ConfigFault::Refused(rule))
    }
}

/// The text under a key.
pub(crate) fn text<'a>(
    table: &'a Table,
    key: &str,
    rule: ConfigRule,
) -> Result<&'a str, ConfigFault> {
    table
        .get(key)
        .and_then(Value::as_str)
        .ok_or(ConfigFault::Refused(rule))
}

/// What is true or false under a key; false where there is no such key.
pub(crate) fn flag(table: &Table, key: &str, rule: ConfigRule) -> Result<bool, ConfigFault> {
    match table.get(key) {
        Some(value) => value.as_bool().ok_or(ConfigFault::Refused(rule)),
        None => Ok(false),
    }
}

/// The number under a key, 0 or more.
pub(crate) fn number(table: &Table, key: &str, rule: ConfigRule) -> Result<u64, ConfigFault> {
    let number = table
        .get(key)
        .and_then(Value::as_integer)
        .ok_or(ConfigFault::Refused(rule))?;
    u64::try_from(number).map_err(|_| ConfigFault::Refused(rule))
}

/// Why hex under a key of this rule was not read.
fn hex_fault(error: FromHexError, rule: ConfigRule) -> ConfigFault {
    match error {
        FromHexError::OutOfMemory => ConfigFault::NoMemory,
        _ => ConfigFault::Refused(rule),
    }
}

/// The bytes that the hex under a key spells, at most 4,096.
fn read_token(
    alloc: Global,
    table: &Table,
    key: &str,
    rule: ConfigRule,
) -> Result<Vec<u8>, ConfigFault>
    ensures { IfOk result (λ token. length token.items ≤ 4096) }
{
    let digits = text(table, key, rule)?;
    let token = match hex::decode(alloc, digits) {
        Ok(token) => token,
        Err(error) => return Err(hex_fault(error, rule)),
    };
    if token.len() > TOKEN_LIMIT {
        return Err(ConfigFault::Refused(rule));
    }
    Ok(token)
}

/// The 16 bytes that the hex under a key spells.
pub(crate) fn read_sixteen(
    table: &Table,
    key: &str,
    rule: ConfigRule,
) -> Result<[u8; 16], ConfigFault> {
    match <[u8; 16] as FromHex>::from_hex(text(table, key, rule)?) {
        Ok(bytes) => Ok(bytes),
        Err(error) => Err(hex_fault(error, rule)),
    }
}

/// The user of a number.
fn read_user(alloc: Global, number: usize, value: &Value) -> Result<User, ConfigFault>
    ensures { IfOk result (λ user. length user.name.items ≤ 256) }
{
    let table = value
        .as_table()
        .ok_or(ConfigFault::Refused(ConfigRule::Users))?;
    only_keys(table, &USER_KEYS, ConfigRule::UserKeys(number))?;
    let name = text(table, "name", ConfigRule::UserName(number))?.as_bytes();
    if name.is_empty() || name.len() > NAME_LIMIT {
        return Err(ConfigFault::Refused(ConfigRule::UserName(number)));
    }
    let token = read_token(alloc, table, "token", ConfigRule::UserToken(number))?;
    let read_only = flag(table, "readonly", ConfigRule::UserReadonly(number))?;
    let name = Vec::from_slice(alloc, name)?;
    Ok(User {
        name,
        token,
        read_only,
    })
}

/// Whether one of the users has this token.
fn is_taken(users: &[User], token: &[u8]) -> bool
    ensures { result ≡ list_any (λ user. bytes_eq token.now user.token.items) users.now }
{
    users.iter().any(|user| token == user.token.as_slice())
}

/// Adds a user with a token of its own. An error leaves the users as they were.
fn add_user(users: &mut Vec<User>, user: User) -> Result<(), ConfigFault>
    requires { list_any (λ other. bytes_eq user.token.items other.token.items) users.old.items ≡ false }
    ensures { OnOk result (users.new.items ≡ users.old.items ++ user ∷ []) }
{
    users.push(user).map_err(AllocError::from)?;
    Ok(())
}

/// The users, no two of them with one token. It takes time in proportion to the square of their number.
fn read_users(alloc: Global, table: &Table) -> Result<Vec<User>, ConfigFault>
    ensures names { IfOk result (λ users. AllByRecursion (λ user. length user.name.items ≤ 256) users.items) }
    ensures tokens { IfOk result (λ users. HaveOwnTokens (map known_user users.items)) }
{
    let mut users = Vec::new(alloc);
    let Some(value) = table.get("user") else {
        return Ok(users);
    };
    let values = value
        .as_array()
        .ok_or(ConfigFault::Refused(ConfigRule::Users))?;
    for value in values {
        let number = users.len().saturating_add(1);
        let user = read_user(alloc, number, value)?;
        if is_taken(&users, &user.token) {
            return Err(ConfigFault::Refused(ConfigRule::OwnTokens(number)));
        }
        add_user(&mut users, user)?;
    }
    Ok(users)
}

/// A configuration that keeps the rules of a share under its limits; where it does not, it was broken by what this rule is
/// about.
fn kept(limits: Limits, config: Config, rule: ConfigRule) -> Result<Config, ConfigFault>
    ensures kept { IfOk result (λ same. same ≡ config) }
    ensures lawful { IfOk result (λ same. is_lawful (settings_within limits same) ≡ true) }
{
    if config.is_lawful_within(limits) {
        Ok(config)
    } else {
        Err(ConfigFault::Refused(rule))
    }
}

/// What is said of the share. It is looked at after each key that has a rule, so that the first broken rule is found.
fn read_share(alloc: Global, limits: Limits, table: &Table) -> Result<Config, ConfigFault>
    ensures { IfOk result (λ config. is_lawful (settings_within limits config) ≡ true) }
{
    let share = String::from_str(alloc, text(table, "share", ConfigRule::Share)?)?;
    let config = Config {
        share,
        label: String::new(alloc),
        guid: [0; 16],
        capacity: LEAST_CAPACITY,
        created: 0,
    };
    let mut config = kept(limits, config, ConfigRule::Share)?;
    config.label = String::from_str(alloc, text(table, "label", ConfigRule::Label)?)?;
    let mut config = kept(limits, config, ConfigRule::Label)?;
    config.guid = read_sixteen(table, "guid", ConfigRule::Guid)?;
    config.capacity = number(table, "capacity", ConfigRule::Capacity)?;
    let mut config = kept(limits, config, ConfigRule::Capacity)?;
    config.created = number(table, "created", ConfigRule::Created)?;
    Ok(config)
}

/// How sessions of accounts are signed; None where the table does not say.
fn read_signing(table: &Table) -> Result<Option<SigningMode>, ConfigFault> {
    let Some(value) = table.get("signing") else {
        return Ok(None);
    };
    match value.as_str().and_then(signing_mode) {
        Some(mode) => Ok(Some(mode)),
        None => Err(ConfigFault::Refused(ConfigRule::Signing)),
    }
}

/// The number of the line in which a place of a text is, counted from 1.
fn line_at(document: &str, place: usize) -> usize {
    let lines = document.bytes().take(place).filter(|byte| *byte == b'\n');
    lines.count().saturating_add(1)
}

/// The table of a text.
pub(crate) fn read_table(alloc: Global, document: &str) -> Result<Table, ConfigFault> {
    match toml::table_from_str(alloc, document) {
        Ok(table) => Ok(table),
        Err(error) if error.is_memory() => Err(ConfigFault::NoMemory),
        Err(error) => {
            let line = error.span().map(|span| line_at(document, span.start));
            Err(ConfigFault::Refused(ConfigRule::Toml(line)))
        }
    }
}

/// How sessions of accounts are signed by a word.
pub fn signing_mode(word: &str) -> Option<SigningMode> {
    match word {
        "off" => Some(SigningMode::Off),
        "offered" => Some(SigningMode::Offered),
        "required" => Some(SigningMode::Required),
        _ => None,
    }
}

impl Configuration {
    /// Reads a configuration whole. Where it is Ok, the share's part of it keeps its rules under its limits
    /// ([`Config::is_lawful_within`]).
    /// Which rule is named where it is refused, and that no other text is, is tested.
    pub fn read(alloc: Global, document: &str) -> Result<Self, ConfigFault>
        ensures lawful { IfOk result (λ read. is_lawful (settings_within read.limits read.config) ≡ true) }
    {
        let table = read_table(alloc, document)?;
        only_keys(&table, &KEYS, ConfigRule::Keys)?;
        let limits = read_limits(&table)?;
        let config = read_share(alloc, limits, &table)?;
        let hello = read_token(alloc, &table, "hello", ConfigRule::Hello)?;
        let guest = table
            .get("guest")
            .and_then(Value::as_bool)
            .ok_or(ConfigFault::Refused(ConfigRule::Guest))?;
        let guest_read_only = flag(&table, "guest_readonly", ConfigRule::GuestReadonly)?;
        let signing = read_signing(&table)?;
        let list = read_users(alloc, &table)?;
        let users = list.len();
        let authenticator = Tokens::new(alloc, &hello, guest, guest_read_only, list)?;
        Ok(Configuration {
            limits,
            config,
            guest,
            guest_read_only,
            signing,
            users,
            authenticator,
        })
    }
}
