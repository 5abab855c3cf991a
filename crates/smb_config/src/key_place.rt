//! Where a configuration or a file of accounts breaks a rule: the line of the key, and what is there.

use crate::accounts::{ACCOUNT_KEYS, ACCOUNTS_KEYS};
use crate::configuration::{BUILT_IN, KEYS, USER_KEYS, is_known};
use crate::limits::LIMIT_NAMES;
use crate::rule::ConfigRule;
use smb_ntlm::AccountFault;
use std::alloc::Global;
use std::io;
use std::io::Write;
use toml::{Table, Value};

/// How many characters of a value are shown at most.
const SHOWN: usize = 60;

/// How many lines are looked at closely at most.
const MOST_LOOKS: usize = 16;

/// The key of the table of limits, and the name in its header.
const LIMITS: &str = "limits";

/// A list of tables, of which each begins with a header.
#[derive(Clone, Copy, PartialEq, Eq)]
enum List {
    Users,
    Accounts,
}

impl List {
    /// The name in the header, which is also the list's key.
    fn name(self) -> &'static str {
        match self {
            List::Users => "user",
            List::Accounts => "account",
        }
    }
}

/// A part of a text.
#[derive(Clone, Copy, PartialEq, Eq)]
enum Section {
    /// The keys of a configuration before the first header.
    Share,
    /// The keys of its table of limits.
    Limits,
    /// Those of a file of accounts.
    Accounts,
    /// The keys of the table of this number in a list, counted from 1.
    Entry(List, usize),
}

impl Section {
    /// The keys that it may have.
    fn known_keys(self) -> &'static [&'static str] {
        match self {
            Section::Share => &KEYS,
            Section::Limits => &LIMIT_NAMES,
            Section::Accounts => &ACCOUNTS_KEYS,
            Section::Entry(List::Users, _) => &USER_KEYS,
            Section::Entry(List::Accounts, _) => &ACCOUNT_KEYS,
        }
    }

    /// Whether its keys are those before the first header.
    fn is_first(self) -> bool {
        match self {
            Section::Share | Section::Accounts => true,
            Section::Limits | Section::Entry(_, _) => false,
        }
    }

    /// Whether the name of a key that is not known is shown. Of accounts it is not: it may be a hash.
    fn shows_unknown(self) -> bool {
        match self {
            Section::Share | Section::Limits | Section::Entry(List::Users, _) => true,
            Section::Accounts | Section::Entry(List::Accounts, _) => false,
        }
    }

    /// Whether the value of a key is shown: none in which a token or a hash may be.
    fn shows(self, key: &str, value: &Value) -> bool {
        match self {
            Section::Share => key != List::Users.name(),
            Section::Limits => true,
            Section::Accounts => false,
            Section::Entry(_, _) => key == "name" && value.is_str(),
        }
    }
}

/// A key in its line: the line's number, counted from 1, and the text behind the equals sign.
#[derive(Clone, Copy)]
struct Place<'a> {
    line: usize,
    value: &'a str,
}

/// A key as it is written, without blanks and quotes around it.
fn bare(key: &str) -> &str {
    key.trim().trim_matches('"').trim_matches('\'')
}

/// The text behind the equals sign of a line that gives this key a value.
fn value_of<'a>(line: &'a str, key: &str) -> Option<&'a str> {
    let (name, value) = line.split_once('=')?;
    if bare(name) == key {
        Some(value.trim())
    } else {
        None
    }
}

/// Whether a line is the header of a table of a list.
fn begins_entry(line: &str, list: List) -> bool {
    let name = line
        .strip_prefix("[[")
        .and_then(|name| name.split_once("]]"));
    match name {
        Some((name, _)) => bare(name) == list.name(),
        None => false,
    }
}

/// Whether a line is the header of the table of limits.
fn begins_limits(line: &str) -> bool {
    let name = line.strip_prefix('[').and_then(|name| name.split_once(']'));
    match name {
        Some((name, _)) => bare(name) == LIMITS,
        None => false,
    }
}

/// Goes on behind a line: whether the next one is of the section, and how many tables of its list have begun.
fn go_on(line: &str, section: Section, is_within: &mut bool, begun: &mut usize) {
    let line = line.trim();
    match section {
        Section::Entry(list, number) if begins_entry(line, list) => {
            *begun = begun.saturating_add(1);
            *is_within = *begun == number;
        }
        Section::Limits if begins_limits(line) => *is_within = true,
        _ if line.starts_with('[') => *is_within = false,
        _ => {}
    }
}

/// Whether the text before a place is a configuration by itself, so that what follows is no part of a value.
fn is_whole(alloc: Global, document: &str, place: usize) -> bool {
    match document.as_bytes().get(..place) {
        Some(front) => toml::table_from_slice(alloc, front).is_ok(),
        None => false,
    }
}

/// Where a key of a section has its value, where it has a line of its own.
fn place_of<'a>(
    alloc: Global,
    document: &'a str,
    section: Section,
    key: &str,
) -> Option<Place<'a>> {
    let (mut is_within, mut begun) = (section.is_first(), 0usize);
    let (mut begin, mut looks) = (0usize, 0usize);
    for (above, line) in document.split('\n').enumerate() {
        if is_within && looks < MOST_LOOKS {
            if let Some(value) = value_of(line, key) {
                looks += 1;
                if is_whole(alloc, document, begin) {
                    let line = above.saturating_add(1);
                    return Some(Place { line, value });
                }
            }
        }
        go_on(line, section, &mut is_within, &mut begun);
        begin = begin.saturating_add(line.len()).saturating_add(1);
    }
    None
}

/// Writes a text of the configuration, cut at 60 characters, without control characters.
fn write_shown<W: Write>(text: &str, output: &mut W) -> io::Result<()> {
    for character in text.chars().take(SHOWN) {
        if character.is_control() {
            write!(output, "?")?;
        } else {
            write!(output, "{character}")?;
        }
    }
    if text.chars().count() > SHOWN {
        write!(output, "..")?;
    }
    Ok(())
}

/// Writes the value of a line, without the comment behind it.
fn write_value<W: Write>(value: &str, output: &mut W) -> io::Result<()> {
    for quote in ['"', '\''] {
        let inside = value
            .strip_prefix(quote)
            .and_then(|rest| rest.split_once(quote));
        if let Some((inside, _)) = inside {
            write!(output, "{quote}")?;
            write_shown(inside, output)?;
            return write!(output, "{quote}");
        }
    }
    match value.split_once('#') {
        Some((value, _)) => write_shown(value.trim(), output),
        None => write_shown(value, output),
    }
}

/// The table of a section.
fn table_of(table: &Table, section: Section) -> Option<&Table> {
    match section {
        Section::Share | Section::Accounts => Some(table),
        Section::Limits => table.get(LIMITS).and_then(Value::as_table),
        Section::Entry(list, number) => {
            let entries = table.get(list.name()).and_then(Value::as_array)?;
            entries
                .get(number.saturating_sub(1))
                .and_then(Value::as_table)
        }
    }
}

/// Writes which key is not known, and where it is.
fn write_unknown<W: Write>(
    alloc: Global,
    document: &str,
    section: Section,
    table: &Table,
    output: &mut W,
) -> io::Result<()> {
    let known = section.known_keys();
    let Some(key) = table.keys().find(|key| !is_known(key.as_str(), known)) else {
        return Ok(());
    };
    match place_of(alloc, document, section, key.as_str()) {
        Some(place) => write!(output, "; line {}", place.line)?,
        None if section.shows_unknown() => write!(output, "; here")?,
        None => {}
    }
    if section.shows_unknown() {
        write!(output, ": ")?;
        write_shown(key.as_str(), output)?;
    }
    Ok(())
}

/// Writes where a key is, and with what value; or that it is missing, and the value that it has where nothing else is wanted.
fn write_key<W: Write>(
    alloc: Global,
    document: &str,
    section: Section,
    key: &str,
    table: &Table,
    output: &mut W,
) -> io::Result<()> {
    let Some(found) = table.get(key) else {
        let usual = match section {
            Section::Share => place_of(alloc, BUILT_IN, section, key),
            Section::Limits | Section::Accounts | Section::Entry(_, _) => None,
        };
        return match usual {
            Some(usual) => write!(output, "; missing, usually: {key} = {}", usual.value),
            None => write!(output, "; missing"),
        };
    };
    let Some(place) = place_of(alloc, document, section, key) else {
        return Ok(());
    };
    write!(output, "; line {}", place.line)?;
    if section.shows(key, found) {
        write!(output, ": ")?;
        write_value(place.value, output)?;
    }
    Ok(())
}

/// The number of the account that a fault is about, counted from 1.
fn number_of(fault: AccountFault) -> usize {
    match fault {
        AccountFault::NameLength(place)
        | AccountFault::NameCharacter(place)
        | AccountFault::NameIsGuest(place)
        | AccountFault::NameTaken(place) => place.saturating_add(1),
    }
}

/// The section of the user of a number.
fn user(number: usize) -> Section {
    Section::Entry(List::Users, number)
}

/// The section of the account of a number.
fn account(number: usize) -> Section {
    Section::Entry(List::Accounts, number)
}

/// The same as [`subject_of`], of the rules of a file of accounts.
fn account_subject_of(rule: ConfigRule) -> Option<(Section, Option<&'static str>)> {
    match rule {
        ConfigRule::AccountsKeys => Some((Section::Accounts, None)),
        ConfigRule::Accounts => Some((Section::Accounts, Some("account"))),
        ConfigRule::AccountKeys(number) => Some((account(number), None)),
        ConfigRule::AccountName(number) => Some((account(number), Some("name"))),
        ConfigRule::AccountHash(number) => Some((account(number), Some("nt_hash"))),
        ConfigRule::AccountReadonly(number) => Some((account(number), Some("readonly"))),
        ConfigRule::OfAccount(fault) => Some((account(number_of(fault)), Some("name"))),
        _ => None,
    }
}

/// The section and the key that a rule is about; no key where it is about which keys there are. None where it is about the
/// whole file.
fn subject_of(rule: ConfigRule) -> Option<(Section, Option<&'static str>)> {
    match rule {
        ConfigRule::Size | ConfigRule::Text | ConfigRule::Toml(_) | ConfigRule::Mode => None,
        ConfigRule::Keys => Some((Section::Share, None)),
        ConfigRule::Limits => Some((Section::Share, Some(LIMITS))),
        ConfigRule::LimitKeys => Some((Section::Limits, None)),
        ConfigRule::OfLimit(key) => Some((Section::Limits, Some(key.name()))),
        ConfigRule::Share => Some((Section::Share, Some("share"))),
        ConfigRule::Label => Some((Section::Share, Some("label"))),
        ConfigRule::Guid => Some((Section::Share, Some("guid"))),
        ConfigRule::Capacity => Some((Section::Share, Some("capacity"))),
        ConfigRule::Created => Some((Section::Share, Some("created"))),
        ConfigRule::Hello => Some((Section::Share, Some("hello"))),
        ConfigRule::Guest => Some((Section::Share, Some("guest"))),
        ConfigRule::GuestReadonly => Some((Section::Share, Some("guest_readonly"))),
        ConfigRule::Signing | ConfigRule::SigningUnused => Some((Section::Share, Some("signing"))),
        ConfigRule::Users => Some((Section::Share, Some("user"))),
        ConfigRule::UserKeys(number) => Some((user(number), None)),
        ConfigRule::UserName(number) => Some((user(number), Some("name"))),
        ConfigRule::UserToken(number) | ConfigRule::OwnTokens(number) => {
            Some((user(number), Some("token")))
        }
        ConfigRule::UserReadonly(number) => Some((user(number), Some("readonly"))),
        _ => account_subject_of(rule),
    }
}

/// Writes, behind a rule, where a text breaks it, and the value that was found; of a token, of a hash and of a key of
/// accounts that is not known the place alone. Nothing where the place cannot be found. Each line that may have the key
/// is looked at by a reading of all before it, at most 16.
pub fn write_place<W: Write>(
    alloc: Global,
    document: &str,
    rule: ConfigRule,
    output: &mut W,
) -> io::Result<()> {
    if let ConfigRule::Toml(Some(line)) = rule {
        return write!(output, "; line {line}");
    }
    let Some((section, key)) = subject_of(rule) else {
        return Ok(());
    };
    let Ok(whole) = toml::table_from_str(alloc, document) else {
        return Ok(());
    };
    let Some(table) = table_of(&whole, section) else {
        return Ok(());
    };
    if let Section::Entry(list, number) = section {
        write!(output, "; {} {number}", list.name())?;
    }
    match key {
        Some(key) => write_key(alloc, document, section, key, table, output),
        None => write_unknown(alloc, document, section, table, output),
    }
}
