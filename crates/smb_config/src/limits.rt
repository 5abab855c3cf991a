//! The limits of a share, as a configuration names them.

use crate::configuration::{ConfigFault, number, only_keys};
use crate::rule::ConfigRule;
use smb_wire::limits::Limits;
use toml::Table;

/// The keys that the table of limits has, none required.
pub(crate) const LIMIT_NAMES: [&str; 6] = [
    "connections",
    "opens",
    "locks",
    "entries",
    "file_bytes",
    "capacity",
];

/// The least bytes that a file, and that all files, may be let have.
const LEAST_BYTES: u64 = 4_096;

/// A limit that a configuration may name.
#[derive(Clone, Copy, Debug, PartialEq, Eq)]
pub enum LimitKey {
    Connections,
    Opens,
    Locks,
    Entries,
    FileBytes,
    Capacity,
}

/// All of them, in the order in which they are looked at.
const LIMIT_KEYS: [LimitKey; 6] = [
    LimitKey::Connections,
    LimitKey::Opens,
    LimitKey::Locks,
    LimitKey::Entries,
    LimitKey::FileBytes,
    LimitKey::Capacity,
];

impl LimitKey {
    /// The key in the table `[limits]`.
    pub(crate) fn name(self) -> &'static str {
        match self {
            LimitKey::Connections => "connections",
            LimitKey::Opens => "opens",
            LimitKey::Locks => "locks",
            LimitKey::Entries => "entries",
            LimitKey::FileBytes => "file_bytes",
            LimitKey::Capacity => "capacity",
        }
    }

    /// Sets this one of the limits; false, and nothing changes, at a number that it may not be.
    fn set(self, limits: &mut Limits, number: u64) -> bool {
        match self {
            LimitKey::Connections => limits.set_connections(number as usize),
            LimitKey::Opens => limits.set_opens(number as usize),
            LimitKey::Locks => limits.set_locks(number as usize),
            LimitKey::Entries => limits.set_entries(number as usize),
            LimitKey::FileBytes => number >= LEAST_BYTES && limits.set_file_bytes(number),
            LimitKey::Capacity => number >= LEAST_BYTES && limits.set_capacity(number),
        }
    }

    /// Sets this one of the limits where a table names it.
    fn read(self, table: &Table, limits: &mut Limits) -> Result<(), ConfigFault> {
        let rule = ConfigRule::OfLimit(self);
        if table.get(self.name()).is_none() {
            return Ok(());
        }
        let number = number(table, self.name(), rule)?;
        if self.set(limits, number) {
            Ok(())
        } else {
            Err(ConfigFault::Refused(rule))
        }
    }
}

/// The limits of a configuration; each that it does not name is as by default.
pub(crate) fn read_limits(table: &Table) -> Result<Limits, ConfigFault> {
    let mut limits = Limits::profile();
    let Some(value) = table.get("limits") else {
        return Ok(limits);
    };
    let named = value
        .as_table()
        .ok_or(ConfigFault::Refused(ConfigRule::Limits))?;
    only_keys(named, &LIMIT_NAMES, ConfigRule::LimitKeys)?;
    for key in LIMIT_KEYS {
        key.read(named, &mut limits)?;
    }
    Ok(limits)
}
