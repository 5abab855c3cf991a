//! Limits, as a first line names them.

use crate::text::number_of;
use smb_wire::limits::Limits;
use std::io;
use std::io::Write;

/// A limit that a first line may name.
#[derive(Clone, Copy)]
enum Named {
    Connections,
    Opens,
    Locks,
    Entries,
    FileBytes,
    Capacity,
}

/// All of them, in the order in which they are named.
const ALL: [Named; 6] = [
    Named::Connections,
    Named::Opens,
    Named::Locks,
    Named::Entries,
    Named::FileBytes,
    Named::Capacity,
];

impl Named {
    /// What is before its number.
    fn word(self) -> &'static str {
        match self {
            Named::Connections => " limits.connections=",
            Named::Opens => " limits.opens=",
            Named::Locks => " limits.locks=",
            Named::Entries => " limits.entries=",
            Named::FileBytes => " limits.file_bytes=",
            Named::Capacity => " limits.capacity=",
        }
    }

    /// Its number among limits.
    fn of(self, limits: Limits) -> u64 {
        match self {
            Named::Connections => limits.connections as u64,
            Named::Opens => limits.opens as u64,
            Named::Locks => limits.locks as u64,
            Named::Entries => limits.entries as u64,
            Named::FileBytes => limits.file_bytes,
            Named::Capacity => limits.capacity,
        }
    }

    /// Sets it among limits; false, and nothing changes, at a number that it may not be.
    fn set(self, limits: &mut Limits, number: u64) -> bool {
        match self {
            Named::Connections => limits.set_connections(number as usize),
            Named::Opens => limits.set_opens(number as usize),
            Named::Locks => limits.set_locks(number as usize),
            Named::Entries => limits.set_entries(number as usize),
            Named::FileBytes => limits.set_file_bytes(number),
            Named::Capacity => limits.set_capacity(number),
        }
    }

    /// Sets it where a text begins with its word, and gives what is behind; None where its number is none that it may be.
    fn read<'a>(self, limits: &mut Limits, text: &'a [u8]) -> Option<&'a [u8]> {
        let Some(text) = text.strip_prefix(self.word().as_bytes()) else {
            return Some(text);
        };
        let (digits, others) = up_to_blank(text);
        if self.set(limits, number_of(digits)?) {
            Some(others)
        } else {
            None
        }
    }
}

/// A text up to its first blank, and all from there on.
pub(crate) fn up_to_blank(text: &[u8]) -> (&[u8], &[u8]) {
    let end = text.iter().position(|byte| *byte == b' ');
    let end = end.unwrap_or(text.len());
    (
        text.get(..end).unwrap_or(&[]),
        text.get(end..).unwrap_or(&[]),
    )
}

/// Writes each of these limits that is not as by default: nothing where all are.
pub(crate) fn write_limits(limits: Limits, out: &mut Vec<u8>) -> io::Result<()> {
    for named in ALL {
        let number = named.of(limits);
        if number != named.of(Limits::profile()) {
            write!(out, "{}{number}", named.word())?;
        }
    }
    Ok(())
}

/// The limits that a text names in order; each that it does not name is as by default.
pub(crate) fn read_limits(text: &[u8]) -> Option<Limits> {
    let mut limits = Limits::profile();
    let mut text = text;
    for named in ALL {
        text = named.read(&mut limits, text)?;
    }
    text.is_empty().then_some(limits)
}
