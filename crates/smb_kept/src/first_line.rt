//! The first line of a journal.

use crate::fault::KeptFault;
use crate::files::{fault_of_read, fault_of_write};
use crate::journal::{FileFault, JournalWords};
use smb_journal_file::{DIGITS, FIRST_LINE, FIRST_LINE_BEFORE, LEAST_AT, SEED_AT, first_line};
use std::alloc::Global;
use std::fs::File;
use std::io::{Read, Write};

/// What the first line of every version begins with.
const ANY_VERSION: &[u8] = b"# smbshare journal ";

/// What that of an older version begins with.
const OLDER: &[u8] = b"# smbshare changes 1 ";

/// What the first line of a journal of events begins with.
const OF_EVENTS: &[u8] = b"# smbshare journal 1 ";

/// What the first line of a journal says.
#[derive(Clone, Copy, Debug)]
pub(crate) struct FirstLine {
    /// The seed of the first batch.
    pub(crate) seed: u64,
    /// How many bytes the line has.
    pub(crate) length: u64,
    /// How many bytes are behind it at least.
    pub(crate) least: u64,
}

impl FirstLine {
    /// That of a journal which begins empty.
    pub(crate) fn new(seed: u64) -> FirstLine {
        FirstLine {
            seed,
            length: FIRST_LINE.len() as u64,
            least: 0,
        }
    }

    /// What a first line says; None where it is none that is whole.
    pub(crate) fn of(line: &[u8]) -> Option<FirstLine> {
        let least = if is_like(line, FIRST_LINE) {
            number_at(line, LEAST_AT)?
        } else if is_like(line, FIRST_LINE_BEFORE) {
            0
        } else {
            return None;
        };
        Some(FirstLine {
            seed: number_at(line, SEED_AT)?,
            length: line.len() as u64,
            least,
        })
    }

    /// Refuses a journal of which only this number of bytes are there, behind the line, where it has to have more.
    pub(crate) fn check_size(&self, there: u64) -> Result<(), KeptFault> {
        if there >= self.least {
            return Ok(());
        }
        Err(KeptFault::File(FileFault::BrokenOff {
            missing: self.least.saturating_sub(there),
            wanted: self.least.saturating_add(self.length),
        }))
    }

    /// The same of a file that has the line.
    pub(crate) fn check_file(&self, file: &File) -> Result<(), KeptFault> {
        let found = file.metadata().map_err(fault_of_read)?;
        self.check_size(found.len().saturating_sub(self.length))
    }
}

/// Whether a byte is a digit of base 16, as it is written.
fn is_digit(byte: u8) -> bool {
    matches!(byte, b'0'..=b'9' | b'a'..=b'f')
}

/// The number in a line whose digits begin at a place.
fn number_at(line: &[u8], place: usize) -> Option<u64> {
    let digits = line.get(place..place.checked_add(DIGITS)?)?;
    let text = str::from_utf8(digits).ok()?;
    u64::from_str_radix(text, 16).ok()
}

/// Whether a byte is the one that is wanted, or a digit where that is 0.
fn is_as_wanted(byte: u8, wanted: u8) -> bool {
    byte == wanted || (wanted == b'0' && is_digit(byte))
}

/// Whether a line begins as a first line does, which is given with 0 for each digit.
fn begins_like(line: &[u8], whole: &[u8]) -> bool {
    line.iter()
        .zip(whole)
        .all(|(byte, wanted)| is_as_wanted(*byte, *wanted))
}

/// Whether a line is such a first line.
fn is_like(line: &[u8], whole: &[u8]) -> bool {
    line.len() == whole.len() && begins_like(line, whole)
}

/// Whether a line is the beginning of such a first line, and not all of it.
fn is_part_of(line: &[u8], whole: &[u8]) -> bool {
    line.len() < whole.len() && begins_like(line, whole)
}

/// Whether a file has nothing but the beginning of a first line: the program was ended before it was written.
pub(crate) fn is_begun(line: &[u8]) -> bool {
    is_part_of(line, FIRST_LINE) || is_part_of(line, FIRST_LINE_BEFORE)
}

/// Whether a file that begins like this is a journal, or the beginning of one.
pub(crate) fn is_journal(line: &[u8]) -> bool {
    !line.is_empty() && (is_begun(line) || FirstLine::of(line).is_some())
}

/// Why a file with this first line is not taken as a journal.
pub(crate) fn refused(line: &[u8]) -> FileFault {
    if line.starts_with(OF_EVENTS) {
        FileFault::OfEvents
    } else if line.starts_with(ANY_VERSION) || line.starts_with(OLDER) {
        FileFault::OtherVersion
    } else {
        FileFault::NoJournal
    }
}

/// The first bytes of a file: its first line, or as many as one has where that is longer, or all of it.
pub(crate) fn read_first(alloc: Global, file: &mut File) -> Result<Vec<u8>, KeptFault> {
    let mut line = Vec::with_capacity(alloc, FIRST_LINE.len())?;
    let mut byte = [0];
    for _ in 0..FIRST_LINE.len() {
        match file.read(&mut byte) {
            Ok(0) => return Ok(line),
            Ok(_) => line.extend_from_slice(&byte)?,
            Err(error) => return Err(fault_of_read(error)),
        }
        if byte == [b'\n'] {
            return Ok(line);
        }
    }
    Ok(line)
}

/// Writes the first line of a file that has nothing, and gives what it says.
pub(crate) fn write_first(
    alloc: Global,
    file: &mut File,
    words: JournalWords<'_>,
    seed: u64,
) -> Result<FirstLine, KeptFault> {
    let line = first_line(alloc, seed, 0)?;
    file.write_all(&line).map_err(fault_of_write)?;
    if words.settles {
        file.sync_data().map_err(fault_of_write)?;
    }
    Ok(FirstLine::new(seed))
}
