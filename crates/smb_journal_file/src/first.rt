//! The first line of a journal.

use smb_reason::Reason;
use std::alloc::{AllocError, Global};
use std::fs::File;
use std::io::{ErrorKind, Write};
use std::os::unix::fs::FileExt;

/// The first line, with 0 for each digit of its numbers, which are of base 16: the seed of the first batch, and how
/// many bytes are behind the line at least. A file that has fewer is a part of a journal that was written anew.
pub const FIRST_LINE: &[u8] = b"# smbshare journal 3 0000000000000000 0000000000000000\n";

/// That of the version before, which has the seed alone.
pub const FIRST_LINE_BEFORE: &[u8] = b"# smbshare journal 2 0000000000000000\n";

/// Where the seed begins.
pub const SEED_AT: usize = 21;

/// Where the number of bytes begins.
pub const LEAST_AT: usize = 38;

/// How many digits a number has.
pub const DIGITS: usize = 16;

/// The first line of a journal whose first batch has this seed, and which has `least` bytes behind the line at least.
pub fn first_line(alloc: Global, seed: u64, least: u64) -> Result<Vec<u8>, AllocError> {
    let mut line = Vec::with_capacity(alloc, FIRST_LINE.len())?;
    match write!(line, "# smbshare journal 3 {seed:016x} {least:016x}\n") {
        Ok(()) => Ok(line),
        Err(_) => Err(AllocError),
    }
}

/// Writes into the first line of a journal that it has `least` bytes behind the line at least, and waits until this
/// lasts. The file is open to be written at any place.
pub(crate) fn write_least(alloc: Global, file: &File, least: u64) -> Result<(), Reason> {
    let Ok(digits) = format!(in alloc; "{least:016x}") else {
        return Err(Reason(ErrorKind::OutOfMemory));
    };
    if let Err(error) = file.write_all_at(digits.as_bytes(), LEAST_AT as u64) {
        return Err(Reason(error.kind()));
    }
    match file.sync_data() {
        Ok(()) => Ok(()),
        Err(error) => Err(Reason(error.kind())),
    }
}
