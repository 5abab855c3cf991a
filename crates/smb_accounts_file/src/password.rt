//! A password, read from an input.

use crate::fault::PasswordFault;
use smb_reason::Reason;
use std::alloc::Global;
use std::io;
use std::io::{ErrorKind, Read};

/// How many bytes a password has at most.
const LONGEST: usize = 4_096;

/// How many bytes an input is read to at most: a password, a line feed, and one byte more.
const MOST: usize = LONGEST + 2;

/// What a failed read is.
fn fault_of_read(error: io::Error) -> PasswordFault {
    match error.kind() {
        ErrorKind::OutOfMemory => PasswordFault::NoMemory,
        kind => PasswordFault::Unread(Reason(kind)),
    }
}

/// The bytes of an input, one more than there may be at most; where somebody types it, those of its first line.
fn bytes_of<R: Read>(
    alloc: Global,
    input: &mut R,
    is_typed: bool,
) -> Result<Vec<u8>, PasswordFault> {
    let mut bytes = Vec::new(alloc);
    let mut piece = [0u8; 256];
    for _ in 0..MOST {
        let count = match input.read(&mut piece) {
            Ok(count) => count,
            Err(error) if error.kind() == ErrorKind::Interrupted => continue,
            Err(error) => return Err(fault_of_read(error)),
        };
        bytes.extend_from_slice(&piece[..count])?;
        let has_line = is_typed && bytes.contains(&b'\n');
        if count == 0 || has_line || bytes.len() >= MOST {
            break;
        }
    }
    Ok(bytes)
}

/// The password that bytes spell, which are one line, with a line feed at its end or without.
fn password_in(bytes: &[u8]) -> Result<&str, PasswordFault> {
    if bytes.is_empty() {
        return Err(PasswordFault::Missing);
    }
    let Ok(text) = std::str::from_utf8(bytes) else {
        return Err(PasswordFault::NoText);
    };
    let line = text.strip_suffix('\n').unwrap_or(text);
    if line.is_empty() {
        Err(PasswordFault::Empty)
    } else if line.contains('\n') {
        Err(PasswordFault::SeveralLines)
    } else if line.len() > LONGEST {
        Err(PasswordFault::TooLong)
    } else {
        Ok(line)
    }
}

/// Reads a password, which is the one line of an input: UTF-8 of 1 to 4,096 bytes, with a line feed behind it or the
/// input's end. Where somebody types it (`is_typed`), nothing behind the line is waited for.
pub fn read_password<R: Read>(
    alloc: Global,
    input: &mut R,
    is_typed: bool,
) -> Result<String, PasswordFault> {
    let bytes = bytes_of(alloc, input, is_typed)?;
    Ok(String::from_str(alloc, password_in(&bytes)?)?)
}
