//! The NT hash of a password.

use crate::fault::{CommandFault, Detail};
use crate::input::read_input;
use smb_journal::write_hex;
use smb_ntlm::nt_hash_of;
use std::alloc::Global;
use std::io;
use std::io::{Read, Write};

/// What is said of a password whose last character is one that nobody types.
const CARRIAGE_RETURN: &str =
    "the password ends in a carriage return, which is taken as a part of it; give it without where it is not meant";

/// The password in an input: its text, without one line feed at its end.
fn password_in(input: &[u8]) -> Result<&str, CommandFault> {
    match std::str::from_utf8(input) {
        Ok(text) => Ok(text.strip_suffix('\n').unwrap_or(text)),
        Err(_) => Err(CommandFault::InputUnreadable),
    }
}

/// Writes bytes as a line of hex.
fn write_line<W: Write>(bytes: &[u8], output: &mut W) -> io::Result<()> {
    write_hex(bytes, output)?;
    writeln!(output)?;
    output.flush()
}

/// Says of a password that a carriage return is a part of it, where it ends in one.
fn warn<E: Write>(password: &str, errors: &mut E) {
    if password.ends_with('\r') {
        let _ = writeln!(errors, "{CARRIAGE_RETURN}");
    }
}

/// Writes the hash of the password in an input.
fn write_hash<R: Read + Drop, W: Write, E: Write>(
    alloc: Global,
    input: R,
    output: &mut W,
    errors: &mut E,
) -> Result<(), CommandFault> {
    let text = read_input(alloc, input)?;
    let password = password_in(&text)?;
    warn(password, errors);
    let hash = nt_hash_of(alloc, password)?;
    write_line(&hash, output).map_err(|_| CommandFault::OutputFailed)
}

/// Writes the NT hash of a password ([MS-NLMP] 3.3.1, NTOWFv1) as 32 hex digits in lower case and a line feed, and
/// gives the exit status.
///
/// The input is the password in UTF-8, of which one line feed at the end is dropped. `errors` gets a warning where the password
/// then ends in a carriage return, which is hashed with the rest; and a fault: an input that fails, is too long or no text, an
/// output that fails, or want of memory. The status is 0, 1 for a fault, and 3 for want of memory.
pub fn hash_password<R: Read + Drop, W: Write, E: Write>(
    alloc: Global,
    input: R,
    output: &mut W,
    errors: &mut E,
) -> u8 {
    match write_hash(alloc, input, output, errors) {
        Ok(()) => 0,
        Err(fault) => fault.report(alloc, Detail::Brief, errors),
    }
}
