//! The input of a command.

use crate::fault::CommandFault;
use smb_config::read_past;
use std::alloc::Global;
use std::io::{ErrorKind, Read};

/// How many bytes of input are read at most.
pub const INPUT_LIMIT: u64 = 67_108_864;

/// The whole input, of at most [`INPUT_LIMIT`] bytes.
///
/// [`CommandFault::InputTooLong`] where it is longer, [`CommandFault::InputFailed`] where it cannot be read, and
/// [`CommandFault::NoMemory`].
pub fn read_input<R: Read + Drop>(alloc: Global, input: R) -> Result<Vec<u8>, CommandFault> {
    match read_past(alloc, input, INPUT_LIMIT) {
        Ok(text) if text.len() as u64 > INPUT_LIMIT => Err(CommandFault::InputTooLong),
        Ok(text) => Ok(text),
        Err(error) if error.kind() == ErrorKind::OutOfMemory => Err(CommandFault::NoMemory),
        Err(_) => Err(CommandFault::InputFailed),
    }
}
