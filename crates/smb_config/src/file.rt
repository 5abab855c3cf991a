//! A configuration's file.

use crate::configuration::ConfigFault;
use crate::rule::ConfigRule;
use smb_reason::Reason;
use std::alloc::Global;
use std::io;
use std::io::{ErrorKind, Read};

/// How many bytes a configuration has at most.
pub const CONFIG_LIMIT: u64 = 1_048_576;

/// The first bytes of a file, at most one more than the limit.
pub fn read_past<R: Read + Drop>(alloc: Global, file: R, limit: u64) -> io::Result<Vec<u8>> {
    let mut bytes = Vec::new(alloc);
    file.take(limit.saturating_add(1)).read_to_end(&mut bytes)?;
    Ok(bytes)
}

impl From<ErrorKind> for ConfigFault {
    fn from(kind: ErrorKind) -> ConfigFault {
        match kind {
            ErrorKind::OutOfMemory => ConfigFault::NoMemory,
            _ => ConfigFault::Unread(Reason(kind)),
        }
    }
}

/// The text of a configuration: UTF-8, at most [`CONFIG_LIMIT`] bytes, and no more than one byte behind them is read.
///
/// # Errors
/// [`ConfigFault::Unread`] where a read fails, [`ConfigFault::Refused`] where the file is longer or no text, and
/// [`ConfigFault::NoMemory`].
pub fn read_config<R: Read + Drop>(alloc: Global, file: R) -> Result<String, ConfigFault> {
    let bytes = match read_past(alloc, file, CONFIG_LIMIT) {
        Ok(bytes) => bytes,
        Err(error) => return Err(ConfigFault::from(error.kind())),
    };
    if bytes.len() as u64 > CONFIG_LIMIT {
        return Err(ConfigFault::Refused(ConfigRule::Size));
    }
    match std::str::from_utf8(&bytes) {
        Ok(text) => Ok(String::from_str(alloc, text)?),
        Err(_) => Err(ConfigFault::Refused(ConfigRule::Text)),
    }
}
