//! Why a file of accounts is not changed, in words that say what is to do.

use smb_config::ConfigRule;
use smb_reason::Reason;
use std::alloc::{AllocError, AllocFailed};
use std::io;
use std::io::ErrorKind;
use thiserror::Error;

/// Why a password is not taken.
#[derive(Clone, Copy, Debug, PartialEq, Eq, Error)]
pub enum PasswordFault {
    #[error("cannot be read: {0}; standard input is to be one line, the password")]
    Unread(Reason),
    /// Nothing came.
    #[error("none is there: standard input is to be one line, the password")]
    Missing,
    /// The line has no character.
    #[error("empty: standard input is to be one line, the password")]
    Empty,
    #[error("more than one line: standard input is to be one line, the password")]
    SeveralLines,
    #[error("no text: it is to be in UTF-8")]
    NoText,
    #[error("longer than 4096 bytes: give a shorter one")]
    TooLong,
    #[error("no memory")]
    NoMemory,
}

/// Why a file of accounts is not changed or not listed. The words go behind the file's name.
#[derive(Debug, Drop, Error)]
pub enum AccountsFault {
    /// The file is not there, and the change makes none.
    #[error("no such file: `account add` makes it")]
    NoFile,
    #[error("cannot be read: {0}; name a file that you may read")]
    Unread(Reason),
    /// Somebody besides its owner has a right to it.
    #[error("refused: others have rights to it, and must have none (chmod 600)")]
    Mode,
    /// The text breaks this rule, which is followed by the place.
    #[error("refused, and to be mended by hand: {0}")]
    Refused(String),
    /// Another program changes it.
    #[error("in use: another program changes it, try again")]
    InUse,
    /// The file that the new text is written to first is there already.
    #[error("not changed: {0} is there, of a change that was cut off or another program; look at it, and remove it")]
    Left(String),
    #[error("cannot be made: {0}; name a file in a folder that you may write to")]
    Unmade(Reason),
    #[error("not changed, since the new file cannot be written: {0}; mend that, and try again")]
    Unwritten(Reason),
    /// It has its new text; only that this is on the disk is not known.
    #[error("changed, but maybe not yet on the disk: {0}; `account list` shows what it has")]
    Unsettled(Reason),
    /// The name of an account that is to be added breaks this rule.
    #[error("not changed: {0}")]
    Name(ConfigRule),
    #[error("not changed: it has an account of this name, in any case (`account password` gives it another password)")]
    Taken,
    #[error("not changed: it has no account of this name (`account list` prints those that it has)")]
    Unknown,
    /// The tables are not where the lines say that they are, or their hash is not.
    #[error("not changed: each account is to be a table [[account]], with its `nt_hash` in a line; change it by hand")]
    Layout,
    #[error("not changed: it would have more than 1048576 bytes; remove other accounts first")]
    Full,
    #[error("no memory")]
    NoMemory,
}

impl AccountsFault {
    /// What a failed opening or read is.
    pub(crate) fn of_read(error: io::Error) -> AccountsFault {
        match error.kind() {
            ErrorKind::OutOfMemory => AccountsFault::NoMemory,
            kind => AccountsFault::Unread(Reason(kind)),
        }
    }

    /// What a failed making of the file is.
    pub(crate) fn of_making(error: io::Error) -> AccountsFault {
        match error.kind() {
            ErrorKind::OutOfMemory => AccountsFault::NoMemory,
            kind => AccountsFault::Unmade(Reason(kind)),
        }
    }

    /// What a failed write of the new file is.
    pub(crate) fn of_write(error: io::Error) -> AccountsFault {
        match error.kind() {
            ErrorKind::OutOfMemory => AccountsFault::NoMemory,
            kind => AccountsFault::Unwritten(Reason(kind)),
        }
    }
}

impl From<AllocError> for AccountsFault {
    fn from(_error: AllocError) -> AccountsFault {
        AccountsFault::NoMemory
    }
}

impl<T: Drop> From<AllocFailed<T>> for AccountsFault {
    fn from(_error: AllocFailed<T>) -> AccountsFault {
        AccountsFault::NoMemory
    }
}

impl From<AllocError> for PasswordFault {
    fn from(_error: AllocError) -> PasswordFault {
        PasswordFault::NoMemory
    }
}
