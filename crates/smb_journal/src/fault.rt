//! Why a recording is not read, performed or written.

use smb_reason::Reason;
use std::alloc::{AllocError, AllocFailed};
use std::io;
use std::io::ErrorKind;
use thiserror::Error;

/// A refusal of a recording. Lines are counted from 1; the bytes behind the head of a piece are no lines of their own.
#[derive(Clone, Copy, Debug, PartialEq, Eq, Error)]
pub enum JournalFault {
    /// It cannot be opened or read, for this reason.
    #[error("cannot be read: {0}; name a file that you may read")]
    Unread(Reason),
    /// It cannot be made or written, for this reason.
    #[error("cannot be written: {0}")]
    Unwritten(Reason),
    /// Another program writes to it.
    #[error("in use by another program: end that one, or name another file")]
    InUse,
    /// It is there already, and was to be made.
    #[error("it exists already, so no folder can be put into it: leave --from out, or name another file")]
    Exists,
    /// It has to be read twice, and what is read as standard input is no file.
    #[error("standard input is no file: give the recording by <")]
    NoFile,
    /// It does not begin with the line that a recording begins with.
    #[error("no recording: its first line is not that of one; name a file that --record made")]
    NoRecording,
    /// The line of this number can't be read, and others are behind it.
    #[error("line {0}: unreadable: take a back-up of it")]
    Unreadable(u64),
    /// The line of this number does not have the bytes that were written.
    #[error("line {0}: changed since it was written: take a back-up of it")]
    Changed(u64),
    /// The event of this line is not one that the share can take.
    #[error("line {0}: no event that can happen here: take a back-up of it")]
    BadEvent(u64),
    #[error("no memory")]
    NoMemory,
}

impl JournalFault {
    /// What a failed opening or read is.
    pub fn of_read(error: io::Error) -> JournalFault {
        match error.kind() {
            ErrorKind::OutOfMemory => JournalFault::NoMemory,
            kind => JournalFault::Unread(Reason(kind)),
        }
    }

    /// What a failed making or write is.
    pub fn of_write(error: io::Error) -> JournalFault {
        match error.kind() {
            ErrorKind::OutOfMemory => JournalFault::NoMemory,
            kind => JournalFault::Unwritten(Reason(kind)),
        }
    }
}

impl<T: Drop> From<AllocFailed<T>> for JournalFault {
    fn from(_error: AllocFailed<T>) -> JournalFault {
        JournalFault::NoMemory
    }
}

impl From<AllocError> for JournalFault {
    fn from(_error: AllocError) -> JournalFault {
        JournalFault::NoMemory
    }
}
