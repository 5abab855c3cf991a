//! Why files cannot be moved.

use super::grouped::Grouped;
use super::names::shown;
use smb_client::{ClientFault, Status};
use smb_reason::Reason;
use std::alloc::{AllocError, AllocFailed, Global};
use std::io;
use std::io::ErrorKind;
use thiserror::Error;

/// A rule that a file or a folder breaks which is to be moved.
#[derive(Clone, Copy, Debug, PartialEq, Eq, Error)]
pub enum FolderRule {
    /// A name of the system is not UTF-8, or one of the share has a surrogate alone.
    #[error("not a name in Unicode: rename it")]
    NotUnicode,
    /// The profile's rules of names refuse it (docs/PROFILE.md, "Names and paths").
    #[error("not a name that the share takes: rename it")]
    NotForTheShare,
    /// A name of the share that is no name of a file.
    #[error("not a name that a folder takes")]
    NotForTheFolder,
    #[error("another name differs from it in case alone: rename one of both")]
    SameName,
    #[error("more than 32 names in its path: move it up")]
    TooDeep,
    /// Longer than the share's limits let a file be: so many bytes.
    #[error("longer than {0} bytes: raise limits.file_bytes, or leave it out")]
    TooLong(Grouped),
    #[error("no room in the share: raise capacity, or leave it out")]
    NoRoom,
    /// One more than the share's limits let there be.
    #[error("more than {0} files and folders: raise limits.entries, or leave it out")]
    TooMany(Grouped),
    #[error("a symbolic link, which is not followed: take it out of the folder")]
    SymbolicLink,
    /// A socket, a pipe or a device.
    #[error("neither a file nor a folder: take it out of the folder")]
    Special,
    /// It was made longer or shorter, was written, or gave way to another one.
    #[error("it changed while it was read: try again while nobody writes there")]
    Changed,
    #[error("it exists already: name a new folder")]
    Exists,
    /// The list beside a folder, where a new one would come.
    #[error("a list of attributes exists already: take it away, or name another folder")]
    ListExists,
    /// A file that has the name of a list beside a folder.
    #[error("no list of attributes, though it has the name of one: give it another name")]
    NoList,
    #[error("a list of attributes of another version: take it away, or serve the folder with the program that made it")]
    OtherList,
    /// A line of a list, by its number.
    #[error("line {0} is damaged: take a back-up of it, or take the line away")]
    BadLine(Grouped),
    #[error("has more lines than the share has room for files and folders: raise limits.entries, or take lines away")]
    ListTooLong,
    /// The system does not let it be read, for this reason.
    #[error("cannot be read: {0}")]
    Unread(Reason),
    /// The system does not let it be made or written, for this reason.
    #[error("cannot be written: {0}")]
    Unwritten(Reason),
    /// The share refuses a request of it, for another reason.
    #[error("the share answers {0}")]
    Refused(Status),
    #[error("the share's answer cannot be read")]
    Unanswered,
    /// The client cannot ask, or not be heard.
    #[error("{0}")]
    NotAsked(ClientFault),
}

/// Why the files of a folder or a share cannot be moved.
#[derive(Debug, Drop, Error)]
pub enum FolderFault {
    /// Memory could not be had, by the caller or by the share.
    #[error("no memory")]
    NoMemory,
    /// What is at a path breaks a rule. The path begins with the folder's own, and its control characters are escaped.
    #[error("{path}: {rule}")]
    Refused { path: String, rule: FolderRule },
}

/// What stops a step; whose path it is the caller knows.
#[derive(Clone, Copy, PartialEq, Eq)]
pub(crate) enum Trouble {
    NoMemory,
    Rule(FolderRule),
}

impl From<AllocError> for FolderFault {
    fn from(_error: AllocError) -> FolderFault {
        FolderFault::NoMemory
    }
}

impl From<AllocError> for Trouble {
    fn from(_error: AllocError) -> Trouble {
        Trouble::NoMemory
    }
}

impl<T: Drop> From<AllocFailed<T>> for Trouble {
    fn from(_error: AllocFailed<T>) -> Trouble {
        Trouble::NoMemory
    }
}

impl From<FolderRule> for Trouble {
    fn from(rule: FolderRule) -> Trouble {
        Trouble::Rule(rule)
    }
}

impl From<ClientFault> for Trouble {
    fn from(fault: ClientFault) -> Trouble {
        match fault {
            ClientFault::NoMemory => Trouble::NoMemory,
            other => Trouble::Rule(FolderRule::NotAsked(other)),
        }
    }
}

impl Trouble {
    /// Whether nothing more can be done behind it: memory could not be had, or the share hears nothing more.
    pub(crate) fn is_the_end(self) -> bool {
        matches!(
            self,
            Trouble::NoMemory | Trouble::Rule(FolderRule::NotAsked(_) | FolderRule::Unanswered)
        )
    }

    /// What a refusal of the system to read is.
    pub(crate) fn unread(error: io::Error) -> Trouble {
        match error.kind() {
            ErrorKind::OutOfMemory => Trouble::NoMemory,
            kind => Trouble::Rule(FolderRule::Unread(Reason(kind))),
        }
    }

    /// What a refusal of the system to make or to write is.
    pub(crate) fn unwritten(error: io::Error) -> Trouble {
        match error.kind() {
            ErrorKind::OutOfMemory => Trouble::NoMemory,
            ErrorKind::AlreadyExists => Trouble::Rule(FolderRule::Exists),
            kind => Trouble::Rule(FolderRule::Unwritten(Reason(kind))),
        }
    }

    /// The fault of what is at a path below a folder.
    pub(crate) fn at(self, alloc: Global, base: &str, relative: &[u8]) -> FolderFault {
        match self {
            Trouble::NoMemory => FolderFault::NoMemory,
            Trouble::Rule(rule) => match shown(alloc, base, relative) {
                Ok(path) => FolderFault::Refused { path, rule },
                Err(_) => FolderFault::NoMemory,
            },
        }
    }
}
