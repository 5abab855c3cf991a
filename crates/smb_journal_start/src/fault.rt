//! Why a share can't begin with what a journal keeps.

use smb_held_files::HoldFault;
use smb_journaled_tree::JournalFault;
use smb_reason::Reason;
use smb_recovery::RecoveryFault;
use smb_tree_of_files::BuildFault;
use std::alloc::AllocError;
use std::io::ErrorKind;
use thiserror::Error;

/// What keeps a share from its files.
#[derive(Clone, Copy, Debug, PartialEq, Eq, Error)]
pub enum StartFault {
    /// The journal can't be read, for this reason.
    #[error("cannot be read: {0}; name a file that you may read")]
    Unread(Reason),
    /// The journal is damaged, or says what no share can have.
    #[error("{0}: take a back-up of it")]
    Journal(RecoveryFault),
    /// What it keeps are no files of such a share.
    #[error("{0}")]
    Files(BuildFault),
    /// The file can't be written, for this reason.
    #[error("cannot be written: {0}")]
    Unwritten(Reason),
    /// An entry that is to be deleted has others in it.
    #[error("damaged: a folder that is to be deleted has entries: take a back-up of it")]
    Marked,
    #[error("no memory")]
    NoMemory,
}

impl From<AllocError> for StartFault {
    fn from(_error: AllocError) -> StartFault {
        StartFault::NoMemory
    }
}

impl From<RecoveryFault> for StartFault {
    fn from(fault: RecoveryFault) -> StartFault {
        match fault {
            RecoveryFault::NoMemory
            | RecoveryFault::Refused(Reason(ErrorKind::OutOfMemory))
            | RecoveryFault::NotHeld {
                fault: HoldFault::NoMemory,
                ..
            } => StartFault::NoMemory,
            RecoveryFault::Refused(reason) => StartFault::Unread(reason),
            fault => StartFault::Journal(fault),
        }
    }
}

impl From<BuildFault> for StartFault {
    fn from(fault: BuildFault) -> StartFault {
        match fault {
            BuildFault::NoMemory => StartFault::NoMemory,
            fault => StartFault::Files(fault),
        }
    }
}

impl From<JournalFault> for StartFault {
    fn from(fault: JournalFault) -> StartFault {
        match fault {
            JournalFault::NoMemory => StartFault::NoMemory,
            JournalFault::NotWritten(reason) => StartFault::Unwritten(reason),
        }
    }
}
