//! Why a share cannot be kept, or not be gone on with.

use crate::journal::FileFault;
use smb_client::ClientFault;
use smb_folder::FolderFault;
use smb_journal::JournalFault;
use smb_journal_start::StartFault;
use smb_reason::Reason;
use std::alloc::AllocError;
use std::io::ErrorKind;

/// What ends a call.
#[derive(Debug, Drop)]
pub enum KeptFault {
    NoMemory,
    /// The share refuses the configuration.
    BadConfig,
    /// A file that a share is recorded in, or made from.
    Recording(JournalFault),
    /// What happened to a share could not be recorded, for this reason.
    RecordFailed(Reason),
    /// A file or folder that can't be put into the share, or taken out of it.
    Folder(FolderFault),
    /// A file that is not taken as a journal.
    File(FileFault),
}

impl KeptFault {
    /// The fault of a journal with which a share can't begin.
    pub(crate) fn of_start(fault: StartFault) -> KeptFault {
        match fault {
            StartFault::NoMemory => KeptFault::NoMemory,
            fault => KeptFault::File(FileFault::Start(fault)),
        }
    }
}

impl From<AllocError> for KeptFault {
    fn from(_error: AllocError) -> KeptFault {
        KeptFault::NoMemory
    }
}

impl From<JournalFault> for KeptFault {
    fn from(fault: JournalFault) -> KeptFault {
        KeptFault::Recording(fault)
    }
}

impl From<FolderFault> for KeptFault {
    fn from(fault: FolderFault) -> KeptFault {
        KeptFault::Folder(fault)
    }
}

impl From<ClientFault> for KeptFault {
    fn from(fault: ClientFault) -> KeptFault {
        match fault {
            ClientFault::NoMemory => KeptFault::NoMemory,
            _ => KeptFault::RecordFailed(Reason(ErrorKind::Other)),
        }
    }
}
