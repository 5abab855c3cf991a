//! Why events are not played to their end.

use smb_engine::RunFault;
use smb_replay::CommandFault;
use std::alloc::AllocError;
use thiserror::Error;

/// Why events are not played to their end. Its text is what is printed.
#[derive(Clone, Copy, Debug, PartialEq, Eq, Error)]
pub(crate) enum PlayFault {
    /// They cannot be read, or what answers them cannot be written.
    #[error("{0}")]
    Command(CommandFault),
    /// The share refuses an event, for another reason than memory.
    #[error("{0}")]
    Refused(RunFault),
    /// A connection is opened out of turn, where the share is served.
    #[error("a connection is opened out of turn")]
    OutOfTurn,
}

impl PlayFault {
    /// The exit status: 3 where memory ran out, else 1.
    pub(crate) fn status(self) -> u8 {
        match self {
            PlayFault::Command(fault) => fault.status(),
            _ => 1,
        }
    }
}

impl From<CommandFault> for PlayFault {
    fn from(fault: CommandFault) -> PlayFault {
        PlayFault::Command(fault)
    }
}

impl From<AllocError> for PlayFault {
    fn from(_error: AllocError) -> PlayFault {
        PlayFault::Command(CommandFault::NoMemory)
    }
}
