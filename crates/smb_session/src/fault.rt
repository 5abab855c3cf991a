//! Why a call of the sessions is refused.

ghost use Rattle.std.specs.Prelude.{◌≡◌};
ghost use Rattle.smb_session.specs.Refusals.{setup_fault, logoff_fault, tree_connect_fault, tree_disconnect_fault};
ghost use Rattle.smb_session.specs.declared.fault.SessionFault.TheVariants.{NoMemory};

use smb_refusals::{
    LogoffRefusal, RefusedBy, SetupRefusal, TreeConnectRefusal, TreeDisconnectRefusal,
};
use std::alloc::AllocError;
use thiserror::Error;

/// A refusal of the sessions. Each leaves them, and the authenticator, as they were.
#[derive(Clone, Copy, Debug, PartialEq, Eq, Error)]
pub enum SessionFault {
    /// The number is not that of a finished session of this connection; in a SESSION_SETUP, of none of
    /// this connection ([MS-SMB2] 3.3.5.2.9).
    #[error("no such session on this connection")]
    UnknownSession,
    /// The session is not connected to this tree ([MS-SMB2] 3.3.5.2.11).
    #[error("no such tree in this session")]
    UnknownTree,
    /// The path is not `\\server\share`, or names another share ([MS-SMB2] 3.3.5.7).
    #[error("no such share")]
    NoShare,
    /// The request is not accepted: the session is finished already, another connection is to be bound,
    /// or there are as many sessions or trees as there may be ([MS-SMB2] 3.3.5.5).
    #[error("the request is not accepted")]
    NotAccepted,
    /// No dialect of the list is spoken ([MS-SMB2] 3.3.5.4).
    #[error("no dialect is spoken")]
    NoDialect,
    /// Memory could not be had.
    #[error("no memory")]
    NoMemory,
}

impl From<AllocError> for SessionFault {
    ghost from_gives = { λ _ fault. fault ≡ NoMemory };

    fn from(_error: AllocError) -> SessionFault {
        SessionFault::NoMemory
    }
}

impl From<RefusedBy<SetupRefusal>> for SessionFault {
    ghost from_gives = { λ refused fault. fault ≡ setup_fault refused };

    fn from(refused: RefusedBy<SetupRefusal>) -> SessionFault {
        match refused {
            RefusedBy::Row(SetupRefusal::UnknownSession) => SessionFault::UnknownSession,
            // A denial is no row of the table.
            RefusedBy::Row(
                SetupRefusal::BindingAsked
                | SetupRefusal::NoSessionLeft
                | SetupRefusal::SessionFinished
                | SetupRefusal::Denied,
            ) => SessionFault::NotAccepted,
            RefusedBy::NoMemory => SessionFault::NoMemory,
        }
    }
}

impl From<LogoffRefusal> for SessionFault {
    ghost from_gives = { λ refusal fault. fault ≡ logoff_fault refusal };

    fn from(refusal: LogoffRefusal) -> SessionFault {
        match refusal {
            LogoffRefusal::UnknownSession => SessionFault::UnknownSession,
        }
    }
}

impl From<TreeConnectRefusal> for SessionFault {
    ghost from_gives = { λ refusal fault. fault ≡ tree_connect_fault refusal };

    fn from(refusal: TreeConnectRefusal) -> SessionFault {
        match refusal {
            TreeConnectRefusal::UnknownSession => SessionFault::UnknownSession,
            TreeConnectRefusal::UnknownShare => SessionFault::NoShare,
            TreeConnectRefusal::NoTreeConnectLeft => SessionFault::NotAccepted,
        }
    }
}

impl From<TreeDisconnectRefusal> for SessionFault {
    ghost from_gives = { λ refusal fault. fault ≡ tree_disconnect_fault refusal };

    fn from(refusal: TreeDisconnectRefusal) -> SessionFault {
        match refusal {
            TreeDisconnectRefusal::UnknownSession => SessionFault::UnknownSession,
            TreeDisconnectRefusal::UnknownTreeConnect => SessionFault::UnknownTree,
        }
    }
}
