//! Why a client's call is refused.

use smb_body::BodyFault;
use smb_frame::FrameFault;
use smb_head::HeadFault;
use std::alloc::AllocError;
use thiserror::Error;

/// A refusal of a client's call.
#[derive(Clone, Copy, Debug, PartialEq, Eq, Error)]
pub enum ClientFault {
    /// Memory could not be had, by the client or by the share.
    #[error("no memory")]
    NoMemory,
    /// A length passes its field, or a frame the length of a frame.
    #[error("a length passes its field")]
    TooLong,
    /// The share opens no further connection.
    #[error("too many connections")]
    TooManyConnections,
    /// The share has ended the connection.
    #[error("the connection has ended")]
    Ended,
}

impl From<AllocError> for ClientFault {
    fn from(_error: AllocError) -> ClientFault {
        ClientFault::NoMemory
    }
}

impl From<HeadFault> for ClientFault {
    fn from(_fault: HeadFault) -> ClientFault {
        ClientFault::NoMemory
    }
}

impl From<BodyFault> for ClientFault {
    fn from(fault: BodyFault) -> ClientFault {
        match fault {
            BodyFault::NoMemory => ClientFault::NoMemory,
            BodyFault::TooLong | BodyFault::Unreadable => ClientFault::TooLong,
        }
    }
}

impl From<FrameFault> for ClientFault {
    fn from(fault: FrameFault) -> ClientFault {
        match fault {
            FrameFault::NoMemory => ClientFault::NoMemory,
            _ => ClientFault::TooLong,
        }
    }
}
