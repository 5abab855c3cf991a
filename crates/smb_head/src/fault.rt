//! What is wrong with a header or a chain, and why a call of this crate refuses.

ghost use Rattle.std.specs.Prelude.{◌≡◌};
ghost use Rattle.smb_head.specs.Faults.{fault_number};
ghost use Rattle.smb_head.specs.declared.fault.HeadFault.TheVariants.{NoMemory};

use smb_wire::WireFault;
use std::alloc::AllocError;
use thiserror::Error;

/// A fault of a header (H1 to H3) or of a chain (H1 to H7), or a refusal (H8).
#[derive(Clone, Copy, Debug, PartialEq, Eq, Error)]
pub enum HeadFault {
    /// H1: there are fewer than 64 bytes.
    #[error("fewer than 64 bytes")]
    Short,
    /// H2: ProtocolId is not 0xFE and the letters SMB.
    #[error("a wrong ProtocolId")]
    Protocol,
    /// H3: the header's StructureSize is not 64.
    #[error("a wrong StructureSize")]
    Size,
    /// H4: NextCommand is neither 0 nor the place of a next header.
    #[error("a wrong NextCommand")]
    Next,
    /// H5: another request follows the 16th.
    #[error("more than 16 requests")]
    TooMany,
    /// H6: SERVER_TO_REDIR is set, as in a reply.
    #[error("a request from a server")]
    FromServer,
    /// H7: the first request is related to the one before it.
    #[error("the first request is related")]
    RelatedFirst,
    /// H8: memory could not be had.
    #[error("no memory")]
    NoMemory,
}

/// A fault of a chain, or a refusal: [`HeadFault`].
pub type ChainFault = HeadFault;

impl HeadFault {
    /// The number of the fault, 1 to 8: 4 for H4.
    pub fn number(self) -> u8
        ensures { result ≡ fault_number self }
    {
        match self {
            HeadFault::Short => 1,
            HeadFault::Protocol => 2,
            HeadFault::Size => 3,
            HeadFault::Next => 4,
            HeadFault::TooMany => 5,
            HeadFault::FromServer => 6,
            HeadFault::RelatedFirst => 7,
            HeadFault::NoMemory => 8,
        }
    }
}

impl From<AllocError> for HeadFault {
    ghost from_gives = { λ _ fault. fault ≡ NoMemory };

    fn from(_error: AllocError) -> HeadFault {
        HeadFault::NoMemory
    }
}

impl From<WireFault> for HeadFault {
    ghost from_gives = { λ _ fault. fault ≡ NoMemory };

    fn from(_fault: WireFault) -> HeadFault {
        HeadFault::NoMemory
    }
}
