//! Why a body is not read or not written.

ghost use Rattle.std.specs.Prelude.{◌≡◌};
ghost use Rattle.smb_body.specs.declared.fault.BodyFault.TheVariants.{NoMemory};

use smb_wire::WireFault;
use thiserror::Error;

/// A refusal of this crate.
#[derive(Clone, Copy, Debug, PartialEq, Eq, Error)]
pub enum BodyFault {
    /// The bytes say no body of this command.
    #[error("the body is unreadable")]
    Unreadable,
    /// The vector handed in could not grow. It is as it was.
    #[error("no memory")]
    NoMemory,
    /// A length or a count passes its field.
    #[error("a length passes its field")]
    TooLong,
}

impl From<WireFault> for BodyFault {
    ghost from_gives = { λ _ fault. fault ≡ NoMemory };

    fn from(_fault: WireFault) -> BodyFault {
        BodyFault::NoMemory
    }
}
