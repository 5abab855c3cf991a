//! Why a call of this crate refuses.

ghost use Rattle.std.specs.Prelude.{◌≡◌};
ghost use Rattle.smb_wire.specs.declared.fault.WireFault.TheVariants.{NoMemory};

use std::alloc::AllocError;
use thiserror::Error;

/// A refusal of this crate.
#[derive(Clone, Copy, Debug, PartialEq, Eq, Error)]
pub enum WireFault {
    /// The vector handed in could not grow. It is as it was.
    #[error("no memory")]
    NoMemory,
}

impl From<AllocError> for WireFault {
    ghost from_gives = { λ _ fault. fault ≡ NoMemory };

    fn from(_error: AllocError) -> WireFault {
        WireFault::NoMemory
    }
}

/// Why a name is no path, in the order in which it is looked at.
#[derive(Clone, Copy, Debug, PartialEq, Eq, Error)]
pub enum PathFault {
    /// The name begins with a separator.
    #[error("leading separator")]
    LeadingSeparator,
    /// The name has more than 32 components.
    #[error("too deep")]
    TooDeep,
    /// A component has not 1 to 255 units, has a unit that no component may have, or is `.` or `..`.
    #[error("bad name")]
    BadName,
}
