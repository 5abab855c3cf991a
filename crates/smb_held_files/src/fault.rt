//! Why a change is refused.

ghost use Rattle.std.specs.Prelude.{◌≡◌};
ghost use Rattle.smb_held_files.specs.declared.fault.HoldFault.TheVariants.{NoMemory};

use std::alloc::AllocError;
use thiserror::Error;

/// A refusal of a change; the files are as they were.
#[derive(Clone, Copy, Debug, PartialEq, Eq, Error)]
pub enum HoldFault {
    /// An entry has the number 2^64 - 1, after which there is no next one.
    #[error("the number of an entry is too large")]
    BadNumber,
    /// Bytes lie, or a size is, past 8,796,093,022,208 bytes, the most that a file may ever have.
    #[error("a file is too long")]
    TooLong,
    /// An allocation was refused.
    #[error("out of memory")]
    NoMemory,
}

impl From<AllocError> for HoldFault {
    ghost from_gives = { λ _ fault. fault ≡ NoMemory };

    fn from(_error: AllocError) -> HoldFault {
        HoldFault::NoMemory
    }
}
