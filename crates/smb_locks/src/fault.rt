//! Why a call of a lock table refuses.

ghost use Rattle.std.specs.Prelude.{◌≡◌};
ghost use Rattle.smb_locks.specs.declared.fault.LockFault.TheVariants.{NoMemory};

use std::alloc::AllocError;
use thiserror::Error;

/// A refusal of an element, or of a request as a whole, in the order in which it is looked at ([MS-SMB2] 3.3.5.14).
#[derive(Clone, Copy, Debug, PartialEq, Eq, Error)]
pub enum LockFault {
    /// The flags of some element are none that may be in the request.
    #[error("the flags are invalid")]
    BadFlags,
    /// The range is not empty and reaches past the byte of the number 2^64 - 1.
    #[error("the range is invalid")]
    BadRange,
    /// 256 locks are held on the file.
    #[error("the file has all of its locks")]
    Full,
    /// A lock that is held conflicts with the one that is asked for.
    #[error("the lock is not granted")]
    NotGranted,
    /// The open holds no lock over this very range.
    #[error("the range is not locked")]
    NotLocked,
    /// An allocation was refused.
    #[error("out of memory")]
    NoMemory,
}

impl From<AllocError> for LockFault {
    ghost from_gives = { λ _ fault. fault ≡ NoMemory };

    fn from(_error: AllocError) -> LockFault {
        LockFault::NoMemory
    }
}

/// A request that unlocks was refused at an element; those before it are unlocked.
#[derive(Clone, Copy, Debug, PartialEq, Eq, Error)]
#[error("{fault} (elements before it: {done})")]
pub struct UnlockError {
    /// How many elements were done.
    pub done: usize,
    pub fault: LockFault,
}
