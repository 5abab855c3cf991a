//! What is wrong with a stream, and why a call of this crate refuses.

ghost use Rattle.std.specs.Prelude.{◌≡◌};
ghost use Rattle.smb_frame.specs.declared.fault.FrameFault.TheVariants.{NoMemory};

use std::alloc::AllocError;
use thiserror::Error;

/// A fault of a stream (F1, F2), or a refusal (F3, F4).
#[derive(Clone, Copy, Debug, PartialEq, Eq, Error)]
pub enum FrameFault {
    /// F1: a frame's first byte is not 0.
    #[error("a frame does not begin with a zero byte")]
    FirstByte,
    /// F2: a frame says a length over the buffer's limit.
    #[error("a frame is longer than the limit")]
    TooLong,
    /// F3: a payload of 2^24 bytes or more has no frame.
    #[error("a payload is too long for a frame")]
    PayloadTooLong,
    /// F4: memory could not be had.
    #[error("no memory")]
    NoMemory,
}

impl From<AllocError> for FrameFault {
    ghost from_gives = { λ _ fault. fault ≡ NoMemory };

    fn from(_error: AllocError) -> FrameFault {
        FrameFault::NoMemory
    }
}
