//! Why a journal's files are not recovered.

ghost use Rattle.std.specs.Prelude.{◌≡◌};
ghost use Rattle.smb_recovery.specs.declared.fault.RecoveryFault.TheVariants.{Refused};

use smb_held_files::HoldFault;
use smb_reason::Reason;
use thiserror::Error;

/// Why a journal's files are not recovered.
#[derive(Clone, Copy, Debug, PartialEq, Eq, Error)]
pub enum RecoveryFault {
    /// An allocation was refused.
    #[error("out of memory")]
    NoMemory,
    /// A read was refused.
    #[error("{0}")]
    Refused(Reason),
    /// A change of the batch of this number says what no share can have.
    #[error("batch {number}: {fault}")]
    NotHeld { number: u64, fault: HoldFault },
    /// Behind the first `place` bytes, where the batch of this number is to begin, is neither a whole one nor what a
    /// lost end leaves of one.
    #[error("damaged behind {place} bytes, in batch {number}")]
    Damaged { number: u64, place: u64 },
    /// There are more than 2^64 - 1 bytes.
    #[error("too long")]
    TooLong,
}

impl From<Reason> for RecoveryFault {
    ghost from_gives = { λ reason fault. fault ≡ Refused reason };

    fn from(reason: Reason) -> RecoveryFault {
        RecoveryFault::Refused(reason)
    }
}
