//! The refusals of a LOCK ([MS-SMB2] 3.3.5.14).

ghost use Rattle.std.specs.Prelude.{◌≡◌};
ghost use Rattle.smb_refusals.specs.Refused.{IsRefusedBy};
ghost use Rattle.smb_entry.specs.Locks.{lock_refusal_of};

use smb_locks::LockFault;
use smb_refusals::{LockRefusal, RefusedBy};

/// Why an element of a LOCK is refused, or all of it for its flags. Out of memory is no refusal.
pub fn lock_refusal_of(fault: LockFault) -> Option<LockRefusal>
    ensures { result ≡ lock_refusal_of fault }
{
    match fault {
        LockFault::BadFlags => Some(LockRefusal::FlagsInvalid),
        LockFault::BadRange => Some(LockRefusal::RangePastTheEnd),
        LockFault::Full => Some(LockRefusal::NoLockLeft),
        LockFault::NotGranted => Some(LockRefusal::LockConflicts),
        LockFault::NotLocked => Some(LockRefusal::RangeNotLocked),
        LockFault::NoMemory => None,
    }
}

/// How a LOCK that locks is refused: by its row, or for want of memory where there is none.
pub fn lock_refused_by(fault: LockFault) -> RefusedBy<LockRefusal>
    ensures { IsRefusedBy (lock_refusal_of fault) result }
{
    match lock_refusal_of(fault) {
        Some(refusal) => RefusedBy::Row(refusal),
        None => RefusedBy::NoMemory,
    }
}
