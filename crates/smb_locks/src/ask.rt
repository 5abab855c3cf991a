//! What the elements of a LOCK request ask.

ghost use Rattle.std.specs.Prelude.{◌≡◌, ◌&&◌, ◌||◌};
ghost use Rattle.smb_locks.specs.Parts.{are_unlocks, range_asked, is_immediate, may_wait, is_unlock, are_locks, lock_by};

use super::lock::Lock;
use super::range::ByteRange;
use bitflags::Flags;
use smb_wire::LockFlags;

// The flags of a shared lock that is refused at once where it can't be granted.
const SHARED_AT_ONCE: LockFlags = LockFlags(
    LockFlags::SHARED_LOCK.0 | LockFlags::FAIL_IMMEDIATELY.0,
);

// The flags of an exclusive lock that is refused at once where it can't be granted.
const EXCLUSIVE_AT_ONCE: LockFlags = LockFlags(
    LockFlags::EXCLUSIVE_LOCK.0 | LockFlags::FAIL_IMMEDIATELY.0,
);

/// What an element of a LOCK request asks ([MS-SMB2] 2.2.26.1). Every value may be asked: what is wrong is for
/// [`LockTable`](super::LockTable) to say.
#[derive(Clone, Copy, Debug, PartialEq, Eq)]
pub struct LockAsk {
    /// The number of the range's first byte.
    pub offset: u64,
    /// How many bytes the range has; it may be empty.
    pub length: u64,
    pub flags: LockFlags,
}

impl LockAsk {
    pub(crate) fn range(self) -> ByteRange
        ensures { result ≡ range_asked self }
    {
        ByteRange {
            offset: self.offset,
            length: self.length,
        }
    }

    // The lock that is asked for by an open.
    pub(crate) fn lock(self, holder: u64) -> Lock
        ensures { result ≡ lock_by holder self }
    {
        Lock {
            holder,
            range: self.range(),
            exclusive: self.flags.contains(LockFlags::EXCLUSIVE_LOCK),
        }
    }

    // Whether a lock is asked for that is refused at once where it can't be granted.
    fn is_immediate(self) -> bool
        ensures { result ≡ is_immediate self }
    {
        self.flags == SHARED_AT_ONCE || self.flags == EXCLUSIVE_AT_ONCE
    }

    // Whether a lock is asked for that might be waited for.
    fn may_wait(self) -> bool
        ensures { result ≡ may_wait self }
    {
        self.flags == LockFlags::SHARED_LOCK || self.flags == LockFlags::EXCLUSIVE_LOCK
    }

    // Whether the element may be in a request that locks, alone or beside others.
    fn is_lock(self, alone: bool) -> bool
        ensures { result ≡ (is_immediate self || (alone && may_wait self)) }
    {
        self.is_immediate() || (alone && self.may_wait())
    }

    // Whether a lock is to be taken back.
    fn is_unlock(self) -> bool
        ensures { result ≡ is_unlock self }
    {
        self.flags == LockFlags::UNLOCK
    }
}

// Whether the elements may be in a request that locks: only one that is alone may ask for a lock to be waited for.
pub(crate) fn are_locks(asks: &[LockAsk]) -> bool
    ensures { result ≡ are_locks asks.now }
{
    let alone = asks.len() == 1;
    asks.iter().all(|ask| ask.is_lock(alone))
}

// Whether the elements may be in a request that unlocks.
pub(crate) fn are_unlocks(asks: &[LockAsk]) -> bool
    ensures { result ≡ are_unlocks asks.now }
{
    asks.iter().all(|ask| ask.is_unlock())
}
