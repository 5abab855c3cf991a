//! A lock of a file.

ghost use Rattle.std.specs.Prelude.{◌≡◌};
ghost use Rattle.smb_locks.specs.Conflicts.{conflicts};
ghost use Rattle.smb_locks.specs.Parts.{bars_read, bars_write, is_lock_over};

use super::range::ByteRange;

/// A lock of a file.
#[derive(Clone, Copy, Debug, PartialEq, Eq)]
pub struct Lock {
    /// The number of the open that holds it.
    pub holder: u64,
    pub range: ByteRange,
    /// It is exclusive, and else shared.
    pub exclusive: bool,
}

impl Lock {
    // Whether a lock that is held keeps this one from being granted.
    pub(crate) fn conflicts(self, held: Lock) -> bool
        ensures { result ≡ conflicts self held }
    {
        held.range.overlaps(self.range)
            && (self.exclusive || (held.exclusive && held.holder != self.holder))
    }

    // Whether the lock bars an open from reading a range.
    pub(crate) fn bars_read(self, holder: u64, range: ByteRange) -> bool
        ensures { result ≡ bars_read holder range self }
    {
        self.range.overlaps(range) && self.exclusive && self.holder != holder
    }

    // Whether the lock bars an open from writing a range.
    pub(crate) fn bars_write(self, holder: u64, range: ByteRange) -> bool
        ensures { result ≡ bars_write holder range self }
    {
        self.range.overlaps(range) && (!self.exclusive || self.holder != holder)
    }

    // Whether an open holds the lock over this very range.
    pub(crate) fn is_over(self, holder: u64, range: ByteRange) -> bool
        ensures { result ≡ is_lock_over holder range self }
    {
        self.holder == holder
            && self.range.offset == range.offset
            && self.range.length == range.length
    }
}
