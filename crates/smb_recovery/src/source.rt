//! Where a journal's bytes are read.

ghost use Rattle.std.specs.Prelude.{◌≡◌, OnOk, take, length, not, nat_lt};
ghost use Rattle.smb_recovery.specs.Source.{IsTakenFrom};

use smb_reason::Reason;
use std::io::ErrorKind;

/// Bytes that are read once, from the first to the last. How many there are need not be known before.
pub trait Source {
    ghost use Rattle.std.specs.Prelude.{ℕ, List, Bool};

    /// The bytes that were read so far, from the first on.
    ghost read: { Self → List ℕ };

    /// Whether it has ended: then it gives no more.
    ghost ended: { Self → Bool };

    /// Adds the next `count` bytes behind those of `bytes`; fewer only where the source has ended then.
    ///
    /// `count` may be far more than there is: the memory is that of the bytes that are added. A reason is that of a
    /// read, or of an allocation, that was refused; then nothing is known of what was added and of what was read.
    fn take(&mut self, count: u64, bytes: &mut Vec<u8>) -> Result<(), Reason>
        ensures { OnOk result (IsTakenFrom count bytes.old.items bytes.new.items
            (read self.old) (read self.new) (ended self.old) (ended self.new)) };
}

/// Bytes in memory, for trials.
#[derive(Clone, Copy, Debug)]
pub struct MemorySource<'a> {
    bytes: &'a [u8],
    // How many of them were read.
    position: usize,
}

impl<'a> MemorySource<'a> {
    /// All of these bytes are to be read.
    pub fn of(bytes: &'a [u8]) -> MemorySource<'a>
        ensures bytes { result.bytes.now ≡ bytes.now }
        ensures position { result.position ≡ 0 }
    {
        MemorySource { bytes, position: 0 }
    }
}

impl Source for MemorySource<'_> {
    ghost read = { λ source. take source.position source.bytes.now };

    ghost ended = { λ source. not (nat_lt source.position (length source.bytes.now)) };

    fn take(&mut self, count: u64, bytes: &mut Vec<u8>) -> Result<(), Reason> {
        let start = self.position.min(self.bytes.len());
        let (_, left) = self.bytes.split_at(start);
        let size = count.min(left.len() as u64) as usize;
        let (part, _) = left.split_at(size);
        if bytes.extend_from_slice(part).is_err() {
            return Err(Reason(ErrorKind::OutOfMemory));
        }
        self.position = start + size;
        Ok(())
    }
}
