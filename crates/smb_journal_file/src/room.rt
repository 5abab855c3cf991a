//! Room on a disk, taken before it is needed.

ghost use Rattle.std.specs.Prelude.{◌≡◌, ◌≤◌, true};

use super::leaving::Leaving;
use smb_reason::Reason;
use std::fs::File;
use std::io::{ErrorKind, Write};
use std::marker::Model;

/// A file of room is made longer by a step, in bytes, but where the disk has no more.
const STEP: u64 = 1 << 22;

/// How many zeros are written at once.
const PIECE: usize = 1 << 14;

/// How many bytes a block has. Room is given back in blocks, and one more than needed.
const BLOCK: u64 = 4_096;

/// Room on a disk, as a file of zeros beside the one that is to have it. The zeros are written, and are no hole: a file
/// that is made shorter by some bytes leaves them to the other.
#[derive(Drop)]
pub struct RoomFile {
    file: File,
    size: u64,
    // Why there was not as much as was asked for last, or as a write needed behind that.
    lacks: Option<Reason>,
}

impl Model for RoomFile {
    ghost use Rattle.std.specs.Prelude.{ℕ};

    ghost Value = { ℕ };

    ghost view = { λ room. room.size };
}

impl RoomFile {
    /// A file that is open where it ends.
    pub fn new(file: File) -> Result<RoomFile, Reason> {
        match file.metadata() {
            Ok(found) => Ok(RoomFile {
                file,
                size: found.len(),
                lacks: None,
            }),
            Err(error) => Err(Reason(error.kind())),
        }
    }

    /// Whether it has at least `count` bytes. It is made longer, where it can be.
    pub fn take(&mut self, count: u64) -> bool
        ensures { result ≡ true → count ≤ self.new }
    {
        if self.size < count
            && let Err(reason) = self.grow(count)
        {
            self.lacks = Some(reason);
            return count <= self.size;
        }
        self.lacks = None;
        count <= self.size
    }

    // Makes it longer, to the next multiple of a step that has `count` bytes, or as long as there is room.
    fn grow(&mut self, count: u64) -> Result<(), Reason> {
        let zeros = [0; PIECE];
        let wanted = count.div_ceil(STEP).saturating_mul(STEP);
        let missing = wanted.saturating_sub(self.size);
        for _ in 0..missing.div_ceil(PIECE as u64) {
            if let Err(error) = self.file.write_all(&zeros) {
                let _ = self.file.set_len(self.size);
                return Err(Reason(error.kind()));
            }
            self.size = self.size.saturating_add(PIECE as u64);
        }
        Ok(())
    }

    /// Why there was not as much as was asked for last, or as a write needed behind that; None where there was.
    pub fn lacks(&self) -> Option<Reason> {
        self.lacks
    }

    /// Gives room for `count` bytes back to the disk, where it has any.
    pub fn give_back(&mut self, count: u64) -> Result<(), Reason> {
        if self.size == 0 {
            return Err(Reason(ErrorKind::StorageFull));
        }
        let blocks = count.div_ceil(BLOCK).saturating_add(1);
        let size = self.size.saturating_sub(blocks.saturating_mul(BLOCK));
        match self.file.set_len(size) {
            Ok(()) => {
                self.size = size;
                Ok(())
            }
            Err(error) => Err(Reason(error.kind())),
        }
    }
}

/// Whether a write failed since its disk has no room.
pub fn is_full(kind: ErrorKind) -> bool {
    matches!(kind, ErrorKind::StorageFull | ErrorKind::QuotaExceeded)
}

// Writes bytes at the end of a file, which has `end` bytes. Where the disk has no room none of them is there.
fn write_or_cut(file: &mut File, end: u64, bytes: &[u8]) -> Result<(), Reason> {
    let reason = match file.write_all(bytes) {
        Ok(()) => return Ok(()),
        Err(error) => Reason(error.kind()),
    };
    if is_full(reason.0)
        && let Err(error) = file.set_len(end)
    {
        return Err(Reason(error.kind()));
    }
    Err(reason)
}

/// Writes bytes at the end of a file, which has `end` bytes. Where the disk has no room, they are written once more:
/// first without the files that are to go, then with this much of the room given back. After an error some of them may
/// be there, and not all.
pub(crate) fn write_at_end(
    file: &mut File,
    end: u64,
    room: &mut Option<RoomFile>,
    leaving: &mut Leaving,
    bytes: &[u8],
) -> Result<(), Reason> {
    let reason = match write_or_cut(file, end, bytes) {
        Ok(()) => return Ok(()),
        Err(reason) => reason,
    };
    if !is_full(reason.0) {
        return Err(reason);
    }
    if leaving.let_go() && write_or_cut(file, end, bytes).is_ok() {
        return Ok(());
    }
    let Some(room) = room else {
        return Err(reason);
    };
    room.lacks = Some(reason);
    room.give_back(bytes.len() as u64)?;
    write_or_cut(file, end, bytes)
}
