//! Where a journal's bytes are kept.

ghost use Rattle.std.specs.Prelude.{◌≡◌, ◌++◌, ◌≤◌, true, [], OnOk, OnErr, IfSome, length, take};
ghost use Rattle.smb_journaled_tree.specs.Journal.{AddsPart};
ghost use Rattle.smb_journaled_tree.specs.declared.file.JournalFault.TheVariants.{NoMemory};

use smb_reason::Reason;
use smb_wire::WireFault;
use std::alloc::{AllocError, Global};
use std::io::ErrorKind;
use std::marker::Model;
use thiserror::Error;

/// Why a journal could not be written.
#[derive(Clone, Copy, Debug, PartialEq, Eq, Error)]
pub enum JournalFault {
    /// An allocation was refused.
    #[error("no memory")]
    NoMemory,
    /// The file refused.
    #[error("not written: {0}")]
    NotWritten(Reason),
}

impl From<JournalFault> for Reason {
    fn from(fault: JournalFault) -> Reason {
        match fault {
            JournalFault::NoMemory => Reason(ErrorKind::OutOfMemory),
            JournalFault::NotWritten(reason) => reason,
        }
    }
}

impl From<AllocError> for JournalFault {
    ghost from_gives = { λ _ fault. fault ≡ NoMemory };

    fn from(_error: AllocError) -> JournalFault {
        JournalFault::NoMemory
    }
}

impl From<WireFault> for JournalFault {
    ghost from_gives = { λ _ fault. fault ≡ NoMemory };

    fn from(_fault: WireFault) -> JournalFault {
        JournalFault::NoMemory
    }
}

/// A file that holds a journal's batches, one behind the other. It is its bytes, which only these calls change.
pub trait JournalFile {
    ghost use Rattle.std.specs.Prelude.{ℕ, List};

    /// Its bytes.
    ghost held: { Self → List ℕ };

    /// How many bytes there is room for behind them, where no other program takes it.
    ghost room: { Self → ℕ };

    /// How many of its bytes are known to last.
    ghost lasting: { Self → ℕ };

    /// How many bytes it has.
    fn len(&self) -> u64
        ensures { result ≡ length (held self.now) };

    /// Takes room for `count` bytes behind those that it has, where it has less, and returns whether it has it. No byte
    /// changes.
    fn take_room(&mut self, count: u64) -> bool
        ensures held { held self.new ≡ held self.old }
        ensures room { result ≡ true → count ≤ room self.new };

    /// Puts bytes behind those that it has. After an error some of them are there, from the first on, and not all.
    fn append(&mut self, bytes: &Vec<u8>) -> Result<(), JournalFault>
        ensures ok { OnOk result (held self.new ≡ held self.old ++ bytes.now.items) }
        ensures err { OnErr result (AddsPart (held self.old) bytes.now.items (held self.new)) };

    /// Cuts the file to its first `size` bytes. After an error it has all of its bytes.
    fn cut(&mut self, size: u64) -> Result<(), JournalFault>
        ensures ok { OnOk result (held self.new ≡ take size (held self.old)) }
        ensures err { OnErr result (held self.new ≡ held self.old) };

    /// Waits until what was appended lasts. It changes no byte.
    fn sync(&mut self) -> Result<(), JournalFault>
        ensures held { held self.new ≡ held self.old }
        ensures lasts { OnOk result (lasting self.new ≡ length (held self.new)) };

    /// An empty file that may take the place of this one, and whose first batch is to have this seed. None where this one
    /// has not many more bytes than `needed`, the fewest that its files need, and where none can be made.
    fn make_next(&mut self, needed: u64, seed: u64) -> Option<Self>
        ensures held { held self.new ≡ held self.old }
        ensures empty { IfSome result (λ next. held next ≡ []) };

    /// Gives its place to a file that it made, all of whose bytes last, and has that one's bytes. After an error it has
    /// its own.
    fn replace(&mut self, next: Self) -> Result<(), JournalFault>
        requires { lasting next ≡ length (held next) }
        ensures ok { OnOk result (held self.new ≡ held next) }
        ensures err { OnErr result (held self.new ≡ held self.old) };

    /// Whether a file that was made so is to be written to now, or others are to be served first.
    fn is_due(&self) -> bool;

    /// Takes away a file that it made.
    fn drop_next(&mut self, next: Self)
        ensures { held self.new ≡ held self.old };
}

/// A journal's file in memory, for trials. It has room for all bytes that one can have.
#[derive(Drop)]
pub struct MemoryFile {
    alloc: Global,
    bytes: Vec<u8>,
    renews: bool,
}

impl Model for MemoryFile {
    ghost use Rattle.std.specs.Prelude.{ℕ, List};

    ghost Value = { List ℕ };

    ghost view = { λ file. file.bytes.items };
}

impl MemoryFile {
    /// An empty file.
    pub fn new(alloc: Global) -> MemoryFile
        ensures { result ≡ [] }
    {
        MemoryFile {
            alloc,
            bytes: Vec::new(alloc),
            renews: false,
        }
    }

    /// An empty file, which is written anew where it has more bytes than its files need at least.
    pub fn renewing(alloc: Global) -> MemoryFile
        ensures { result ≡ [] }
    {
        MemoryFile {
            alloc,
            bytes: Vec::new(alloc),
            renews: true,
        }
    }

    /// Its bytes.
    pub fn bytes(&self) -> &[u8]
        ensures { result.now ≡ self.now }
    {
        &self.bytes
    }
}

impl JournalFile for MemoryFile {
    ghost held = { λ bytes. bytes };

    ghost room = { λ _. 18446744073709551615 };

    ghost lasting = { λ bytes. length bytes };

    fn len(&self) -> u64 {
        self.bytes.len() as u64
    }

    fn take_room(&mut self, _count: u64) -> bool {
        true
    }

    fn append(&mut self, bytes: &Vec<u8>) -> Result<(), JournalFault> {
        if bytes.is_empty() {
            return Ok(());
        }
        self.bytes.extend_from_slice(bytes)?;
        Ok(())
    }

    fn cut(&mut self, size: u64) -> Result<(), JournalFault> {
        if size < self.bytes.len() as u64 {
            self.bytes.truncate(size as usize);
        }
        Ok(())
    }

    fn sync(&mut self) -> Result<(), JournalFault> {
        Ok(())
    }

    fn make_next(&mut self, needed: u64, _seed: u64) -> Option<MemoryFile> {
        if !self.renews || (self.bytes.len() as u64) <= needed {
            return None;
        }
        Some(MemoryFile::renewing(self.alloc))
    }

    fn replace(&mut self, next: MemoryFile) -> Result<(), JournalFault> {
        self.bytes = next.bytes;
        Ok(())
    }

    fn is_due(&self) -> bool {
        true
    }

    fn drop_next(&mut self, _next: MemoryFile) {}
}
