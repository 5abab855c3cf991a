//! A journal that has nothing but the files that another one leaves.

use crate::fault::KeptFault;
use crate::journal_left::{JournalFiles, journal_files};
use crate::kind::{Kind, kind_of};
use crate::leaving::leave;
use smb_changes::{Change, OpenBatch};
use smb_engine::Tree;
use smb_journal::Mailbox;
use smb_journal_file::first_line;
use smb_journal_start::Space;
use smb_reason::Reason;
use smb_tree::{EntryNo, EntryView};
use std::alloc::{AllocError, Global};
use std::io;
use std::io::Write;

/// How many bytes of a file are put into one change at most, and how many bytes of changes into a batch before it is
/// written.
const PIECE: u64 = 1_048_576;

/// Why the journal can't be written.
fn fault_of_output(error: io::Error) -> KeptFault {
    KeptFault::RecordFailed(Reason(error.kind()))
}

/// The batches of a journal that is written from its first one on.
#[derive(Drop)]
struct Batches<'a, W: Write> {
    out: &'a mut W,
    /// The seed and the number of the next batch.
    seed: u64,
    number: u64,
    batch: OpenBatch,
    /// How many bytes the batches have that were written.
    size: u64,
}

impl<'a, W: Write> Batches<'a, W> {
    /// No batch yet, behind a first line with this seed, which says that there are `least` bytes behind it.
    fn begin(alloc: Global, out: &'a mut W, seed: u64, least: u64) -> Result<Self, KeptFault> {
        let line = first_line(alloc, seed, least)?;
        out.write_all(&line).map_err(fault_of_output)?;
        Ok(Batches {
            out,
            seed,
            number: 1,
            batch: OpenBatch::new(alloc),
            size: 0,
        })
    }

    /// Writes the batch of the changes that were put in last, where there are any.
    fn write_batch(&mut self) -> Result<(), KeptFault> {
        if self.batch.is_empty() {
            return Ok(());
        }
        let Ok(seed) = self.batch.close(self.seed, self.number) else {
            return Err(KeptFault::NoMemory);
        };
        self.out
            .write_all(self.batch.as_vec())
            .map_err(fault_of_output)?;
        let size = self.batch.as_vec().len() as u64;
        self.size = self.size.saturating_add(size);
        self.batch.clear();
        self.seed = seed;
        self.number = self.number.saturating_add(1);
        Ok(())
    }

    /// Puts in a change.
    fn put(&mut self, change: Change<'_>) -> Result<(), KeptFault> {
        if self.batch.note(change).is_err() {
            return Err(KeptFault::NoMemory);
        }
        if (self.batch.len() as u64) < PIECE {
            return Ok(());
        }
        self.write_batch()
    }
}

/// The change that makes an entry, without its bytes. Nothing is marked.
fn entry_of<'a>(view: &EntryView<'a>) -> Change<'a> {
    Change::Entry {
        number: view.number,
        parent: view.parent,
        kind: view.kind,
        mark: false,
        basic: view.basic,
        spelling: view.spelling,
    }
}

/// Puts in the bytes of a file of this size. Pieces of zeros are left out.
fn put_file<T: Tree, W: Write>(
    tree: &T,
    number: EntryNo,
    size: u64,
    piece: &mut Vec<u8>,
    batches: &mut Batches<'_, W>,
) -> Result<(), KeptFault> {
    for i in 0..size.div_ceil(PIECE) {
        let offset = i.saturating_mul(PIECE);
        piece.clear();
        if tree.read(number, offset, PIECE, piece).is_err() {
            return Err(KeptFault::NoMemory);
        }
        if piece.iter().any(|byte| *byte != 0) {
            batches.put(Change::Bytes {
                number,
                offset,
                bytes: piece,
            })?;
        }
    }
    if size > 0 {
        batches.put(Change::Size { number, size })?;
    }
    Ok(())
}

/// Writes a journal of a tree's files whose first line says that there are `least` bytes behind it, and returns how
/// many there are.
fn write_batches<T: Tree, W: Write>(
    alloc: Global,
    tree: &T,
    numbers: &[EntryNo],
    seed: u64,
    least: u64,
    out: &mut W,
) -> Result<u64, KeptFault> {
    let mut batches = Batches::begin(alloc, out, seed, least)?;
    let mut piece = Vec::new(alloc);
    for number in numbers {
        if let Some(view) = tree.entry(*number) {
            let size = view.size;
            batches.put(entry_of(&view))?;
            put_file(tree, *number, size, &mut piece, &mut batches)?;
        }
    }
    let next = tree.next_no().unwrap_or(EntryNo::MAX);
    batches.put(Change::Next { next })?;
    batches.write_batch()?;
    Ok(batches.size)
}

/// Writes a journal of a tree's files, to be read from its first line on. `numbers` are those of all entries, in rising
/// order; where none has one it is passed over. Its bytes are counted first, so that a part of it is known for one.
fn write_files<T: Tree, W: Write>(
    alloc: Global,
    tree: &T,
    numbers: &[EntryNo],
    seed: u64,
    out: &mut W,
) -> Result<(), KeptFault> {
    let mut nowhere = io::sink();
    let size = write_batches(alloc, tree, numbers, seed, 0, &mut nowhere)?;
    write_batches(alloc, tree, numbers, seed, size, out)?;
    Ok(())
}

/// The numbers of a tree's entries, in rising order.
pub(crate) fn numbers_of<T: Tree>(alloc: Global, tree: &T) -> Result<Vec<EntryNo>, AllocError> {
    let mut numbers = Vec::new(alloc);
    for number in 1..tree.next_no().unwrap_or(EntryNo::MAX) {
        if tree.entry(number).is_some() {
            numbers.push(number)?;
        }
    }
    Ok(numbers)
}

/// Writes a journal of the files that a recording leaves, and returns how many bytes of a cut last line were left out.
fn compact_recording<W: Write>(
    rt: &HostRuntime,
    file: &str,
    seed: u64,
    out: &mut W,
) -> Result<u64, KeptFault> {
    let mailbox = Mailbox::new(rt.alloc());
    match leave(rt, file, &mailbox) {
        Ok(left) => {
            let tree = left.share.server().store().tree();
            let numbers = numbers_of(rt.alloc(), tree)?;
            write_files(rt.alloc(), tree, &numbers, seed, out)?;
            Ok(left.left_out)
        }
        Err(fault) => Err(fault),
    }
}

/// Writes a journal of the files of a journal, and returns how many bytes of a cut last batch were left out.
fn compact_journal<W: Write>(
    rt: &HostRuntime,
    file: &str,
    seed: u64,
    out: &mut W,
) -> Result<u64, KeptFault> {
    let JournalFiles {
        tree,
        numbers,
        left_out,
        ..
    } = journal_files(rt, file, Space::greatest())?;
    write_files(rt.alloc(), &tree, &numbers, seed, out)?;
    Ok(left_out)
}

/// What was written, and what was left out.
#[derive(Clone, Copy, Debug)]
pub struct Compacted {
    pub kind: Kind,
    /// How many bytes of a cut last batch or line were left out.
    pub left_out: u64,
}

/// Writes a journal, whose first batch has this seed, of the files that a journal or a recording leaves. Entries keep
/// their numbers.
pub fn compact<W: Write>(
    rt: &HostRuntime,
    file: &str,
    seed: u64,
    out: &mut W,
) -> Result<Compacted, KeptFault> {
    let kind = kind_of(rt, file)?;
    let left_out = match kind {
        Kind::Journal => compact_journal(rt, file, seed, out)?,
        Kind::Recording(_) => compact_recording(rt, file, seed, out)?,
    };
    out.flush().map_err(fault_of_output)?;
    Ok(Compacted { kind, left_out })
}
