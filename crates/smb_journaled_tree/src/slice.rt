//! The next changes of a journal that is written anew.

ghost use Rattle.std.specs.Prelude.{◌≡◌, ◌⊎◌, ◌++◌, ◌∷◌, [], ℕ, ◌<◌, ◌≤◌, true, OnOk, IfOk, Some, length, take, drop, get_or};
ghost use Rattle.std.specs.List.{AllByRecursion};
ghost use Rattle.smb_tree.specs.Content.{Row, numbered, bytes_of};
ghost use Rattle.smb_tree.specs.Good.{GoodContent};
ghost use Rattle.smb_files.specs.Files.{Change, resizes, writes};
ghost use Rattle.smb_files.specs.Contents.{files_of};
ghost use Rattle.smb_files.specs.Laws.{entry_change};
ghost use Rattle.smb_changes.specs.Batches.{spelled, spelled_change};
ghost use Rattle.smb_changes.specs.Crash.{IsWritable};
ghost use Rattle.smb_changes.specs.Open.{changes_in_batch};
ghost use Rattle.smb_journaled_tree.specs.Renewal.{Brings, PutsPart};

use super::notes::note_entry;
use super::place::Place;
use smb_changes::{Change, OpenBatch};
use smb_tree::{EntryNo, Tree};
use smb_wire::WireFault;

// How many bytes of a file are put into one change, at most.
const PIECE: u64 = 1 << 18;

// How many bytes of changes a slice has, but for its last change, at most.
const SLICE: usize = 1 << 20;

// How many entries a slice goes over, or pieces of their bytes, at most.
const STEPS: usize = 4_096;

// Whether bytes are all zero.
fn are_zeros(bytes: &[u8]) -> bool
    ensures { result ≡ true → (i : ℕ) → get_or bytes.now i 0 ≡ 0 }
{
    for byte in bytes {
        if *byte != 0 {
            return false;
        }
    }
    true
}

// Notes an entry as it is, with as many zeros as it has bytes.
fn note_begun<T: Tree>(
    tree: &T,
    batch: &mut OpenBatch,
    number: EntryNo,
    size: u64,
) -> Result<(), WireFault>
    ensures ok { OnOk result (changes_in_batch batch.new ≡ changes_in_batch batch.old
        ++ spelled (entry_change (T.content tree.now) number ∷ resizes number 0 ∷ resizes number size ∷ [])) }
    ensures writable { OnOk result (AllByRecursion IsWritable
        (entry_change (T.content tree.now) number ∷ resizes number 0 ∷ resizes number size ∷ [])) }
{
    note_entry(tree, batch, number)?;
    batch.note(Change::Size { number, size: 0 })?;
    batch.note(Change::Size { number, size })?;
    Ok(())
}

// Notes the bytes of a file from `done` on, as many as a change has at most, but where all are zero, and returns how
// many these are.
fn note_part<T: Tree>(
    tree: &T,
    batch: &mut OpenBatch,
    number: EntryNo,
    done: u64,
    piece: &mut Vec<u8>,
) -> Result<u64, WireFault>
    ensures { IfOk result (λ count. PutsPart number done count (bytes_of (T.content tree.now).rows number) (changes_in_batch batch.old) (changes_in_batch batch.new)) }
{
    piece.clear();
    match tree.read(number, done, PIECE, piece) {
        Ok(()) => {}
        Err(_) => return Err(WireFault::NoMemory),
    }
    if !are_zeros(piece) {
        batch.note(Change::Bytes {
            number,
            offset: done,
            bytes: piece,
        })?;
    }
    Ok(piece.len() as u64)
}

// Notes what comes next of the entry at a place, and moves the place behind that.
fn note_next<T: Tree>(
    tree: &T,
    batch: &mut OpenBatch,
    place: &mut Place,
    piece: &mut Vec<u8>,
) -> Result<(), WireFault>
    requires good { GoodContent (T.content tree.now) }
    requires few { place.old.number < (T.content tree.now).next }
    ensures { OnOk result (Brings (files_of (T.content tree.now)) (changes_in_batch batch.old) (changes_in_batch batch.new) place.old place.new) }
{
    let number = place.number;
    let size = match tree.entry(number) {
        Some(view) => view.size,
        None => {
            *place = Place::before(number + 1);
            return Ok(());
        }
    };
    match place.begun {
        None => {
            note_begun(tree, batch, number, size)?;
            place.begun = Some(0);
        }
        Some(done) if done < size => {
            let count = note_part(tree, batch, number, done, piece)?;
            place.begun = Some(done + count);
        }
        Some(_) => *place = Place::before(number + 1),
    }
    Ok(())
}

/// Notes the next changes of a journal that is written anew, behind those of a batch, and moves its place behind them.
/// `next` is the tree's next number. After an error the place may have moved on.
pub fn note_slice<T: Tree>(
    tree: &T,
    next: EntryNo,
    batch: &mut OpenBatch,
    place: &mut Place,
    piece: &mut Vec<u8>,
) -> Result<(), WireFault>
    requires good { GoodContent (T.content tree.now) }
    requires next { next ≡ (T.content tree.now).next }
    ensures { OnOk result (Brings (files_of (T.content tree.now)) (changes_in_batch batch.old) (changes_in_batch batch.new) place.old place.new) }
{
    for _ in 0..STEPS {
        if place.number >= next || batch.len() >= SLICE {
            return Ok(());
        }
        note_next(tree, batch, place, piece)?;
    }
    Ok(())
}
