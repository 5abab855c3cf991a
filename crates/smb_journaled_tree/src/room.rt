//! Changes are noted where the journal has room for them.

ghost use Rattle.std.specs.Prelude.{◌≡◌, ◌++◌, ◌+◌, ◌≤◌, true, OnOk, OnErr, IfSome, length};
ghost use Rattle.smb_changes.specs.Batches.{spelled_change};
ghost use Rattle.smb_changes.specs.Shown.{change_shown};
ghost use Rattle.smb_changes.specs.Crash.{IsWritable};
ghost use Rattle.smb_changes.specs.Open.{changes_in_batch};
ghost use Rattle.smb_journaled_tree.specs.Room.{margin};

use super::file::JournalFile;
use smb_changes::{Change, OpenBatch};

// How many bytes of a turn's changes are never refused, at most, but for entries that go: times, attributes, marks and
// names.
const UNREFUSED: u64 = 1 << 20;

// How many bytes say that an entry is gone.
const GONE: u64 = 25;

// How much room is to be behind the whole batches, by the bytes of the next changes; None where no number has it.
fn room_for(length: usize, entries: usize) -> Option<u64>
    ensures { IfSome result (λ count. count ≡ length + margin entries) }
{
    let gone = GONE.checked_mul(entries as u64)?;
    let margin = UNREFUSED.checked_add(gone)?;
    margin.checked_add(length as u64)
}

/// Whether a journal has room for `length` bytes of changes, and for what is never refused besides.
pub fn has_room<J: JournalFile>(file: &mut J, length: usize, entries: usize) -> bool
    ensures room { result ≡ true → length + margin entries ≤ J.room file.new }
    ensures held { J.held file.new ≡ J.held file.old }
{
    match room_for(length, entries) {
        Some(count) => file.take_room(count),
        None => false,
    }
}

/// There is no memory, or no room in the journal's file.
#[derive(Clone, Copy, Debug)]
pub struct NoRoom;

/// Notes a change behind others, of a tree with this number of entries. It is refused, and the others stay, where
/// memory runs out, and where the journal has no room for all of them beside what is never refused.
pub fn note_change<J: JournalFile>(
    file: &mut J,
    pending: &mut OpenBatch,
    entries: usize,
    change: Change<'_>,
) -> Result<(), NoRoom>
    ensures ok { OnOk result (changes_in_batch pending.new
        ≡ changes_in_batch pending.old ++ spelled_change (change_shown change.entry)) }
    ensures writable { OnOk result (IsWritable (change_shown change.entry)) }
    ensures room { OnOk result (length (changes_in_batch pending.new) + margin entries ≤ J.room file.new) }
    ensures err { OnErr result (changes_in_batch pending.new ≡ changes_in_batch pending.old) }
    ensures held { J.held file.new ≡ J.held file.old }
{
    let before = pending.len();
    match pending.note(change) {
        Ok(()) => {}
        Err(_) => return Err(NoRoom),
    }
    if has_room(file, pending.len(), entries) {
        return Ok(());
    }
    pending.truncate(before);
    Err(NoRoom)
}
