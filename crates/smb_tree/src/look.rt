//! Look-ups in stored entries.

ghost use Rattle.std.specs.Prelude.{◌≡◌, ◌<◌, ◌-◌, ◌^◌, ◌||◌, nat_le, None, IfNone, IfSome, length, is_some, slice_index_or, unwrap_or};
ghost use Rattle.std.specs.Option.{option_map};
ghost use Rattle.smb_wire.specs.Counters.{is_spent};
ghost use Rattle.smb_wire.specs.Paths.{components, folded_path};
ghost use Rattle.smb_wire.specs.PathViews.{parts_of};
ghost use Rattle.smb_wire.specs.Units.{units_of};
ghost use Rattle.smb_tree.specs.Content.{entry_at, numbered, number_at};
ghost use Rattle.smb_tree.specs.Entries.{is_folder};
ghost use Rattle.smb_tree.specs.Parts.{add_fault_by};
ghost use Rattle.smb_tree.specs.Plain.{row_of, rows_of, IsPlace};
ghost use Rattle.smb_tree.specs.Views.{shown, row_shown};

use super::entry::{EntryNo, EntryView};
use super::fault::TreeFault;
use super::stored::Stored;
use super::texts::{last_begin, text_of};
use smb_wire::{PathView, Units, same_name};

// The entry at the path that a text spells.
pub fn stored_at<'a>(entries: &'a Vec<Stored>, text: Units<'_>) -> Option<&'a Stored>
    ensures { option_map (λ stored. (row_of stored.now).1) result ≡ entry_at (rows_of entries.now.items) (folded_path (components (units_of text.entry))) }
{
    for stored in entries {
        if same_name(text_of(stored), text) {
            return Some(stored);
        }
    }
    None
}

// Whether a folder stands at the path that a text spells.
pub fn is_folder_at(entries: &Vec<Stored>, text: Units<'_>) -> bool
    ensures { result ≡ is_folder (entry_at (rows_of entries.now.items) (folded_path (components (units_of text.entry)))) }
{
    match stored_at(entries, text) {
        Some(stored) => stored.kind.is_folder(),
        None => false,
    }
}

// Whether an entry stands at the path that a text spells.
fn is_taken(entries: &Vec<Stored>, text: Units<'_>) -> bool
    ensures { result ≡ is_some (entry_at (rows_of entries.now.items) (folded_path (components (units_of text.entry)))) }
{
    stored_at(entries, text).is_some()
}

// The number of the entry at the path that a text spells, or 0.
fn number_or_none(entries: &Vec<Stored>, text: Units<'_>) -> EntryNo
    ensures { result ≡ unwrap_or (number_at (rows_of entries.now.items) (folded_path (components (units_of text.entry)))) 0 }
{
    match stored_at(entries, text) {
        Some(stored) => stored.number,
        None => 0,
    }
}

// The place of an entry.
pub fn place_of(entries: &Vec<Stored>, number: EntryNo) -> Option<usize>
    ensures none { IfNone result (numbered (rows_of entries.now.items) number ≡ None) }
    ensures within { IfSome result (λ i. i < length entries.now.items) }
    ensures place { IfSome result (λ i. (stored : _) → stored ≡ slice_index_or entries.now.items i stored → IsPlace entries.now.items number i stored) }
{
    for (i, stored) in entries.iter().enumerate() {
        if stored.number == number {
            return Some(i);
        }
    }
    None
}

// What a stored entry shows.
pub fn view_of<'a>(entries: &Vec<Stored>, stored: &'a Stored) -> EntryView<'a>
    ensures { shown result ≡ row_shown (rows_of entries.now.items) (row_of stored.now) }
{
    let text = text_of(stored);
    let begin = last_begin(text);
    let around = text.range(0, begin.saturating_sub(1));
    let parent = number_or_none(entries, around);
    EntryView {
        number: stored.number,
        parent,
        kind: stored.kind,
        basic: stored.basic,
        size: stored.bytes.len() as u64,
        mark: stored.mark,
        spelling: text.range(begin, text.len()),
    }
}

// Whether no entry can be added to so many, the root among them, because of their number or the next one's.
fn is_full(most: usize, count: usize, next: EntryNo) -> bool
    ensures { result ≡ (nat_le most (count - 1) || is_spent 64 next) }
{
    count.saturating_sub(1) >= most || next == EntryNo::MAX
}

// The first fault of an entry that would be added.
pub fn add_fault(
    entries: &Vec<Stored>,
    most: usize,
    next: EntryNo,
    path: &PathView<'_>,
) -> Option<TreeFault>
    ensures { result ≡ add_fault_by (entry_at (rows_of entries.now.items)) most (length entries.now.items) next (folded_path (parts_of path.now)) }
{
    let around = path.front(path.len().saturating_sub(1));
    if !is_folder_at(entries, around.text()) {
        return Some(TreeFault::ParentAbsent);
    }
    if is_taken(entries, path.text()) {
        return Some(TreeFault::Exists);
    }
    if is_full(most, entries.len(), next) {
        return Some(TreeFault::Full);
    }
    None
}
