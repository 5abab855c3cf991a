//! The move of stored entries to another path.

ghost use Rattle.std.specs.Prelude.{◌≡◌, ◌<◌, ◌&&◌, false, IfOk, IfNone, IfSome, length, map, nat_lt};
ghost use Rattle.std.specs.List.{remove};
ghost use Rattle.smb_wire.specs.Paths.{folded_path};
ghost use Rattle.smb_wire.specs.PathViews.{parts_of};
ghost use Rattle.smb_tree.specs.Content.{entry_at};
ghost use Rattle.smb_tree.specs.Parts.{is_other_folder, would_be_too_deep, move_fault_between, without_other};
ghost use Rattle.smb_tree.specs.Moves.{is_within, replaced};
ghost use Rattle.smb_tree.specs.NewTexts.{parts_new, parts_moved, with_parts, with_all_parts};
ghost use Rattle.smb_tree.specs.Plain.{row_of, rows_of};

use super::entry::EntryNo;
use super::fault::TreeFault;
use super::look::{is_folder_at, place_of, stored_at};
use super::paths::{is_within, new_text, path_of};
use super::stored::{NewText, Stored};
use smb_wire::PathView;
use smb_wire::limits::MOST_COMPONENTS;
use std::alloc::{AllocError, Global};

// The most components of a path.
// Whether a stored entry would have too many components once what is within `from` was moved to `to`.
fn would_be_deep(stored: &Stored, from: &PathView<'_>, to: &PathView<'_>) -> bool
    ensures { result ≡ (is_within (folded_path (parts_of from.now)) (row_of stored.now).0 && nat_lt MOST_COMPONENTS (length (replaced (folded_path (parts_of from.now)) (folded_path (parts_of to.now)) (row_of stored.now).0))) }
{
    let path = path_of(stored);
    is_within(from, &path) && to.len() + (path.len() - from.len()) > MOST_COMPONENTS
}

// Whether some stored entry would.
fn would_be_too_deep(entries: &Vec<Stored>, from: &PathView<'_>, to: &PathView<'_>) -> bool
    ensures { result ≡ would_be_too_deep (rows_of entries.now.items) (folded_path (parts_of from.now)) (folded_path (parts_of to.now)) }
{
    for stored in entries {
        if would_be_deep(stored, from, to) {
            return true;
        }
    }
    false
}

// Whether a folder stands at a path, and isn't the entry of this number.
fn is_other_folder(entries: &Vec<Stored>, number: EntryNo, path: &PathView<'_>) -> bool
    ensures { result ≡ is_other_folder number (entry_at (rows_of entries.now.items) (folded_path (parts_of path.now))) }
{
    match stored_at(entries, path.text()) {
        Some(stored) => stored.kind.is_folder() && stored.number != number,
        None => false,
    }
}

// The first fault of a move of the entry of this number between two paths.
pub fn move_fault(
    entries: &Vec<Stored>,
    number: EntryNo,
    from: &PathView<'_>,
    to: &PathView<'_>,
) -> Option<TreeFault>
    ensures { result ≡ move_fault_between (rows_of entries.now.items) number (folded_path (parts_of from.now)) (folded_path (parts_of to.now)) }
{
    let around = to.front(to.len().saturating_sub(1));
    if !is_folder_at(entries, around.text()) || is_within(from, &around) {
        return Some(TreeFault::ParentAbsent);
    }
    if is_other_folder(entries, number, to) {
        return Some(TreeFault::Exists);
    }
    if would_be_too_deep(entries, from, to) {
        return Some(TreeFault::TooDeep);
    }
    None
}

// The place of the entry that stands at a path, unless it is the one of this number.
pub fn place_of_other(entries: &Vec<Stored>, number: EntryNo, path: &PathView<'_>) -> Option<usize>
    ensures none { IfNone result (without_other (rows_of entries.now.items) number (entry_at (rows_of entries.now.items) (folded_path (parts_of path.now))) ≡ rows_of entries.now.items) }
    ensures within { IfSome result (λ i. i < length entries.now.items) }
    ensures some { IfSome result (λ i. rows_of (remove entries.now.items i) ≡ without_other (rows_of entries.now.items) number (entry_at (rows_of entries.now.items) (folded_path (parts_of path.now)))) }
{
    let stored = stored_at(entries, path.text())?;
    if stored.number == number {
        return None;
    }
    place_of(entries, stored.number)
}

// The text that a stored entry gets by a move, if it is moved.
fn text_moved(
    alloc: Global,
    stored: &Stored,
    from: &PathView<'_>,
    to: &PathView<'_>,
) -> Result<Option<NewText>, AllocError>
    requires { (is_within (folded_path (parts_of from.now)) (row_of stored.now).0 && nat_lt MOST_COMPONENTS (length (replaced (folded_path (parts_of from.now)) (folded_path (parts_of to.now)) (row_of stored.now).0))) ≡ false }
    ensures { IfOk result (λ new. parts_new new ≡ parts_moved (parts_of from.now) (parts_of to.now) stored.now) }
{
    let path = path_of(stored);
    if !is_within(from, &path) {
        return Ok(None);
    }
    let new = new_text(alloc, to, &path, from.len())?;
    Ok(Some(new))
}

// The texts that all stored entries get by a move.
pub fn texts_moved(
    alloc: Global,
    entries: &Vec<Stored>,
    from: &PathView<'_>,
    to: &PathView<'_>,
) -> Result<Vec<Option<NewText>>, AllocError>
    requires { would_be_too_deep (rows_of entries.now.items) (folded_path (parts_of from.now)) (folded_path (parts_of to.now)) ≡ false }
    ensures { IfOk result (λ news. map parts_new news.items ≡ map (parts_moved (parts_of from.now) (parts_of to.now)) entries.now.items) }
{
    let mut news = Vec::with_capacity(alloc, entries.len())?;
    for stored in entries {
        let new = text_moved(alloc, stored, from, to)?;
        news.push(new)?;
    }
    Ok(news)
}

// Gives a stored entry its new text, if it gets one.
fn put_text(stored: &mut Stored, new: &mut Option<NewText>)
    ensures { row_of stored.new ≡ with_parts (row_of stored.old) (parts_new new.old) }
{
    if let Some(NewText { text }) = new.take() {
        stored.text = text;
    }
}

// Gives each stored entry its new text.
pub fn put_texts(entries: &mut Vec<Stored>, news: &mut Vec<Option<NewText>>)
    requires { length news.old.items ≡ length entries.old.items }
    ensures rows { rows_of entries.new.items ≡ with_all_parts (rows_of entries.old.items) (map parts_new news.old.items) }
    ensures long { length entries.new.items ≡ length entries.old.items }
{
    for i in 0..entries.len() {
        put_text(&mut entries[i], &mut news[i]);
    }
}
