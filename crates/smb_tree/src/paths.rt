//! The paths of stored entries.

ghost use Rattle.std.specs.Prelude.{◌≡◌, ◌≤◌, ◌+◌, ◌-◌, ◌++◌, IfOk, OnOk, length, drop};
ghost use Rattle.smb_wire.specs.Limits.{most_components};
ghost use Rattle.smb_wire.specs.Pairs.{units_in, unit_bytes};
ghost use Rattle.smb_wire.specs.Paths.{components, folded_path};
ghost use Rattle.smb_wire.specs.PathViews.{parts_of};
ghost use Rattle.smb_wire.specs.Units.{units_of};
ghost use Rattle.smb_tree.specs.Moves.{is_within};
ghost use Rattle.smb_tree.specs.NewTexts.{separated};
ghost use Rattle.smb_tree.specs.Plain.{parts_stored};

use super::stored::{NewText, Stored};
use super::texts::text_of;
use smb_wire::{PathView, Units, same_name, split_path};
use std::alloc::{AllocError, Global};

// A backslash, two bytes.
const SEPARATOR: [u8; 2] = [0x5c, 0];

// The path at which an entry is stored.
pub fn path_of(stored: &Stored) -> PathView<'_>
    ensures { parts_of result ≡ parts_stored stored.now }
{
    split_path(text_of(stored)).unwrap()
}

// Whether a path is another one, or lies beneath it.
pub fn is_within(head: &PathView<'_>, path: &PathView<'_>) -> bool
    ensures { result ≡ is_within (folded_path (parts_of head.now)) (folded_path (parts_of path.now)) }
{
    let count = head.len();
    count <= path.len() && same_name(path.front(count).text(), head.text())
}

// Adds a component behind a text of others, with a separator before it where it isn't the first.
pub fn add_component(text: &mut Vec<u8>, is_first: bool, part: Units<'_>) -> Result<(), AllocError>
    ensures { OnOk result (text.new.items ≡ text.old.items ++ unit_bytes (separated is_first (units_of part.entry))) }
{
    if !is_first {
        text.extend_from_slice(&SEPARATOR)?;
    }
    text.extend_from_slice(part.bytes())
}

// The text of a path, and behind it the components of another one without the first ones.
pub fn new_text(
    alloc: Global,
    to: &PathView<'_>,
    path: &PathView<'_>,
    count: usize,
) -> Result<NewText, AllocError>
    requires within { count ≤ length (parts_of path.now) }
    requires shallow { length (parts_of to.now) + (length (parts_of path.now) - count) ≤ most_components }
    ensures { IfOk result (λ new. components (units_in new.text.items) ≡ parts_of to.now ++ drop count (parts_of path.now)) }
{
    let mut text = Vec::from_slice(alloc, to.text().bytes())?;
    for i in count..path.len() {
        let is_first = i + to.len() == count;
        add_component(&mut text, is_first, path.part(i))?;
    }
    Ok(NewText { text })
}
