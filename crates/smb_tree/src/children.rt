//! The children of a folder among stored entries.

ghost use Rattle.std.specs.Prelude.{◌≡◌};
ghost use Rattle.std.specs.Option.{option_map, option_copied};
ghost use Rattle.smb_wire.specs.Paths.{components, folded_path};
ghost use Rattle.smb_wire.specs.Units.{units_of};
ghost use Rattle.smb_tree.specs.Children.{name_of, is_child};
ghost use Rattle.smb_tree.specs.Parts.{has_children, is_after, next_child};
ghost use Rattle.smb_tree.specs.Plain.{row_of, rows_of, nearer};

use super::entry::EntryNo;
use super::stored::Stored;
use super::texts::{last_begin, text_of};
use smb_wire::{FoldedName, Units, same_name};

// Whether a stored entry stands in the folder at the path that a text spells.
fn is_child(stored: &Stored, folder: Units<'_>) -> bool
    ensures { result ≡ is_child (folded_path (components (units_of folder.entry))) (row_of stored.now) }
{
    let text = text_of(stored);
    let around = text.range(0, last_begin(text).saturating_sub(1));
    text.len() > 0 && same_name(around, folder)
}

// The name of a stored entry.
pub fn name_of(stored: &Stored) -> FoldedName
    ensures { result ≡ name_of (row_of stored.now) }
{
    let text = text_of(stored);
    FoldedName::of(text.range(last_begin(text), text.len())).unwrap()
}

// Whether entries stand in the folder at the path that a text spells.
pub fn has_children(entries: &Vec<Stored>, folder: Units<'_>) -> bool
    ensures { result ≡ has_children (rows_of entries.now.items) (folded_path (components (units_of folder.entry))) }
{
    for stored in entries {
        if is_child(stored, folder) {
            return true;
        }
    }
    false
}

// Whether a name comes after a given one, or none is given.
fn is_after(name: &FoldedName, after: Option<&FoldedName>) -> bool
    ensures { result ≡ is_after (option_copied after.entry) name.now }
{
    match after {
        Some(other) => other.cmp(name).is_lt(),
        None => true,
    }
}

// Of a child that was found, by its name and number, and another one, the one whose name comes first.
fn nearer(
    found: Option<(FoldedName, EntryNo)>,
    name: FoldedName,
    number: EntryNo,
) -> Option<(FoldedName, EntryNo)>
    ensures { result ≡ nearer found name number }
{
    match found {
        Some(other) if !name.cmp(&other.0).is_lt() => Some(other),
        _ => Some((name, number)),
    }
}

// The number of the child of the folder at a path's text whose name comes next after a given one, or first.
pub fn next_child(
    entries: &Vec<Stored>,
    folder: Units<'_>,
    after: Option<&FoldedName>,
) -> Option<EntryNo>
    ensures { result ≡ option_map (λ row. row.1.number) (next_child (rows_of entries.now.items) (folded_path (components (units_of folder.entry))) (option_copied after.entry)) }
{
    let mut found = None;
    for stored in entries {
        if is_child(stored, folder) {
            let name = name_of(stored);
            if is_after(&name, after) {
                found = nearer(found, name, stored.number);
            }
        }
    }
    let (_, number) = found?;
    Some(number)
}
