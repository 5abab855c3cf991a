//! What was built is compared with what is held.

ghost use Rattle.std.specs.Prelude.{◌≡◌, ℕ, true, OnOk};
ghost use Rattle.smb_wire.specs.Units.{units_of};
ghost use Rattle.smb_wire.specs.Pairs.{units_in};
ghost use Rattle.smb_tree.specs.Views.{shown};
ghost use Rattle.smb_held_files.specs.Held.{file_shown};
ghost use Rattle.smb_tree.specs.Good.{GoodContent};
ghost use Rattle.smb_tree_of_files.specs.Building.{shown_of, is_one_of, IsBare};

use super::fault::BuildFault;
use smb_held_files::{HeldFile, HeldFiles};
use smb_nodes::NodeTree;
use smb_tree::{EntryNo, EntryView, Tree};
use smb_wire::Units;

// Whether a text is what bytes spell.
fn is_spelled(text: Units<'_>, bytes: &[u8]) -> bool
    ensures { result ≡ true → units_of text.entry ≡ units_in bytes.now }
{
    text.bytes() == bytes
}

// Whether an entry is as a file is held, and has no bytes.
fn is_as_held(view: &EntryView<'_>, file: &HeldFile) -> bool
    ensures { result ≡ true → shown view.now ≡ shown_of view.now.number (file_shown file.now) }
{
    view.parent == file.parent
        && view.kind == file.kind
        && view.basic == file.basic
        && view.mark == file.mark
        && view.size == 0
        && is_spelled(view.spelling, &file.spelling)
}

// Compares an entry with what is held under its number.
fn check_one(tree: &NodeTree, files: &HeldFiles, number: EntryNo) -> Result<(), BuildFault>
    ensures { OnOk result (IsBare files.now tree.now number) }
{
    let Some(file) = files.get(number) else {
        return Err(BuildFault::Unfit { number });
    };
    match tree.entry(number) {
        Some(view) if is_as_held(&view, file) => Ok(()),
        _ => Err(BuildFault::Unfit { number }),
    }
}

// Compares each entry with what is held under its number.
pub fn check_all(tree: &NodeTree, files: &HeldFiles, numbers: &[EntryNo]) -> Result<(), BuildFault>
    ensures { OnOk result ((n : ℕ) → is_one_of numbers.now n ≡ true → IsBare files.now tree.now n) }
{
    for number in numbers {
        check_one(tree, files, *number)?;
    }
    Ok(())
}

// Whether the next numbers are the same.
pub fn has_next(tree: &NodeTree, files: &HeldFiles) -> bool
    ensures { result ≡ true → GoodContent tree.now → tree.now.next ≡ files.now.next }
{
    match tree.next_no() {
        Some(next) => next == files.next(),
        None => files.next() == EntryNo::MAX,
    }
}
