//! The steps that change a tree under construction.

ghost use Rattle.std.specs.Prelude.{◌≡◌, ◌≢◌, true, is_some, OnOk};
ghost use Rattle.std.specs.FinMap.{get};
ghost use Rattle.smb_files.specs.Files.{Files};
ghost use Rattle.smb_tree_of_files.specs.Building.{LeadsTo};

use super::fault::BuildFault;
use smb_nodes::NodeTree;
use smb_tree::{Basic, EntryNo, Kind, Tree, TreeFault};
use smb_wire::{FileAttributes, PathView};

// Why an entry cannot be added, moved or set.
pub fn fault_of(number: EntryNo, fault: TreeFault) -> BuildFault
    ensures { result ≡ BuildFault.NoMemory → fault ≡ TreeFault.NoMemory }
{
    match fault {
        TreeFault::NoMemory => BuildFault::NoMemory,
        TreeFault::Full => BuildFault::TooManyEntries,
        _ => BuildFault::Unfit { number },
    }
}

// Leaves out the numbers below one.
pub fn skip_to(tree: &mut NodeTree, number: EntryNo)
    ensures { (files : Files) → LeadsTo files tree.old tree.new }
{
    tree.skip_to(number);
}

// Adds an entry of a number at a path.
pub fn add_at(
    tree: &mut NodeTree,
    number: EntryNo,
    kind: Kind,
    path: &PathView<'_>,
) -> Result<(), BuildFault>
    ensures { (files : Files) → is_some (get files.entries number) ≡ true →
        OnOk result (LeadsTo files tree.old tree.new) }
{
    skip_to(tree, number);
    if tree.next_no() != Some(number) {
        return Err(BuildFault::Unfit { number });
    }
    match tree.add(path, kind, FileAttributes(0), 0) {
        Ok(_) => Ok(()),
        Err(fault) => Err(fault_of(number, fault)),
    }
}

// Moves an entry to a path.
pub fn move_to(tree: &mut NodeTree, number: EntryNo, path: &PathView<'_>) -> Result<(), BuildFault>
    requires { number ≢ 1 }
    ensures { (files : Files) → OnOk result (LeadsTo files tree.old tree.new) }
{
    match tree.move_entry(number, path) {
        Ok(()) => Ok(()),
        Err(fault) => Err(fault_of(number, fault)),
    }
}

// Gives an entry its times and attributes.
pub fn set_basic(tree: &mut NodeTree, number: EntryNo, basic: Basic) -> Result<(), BuildFault>
    ensures { (files : Files) → OnOk result (LeadsTo files tree.old tree.new) }
{
    match tree.set_basic(number, basic) {
        Ok(()) => Ok(()),
        Err(fault) => Err(fault_of(number, fault)),
    }
}

// Gives an entry its mark.
pub fn set_mark(tree: &mut NodeTree, number: EntryNo, mark: bool) -> Result<(), BuildFault>
    ensures { (files : Files) → OnOk result (LeadsTo files tree.old tree.new) }
{
    match tree.set_mark(number, mark) {
        Ok(()) => Ok(()),
        Err(fault) => Err(fault_of(number, fault)),
    }
}
