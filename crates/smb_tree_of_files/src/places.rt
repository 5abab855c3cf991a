//! Entries are put into their folders.

ghost use Rattle.std.specs.Prelude.{◌≡◌, true, is_some, OnOk, IfOk, IfSome};
ghost use Rattle.std.specs.FinMap.{get};
ghost use Rattle.smb_wire.specs.Pairs.{units_in};
ghost use Rattle.smb_wire.specs.Paths.{path_spelled};
ghost use Rattle.smb_wire.specs.PathViews.{parts_of};
ghost use Rattle.smb_tree.specs.Content.{numbered};
ghost use Rattle.smb_tree_of_files.specs.Building.{LeadsTo};

use super::fault::BuildFault;
use super::names::{free_key, temporary_name};
use super::steps::{add_at, fault_of, move_to, set_basic, set_mark};
use smb_held_files::{HeldFile, HeldFiles};
use smb_nodes::NodeTree;
use smb_tree::{EntryNo, Tree};
use smb_wire::limits::MOST_COMPONENTS;
use smb_wire::{PathView, Units, split_path};
use std::alloc::Global;

// The number of the root.
const ROOT: EntryNo = 1;

// The path that a name spells.
fn path_of(name: &[u8], number: EntryNo) -> Result<PathView<'_>, BuildFault>
    ensures { IfOk result (λ path. parts_of path ≡ path_spelled (units_in name.now)) }
{
    let Some(text) = Units::of(name) else {
        return Err(BuildFault::Unfit { number });
    };
    match split_path(text) {
        Ok(path) => Ok(path),
        Err(_) => Err(BuildFault::Unfit { number }),
    }
}

// Adds an entry to the root, under a temporary name.
fn add_one(
    alloc: Global,
    tree: &mut NodeTree,
    files: &HeldFiles,
    key: u64,
    number: EntryNo,
) -> Result<(), BuildFault>
    ensures { OnOk result (LeadsTo files.now tree.old tree.new) }
{
    let Some(file) = files.get(number) else {
        return Err(BuildFault::Unfit { number });
    };
    let name = temporary_name(alloc, key, number)?;
    let path = path_of(&name, number)?;
    add_at(tree, number, file.kind, &path)
}

// Adds all entries but the root, each to the root, under a temporary name.
pub fn add_all(
    alloc: Global,
    tree: &mut NodeTree,
    files: &HeldFiles,
    numbers: &[EntryNo],
) -> Result<(), BuildFault>
    ensures { OnOk result (LeadsTo files.now tree.old tree.new) }
{
    let key = free_key(alloc, files, numbers)?;
    for number in numbers {
        if *number != ROOT {
            add_one(alloc, tree, files, key, *number)?;
        }
    }
    Ok(())
}

// Whether an entry is in its folder, under its name.
fn is_placed(tree: &NodeTree, number: EntryNo, file: &HeldFile) -> bool
    ensures { result ≡ true → is_some (numbered tree.now.rows number) ≡ true }
{
    match tree.entry(number) {
        Some(view) => view.parent == file.parent
            && view.spelling.bytes() == file.spelling.as_slice(),
        None => false,
    }
}

// Of an entry and the folders around it the outermost that is not at its place, or None where all are.
fn outermost(
    tree: &NodeTree,
    files: &HeldFiles,
    number: EntryNo,
) -> Result<Option<EntryNo>, BuildFault>
    ensures { IfOk result (λ found. IfSome found (λ at. is_some (get files.now.entries at) ≡ true)) }
{
    let mut found = None;
    let mut at = number;
    for _ in 0..=MOST_COMPONENTS {
        let Some(file) = files.get(at) else {
            return Err(BuildFault::Unfit { number });
        };
        if is_placed(tree, at, file) {
            return Ok(found);
        }
        found = Some(at);
        at = file.parent;
    }
    Err(BuildFault::Unfit { number })
}

// Moves an entry into its folder, which is at its place.
fn place_one(
    alloc: Global,
    tree: &mut NodeTree,
    files: &HeldFiles,
    number: EntryNo,
) -> Result<(), BuildFault>
    ensures { OnOk result (LeadsTo files.now tree.old tree.new) }
{
    let Some(file) = files.get(number) else {
        return Err(BuildFault::Unfit { number });
    };
    let mut name = match tree.copy_entry(alloc, file.parent) {
        Ok(folder) => folder.name,
        Err(fault) => return Err(fault_of(number, fault)),
    };
    if !name.is_empty() {
        name.extend_from_slice(&[0x5c, 0])?;
    }
    name.extend_from_slice(&file.spelling)?;
    let path = path_of(&name, number)?;
    if number == ROOT || tree.find(&path).is_some() {
        return Err(BuildFault::Unfit { number });
    }
    move_to(tree, number, &path)
}

// Moves an entry to its place, and before it the folders around it that are not at theirs.
fn place(
    alloc: Global,
    tree: &mut NodeTree,
    files: &HeldFiles,
    number: EntryNo,
) -> Result<(), BuildFault>
    ensures { OnOk result (LeadsTo files.now tree.old tree.new) }
{
    for _ in 0..=MOST_COMPONENTS {
        match outermost(tree, files, number)? {
            Some(at) => place_one(alloc, tree, files, at)?,
            None => return Ok(()),
        }
    }
    Err(BuildFault::Unfit { number })
}

// Moves all entries to their places.
pub fn place_all(
    alloc: Global,
    tree: &mut NodeTree,
    files: &HeldFiles,
    numbers: &[EntryNo],
) -> Result<(), BuildFault>
    ensures { OnOk result (LeadsTo files.now tree.old tree.new) }
{
    for number in numbers {
        place(alloc, tree, files, *number)?;
    }
    Ok(())
}

// Gives an entry its times, its attributes and its mark.
fn set_one(tree: &mut NodeTree, files: &HeldFiles, number: EntryNo) -> Result<(), BuildFault>
    ensures { OnOk result (LeadsTo files.now tree.old tree.new) }
{
    let Some(file) = files.get(number) else {
        return Err(BuildFault::Unfit { number });
    };
    set_basic(tree, number, file.basic)?;
    set_mark(tree, number, file.mark)?;
    Ok(())
}

// Gives all entries their times, their attributes and their marks.
pub fn set_all(
    tree: &mut NodeTree,
    files: &HeldFiles,
    numbers: &[EntryNo],
) -> Result<(), BuildFault>
    ensures { OnOk result (LeadsTo files.now tree.old tree.new) }
{
    for number in numbers {
        set_one(tree, files, *number)?;
    }
    Ok(())
}
