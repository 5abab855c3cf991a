//! A tree from files.

ghost use Rattle.std.specs.Prelude.{◌≡◌, IfOk, OnOk};
ghost use Rattle.std.specs.List.{AllByRecursion};
ghost use Rattle.smb_tree.specs.Good.{GoodContent, IsLawfulRow};
ghost use Rattle.smb_files.specs.Contents.{files_of};
ghost use Rattle.smb_tree_of_files.specs.Building.{IsFilled, IsUnder, LeadsTo};

use super::check::{check_all, has_next};
use super::fault::BuildFault;
use super::fill::fill_all;
use super::numbers::numbers_of;
use super::places::{add_all, place_all, set_all};
use super::steps::skip_to;
use smb_held_files::HeldFiles;
use smb_nodes::NodeTree;
use smb_tree::EntryNo;
use smb_wire::limits::Limits;
use std::alloc::Global;

// A tree that has the root alone, where that is held.
fn begin(
    alloc: Global,
    limits: Limits,
    capacity: u64,
    files: &HeldFiles,
) -> Result<NodeTree, BuildFault>
    ensures { IfOk result (λ tree. IsUnder files.now limits capacity tree) }
{
    if files.get(1).is_none() {
        return Err(BuildFault::Unfit { number: 1 });
    }
    match NodeTree::within(alloc, limits, 0, capacity) {
        Ok(tree) => Ok(tree),
        Err(_) => Err(BuildFault::NoMemory),
    }
}

// Adds all entries to a tree, puts them into their folders and gives them what is known of them.
fn put_entries(
    alloc: Global,
    tree: &mut NodeTree,
    files: &HeldFiles,
    numbers: &[EntryNo],
) -> Result<(), BuildFault>
    ensures { OnOk result (LeadsTo files.now tree.old tree.new) }
{
    add_all(alloc, tree, files, numbers)?;
    skip_to(tree, files.next());
    place_all(alloc, tree, files, numbers)?;
    set_all(tree, files, numbers)?;
    Ok(())
}

// A tree that has all entries as they are held, but for their bytes.
fn skeleton(
    alloc: Global,
    limits: Limits,
    capacity: u64,
    files: &HeldFiles,
) -> Result<NodeTree, BuildFault>
    ensures { IfOk result (λ tree. IsFilled files.now files.now limits capacity tree) }
{
    let numbers = numbers_of(alloc, files)?;
    if numbers.len().saturating_sub(1) > limits.entries {
        return Err(BuildFault::TooManyEntries);
    }
    let mut tree = begin(alloc, limits, capacity, files)?;
    put_entries(alloc, &mut tree, files, &numbers)?;
    check_all(&tree, files, &numbers)?;
    if !has_next(&tree, files) {
        return Err(BuildFault::Unfit {
            number: files.next(),
        });
    }
    Ok(tree)
}

/// The tree of these files, under these limits and with this capacity.
///
/// What is held of a file is let go once the tree has its bytes, so that the bytes of one file at most are in memory
/// twice. A page of 4,096 bytes that are all zeros takes no memory in the tree. With n entries it costs some n log n
/// steps, each as many times as there are folders around an entry, and one copy of all bytes.
///
/// [`TooManyEntries`](BuildFault::TooManyEntries), [`TooLong`](BuildFault::TooLong) and
/// [`NoRoom`](BuildFault::NoRoom) where the files pass the limits or the capacity, [`Unfit`](BuildFault::Unfit) where
/// they are not those of a tree, and [`NoMemory`](BuildFault::NoMemory) where an allocation is refused.
pub fn tree_of(
    alloc: Global,
    limits: Limits,
    capacity: u64,
    files: HeldFiles,
) -> Result<NodeTree, BuildFault>
    ensures good { IfOk result (λ tree. GoodContent tree) }
    ensures lawful { IfOk result (λ tree. AllByRecursion IsLawfulRow tree.rows) }
    ensures files { IfOk result (λ tree. files_of tree ≡ files) }
    ensures limits { IfOk result (λ tree. (tree.limits ≡ limits) × (tree.capacity ≡ capacity)) }
{
    let mut tree = skeleton(alloc, limits, capacity, &files)?;
    fill_all(alloc, &mut tree, files)?;
    Ok(tree)
}
