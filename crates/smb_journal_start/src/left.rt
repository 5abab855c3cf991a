//! The files that a journal leaves, where no share goes on with it.

ghost use Rattle.std.specs.Prelude.{◌≡◌, ◌≢◌, OnOk, IfOk};
ghost use Rattle.std.specs.List.{AllByRecursion};
ghost use Rattle.smb_tree.specs.Content.{new_content_within};
ghost use Rattle.smb_tree.specs.Good.{GoodContent, IsLawfulRow};
ghost use Rattle.smb_opens.specs.Good.{UnmarkedTree};
ghost use Rattle.smb_files.specs.Contents.{files_of};
ghost use Rattle.smb_tree_of_files.specs.Numbers.{HasAll};
ghost use Rattle.smb_journal_start.specs.Unmarked.{HasUnmarked};

use super::fault::StartFault;
use super::marks::{is_none_marked, remove_all_marked};
use super::starting::Space;
use smb_nodes::NodeTree;
use smb_recovery::Recovered;
use smb_tree::{EntryNo, Tree};
use smb_tree_of_files::{numbers_of, tree_of};
use std::alloc::{AllocError, Global};

/// The number of the root.
const ROOT: EntryNo = 1;

/// The files that a journal leaves.
#[derive(Drop)]
pub struct LeftFiles {
    pub tree: NodeTree,
    /// The numbers of the tree's entries, in rising order, and of those that were marked.
    pub numbers: Vec<EntryNo>,
}

/// Removes what is marked, as the end of its last open would have done. `numbers` are those of all entries.
///
/// [`StartFault::Marked`] where a folder is marked that has entries.
pub fn end_marked<T: Tree>(tree: &mut T, numbers: &[EntryNo]) -> Result<(), StartFault>
    requires good { GoodContent (T.content tree.old) }
    requires lawful { AllByRecursion IsLawfulRow (T.content tree.old).rows }
    requires numbers { HasAll (files_of (T.content tree.old)) numbers.now }
    ensures unmarked { OnOk result (UnmarkedTree (T.content tree.new)) }
    ensures files { OnOk result (HasUnmarked (files_of (T.content tree.old)) (T.content tree.new)) }
    ensures limits { OnOk result ((T.content tree.new).limits ≡ (T.content tree.old).limits) }
    ensures capacity { OnOk result ((T.content tree.new).capacity ≡ (T.content tree.old).capacity) }
{
    remove_all_marked(tree, numbers);
    if is_none_marked(tree, numbers) {
        Ok(())
    } else {
        Err(StartFault::Marked)
    }
}

// The files of a journal that has no whole batch.
fn no_files(alloc: Global, space: Space) -> Result<LeftFiles, StartFault>
    ensures { IfOk result (λ left. left.tree ≡ new_content_within space.limits space.created space.capacity) }
{
    let Ok(tree) = NodeTree::within(alloc, space.limits, space.created, space.capacity) else {
        return Err(StartFault::NoMemory);
    };
    let mut numbers = Vec::new(alloc);
    numbers.push(ROOT).map_err(AllocError::from)?;
    Ok(LeftFiles { tree, numbers })
}

/// What was read of a journal as a tree that keeps nothing: the files are those that were found, but for the entries
/// that are marked, which go (`files`). Where there is no whole batch, the tree is a new one (`new`).
///
/// # Errors
///
/// - [`StartFault::Files`] where its files are not those of a tree, or pass the limits or the capacity.
/// - [`StartFault::Marked`] where a folder is marked that has entries.
/// - [`StartFault::NoMemory`] where an allocation is refused.
pub fn files_left(alloc: Global, found: Recovered, space: Space) -> Result<LeftFiles, StartFault>
    ensures unmarked { IfOk result (λ left. UnmarkedTree left.tree) }
    ensures new { IfOk result (λ left. found.whole ≡ 0 →
        left.tree ≡ new_content_within space.limits space.created space.capacity) }
    ensures files { IfOk result (λ left. found.whole ≢ 0 → HasUnmarked found.files left.tree) }
    ensures limits { IfOk result (λ left. left.tree.limits ≡ space.limits) }
    ensures capacity { IfOk result (λ left. left.tree.capacity ≡ space.capacity) }
{
    if found.whole == 0 {
        return no_files(alloc, space);
    }
    let numbers = numbers_of(alloc, &found.files)?;
    let mut tree = match tree_of(alloc, space.limits, space.capacity, found.files) {
        Ok(tree) => tree,
        Err(fault) => return Err(StartFault::from(fault)),
    };
    match end_marked(&mut tree, &numbers) {
        Ok(()) => Ok(LeftFiles { tree, numbers }),
        Err(fault) => Err(fault),
    }
}
