//! The target of a move, and why it is refused.

ghost use Rattle.std.specs.Prelude.{◌≡◌, ◌≤◌, ℕ, List, Some, true, is_some};
ghost use Rattle.smb_wire.specs.Limits.{most_components};
ghost use Rattle.smb_wire.specs.Paths.{folded_path};
ghost use Rattle.smb_wire.specs.PathViews.{parts_of};
ghost use Rattle.smb_tree.specs.Content.{parent};
ghost use Rattle.smb_tree.specs.Entries.{is_folder};
ghost use Rattle.smb_tree.specs.Parts.{is_other_folder, move_fault_between};
ghost use Rattle.smb_nodes.specs.Nodes.{IsTree, entry_in, entry_on, levels, row_in, rows_in, walk};
ghost use Rattle.smb_nodes.specs.Seen.{heap_of};
ghost use Rattle.smb_nodes.specs.Ways.{NoneBelow, is_within_slot};

use super::look::{child_of, number_or_none};
use super::node::Node;
use super::ways::{gets_deep, levels_below};
use super::whole_names::most_levels;
use slab::Slab;
use smb_tree::{EntryNo, TreeFault};
use smb_wire::PathView;

// The slot to which a path leads, by that of the folder around it: one look-up there.
pub fn target_in(nodes: &Slab<Node>, folder: usize, path: &PathView<'_>) -> Option<usize>
    requires { walk (heap_of nodes.now) (Some 0) (parent (folded_path (parts_of path.now))) ≡ Some folder }
    ensures { result ≡ walk (heap_of nodes.now) (Some 0) (folded_path (parts_of path.now)) }
{
    let count = path.len();
    if count == 0 {
        return Some(0);
    }
    child_of(nodes, folder, path.part(count - 1))
}

// Whether a slot has a folder.
pub fn has_folder(nodes: &Slab<Node>, slot: usize) -> bool
    ensures { result ≡ is_folder (entry_in (heap_of nodes.now slot)) }
{
    match nodes.get(slot) {
        Some(node) => node.kind.is_folder(),
        None => false,
    }
}

// Whether a slot, if there is one, has a folder that isn't the entry of this number.
fn is_other_folder(nodes: &Slab<Node>, number: EntryNo, slot: Option<usize>) -> bool
    ensures { result ≡ is_other_folder number (entry_on (heap_of nodes.now) slot) }
{
    match slot {
        Some(slot) => has_folder(nodes, slot) && number_or_none(nodes, slot) != number,
        None => false,
    }
}

// Whether a slot is another one or lies beneath it: at most one step up for each component of its path.
pub fn is_within(nodes: &Slab<Node>, top: usize, slot: usize) -> bool
    ensures { result ≡ is_within_slot (heap_of nodes.now) top (Some slot) }
{
    levels_below(nodes, most_levels(), top, slot).is_some()
}

// The first fault of a move of the node in a slot, which has this number and no other more than `below` levels beneath
// it, to a path, around which a slot is found. It goes through all slots where nothing else is against the move, and
// that bound doesn't say that no path gets too long.
pub fn move_fault(
    nodes: &Slab<Node>,
    slot: usize,
    number: EntryNo,
    path: &PathView<'_>,
    folder: usize,
    target: Option<usize>,
    below: usize,
) -> Option<TreeFault>
    requires live { is_some (heap_of nodes.now slot) ≡ true }
    requires folder { walk (heap_of nodes.now) (Some 0) (parent (folded_path (parts_of path.now))) ≡ Some folder }
    requires target { target ≡ walk (heap_of nodes.now) (Some 0) (folded_path (parts_of path.now)) }
    requires few { below ≤ most_components }
    requires below { NoneBelow (heap_of nodes.now) slot below }
    ensures { (index : List (ℕ × ℕ)) (next : ℕ) → IsTree (heap_of nodes.now) index next → result ≡ move_fault_between (rows_in (heap_of nodes.now) levels index) number (row_in (heap_of nodes.now) levels slot).0 (folded_path (parts_of path.now)) }
{
    if !has_folder(nodes, folder) {
        return Some(TreeFault::ParentAbsent);
    }
    if is_within(nodes, slot, folder) {
        return Some(TreeFault::ParentAbsent);
    }
    if is_other_folder(nodes, number, target) {
        return Some(TreeFault::Exists);
    }
    if gets_deep(nodes, slot, path.len(), below) {
        return Some(TreeFault::TooDeep);
    }
    None
}
