//! Additions: one more node.

ghost use Rattle.std.specs.Prelude.{◌≡◌, ◌-◌, ◌^◌, ◌||◌, ◌∷◌, ◌++◌, [], true, None, Some, is_some, nat_le, OnOk, OnErr};
ghost use Rattle.smb_wire.specs.Counters.{is_spent};
ghost use Rattle.smb_wire.specs.Names.{folded};
ghost use Rattle.smb_wire.specs.Paths.{folded_path};
ghost use Rattle.smb_wire.specs.PathViews.{parts_of};
ghost use Rattle.smb_tree.specs.Content.{parent};
ghost use Rattle.smb_tree.specs.Parts.{add_fault_by};
ghost use Rattle.smb_nodes.specs.Changes.{Grown};
ghost use Rattle.smb_nodes.specs.Nodes.{child_in, entry_down, entry_on, walk, Under};
ghost use Rattle.smb_nodes.specs.Seen.{heap_of, entry_seen, SameHeap};

use super::children::add_child;
use super::look::name_of;
use super::moves::{has_folder, target_in};
use super::node::Node;
use slab::Slab;
use smb_tree::{EntryNo, TreeFault};
use smb_wire::PathView;
use std::alloc::{AllocError, Global};
use std::collections::BTreeMap;

// Whether a slot, if there is one, has a node.
fn is_taken(nodes: &Slab<Node>, slot: Option<usize>) -> bool
    ensures { result ≡ is_some (entry_on (heap_of nodes.now) slot) }
{
    match slot {
        Some(slot) => nodes.contains(slot),
        None => false,
    }
}

// Whether no entry can be added to so many, the root among them, because of their number or the next one's.
fn is_full(most: usize, count: usize, next: EntryNo) -> bool
    ensures { result ≡ (nat_le most (count - 1) || is_spent 64 next) }
{
    count.saturating_sub(1) >= most || next == EntryNo::MAX
}

// The first fault of an entry that would be added at a path, around which a slot is found: one look-up there.
pub fn add_fault(
    nodes: &Slab<Node>,
    most: usize,
    count: usize,
    next: EntryNo,
    folder: usize,
    path: &PathView<'_>,
) -> Option<TreeFault>
    requires { walk (heap_of nodes.now) (Some 0) (parent (folded_path (parts_of path.now))) ≡ Some folder }
    ensures { result ≡ add_fault_by (entry_down (heap_of nodes.now)) most count next (folded_path (parts_of path.now)) }
{
    if !has_folder(nodes, folder) {
        return Some(TreeFault::ParentAbsent);
    }
    if is_taken(nodes, target_in(nodes, folder, path)) {
        return Some(TreeFault::Exists);
    }
    if is_full(most, count, next) {
        return Some(TreeFault::Full);
    }
    None
}

// Puts a node beneath another, into the next slot. Without memory all stays.
fn hang(alloc: Global, nodes: &mut Slab<Node>, node: Node) -> Result<(), AllocError>
    requires root { is_some (heap_of nodes.old 0) ≡ true }
    requires leaf { node.children.entries ≡ [] }
    requires above { is_some (heap_of nodes.old node.parent) ≡ true }
    requires free { child_in (heap_of nodes.old node.parent) (folded (entry_seen node).spelling) ≡ None }
    ensures ok { OnOk result (Grown (heap_of nodes.old) (heap_of nodes.new) node.parent nodes.old.vacant_key (folded (entry_seen node).spelling) (entry_seen node)) }
    ensures err { OnErr result (SameHeap nodes.old nodes.new) }
{
    nodes.reserve(1)?;
    let slot = nodes.vacant_key();
    add_child(alloc, nodes, node.parent, name_of(&node), slot)?;
    let _ = nodes.insert_reserved(node);
    Ok(())
}

// Puts a node beneath another, and its slot into the index. Without memory all stays.
pub fn place(
    alloc: Global,
    nodes: &mut Slab<Node>,
    index: &mut BTreeMap<EntryNo, usize>,
    node: Node,
) -> Result<(), AllocError>
    requires root { is_some (heap_of nodes.old 0) ≡ true }
    requires leaf { node.children.entries ≡ [] }
    requires above { is_some (heap_of nodes.old node.parent) ≡ true }
    requires free { child_in (heap_of nodes.old node.parent) (folded (entry_seen node).spelling) ≡ None }
    requires under { Under index.old.entries node.number }
    ensures ok { OnOk result (Grown (heap_of nodes.old) (heap_of nodes.new) node.parent nodes.old.vacant_key (folded (entry_seen node).spelling) (entry_seen node)) }
    ensures indexed { OnOk result (index.new.entries ≡ index.old.entries ++ (node.number, nodes.old.vacant_key) ∷ []) }
    ensures err { OnErr result (SameHeap nodes.old nodes.new) }
    ensures err_index { OnErr result (index.new.entries ≡ index.old.entries) }
{
    let number = node.number;
    let slot = nodes.vacant_key();
    index.insert(number, slot)?;
    let hung = hang(alloc, nodes, node);
    if hung.is_err() {
        let _ = index.remove(&number);
    }
    hung
}
