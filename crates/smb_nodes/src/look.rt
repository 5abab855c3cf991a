//! Look-ups of nodes.

ghost use Rattle.std.specs.Prelude.{◌≡◌, ◌≤◌, Some, true, is_some, length};
ghost use Rattle.std.specs.Option.{option_map, option_copied};
ghost use Rattle.smb_wire.specs.Names.{folded};
ghost use Rattle.smb_wire.specs.Paths.{folded_path};
ghost use Rattle.smb_wire.specs.PathViews.{parts_of};
ghost use Rattle.smb_wire.specs.Units.{units_of};
ghost use Rattle.smb_tree.specs.Views.{shown};
ghost use Rattle.smb_nodes.specs.Nodes.{step, walk, entry_down, entry_of_slot, slot_of};
ghost use Rattle.smb_nodes.specs.Seen.{heap_of, entry_seen, node_seen};
ghost use Rattle.smb_nodes.specs.Shows.{node_shown};

use super::node::Node;
use slab::Slab;
use smb_tree::{EntryNo, EntryView};
use smb_wire::{FoldedName, PathView, Units};
use std::collections::BTreeMap;

// The slot of an entry's number.
pub fn slot_of(index: &BTreeMap<EntryNo, usize>, number: EntryNo) -> Option<usize>
    ensures { result ≡ slot_of index.now.entries number }
{
    index.get(&number).copied()
}

// The slot of a node's child of a name, however it is spelled.
pub fn child_of(nodes: &Slab<Node>, slot: usize, name: Units<'_>) -> Option<usize>
    requires { length (units_of name) ≤ 255 }
    ensures { result ≡ step (heap_of nodes.now) (Some slot) (folded (units_of name.entry)) }
{
    let node = nodes.get(slot)?;
    // Borrowed where it is made: a folded name has 512 bytes.
    match &FoldedName::of(name) {
        Some(folded) => node.children.get(folded.units()).copied(),
        None => None,
    }
}

// The slot to which a path leads.
pub fn walk_down(nodes: &Slab<Node>, path: &PathView<'_>) -> Option<usize>
    ensures { result ≡ walk (heap_of nodes.now) (Some 0) (folded_path (parts_of path.now)) }
{
    let mut slot = 0;
    for i in 0..path.len() {
        slot = child_of(nodes, slot, path.part(i))?;
    }
    Some(slot)
}

// The node to which a path leads.
pub fn node_at<'a>(nodes: &'a Slab<Node>, path: &PathView<'_>) -> Option<&'a Node>
    ensures { option_map (λ node. entry_seen node.now) result ≡ entry_down (heap_of nodes.now) (folded_path (parts_of path.now)) }
{
    let slot = walk_down(nodes, path)?;
    nodes.get(slot)
}

// The name of a node, folded.
pub fn name_of(node: &Node) -> FoldedName
    ensures { result ≡ folded (entry_seen node.now).spelling }
{
    FoldedName::of(spelling_of(node)).unwrap()
}

// The name of a node as it is spelled.
pub fn spelling_of(node: &Node) -> Units<'_>
    ensures units { units_of result ≡ (entry_seen node.now).spelling }
    ensures short { length (units_of result) ≤ 255 }
{
    Units::of(&node.spelling).unwrap()
}

// The number of the node in a slot, or 0.
pub fn number_or_none(nodes: &Slab<Node>, slot: usize) -> EntryNo
    ensures { result ≡ (entry_of_slot (heap_of nodes.now) slot).number }
{
    match nodes.get(slot) {
        Some(node) => node.number,
        None => 0,
    }
}

// What a node shows.
pub fn view_of<'a>(nodes: &Slab<Node>, node: &'a Node) -> EntryView<'a>
    ensures { shown result ≡ node_shown (heap_of nodes.now) (node_seen node.now) }
{
    EntryView {
        number: node.number,
        parent: number_or_none(nodes, node.parent),
        kind: node.kind,
        basic: node.basic,
        size: node.bytes.size(),
        mark: node.mark,
        spelling: spelling_of(node),
    }
}
