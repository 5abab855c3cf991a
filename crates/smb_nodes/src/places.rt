//! Moves: a node in another place.

ghost use Rattle.std.specs.Prelude.{◌≡◌, ◌≢◌, ◌≤◌, ◌%◌, ◌==◌, ◌&&◌, true, false, Some, is_some, OnOk, OnErr, length};
ghost use Rattle.smb_wire.specs.Names.{folded};
ghost use Rattle.smb_wire.specs.Pairs.{units_in};
ghost use Rattle.smb_tree.specs.Entries.{allocation_size};
ghost use Rattle.smb_nodes.specs.Changes.{Settled, Rehung, Emptied};
ghost use Rattle.smb_nodes.specs.Nodes.{up_in, name_of_slot, index_without, entry_of_slot, is_same_component};
ghost use Rattle.smb_nodes.specs.Seen.{heap_of, SameHeap};

use super::children::{put_child, take_child};
use super::look::name_of;
use super::node::Node;
use super::sizes::space_of;
use super::ways::folder_of;
use slab::Slab;
use smb_tree::EntryNo;
use smb_wire::{FoldedName, Units};
use std::alloc::{AllocError, Global};
use std::collections::BTreeMap;

// A name that is spelled so, two bytes a unit.
fn folded_name(spelling: &Vec<u8>) -> FoldedName
    requires even { length spelling.now.items % 2 ≡ 0 }
    requires short { length (units_in spelling.now.items) ≤ 255 }
    ensures { result ≡ folded (units_in spelling.now.items) }
{
    FoldedName::of(Units::of(spelling).unwrap()).unwrap()
}

// Whether a slot that was found is this one.
pub fn is_slot(found: Option<usize>, slot: usize) -> bool
    ensures yes { result ≡ true → found ≡ Some slot }
    ensures no { result ≡ false → found ≢ Some slot }
{
    found == Some(slot)
}

// Says in which folder a node stands, and how it is spelled. The folder's children stay.
pub fn settle(nodes: &mut Slab<Node>, slot: usize, folder: usize, spelling: Vec<u8>)
    requires live { is_some (heap_of nodes.old slot) ≡ true }
    requires even { length spelling.items % 2 ≡ 0 }
    requires short { length (units_in spelling.items) ≤ 255 }
    ensures { Settled (heap_of nodes.old) (heap_of nodes.new) slot folder (folded (units_in spelling.items)) (units_in spelling.items) }
{
    let node = &mut nodes[slot];
    node.parent = folder;
    node.spelling = spelling;
}

// Puts a node into a folder, spelled so, in place of what stands there under its name, and takes it out of its own. Only
// a name that is new in the folder takes memory; without it all stays.
pub fn reparent(
    alloc: Global,
    nodes: &mut Slab<Node>,
    slot: usize,
    folder: usize,
    spelling: Vec<u8>,
) -> Result<(), AllocError>
    requires live { is_some (heap_of nodes.old slot) ≡ true }
    requires above { is_some (heap_of nodes.old folder) ≡ true }
    requires around { is_some (heap_of nodes.old (up_in (heap_of nodes.old slot))) ≡ true }
    requires apart { (up_in (heap_of nodes.old slot) == folder && is_same_component (folded (units_in spelling.items)) (name_of_slot (heap_of nodes.old) slot)) ≡ false }
    requires even { length spelling.items % 2 ≡ 0 }
    requires short { length (units_in spelling.items) ≤ 255 }
    ensures ok { OnOk result (Rehung (heap_of nodes.old) (heap_of nodes.new) slot folder (folded (units_in spelling.items)) (units_in spelling.items)) }
    ensures err { OnErr result (SameHeap nodes.old nodes.new) }
{
    let old_folder = folder_of(nodes, slot);
    let old_name = name_of(&nodes[slot]);
    let name = folded_name(&spelling);
    put_child(alloc, nodes, folder, name, slot)?;
    take_child(nodes, old_folder, &old_name);
    settle(nodes, slot, folder, spelling);
    Ok(())
}

// Takes a node out of its slot and its number out of the index, and gives the space that it used. The folder in which it
// stood stays.
pub fn evict(nodes: &mut Slab<Node>, index: &mut BTreeMap<EntryNo, usize>, slot: usize) -> u64
    requires { is_some (heap_of nodes.old slot) ≡ true }
    ensures nodes { Emptied (heap_of nodes.old) (heap_of nodes.new) slot }
    ensures index { index.new.entries ≡ index_without index.old.entries (entry_of_slot (heap_of nodes.old) slot).number }
    ensures space { result ≡ allocation_size (length (entry_of_slot (heap_of nodes.old) slot).bytes) }
{
    let space = space_of(nodes, slot);
    let node = nodes.remove(slot);
    let _ = index.remove(&node.number);
    space
}
