//! The children of a node.

ghost use Rattle.std.specs.Prelude.{◌≡◌, ℕ, List, if◌then◌else◌, true, None, Some, is_some, OnOk, OnErr};
ghost use Rattle.smb_nodes.specs.Changes.{Childed};
ghost use Rattle.smb_nodes.specs.Nodes.{is_same_component};
ghost use Rattle.smb_nodes.specs.Seen.{named_in, heap_of, SameHeap, SameRoom};

use super::node::Node;
use slab::Slab;
use smb_wire::FoldedName;
use std::alloc::{AllocError, Global};
use std::boxed::BoxedSlice;
use std::collections::BTreeMap;

// Puts a child under a name, of which it keeps a copy: one look-up.
fn add_named(
    alloc: Global,
    children: &mut BTreeMap<BoxedSlice<u16>, usize>,
    name: &FoldedName,
    child: usize,
) -> Result<(), AllocError>
    ensures ok { OnOk result ((other : List ℕ) → named_in children.new other ≡ (if is_same_component name.now other then Some child else named_in children.old other)) }
    ensures err { OnErr result (children.new.entries ≡ children.old.entries) }
{
    let key = BoxedSlice::from_slice(alloc, name.units())?;
    children.insert(key, child)?;
    Ok(())
}

// Puts a child under a name. Where there is one of the name, it takes no memory.
fn put_named(
    alloc: Global,
    children: &mut BTreeMap<BoxedSlice<u16>, usize>,
    name: &FoldedName,
    child: usize,
) -> Result<(), AllocError>
    ensures ok { OnOk result ((other : List ℕ) → named_in children.new other ≡ (if is_same_component name.now other then Some child else named_in children.old other)) }
    ensures err { OnErr result (children.new.entries ≡ children.old.entries) }
{
    if let Some(found) = children.get_mut(name.units()) {
        *found = child;
        return Ok(());
    }
    add_named(alloc, children, name, child)
}

// Puts a child under a name into a folder, in place of another one of that name. Without memory all stays; where the
// folder has a child of the name it takes none.
pub fn put_child(
    alloc: Global,
    nodes: &mut Slab<Node>,
    folder: usize,
    name: FoldedName,
    child: usize,
) -> Result<(), AllocError>
    requires { is_some (heap_of nodes.old folder) ≡ true }
    ensures ok { OnOk result (Childed (heap_of nodes.old) (heap_of nodes.new) folder name (Some child)) }
    ensures room { OnOk result (SameRoom nodes.old nodes.new) }
    ensures err { OnErr result (SameHeap nodes.old nodes.new) }
{
    put_named(alloc, &mut nodes[folder].children, &name, child)
}

// Puts a child under a name into a folder that has none of that name: one look-up. Without memory all stays.
pub fn add_child(
    alloc: Global,
    nodes: &mut Slab<Node>,
    folder: usize,
    name: FoldedName,
    child: usize,
) -> Result<(), AllocError>
    requires { is_some (heap_of nodes.old folder) ≡ true }
    ensures ok { OnOk result (Childed (heap_of nodes.old) (heap_of nodes.new) folder name (Some child)) }
    ensures room { OnOk result (SameRoom nodes.old nodes.new) }
    ensures err { OnErr result (SameHeap nodes.old nodes.new) }
{
    add_named(alloc, &mut nodes[folder].children, &name, child)
}

// Takes the child of a name out of a folder.
pub fn take_child(nodes: &mut Slab<Node>, folder: usize, name: &FoldedName)
    requires { is_some (heap_of nodes.old folder) ≡ true }
    ensures { Childed (heap_of nodes.old) (heap_of nodes.new) folder name.now None }
{
    let _ = nodes[folder].children.remove(name.units());
}
