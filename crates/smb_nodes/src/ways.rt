//! How nodes lie beneath one another.

ghost use Rattle.std.specs.Prelude.{◌≡◌, ◌≤◌, ◌<◌, ◌+◌, ℕ, List, true, false, is_some, unwrap_or, max, min, IfSome};
ghost use Rattle.smb_nodes.specs.Nodes.{IsTree, up_in, levels, rows_in};
ghost use Rattle.smb_nodes.specs.Seen.{heap_of};
ghost use Rattle.smb_nodes.specs.Ways.{levels_below, is_deep, SomeDeep, NoneDeep, NoneBelow};
ghost use Rattle.smb_nodes.specs.Tree.{IsBound};

use super::node::Node;
use super::removals::has_child;
use super::whole_names::most_levels;
use slab::Slab;
use smb_wire::limits::MOST_COMPONENTS;

// The slot of the folder in which the node in a slot stands.
pub fn folder_of(nodes: &Slab<Node>, slot: usize) -> usize
    ensures { result ≡ up_in (heap_of nodes.now slot) }
{
    match nodes.get(slot) {
        Some(node) => node.parent,
        None => 0,
    }
}

// How many levels a slot lies beneath another one, by fewer than so many steps up, or None where it does not.
pub fn levels_below(nodes: &Slab<Node>, steps: usize, top: usize, slot: usize) -> Option<usize>
    ensures below { result ≡ levels_below (heap_of nodes.now) steps top slot }
    ensures few { IfSome result (λ below. below < steps) }
{
    if steps == 0 {
        return None;
    }
    if slot == top {
        return Some(0);
    }
    if slot == 0 {
        return None;
    }
    let below = levels_below(nodes, steps - 1, top, folder_of(nodes, slot))?;
    Some(below + 1)
}

// Whether a node would have too many components, if the one in `top` had so many.
fn is_deep(nodes: &Slab<Node>, top: usize, count: usize, slot: usize) -> bool
    requires { count ≤ MOST_COMPONENTS }
    ensures { result ≡ is_deep (heap_of nodes.now) top count slot }
{
    match levels_below(nodes, most_levels(), top, slot) {
        Some(below) => count + below > MOST_COMPONENTS,
        None => false,
    }
}

// Whether some node would: it goes through all slots.
fn some_deep(nodes: &Slab<Node>, top: usize, count: usize) -> bool
    requires { count ≤ MOST_COMPONENTS }
    ensures some { result ≡ true → SomeDeep (heap_of nodes.now) top count }
    ensures none { result ≡ false → NoneDeep (heap_of nodes.now) top count }
{
    for slot in 0..nodes.capacity() {
        if nodes.contains(slot) && is_deep(nodes, top, count, slot) {
            return true;
        }
    }
    false
}

// Of how many components the path of a node is; 0 where it leads nowhere.
fn depth_of(nodes: &Slab<Node>, slot: usize) -> usize
    ensures depth { result ≡ unwrap_or (levels_below (heap_of nodes.now) levels 0 slot) 0 }
    ensures few { result ≤ MOST_COMPONENTS }
{
    levels_below(nodes, most_levels(), 0, slot).unwrap_or(0)
}

// How many levels at most other nodes lie beneath one, in a tree where no path has more components than `deepest`: none
// where it has no child.
pub fn levels_beneath(nodes: &Slab<Node>, top: usize, deepest: usize) -> usize
    requires { is_some (heap_of nodes.now top) ≡ true }
    ensures few { result ≤ deepest }
    ensures below { (index : List (ℕ × ℕ)) (next : ℕ) → IsTree (heap_of nodes.now) index next → IsBound deepest (rows_in (heap_of nodes.now) levels index) → NoneBelow (heap_of nodes.now) top result }
{
    if !has_child(nodes, top) {
        return 0;
    }
    deepest.saturating_sub(depth_of(nodes, top))
}

// Whether some node would have too many components, if the one in `top` had so many and no other lies more levels
// beneath it. It goes through all slots where that bound doesn't say that none would.
pub fn gets_deep(nodes: &Slab<Node>, top: usize, count: usize, below: usize) -> bool
    requires short { count ≤ MOST_COMPONENTS }
    requires few { below ≤ MOST_COMPONENTS }
    requires below { NoneBelow (heap_of nodes.now) top below }
    ensures some { result ≡ true → SomeDeep (heap_of nodes.now) top count }
    ensures none { result ≡ false → NoneDeep (heap_of nodes.now) top count }
{
    if count + below <= MOST_COMPONENTS {
        return false;
    }
    some_deep(nodes, top, count)
}

// The most components that a path has in a tree where none had more than `deepest`, once a node has so many and no other
// lies more levels beneath it.
pub fn deepest_with(deepest: usize, count: usize, below: usize) -> usize
    requires short { count ≤ MOST_COMPONENTS }
    requires few { below ≤ MOST_COMPONENTS }
    ensures { result ≡ min (max deepest (count + below)) MOST_COMPONENTS }
{
    deepest.max(count + below).min(MOST_COMPONENTS)
}

// Of how many components the longest path is. It goes through all slots.
fn count_deepest(nodes: &Slab<Node>) -> usize
    ensures few { result ≤ MOST_COMPONENTS }
    ensures all { (slot : ℕ) → is_some (heap_of nodes.now slot) ≡ true → unwrap_or (levels_below (heap_of nodes.now) levels 0 slot) 0 ≤ result }
{
    let mut most = 0;
    for slot in 0..nodes.capacity() {
        if nodes.contains(slot) {
            most = most.max(depth_of(nodes, slot));
        }
    }
    most
}

// A bound of how many components paths have: the one given, but where by that one a path could get too long, once a node
// has so many, it is counted anew.
pub fn bound_for(nodes: &Slab<Node>, top: usize, count: usize, deepest: usize) -> usize
    requires live { is_some (heap_of nodes.now top) ≡ true }
    requires short { count ≤ MOST_COMPONENTS }
    requires few { deepest ≤ MOST_COMPONENTS }
    ensures { (index : List (ℕ × ℕ)) (next : ℕ) → IsTree (heap_of nodes.now) index next → IsBound deepest (rows_in (heap_of nodes.now) levels index) → IsBound result (rows_in (heap_of nodes.now) levels index) }
{
    if count + levels_beneath(nodes, top, deepest) <= MOST_COMPONENTS {
        return deepest;
    }
    count_deepest(nodes)
}
