//! The children of a node, one after the other.

ghost use Rattle.std.specs.Prelude.{◌≡◌, ℕ, List, Some, true, None, is_some, IfSome, IfNone};
ghost use Rattle.std.specs.Option.{option_copied};
ghost use Rattle.std.specs.Range.Bound.{bound_map};
ghost use Rattle.std.specs.Box.{boxed_slice_items};
ghost use Rattle.smb_tree.specs.Children.{is_before};
ghost use Rattle.smb_tree.specs.Parts.{is_after};
ghost use Rattle.smb_nodes.specs.Changes.{IsNext};
ghost use Rattle.smb_nodes.specs.Nexts.{BeginsAfter, NextNumbers};
ghost use Rattle.smb_nodes.specs.Nodes.{child_in};
ghost use Rattle.smb_nodes.specs.Seen.{heap_of};

use super::look::number_or_none;
use super::node::Node;
use slab::Slab;
use smb_tree::Children;
use smb_wire::FoldedName;
use std::boxed::BoxedSlice;
use std::cmp::Ordering;
use std::collections::BTreeMap;
use std::ops::Bound;

// Whether a child's name comes after a given one.
fn is_behind(key: &BoxedSlice<u16>, name: &FoldedName) -> bool
    ensures { result ≡ is_before name.now (boxed_slice_items key.now) }
{
    name.units().cmp(key.as_slice()) == Ordering::Less
}

// Where the children begin whose names come after a given one: a pass over those before them.
fn bound_past<'a>(
    children: &'a BTreeMap<BoxedSlice<u16>, usize>,
    name: &FoldedName,
) -> Bound<&'a BoxedSlice<u16>>
    ensures { BeginsAfter children.now (Some name.now) (bound_map (λ key. key.now) result) }
{
    let mut begin = Bound::Unbounded;
    for (key, _) in children {
        if is_behind(key, name) {
            return begin;
        }
        begin = Bound::Excluded(key);
    }
    begin
}

// Where the children begin whose names come after a given one; where none is given, all do. One look-up finds it where the
// name is a child's; else it takes a pass.
fn bound_after<'a>(
    children: &'a BTreeMap<BoxedSlice<u16>, usize>,
    after: Option<&FoldedName>,
) -> Bound<&'a BoxedSlice<u16>>
    ensures { BeginsAfter children.now (option_copied after.entry) (bound_map (λ key. key.now) result) }
{
    let Some(name) = after else {
        return Bound::Unbounded;
    };
    match children.get_key_value(name.units()) {
        Some((key, _)) => Bound::Excluded(key),
        None => bound_past(children, name),
    }
}

// The slot of the child of a node whose name comes next after a given one, or first where none is given.
pub fn next_child(nodes: &Slab<Node>, slot: usize, after: Option<&FoldedName>) -> Option<usize>
    requires { is_some (heap_of nodes.now slot) ≡ true }
    ensures some { IfSome result (IsNext (heap_of nodes.now slot) (option_copied after.entry)) }
    ensures none { IfNone result ((name : List ℕ) → is_after (option_copied after.entry) name ≡ true → child_in (heap_of nodes.now slot) name ≡ None) }
{
    let children = &nodes[slot].children;
    let begin = bound_after(children, after);
    let mut later = children.range((begin, Bound::Unbounded));
    match later.next() {
        Some((_, child)) => Some(*child),
        None => None,
    }
}

// The numbers of the children whose names come next after a given one, or first where none is given: as many as there are,
// and fit.
pub fn next_children(
    nodes: &Slab<Node>,
    among: &BTreeMap<BoxedSlice<u16>, usize>,
    after: Option<&FoldedName>,
    children: &mut Children,
)
    ensures { NextNumbers (heap_of nodes.now) among.now (option_copied after.entry) children.new.items }
{
    children.clear();
    let begin = bound_after(among, after);
    let mut later = among.range((begin, Bound::Unbounded));
    while !children.is_full() {
        let Some((_, child)) = later.next() else {
            return;
        };
        children.push(number_or_none(nodes, *child));
    }
}
