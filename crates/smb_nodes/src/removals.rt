//! Removals: one node less.

ghost use Rattle.std.specs.Prelude.{◌≡◌, ◌==◌, ℕ, List, true, false, None, is_some};
ghost use Rattle.smb_nodes.specs.Changes.{Pruned, HasChild};
ghost use Rattle.smb_nodes.specs.Nodes.{child_in, up_in};
ghost use Rattle.smb_nodes.specs.Seen.{heap_of};

use super::children::take_child;
use super::look::name_of;
use super::node::Node;
use slab::Slab;

// Whether the node in a slot has a child.
pub fn has_child(nodes: &Slab<Node>, slot: usize) -> bool
    requires { is_some (heap_of nodes.now slot) ≡ true }
    ensures some { result ≡ true → HasChild (heap_of nodes.now slot) }
    ensures none { result ≡ false → (name : List ℕ) → child_in (heap_of nodes.now slot) name ≡ None }
{
    let count = nodes[slot].children.len();
    count > 0
}

// Takes a node that has no child out of its folder and its slot.
pub fn unhang(nodes: &mut Slab<Node>, slot: usize)
    requires live { is_some (heap_of nodes.old slot) ≡ true }
    requires not_root { slot == 0 ≡ false }
    requires bare { (name : List ℕ) → child_in (heap_of nodes.old slot) name ≡ None }
    requires above { is_some (heap_of nodes.old (up_in (heap_of nodes.old slot))) ≡ true }
    requires apart { up_in (heap_of nodes.old slot) == slot ≡ false }
    ensures { Pruned (heap_of nodes.old) (heap_of nodes.new) slot }
{
    let node = nodes.remove(slot);
    take_child(nodes, node.parent, &name_of(&node));
}
