//! The sizes of files, and the space that they use.

ghost use Rattle.std.specs.Prelude.{◌≡◌, ◌≤◌, ◌+◌, ◌-◌, ◌^◌, ◌||◌, true, is_some, None, Some, if◌then◌else◌, nat_lt, max, min, length};
ghost use Rattle.smb_wire.specs.Greatest.{greatest_file_bytes};
ghost use Rattle.smb_tree.specs.Entries.{allocation_size, is_folder_kind};
ghost use Rattle.smb_tree.specs.declared.fault.TreeFault.TheVariants.{Absent, Full};
ghost use Rattle.smb_nodes.specs.Nodes.{entry_of_slot};
ghost use Rattle.smb_nodes.specs.Seen.{heap_of};

use super::node::Node;
use slab::Slab;
use smb_tree::{TreeFault, allocation_size};

// The space that the file in a slot uses.
pub fn space_of(nodes: &Slab<Node>, slot: usize) -> u64
    requires { is_some (heap_of nodes.now slot) ≡ true }
    ensures { result ≡ allocation_size (length (entry_of_slot (heap_of nodes.now) slot).bytes) }
{
    allocation_size(nodes[slot].bytes.size())
}

// The first fault of a size that the file in a slot would get, where the other entries use so much space.
pub fn size_fault(
    nodes: &Slab<Node>,
    slot: usize,
    most: u64,
    others: u64,
    capacity: u64,
    size: u64,
) -> Option<TreeFault>
    requires live { is_some (heap_of nodes.now slot) ≡ true }
    requires lawful { most ≤ greatest_file_bytes }
    ensures { result ≡ (if is_folder_kind (entry_of_slot (heap_of nodes.now) slot).kind then Some Absent else if nat_lt most size || nat_lt capacity (others + allocation_size size) then Some Full else None) }
{
    if nodes[slot].kind.is_folder() {
        return Some(TreeFault::Absent);
    }
    if size > most || capacity < others || capacity - others < allocation_size(size) {
        return Some(TreeFault::Full);
    }
    None
}

// The size that the file in a slot gets by a write; the greatest number where it is none of 64 bits.
pub fn size_written(nodes: &Slab<Node>, slot: usize, offset: u64, buffer: &[u8]) -> u64
    requires { is_some (heap_of nodes.now slot) ≡ true }
    ensures { result ≡ max (length (entry_of_slot (heap_of nodes.now) slot).bytes) (min (offset + length buffer.now) (2 ^ 64 - 1)) }
{
    let end = offset.saturating_add(buffer.len() as u64);
    end.max(nodes[slot].bytes.size())
}
