//! Changes of the entry of one node.

ghost use Rattle.std.specs.Prelude.{◌≡◌, ◌+◌, ◌≤◌, true, is_some, OnOk, OnErr, length};
ghost use Rattle.smb_wire.specs.Greatest.{greatest_file_bytes};
ghost use Rattle.smb_tree.specs.Content.{resized, written};
ghost use Rattle.smb_tree.specs.Entries.{kept_basic};
ghost use Rattle.smb_nodes.specs.Changes.{Altered};
ghost use Rattle.smb_nodes.specs.Seen.{heap_of, SameHeap};

use super::node::Node;
use slab::Slab;
use smb_tree::Basic;
use std::alloc::AllocError;

// Gives an entry other times and attributes.
pub fn rebase(nodes: &mut Slab<Node>, slot: usize, basic: Basic)
    requires { is_some (heap_of nodes.old slot) ≡ true }
    ensures { Altered (heap_of nodes.old) (heap_of nodes.new) slot (λ entry. record entry { basic = kept_basic basic }) }
{
    nodes[slot].basic = basic.kept();
}

// Marks an entry, or takes its mark away.
pub fn put_mark(nodes: &mut Slab<Node>, slot: usize, mark: bool)
    requires { is_some (heap_of nodes.old slot) ≡ true }
    ensures { Altered (heap_of nodes.old) (heap_of nodes.new) slot (λ entry. record entry { mark = mark }) }
{
    nodes[slot].mark = mark;
}

// Gives a file another size. This takes no memory and is never refused.
pub fn resize(nodes: &mut Slab<Node>, slot: usize, size: u64)
    requires live { is_some (heap_of nodes.old slot) ≡ true }
    requires small { size ≤ greatest_file_bytes }
    ensures { Altered (heap_of nodes.old) (heap_of nodes.new) slot (λ entry. record entry { bytes = resized size entry.bytes }) }
{
    nodes[slot].bytes.resize(size);
}

// Puts bytes into a file. It takes the memory for all their pages before it changes one.
pub fn overwrite(
    nodes: &mut Slab<Node>,
    slot: usize,
    offset: u64,
    buffer: &[u8],
) -> Result<(), AllocError>
    requires live { is_some (heap_of nodes.old slot) ≡ true }
    requires small { offset + length buffer.now ≤ greatest_file_bytes }
    ensures ok { OnOk result (Altered (heap_of nodes.old) (heap_of nodes.new) slot (λ entry. record entry { bytes = written offset buffer.now entry.bytes })) }
    ensures err { OnErr result (SameHeap nodes.old nodes.new) }
{
    nodes[slot].bytes.put_at(offset, buffer)
}
