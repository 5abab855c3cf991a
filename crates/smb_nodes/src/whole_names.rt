//! The whole names of entries.

ghost use Rattle.std.specs.Prelude.{◌≡◌, ◌≤◌, ◌+◌, ◌-◌, ◌*◌, ◌++◌, [], IfOk, OnOk, length};
ghost use Rattle.smb_wire.specs.Limits.{most_components};
ghost use Rattle.smb_wire.specs.Pairs.{unit_bytes};
ghost use Rattle.smb_wire.specs.Paths.{joined_by_separators};
ghost use Rattle.smb_wire.specs.Units.{units_of};
ghost use Rattle.smb_tree.specs.NewTexts.{separated};
ghost use Rattle.smb_nodes.specs.Nodes.{levels};
ghost use Rattle.smb_nodes.specs.Seen.{heap_of};
ghost use Rattle.smb_nodes.specs.Spellings.{spellings_up};

use super::look::spelling_of;
use super::node::Node;
use slab::Slab;
use smb_wire::Units;
use std::alloc::{AllocError, Global};

// A backslash, two bytes.
const SEPARATOR: [u8; 2] = [0x5c, 0];

// Adds a component behind a text of others, with a separator before it where it isn't the first.
fn add_component(text: &mut Vec<u8>, is_first: bool, part: Units<'_>) -> Result<(), AllocError>
    ensures { OnOk result (text.new.items ≡ text.old.items ++ unit_bytes (separated is_first (units_of part.entry))) }
{
    if !is_first {
        text.extend_from_slice(&SEPARATOR)?;
    }
    text.extend_from_slice(part.bytes())
}

// Adds how the nodes on the way from the root down to a slot are spelled, in at most so many steps up, with a
// separator between each two, to an empty text; and tells how many they are.
fn add_names(
    nodes: &Slab<Node>,
    slot: usize,
    steps: usize,
    text: &mut Vec<u8>,
) -> Result<usize, AllocError>
    requires { text.old.items ≡ [] }
    ensures count { IfOk result (λ count. count ≡ length (spellings_up (heap_of nodes.now) steps slot)) }
    ensures few { IfOk result (λ count. count ≤ steps) }
    ensures name { OnOk result (text.new.items ≡ unit_bytes (joined_by_separators (spellings_up (heap_of nodes.now) steps slot))) }
    ensures short { IfOk result (λ count. length text.new.items ≤ 512 * count - 2) }
{
    if steps == 0 {
        return Ok(0);
    }
    if slot == 0 {
        return Ok(0);
    }
    let Some(node) = nodes.get(slot) else {
        return Ok(0);
    };
    let count = add_names(nodes, node.parent, steps - 1, text)?;
    add_component(text, count == 0, spelling_of(node))?;
    Ok(count + 1)
}

// How many levels a tree may have, the root's among them.
pub fn most_levels() -> usize
    ensures { result ≡ levels }
{
    33
}

// How the nodes on the way from the root down to a slot are spelled, with a separator between each two.
pub fn whole_name(alloc: Global, nodes: &Slab<Node>, slot: usize) -> Result<Vec<u8>, AllocError>
    requires { length (spellings_up (heap_of nodes.now) levels slot) ≤ most_components }
    ensures name { IfOk result (λ name. name.items ≡ unit_bytes (joined_by_separators (spellings_up (heap_of nodes.now) levels slot))) }
    ensures short { IfOk result (λ name. length name.items ≤ 16382) }
{
    let mut name = Vec::new(alloc);
    let _count = add_names(nodes, slot, most_levels(), &mut name)?;
    Ok(name)
}
