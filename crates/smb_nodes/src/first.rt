//! The first nodes of a tree: the root alone.

ghost use Rattle.std.specs.Prelude.{◌≡◌, ◌∷◌, [], None, Some, true, false, ◌==◌, ℕ, IfOk};
ghost use Rattle.slab.specs.Slab.{get};
ghost use Rattle.smb_tree.specs.Entries.{new_entry};
ghost use Rattle.smb_tree.specs.declared.entry.Kind.TheVariants.{Folder};
ghost use Rattle.smb_nodes.specs.First.{IsRootAlone};

use super::node::Node;
use slab::Slab;
use smb_pages::Pages;
use smb_tree::{Basic, EntryNo, Kind};
use smb_wire::FileAttributes;
use std::alloc::{AllocError, Global};
use std::collections::BTreeMap;

// The root alone, in the first slot.
pub fn rooted(alloc: Global, created: u64) -> Result<Slab<Node>, AllocError>
    ensures { IfOk result (λ nodes. IsRootAlone nodes created) }
{
    let mut nodes = Slab::with_capacity(alloc, 1)?;
    let root = Node {
        number: 1,
        kind: Kind::Folder,
        basic: Basic::of(FileAttributes(0), created),
        mark: false,
        spelling: Vec::new(alloc),
        parent: 0,
        children: BTreeMap::new(alloc),
        bytes: Pages::new(alloc),
    };
    let _ = nodes.insert_reserved(root);
    Ok(nodes)
}

// The index of the root alone.
pub fn indexed(alloc: Global) -> Result<BTreeMap<EntryNo, usize>, AllocError>
    ensures { IfOk result (λ index. index.entries ≡ (1, 0) ∷ []) }
{
    let mut index = BTreeMap::new(alloc);
    index.insert(1, 0)?;
    Ok(index)
}
