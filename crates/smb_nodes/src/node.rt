//! A node of the tree.

ghost use Rattle.std.specs.Prelude.{◌≡◌, ◌≤◌, ◌%◌, length};
ghost use Rattle.smb_wire.specs.Greatest.{greatest_file_bytes};
ghost use Rattle.smb_wire.specs.Pairs.{units_in};

use smb_pages::Pages;
use smb_tree::{Basic, EntryNo, Kind};
use std::boxed::BoxedSlice;
use std::collections::BTreeMap;

// An entry with the slots of its parent and its children.
#[derive(Drop)]
pub struct Node {
    pub number: EntryNo,
    pub kind: Kind,
    pub basic: Basic,
    pub mark: bool,
    // Its name as it is spelled, two bytes a unit; the root's is empty.
    pub spelling: Vec<u8>,
    // The slot of the folder in which it stands; the root's is its own.
    pub parent: usize,
    // The slot of each child by its folded name, which is kept at its own length.
    pub children: BTreeMap<BoxedSlice<u16>, usize>,
    pub bytes: Pages,
    pub ghost even: { length spelling.items % 2 ≡ 0 },
    pub ghost short: { length (units_in spelling.items) ≤ 255 },
    pub ghost few: { length bytes ≤ greatest_file_bytes },
}
