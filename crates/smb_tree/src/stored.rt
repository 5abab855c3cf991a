//! An entry as a plain tree stores it.

ghost use Rattle.std.specs.Prelude.{◌≤◌, length};
ghost use Rattle.smb_wire.specs.Greatest.{greatest_file_bytes};
ghost use Rattle.smb_tree.specs.Texts.{SpellPath};

use super::entry::{Basic, EntryNo, Kind};

// An entry with the whole path at which it stands.
#[derive(Drop)]
pub struct Stored {
    // The path as it is spelled, two bytes a unit; in it the folders around are spelled in any way.
    pub text: Vec<u8>,
    pub bytes: Vec<u8>,
    pub number: EntryNo,
    pub kind: Kind,
    pub basic: Basic,
    pub mark: bool,
    pub ghost path: { SpellPath text.items },
    pub ghost few: { length bytes.items ≤ greatest_file_bytes },
}

// The text of a path that an entry is to get.
#[derive(Drop)]
pub struct NewText {
    pub text: Vec<u8>,
    pub ghost path: { SpellPath text.items },
}
