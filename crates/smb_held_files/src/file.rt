//! One entry.

ghost use Rattle.std.specs.Prelude.{◌≡◌, ◌≤◌, ◌%◌, length};
ghost use Rattle.smb_wire.specs.Greatest.{greatest_file_bytes};

use smb_pages::Pages;
use smb_tree::{Basic, EntryNo, Kind};

/// An entry, with its bytes in pages. They are at most 8,796,093,022,208, and a folder mostly has none.
#[derive(Drop)]
pub struct HeldFile {
    /// The number of the folder in which it is.
    pub parent: EntryNo,
    pub kind: Kind,
    /// Whether it is to go once its last open is closed.
    pub mark: bool,
    pub basic: Basic,
    /// Its name as it is spelled, two bytes a unit, the lower byte first.
    pub spelling: Vec<u8>,
    /// Its bytes.
    pub bytes: Pages,
    pub ghost even: { length spelling.items % 2 ≡ 0 },
    pub ghost few: { length bytes ≤ greatest_file_bytes },
}
