//! An entry with its name, copied out of a tree.

ghost use Rattle.std.specs.Prelude.{◌≤◌, length};
ghost use Rattle.smb_wire.specs.Greatest.{greatest_file_bytes};

use super::entry::{Basic, EntryNo, Kind};

/// An entry as it stood when it was copied, with its whole name.
#[derive(Debug, Drop)]
pub struct EntryCopy {
    pub number: EntryNo,
    pub kind: Kind,
    /// Its times in units of 100 ns since 1601, and the attributes that it keeps.
    pub basic: Basic,
    /// The number of a file's bytes; a folder has none.
    pub size: u64,
    /// The entry goes once its last open is closed.
    pub mark: bool,
    /// The components of its path as they are spelled, with a separator between each two, two bytes a unit; the
    /// root's is empty.
    pub name: Vec<u8>,
    pub ghost few: { size ≤ greatest_file_bytes },
    // 32 components of 255 units, and the separators between them.
    pub ghost short: { length name.items ≤ 16382 },
}
