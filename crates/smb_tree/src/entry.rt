//! What an entry is.

ghost use Rattle.std.specs.Prelude.{◌≡◌, ◌≤◌};
ghost use Rattle.smb_wire.specs.Greatest.{greatest_file_bytes};
ghost use Rattle.smb_tree.specs.Entries.{allocation_size, is_folder_kind, kept_attributes, shown_attributes, kept_basic};

use smb_wire::{FileAttributes, Units};

/// The number of an entry: the root has 1, the entries that are added 2, 3 and so on, each once.
pub type EntryNo = u64;

// The size of a cluster.
const CLUSTER: u64 = 4096;

/// The space that a file of so many bytes takes: whole clusters of 4,096 bytes.
pub fn allocation_size(size: u64) -> u64
    requires { size ≤ greatest_file_bytes }
    ensures { result ≡ allocation_size size }
{
    size.div_ceil(CLUSTER) * CLUSTER
}

/// Whether an entry is a file or a folder.
#[derive(Clone, Copy, Debug, PartialEq, Eq)]
pub enum Kind {
    /// A file: it has bytes.
    File,
    /// A folder: entries stand in it.
    Folder,
}

impl Kind {
    /// Whether it is a folder.
    pub fn is_folder(self) -> bool
        ensures { result ≡ is_folder_kind self }
    {
        matches!(self, Kind::Folder)
    }

    /// The attributes that are shown of an entry of this kind that keeps these: of a folder DIRECTORY besides, of a file
    /// that keeps none NORMAL ([MS-FSCC] 2.6).
    pub fn shown_attributes(self, kept: FileAttributes) -> FileAttributes
        ensures { result ≡ record { 0 = shown_attributes self kept.0 } }
    {
        match self {
            Kind::Folder => FileAttributes(kept.0 | FileAttributes::DIRECTORY.0),
            Kind::File if kept.0 == 0 => FileAttributes::NORMAL,
            Kind::File => kept,
        }
    }
}

/// The attributes that an entry keeps: READONLY 1, HIDDEN 2, SYSTEM 4, ARCHIVE 0x20 ([MS-FSCC] 2.6).
pub const KEPT_ATTRIBUTES: FileAttributes = FileAttributes(0x27);

// Of attributes those that are kept.
fn kept_attributes(attributes: FileAttributes) -> FileAttributes
    ensures { result ≡ record { 0 = kept_attributes attributes.0 } }
{
    FileAttributes(attributes.0 & KEPT_ATTRIBUTES.0)
}

/// The times of an entry, in units of 100 ns since 1601, and its attributes ([MS-FSCC] 2.4.7).
#[derive(Clone, Copy, Debug, PartialEq, Eq)]
pub struct Basic {
    pub creation_time: u64,
    pub last_access_time: u64,
    pub last_write_time: u64,
    pub change_time: u64,
    /// The kept attributes; a tree drops other bits.
    pub attributes: FileAttributes,
}

impl Basic {
    /// An entry's times and attributes as it is added at a moment.
    pub fn of(attributes: FileAttributes, moment: u64) -> Basic
        ensures { result ≡ record { creation_time = moment; last_access_time = moment; last_write_time = moment; change_time = moment; attributes = record { 0 = kept_attributes attributes.0 } } }
    {
        Basic {
            creation_time: moment,
            last_access_time: moment,
            last_write_time: moment,
            change_time: moment,
            attributes: kept_attributes(attributes),
        }
    }

    /// The same, without the attributes that are not kept.
    pub fn kept(self) -> Basic
        ensures { result ≡ kept_basic self }
    {
        Basic {
            attributes: kept_attributes(self.attributes),
            ..self
        }
    }
}

/// An entry as it stands.
#[derive(Clone, Copy, Debug)]
pub struct EntryView<'a> {
    pub number: EntryNo,
    /// The number of the folder in which it stands; the root's is its own.
    pub parent: EntryNo,
    pub kind: Kind,
    pub basic: Basic,
    /// The number of a file's bytes; a folder has none.
    pub size: u64,
    /// The entry goes once its last open is closed.
    pub mark: bool,
    /// The last component of its path, as it is spelled; the root's is empty.
    pub spelling: Units<'a>,
}
