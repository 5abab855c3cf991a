//! What is told of opens.

use super::open_row::OpenNo;
use smb_tree::{EntryNo, Kind};
use smb_wire::{Access, CreateAction, FileAttributes};

/// An entry as an open shows it ([MS-FSCC] 2.4). Times are in units of 100 ns since 1601, sizes in bytes.
#[derive(Clone, Copy, Debug, PartialEq, Eq)]
pub struct View {
    pub entry: EntryNo,
    pub kind: Kind,
    pub creation_time: u64,
    pub last_access_time: u64,
    pub last_write_time: u64,
    pub change_time: u64,
    pub size: u64,
    /// The size in whole clusters of 4,096 bytes.
    pub allocation_size: u64,
    /// The kept attributes, with DIRECTORY of a folder, and NORMAL of a file that keeps none.
    pub attributes: FileAttributes,
    /// The entry goes once its last open is closed.
    pub mark: bool,
    /// The access that the open was granted.
    pub access: Access,
}

/// What a CREATE that succeeds tells.
#[derive(Clone, Copy, Debug, PartialEq, Eq)]
pub struct Created {
    /// The number of the new open.
    pub number: OpenNo,
    pub action: CreateAction,
    /// The entry afterwards.
    pub view: View,
}

/// What a CLOSE tells.
#[derive(Clone, Copy, Debug, PartialEq, Eq)]
pub struct Closed {
    /// The entry from before.
    pub view: View,
    /// The entry is gone with the open.
    pub removed: bool,
}
