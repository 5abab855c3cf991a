//! What stands where a CREATE request looks.

use smb_tree::{Basic, EntryNo, Kind};

/// The number of the root.
pub const ROOT: EntryNo = 1;

/// Of the entry that a request names, what decides.
#[derive(Clone, Copy, Debug)]
pub struct Target {
    pub number: EntryNo,
    pub kind: Kind,
    pub basic: Basic,
    pub mark: bool,
}

/// What stands where a request looks.
#[derive(Clone, Copy, Debug)]
pub struct CreateLookup {
    /// The entry that it names, if it stands.
    pub target: Option<Target>,
    /// Each entry above it is a folder.
    pub reached: bool,
    /// The entry, or the folder that it is in, is marked.
    pub pending: bool,
    /// No open can be added.
    pub opens_full: bool,
    /// No entry can be added.
    pub entries_full: bool,
}
