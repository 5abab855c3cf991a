//! What a QUERY_DIRECTORY asks, and what it seeks.

use smb_access::ScanLast;
use smb_patterns::Matcher;
use smb_tree::EntryNo;
use smb_wire::{QueryDirectoryFlags, Units};

/// What a query of a directory asks ([MS-SMB2] 2.2.33).
#[derive(Clone, Copy)]
pub struct ListAsk<'a> {
    /// The number of the information class.
    pub class: u8,
    pub flags: QueryDirectoryFlags,
    /// Which names are wanted, where the query starts the scan.
    pub pattern: Units<'a>,
    /// How many bytes there may be at most.
    pub room: u32,
}

/// What is sought in a directory.
#[derive(Clone, Copy)]
pub(crate) struct Search<'a> {
    /// The number of the directory's entry.
    pub(crate) folder: EntryNo,
    /// Which names are wanted.
    pub(crate) pattern: &'a Matcher,
    /// Behind which entry the scan goes on.
    pub(crate) last: ScanLast,
    /// At most one entry is wanted.
    pub(crate) single: bool,
    /// How many bytes there may be at most.
    pub(crate) room: u32,
}
