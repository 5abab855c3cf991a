//! Why no tree is made.

use smb_tree::EntryNo;
use std::alloc::AllocError;
use thiserror::Error;

/// Why files make no tree.
#[derive(Clone, Copy, Debug, PartialEq, Eq, Error)]
pub enum BuildFault {
    /// An allocation was refused.
    #[error("out of memory")]
    NoMemory,
    /// There are more entries besides the root than the limits allow.
    #[error("there are more files and folders than the limits allow: raise limits.entries")]
    TooManyEntries,
    /// A file has more bytes than the limits allow.
    #[error("file {number} has more bytes than the limits allow: raise limits.file_bytes")]
    TooLong { number: EntryNo },
    /// The files take more space than the capacity.
    #[error("the files take more space than the capacity: raise capacity")]
    NoRoom,
    /// An entry has no place in a tree: its folder is missing or no folder, its name is not lawful or another entry has
    /// it, it lies too deep, or it is a folder with bytes; or the root is missing or no folder.
    #[error("entry {number} has no place in a tree: take a back-up of it")]
    Unfit { number: EntryNo },
}

impl From<AllocError> for BuildFault {
    fn from(_error: AllocError) -> BuildFault {
        BuildFault::NoMemory
    }
}
