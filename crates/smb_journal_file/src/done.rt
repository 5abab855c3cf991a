//! What was done to a file.

use std::snapshot::Snapshot;

/// What was done to the bytes of a file so far, which clauses alone read: it keeps no bytes.
#[derive(Drop)]
pub enum Done {
    /// Nothing.
    Nothing,
    /// Behind what was done before, bytes were read or written: those of a vector from a place on.
    Added {
        before: Snapshot<Done>,
        begin: usize,
        bytes: Snapshot<Vec<u8>>,
    },
    /// After what was done before, the file was cut to its first bytes.
    Cut {
        before: Snapshot<Done>,
        size: u64,
    },
}
