//! How much a tree holds.

/// How much a tree holds.
#[derive(Clone, Copy, Debug, PartialEq, Eq)]
pub struct Usage {
    /// Its files and folders, without the root.
    pub entries: usize,
    /// The room that all files take, in bytes: of each its size, rounded up to 4,096.
    pub used: u64,
}
