//! Which open a request names ([MS-SMB2] 2.2.14.1).

/// The number of an open in two halves ([MS-SMB2] 2.2.14.1).
#[derive(Clone, Copy, Debug, PartialEq, Eq)]
pub struct FileId {
    pub persistent: u64,
    pub volatile: u64,
}
