//! How far a folder has come that is put into a share.

use super::counts::Counts;

/// Who hears how much of a folder is in the share.
pub trait Progress {
    /// Takes note of how much it is, behind each file and folder, and each part of a file.
    fn note(&mut self, _counts: Counts) {}
}

impl Progress for () {}
