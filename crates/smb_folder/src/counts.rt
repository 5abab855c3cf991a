//! How much was moved.

/// How much was moved between a folder and a share.
#[derive(Clone, Copy, Debug, Default, PartialEq, Eq)]
pub struct Counts {
    /// Folders, without the one that all is in.
    pub folders: u64,
    pub files: u64,
    /// Bytes of all files.
    pub bytes: u64,
}

impl Counts {
    /// Counts a folder.
    pub(crate) fn add_folder(&mut self) {
        self.folders = self.folders.saturating_add(1);
    }

    /// These counts with more bytes, of a file that is not there whole.
    pub(crate) fn with_bytes(self, bytes: u64) -> Self {
        Counts {
            bytes: self.bytes.saturating_add(bytes),
            ..self
        }
    }

    /// Counts a file of so many bytes.
    pub(crate) fn add_file(&mut self, bytes: u64) {
        self.files = self.files.saturating_add(1);
        self.bytes = self.bytes.saturating_add(bytes);
    }
}
