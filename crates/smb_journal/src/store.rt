//! Where the lines of a recording are kept.

use std::fs::File;
use std::io;
use std::io::Write;

/// Keeps bytes.
pub trait Store {
    /// Adds bytes behind those that are kept. After an error some of them may have been added.
    fn add(&mut self, bytes: &[u8]) -> io::Result<()>;

    /// Returns once all that was added lies on the disk.
    fn settle(&mut self) -> io::Result<()>;
}

impl Store for File {
    fn add(&mut self, bytes: &[u8]) -> io::Result<()> {
        self.write_all(bytes)
    }

    fn settle(&mut self) -> io::Result<()> {
        self.sync_data()
    }
}
