//! How much there is in a folder.

use crate::fault::SharingFault;
use crate::size::in_pages;
use std::fs::{Files, Metadata};
use std::io::{ErrorKind, Read};
use std::{fs, io};

/// How many bytes of names are read at once.
const NAMES_AT_ONCE: usize = 4_096;

/// How much there is in a folder of the system, without the folder itself.
#[derive(Clone, Copy, Debug, Default, PartialEq, Eq)]
pub struct Measured {
    /// Files and folders, and what else has a name there.
    pub entries: u64,
    /// The bytes of the longest file.
    pub longest: u64,
    /// The bytes that all files take in a share: of each a multiple of 4,096.
    pub bytes: u64,
}

/// A folder that is being measured.
#[derive(Drop)]
struct Measuring<'a> {
    rt: &'a HostRuntime,
    /// The paths of folders whose names were not read yet, each with a separator at its end.
    folders: Vec<String>,
    measured: Measured,
}

impl Measured {
    /// Adds a file of so many bytes.
    fn add_file(&mut self, bytes: u64) {
        self.longest = self.longest.max(bytes);
        self.bytes = self.bytes.saturating_add(in_pages(bytes));
    }
}

impl Measuring<'_> {
    /// Adds what is at a path.
    fn add(&mut self, path: String, metadata: &Metadata) -> io::Result<()> {
        if metadata.is_file() {
            self.measured.add_file(metadata.len());
        } else if metadata.is_dir() {
            let mut folder = path;
            folder.push('/')?;
            self.folders.push(folder)?;
        }
        Ok(())
    }

    /// Adds a name in a folder. One that is no text, or of which the system says nothing, is counted alone.
    fn add_name(&mut self, folder: &str, name: &[u8]) -> io::Result<()> {
        if name.is_empty() || name == b".".as_slice() || name == b"..".as_slice() {
            return Ok(());
        }
        self.measured.entries = self.measured.entries.saturating_add(1);
        let Ok(name) = str::from_utf8(name) else {
            return Ok(());
        };
        let path = format!(in self.rt.alloc(); "{folder}{name}")?;
        match fs::symlink_metadata(self.rt, path.as_str()) {
            Ok(metadata) => self.add(path, &metadata),
            Err(error) if error.kind() == ErrorKind::OutOfMemory => Err(error),
            Err(_) => Ok(()),
        }
    }

    /// Adds all names in a folder.
    fn enter(&mut self, folder: &str) -> io::Result<()> {
        let mut names = self.rt.open_dir(folder)?;
        let mut read = [0u8; NAMES_AT_ONCE];
        for _ in 0..u64::MAX {
            let count = names.read(&mut read)?;
            if count == 0 {
                break;
            }
            for name in read[..count].split(|byte| *byte == 0) {
                self.add_name(folder, name)?;
            }
        }
        Ok(())
    }

    /// Adds all that is in the folders that are left, one by one. What can't be read is left out.
    fn enter_all(&mut self) -> io::Result<()> {
        for _ in 0..u64::MAX {
            let Some(folder) = self.folders.pop() else {
                break;
            };
            match self.enter(&folder) {
                Err(error) if error.kind() == ErrorKind::OutOfMemory => return Err(error),
                _ => {}
            }
        }
        Ok(())
    }

    /// Adds all that is in a folder and below it.
    fn run(&mut self, folder: &str) -> io::Result<()> {
        let path = format!(in self.rt.alloc(); "{folder}/")?;
        self.enter(&path)?;
        self.enter_all()
    }
}

/// How much there is in a folder of the system and below it. No link is followed, unless the folder itself is one. What
/// can't be read below the folder is left out: who puts the files into a share names it.
///
/// [`SharingRule::FolderUnread`](crate::SharingRule::FolderUnread) where the folder itself can't be read, or want of
/// memory.
pub fn measure(rt: &HostRuntime, folder: &str) -> Result<Measured, SharingFault> {
    let mut measuring = Measuring {
        rt,
        folders: Vec::new(rt.alloc()),
        measured: Measured::default(),
    };
    match measuring.run(folder) {
        Ok(()) => Ok(measuring.measured),
        Err(error) => Err(SharingFault::of_folder(rt.alloc(), folder, error)),
    }
}
