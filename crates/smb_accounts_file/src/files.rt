//! The file of accounts in the file system.

use crate::fault::AccountsFault;
use smb_config::{ConfigFault, read_config};
use smb_reason::Reason;
use std::fs::{File, Metadata, OpenOptions, TryLockError};
use std::io::{ErrorKind, Write};
use std::os::unix::fs::{MetadataExt, OpenOptionsExt, fchown};
use std::path::Path;
use std::{fs, io};

/// The rights of the group and of others, in the bits of a file's mode.
const NOT_THE_OWNERS: u32 = 0o077;

/// A file of accounts that is open.
#[derive(Drop)]
pub(crate) struct Held {
    file: File,
    facts: Metadata,
    /// Whether it was not there before.
    pub(crate) is_new: bool,
}

/// Makes a file that nobody but its owner has a right to, and that is not there yet.
fn make(rt: &HostRuntime, path: &str) -> io::Result<File> {
    let mut options = OpenOptions::new();
    let _ = options.write(true).read(true).create_new(true);
    let _ = options.mode(0o600);
    options.open(rt, path)
}

impl Held {
    /// A file that is open, where nobody but its owner has a right to it.
    fn of(file: File, is_new: bool) -> Result<Held, AccountsFault> {
        let facts = file.metadata().map_err(AccountsFault::of_read)?;
        if facts.mode() & NOT_THE_OWNERS != 0 {
            return Err(AccountsFault::Mode);
        }
        Ok(Held {
            file,
            facts,
            is_new,
        })
    }

    /// Opens a file to read it.
    pub(crate) fn open(rt: &HostRuntime, path: &str) -> Result<Held, AccountsFault> {
        match fs::open(rt, path) {
            Ok(file) => Held::of(file, false),
            Err(error) if error.kind() == ErrorKind::NotFound => Err(AccountsFault::NoFile),
            Err(error) => Err(AccountsFault::of_read(error)),
        }
    }

    /// Opens a file, or makes one without accounts.
    pub(crate) fn open_or_make(rt: &HostRuntime, path: &str) -> Result<Held, AccountsFault> {
        match Held::open(rt, path) {
            Err(AccountsFault::NoFile) => match make(rt, path) {
                Ok(file) => Held::of(file, true),
                Err(error) => Err(AccountsFault::of_making(error)),
            },
            opened => opened,
        }
    }

    /// Has the file to itself, as long as it is open, where it is still that of its name.
    pub(crate) fn lock(&self, rt: &HostRuntime, path: &str) -> Result<(), AccountsFault> {
        match self.file.try_lock() {
            Ok(()) => {}
            Err(TryLockError::WouldBlock) => return Err(AccountsFault::InUse),
            Err(TryLockError::Error(error)) => return Err(AccountsFault::of_read(error)),
        }
        let named = fs::metadata(rt, path).map_err(AccountsFault::of_read)?;
        if named.ino() == self.facts.ino() && named.dev() == self.facts.dev() {
            Ok(())
        } else {
            Err(AccountsFault::InUse)
        }
    }

    /// Its text.
    pub(crate) fn text(&self, rt: &HostRuntime) -> Result<String, ConfigFault> {
        match self.file.try_clone() {
            Ok(file) => read_config(rt.alloc(), file),
            Err(error) => Err(ConfigFault::from(error.kind())),
        }
    }

    /// Writes another text to a new file beside it, which then gets its name.
    pub(crate) fn replace(
        &self,
        rt: &HostRuntime,
        path: &str,
        text: &[u8],
    ) -> Result<(), AccountsFault> {
        let real = Path::new(path)
            .canonicalize(rt)
            .map_err(AccountsFault::of_read)?;
        let path = real.to_string_lossy();
        let beside = format!(in rt.alloc(); "{path}.new")?;
        let file = match make(rt, beside.as_str()) {
            Ok(file) => file,
            Err(error) if error.kind() == ErrorKind::AlreadyExists => {
                return Err(AccountsFault::Left(beside));
            }
            Err(error) => return Err(AccountsFault::of_write(error)),
        };
        let written = self.fill(rt, file, text, beside.as_str(), path);
        if written.is_err() {
            let _ = fs::remove_file(rt, beside.as_str());
            return written;
        }
        settle_name(rt, path)
    }

    /// Writes a text to a new file, and gives it the name of this one.
    fn fill(
        &self,
        rt: &HostRuntime,
        mut file: File,
        text: &[u8],
        beside: &str,
        path: &str,
    ) -> Result<(), AccountsFault> {
        let made = file.metadata().map_err(AccountsFault::of_write)?;
        if made.uid() != self.facts.uid() {
            let (owner, group) = (self.facts.uid(), self.facts.gid());
            fchown(&file, Some(owner), Some(group)).map_err(AccountsFault::of_write)?;
        }
        file.write_all(text).map_err(AccountsFault::of_write)?;
        file.sync_all().map_err(AccountsFault::of_write)?;
        fs::rename(rt, beside, path).map_err(AccountsFault::of_write)
    }
}

/// Has a file's name written to the disk.
fn settle_name(rt: &HostRuntime, path: &str) -> Result<(), AccountsFault> {
    let folder = match Path::new(path).parent() {
        Some(folder) if !folder.as_os_str().is_empty() => folder,
        _ => Path::new("."),
    };
    let settled = match fs::open(rt, folder) {
        Ok(folder) => folder.sync_all(),
        Err(error) => Err(error),
    };
    match settled {
        Ok(()) => Ok(()),
        Err(error) => Err(AccountsFault::Unsettled(Reason(error.kind()))),
    }
}
