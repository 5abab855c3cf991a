//! The next file of a journal, which is to take its place.

ghost use Rattle.std.specs.Prelude.{◌≡◌, [], IfOk, IfSome};

use super::disk::DiskFile;
use super::first::{first_line, write_least};
use super::shared_sync::SharedSync;
use smb_reason::Reason;
use std::fs::{File, OpenOptions};
use std::io::{ErrorKind, Write};
use std::os::unix::fs::{MetadataExt, OpenOptionsExt};
use std::path::{AsPath, Path};
use std::{fs, io};

/// Where the next file of a journal is made: beside the journal of this path, under its name and `.new`; and what is
/// known of waits until what was written to the journal lasts.
#[derive(Clone, Copy)]
pub struct NextWords<'a> {
    pub rt: &'a HostRuntime,
    pub path: &'a str,
    pub sync: &'a SharedSync,
}

/// Why the system refused.
fn reason_of(error: io::Error) -> Reason {
    Reason(error.kind())
}

/// Has a file to itself, as long as it is open.
fn lock(file: &File) -> Result<(), Reason> {
    match file.try_lock() {
        Ok(()) => Ok(()),
        Err(_) => Err(Reason(ErrorKind::ResourceBusy)),
    }
}

impl<'a> NextWords<'a> {
    // The name of the journal's file, where its path may be a link, and that of the next one.
    fn names(&self) -> Result<(String, String), Reason> {
        let real = fs::canonicalize(self.rt, self.path).map_err(reason_of)?;
        let alloc = self.rt.alloc();
        let name = match String::from_str(alloc, real.path_text()) {
            Ok(name) => name,
            Err(_) => return Err(Reason(ErrorKind::OutOfMemory)),
        };
        match format!(in alloc; "{name}.new") {
            Ok(next) => Ok((name, next)),
            Err(_) => Err(Reason(ErrorKind::OutOfMemory)),
        }
    }

    // Whether the journal's path is still that of its file.
    fn is_of(&self, file: &File) -> Result<bool, Reason> {
        let named = match fs::metadata(self.rt, self.path) {
            Ok(named) => named,
            Err(error) if error.kind() == ErrorKind::NotFound => return Ok(false),
            Err(error) => return Err(reason_of(error)),
        };
        let held = file.metadata().map_err(reason_of)?;
        Ok((named.dev(), named.ino()) == (held.dev(), held.ino()))
    }

    // Takes away what a program left that was ended. Where another one has it to itself it stays.
    fn remove_left(&self, next: &str) -> Result<(), Reason> {
        let mut options = OpenOptions::new();
        let _ = options.append(true);
        match options.open(self.rt, next) {
            Ok(left) => {
                lock(&left)?;
                fs::remove_file(self.rt, next).map_err(reason_of)
            }
            Err(error) if error.kind() == ErrorKind::NotFound => Ok(()),
            Err(error) => Err(reason_of(error)),
        }
    }

    // Makes the next file, with the rights of the journal's, and its first line, into which the second handle writes.
    fn make_named(&self, file: &File, next: &str, seed: u64) -> Result<(File, File), Reason> {
        let mut options = OpenOptions::new();
        let _ = options.append(true).create_new(true);
        let _ = options.mode(0o600);
        let mut made = options.open(self.rt, next).map_err(reason_of)?;
        lock(&made)?;
        let mut options = OpenOptions::new();
        let _ = options.write(true);
        let line = options.open(self.rt, next).map_err(reason_of)?;
        let rights = file.metadata().map_err(reason_of)?.permissions();
        made.set_permissions(rights).map_err(reason_of)?;
        let Ok(first) = first_line(self.rt.alloc(), seed, 0) else {
            return Err(Reason(ErrorKind::OutOfMemory));
        };
        made.write_all(&first).map_err(reason_of)?;
        Ok((made, line))
    }

    /// Makes the next file of a journal, whose first batch has this seed; None where the journal's path is that of another
    /// file by now, or of none.
    pub(crate) fn make(&self, file: &File, seed: u64) -> Result<Option<DiskFile<'a>>, Reason>
        ensures { IfOk result (λ made. IfSome made (λ next. next.bytes ≡ [])) }
    {
        if !self.is_of(file)? {
            return Ok(None);
        }
        let (_, next) = self.names()?;
        self.remove_left(next.as_str())?;
        match self.make_named(file, next.as_str(), seed) {
            Ok((made, line)) => Ok(Some(DiskFile::beside(self.rt, made, line))),
            Err(reason) => {
                let _ = self.remove_left(next.as_str());
                Err(reason)
            }
        }
    }

    /// Gives the next file the journal's name, where that is still the name of the journal's file. Before that its
    /// first line, into which `line` writes, gets the number of its bytes, and lasts.
    pub(crate) fn give_name(
        &self,
        file: &File,
        line: &Option<File>,
        size: u64,
    ) -> Result<(), Reason> {
        if !self.is_of(file)? {
            return Err(Reason(ErrorKind::NotFound));
        }
        if let Some(line) = line {
            write_least(self.rt.alloc(), line, size)?;
        }
        let (name, next) = self.names()?;
        fs::rename(self.rt, next.as_str(), name.as_str()).map_err(reason_of)
    }

    /// Waits until the name lasts.
    pub(crate) fn settle_name(&self) -> Result<(), Reason> {
        let (name, _) = self.names()?;
        let folder = match Path::new(name.as_str()).parent() {
            Some(folder) if !folder.as_os_str().is_empty() => folder,
            _ => Path::new("."),
        };
        let folder = fs::open(self.rt, folder).map_err(reason_of)?;
        folder.sync_all().map_err(reason_of)
    }

    /// Takes away a next file that a program left that was ended, where there is one.
    pub fn clear(&self) {
        if let Ok((_, next)) = self.names() {
            let _ = self.remove_left(next.as_str());
        }
    }

    /// Takes away the next file.
    pub(crate) fn remove(&self) -> Result<(), Reason> {
        let (_, next) = self.names()?;
        fs::remove_file(self.rt, next.as_str()).map_err(reason_of)
    }
}
