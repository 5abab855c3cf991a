//! The files that a share is recorded in.

use crate::fault::KeptFault;
use smb_journal::{JournalFault, Lines};
use std::fs::{File, OpenOptions, TryLockError};
use std::io::ErrorKind;
use std::os::unix::fs::{MetadataExt, OpenOptionsExt};
use std::path::Path;
use std::{fs, io};

/// What a failed opening or read of a file is.
pub(crate) fn fault_of_read(error: io::Error) -> KeptFault {
    KeptFault::Recording(JournalFault::of_read(error))
}

/// What a failed making or write of a file is.
pub(crate) fn fault_of_write(error: io::Error) -> KeptFault {
    KeptFault::Recording(JournalFault::of_write(error))
}

/// Opens a recording to read it.
pub(crate) fn open_lines(rt: &HostRuntime, path: &str) -> Result<Lines<File>, KeptFault> {
    match fs::open(rt, path) {
        Ok(file) => Ok(Lines::new(rt.alloc(), file)),
        Err(error) => Err(fault_of_read(error)),
    }
}

/// Makes a file that nobody but its owner has a right to, and that must not be there yet.
pub(crate) fn make_file(rt: &HostRuntime, path: &str) -> Result<File, KeptFault> {
    let mut options = OpenOptions::new();
    let _ = options.append(true).create_new(true);
    let _ = options.mode(0o600);
    options.open(rt, path).map_err(fault_of_write)
}

/// Has a file to itself, as long as it is open.
pub(crate) fn lock(file: File) -> Result<File, KeptFault> {
    match file.try_lock() {
        Ok(()) => Ok(file),
        Err(TryLockError::WouldBlock) => Err(KeptFault::Recording(JournalFault::InUse)),
        Err(TryLockError::Error(error)) => Err(fault_of_write(error)),
    }
}

/// Refuses a file that was opened under a name which is another one's by now: a program that has the journal wrote it anew
/// before the lock.
fn refuse_renamed(rt: &HostRuntime, path: &str, file: &File) -> Result<(), KeptFault> {
    let held = file.metadata().map_err(fault_of_read)?;
    match fs::metadata(rt, path) {
        Ok(named) if (named.dev(), named.ino()) == (held.dev(), held.ino()) => Ok(()),
        Ok(_) => Err(KeptFault::Recording(JournalFault::InUse)),
        Err(error) => Err(fault_of_read(error)),
    }
}

/// A journal that exists, which this program has to itself as long as it is open; None where there is none.
pub(crate) fn open_journal(rt: &HostRuntime, path: &str) -> Result<Option<File>, KeptFault> {
    let mut options = OpenOptions::new();
    let _ = options.append(true).read(true);
    match options.open(rt, path) {
        Ok(file) => {
            let held = lock(file)?;
            refuse_renamed(rt, path, &held)?;
            Ok(Some(held))
        }
        Err(error) if error.kind() == ErrorKind::NotFound => Ok(None),
        Err(error) => Err(fault_of_read(error)),
    }
}

/// Has a new file's name written to the disk.
pub(crate) fn settle_name(rt: &HostRuntime, path: &str) -> Result<(), KeptFault> {
    let folder = match Path::new(path).parent() {
        Some(folder) if !folder.as_os_str().is_empty() => folder,
        _ => Path::new("."),
    };
    let folder = fs::open(rt, folder).map_err(fault_of_write)?;
    folder.sync_all().map_err(fault_of_write)
}

/// Gives a file another name, which is written to the disk where it is to be.
pub(crate) fn give_name(
    rt: &HostRuntime,
    old: &str,
    new: &str,
    settles: bool,
) -> Result<(), KeptFault> {
    fs::rename(rt, old, new).map_err(fault_of_write)?;
    if settles {
        settle_name(rt, new)?;
    }
    Ok(())
}

/// Takes away a file that a start left that was ended, where it is there. One that a program has to itself stays.
pub(crate) fn remove_left(rt: &HostRuntime, path: &str) -> Result<(), KeptFault> {
    let Some(left) = open_journal(rt, path)? else {
        return Ok(());
    };
    let removed = fs::remove_file(rt, path).map_err(fault_of_write);
    drop(left);
    removed
}

/// Cuts a file to this many bytes.
pub(crate) fn cut(file: &File, end: u64) -> Result<(), KeptFault> {
    file.set_len(end).map_err(fault_of_write)
}
