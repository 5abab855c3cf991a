//! The file of a journal's room.

use crate::fault::KeptFault;
use crate::files::lock;
use crate::journal::FileFault;
use smb_journal::JournalFault;
use smb_journal_file::RoomFile;
use std::fs::OpenOptions;
use std::io;
use std::os::unix::fs::OpenOptionsExt;

/// What a failed opening of the file is.
fn fault_of_room(error: io::Error) -> KeptFault {
    match JournalFault::of_write(error) {
        JournalFault::NoMemory => KeptFault::NoMemory,
        fault => KeptFault::File(FileFault::Room(fault)),
    }
}

/// The room in the file of this name, which is made where there is none. As much is taken as a new share needs, where
/// the disk has it.
pub(crate) fn open_room(rt: &HostRuntime, path: &str) -> Result<RoomFile, KeptFault> {
    let mut options = OpenOptions::new();
    let _ = options.append(true).create(true);
    let _ = options.mode(0o600);
    let file = options.open(rt, path).map_err(fault_of_room)?;
    let mut room = match RoomFile::new(lock(file)?) {
        Ok(room) => room,
        Err(reason) => return Err(KeptFault::File(FileFault::Room(JournalFault::Unwritten(
            reason,
        )))),
    };
    let _ = room.take(1);
    Ok(room)
}
