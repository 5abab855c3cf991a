//! The journal of a share, as its status shows it.

use smb_kept::JournalWords;
use smb_peers::filetime_of;
use smb_status::Journal;
use std::alloc::{AllocError, Global};
use std::fs;
use std::fs::Metadata;
use std::time::UNIX_EPOCH;

/// The file of a journal, and the file beside it that has its room.
#[derive(Drop)]
pub struct ShownJournal<'a> {
    path: &'a str,
    room_path: String,
    /// Whether what is written is put on the disk.
    is_synced: bool,
}

/// When a file was last written, in units of 100 ns since 1601; None where the system does not say it.
fn written(found: &Metadata) -> Option<u64> {
    let modified = found.modified().ok()?;
    filetime_of(modified.duration_since(UNIX_EPOCH).ok()?)
}

/// The name of the file that has the room of a journal.
pub fn room_of(alloc: Global, journal: JournalWords<'_>) -> Result<String, AllocError> {
    let path = journal.path;
    format!(in alloc; "{path}.room")
}

impl<'a> ShownJournal<'a> {
    /// That of the words.
    pub fn new(alloc: Global, words: JournalWords<'a>) -> Result<Self, AllocError> {
        let JournalWords { path, settles } = words;
        Ok(ShownJournal {
            path,
            room_path: room_of(alloc, words)?,
            is_synced: settles,
        })
    }

    /// What is shown of it now; None where its file is not there.
    pub fn look(&self, rt: &HostRuntime) -> Option<Journal> {
        let found = fs::metadata(rt, self.path).ok()?;
        let room = fs::metadata(rt, self.room_path.as_str()).ok();
        let written = written(&found);
        Some(Journal {
            bytes: found.len(),
            room: room.map(|room| room.len()),
            written,
            synced: if self.is_synced { written } else { None },
        })
    }
}
