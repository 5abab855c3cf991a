//! What is kept of a file or a folder beside its name and its bytes.

use smb_peers::{FILETIME_OF_1970, filetime_of, since_1970};
use smb_tree::{Basic, Kind};
use smb_wire::FileAttributes;
use std::fs::{FileTimes, Metadata};
use std::io;
use std::os::unix::fs::MetadataExt;
use std::time::{SystemTime, UNIX_EPOCH};

/// The last moment that a share takes for a time ([MS-FSCC] 2.4.7).
pub(crate) const LAST_MOMENT: u64 = 0x7FFF_FFFF_FFFF_FFFF;

/// The owner's right to write, of a mode.
const OWNER_WRITES: u32 = 0o200;

/// A time of a file as a moment. One before 1970 is that of 1970, and one past the last that a share takes is that
/// last.
fn moment_of(time: io::Result<SystemTime>) -> u64 {
    let Ok(time) = time else {
        return FILETIME_OF_1970;
    };
    let Ok(since) = time.duration_since(UNIX_EPOCH) else {
        return FILETIME_OF_1970;
    };
    filetime_of(since).unwrap_or(LAST_MOMENT).min(LAST_MOMENT)
}

/// A moment as a time of a file. One before 1970 is 1970.
fn time_of(moment: u64) -> SystemTime {
    let Some(since) = since_1970(moment) else {
        return UNIX_EPOCH;
    };
    UNIX_EPOCH.checked_add(since).unwrap_or(UNIX_EPOCH)
}

/// The time of the last write of a file or a folder of the system, as a moment.
pub(crate) fn written_of(metadata: &Metadata) -> u64 {
    moment_of(metadata.modified())
}

/// The attributes that an entry of this kind has which nobody gave others: ARCHIVE of a file, none of a folder.
fn usual_attributes(kind: Kind) -> FileAttributes {
    match kind {
        Kind::File => FileAttributes::ARCHIVE,
        Kind::Folder => FileAttributes(0),
    }
}

/// What a share is to have of a file or a folder of the system. The time of its last write is taken for its creation
/// and its change too, and what its owner may not write is READONLY.
pub(crate) fn basic_of(kind: Kind, metadata: &Metadata) -> Basic {
    let modified = written_of(metadata);
    let usual = usual_attributes(kind);
    let is_writable = metadata.mode() & OWNER_WRITES != 0;
    Basic {
        creation_time: modified,
        last_access_time: moment_of(metadata.accessed()),
        last_write_time: modified,
        change_time: modified,
        attributes: if is_writable {
            usual
        } else {
            FileAttributes(FileAttributes::READONLY.0 | usual.0)
        },
    }
}

/// Whether it is READONLY.
pub(crate) fn is_read_only(basic: Basic) -> bool {
    basic.attributes.0 & FileAttributes::READONLY.0 != 0
}

/// The times of a file of the system.
pub(crate) fn times_of(basic: Basic) -> FileTimes {
    FileTimes::new()
        .set_accessed(time_of(basic.last_access_time))
        .set_modified(time_of(basic.last_write_time))
}
