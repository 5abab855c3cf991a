//! The rights to an open file.

use std::os::unix::fs::MetadataExt;
use std::{fs, io};

/// The rights of the group and of others, in the bits of a file's mode.
const NOT_THE_OWNERS: u32 = 0o077;

/// The right of the group to read, in the bits of a file's mode. Where a file has an ACL the bits of the group are its mask: what those
/// may do at most whom it names.
const GROUP_READS: u32 = 0o040;

/// The right of others to write, in the bits of a file's mode.
const OTHERS_WRITE: u32 = 0o002;

/// The bits of the mode of an open file, whatever its name is by now.
fn mode_of(rt: &HostRuntime, descriptor: i32) -> io::Result<u32> {
    let path = format!(in rt.alloc(); "/proc/self/fd/{descriptor}")?;
    let found = fs::metadata(rt, path.as_str())?;
    Ok(found.mode())
}

/// Who besides its owner has a right to an open file.
#[derive(Clone, Copy, PartialEq, Eq)]
pub enum Others {
    Nobody,
    /// Its group, or whom an ACL names, may read it, and no more.
    Readers,
    /// Anyone else, or to do more.
    Any,
}

/// Who besides its owner has a right to an open file.
pub fn others_of(rt: &HostRuntime, descriptor: i32) -> io::Result<Others> {
    Ok(match mode_of(rt, descriptor)? & NOT_THE_OWNERS {
        0 => Others::Nobody,
        GROUP_READS => Others::Readers,
        _ => Others::Any,
    })
}

/// Whether everyone may write to an open file.
pub fn everyone_writes(rt: &HostRuntime, descriptor: i32) -> io::Result<bool> {
    Ok(mode_of(rt, descriptor)? & OTHERS_WRITE != 0)
}
