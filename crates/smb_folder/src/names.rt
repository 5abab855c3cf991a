//! Names and paths.

use super::fault::Trouble;
use smb_reason::Shown;
use smb_wire::Units;
use std::alloc::{AllocError, Global};
use std::fs::Files;
use std::io::Read;

/// How many bytes of names are read at once.
const NAMES_AT_ONCE: usize = 4_096;

/// A folder's path, with a separator at its end so that the paths below it can follow. The empty one stays as it is.
pub(crate) fn base_of(alloc: Global, folder: &str) -> Result<String, AllocError> {
    let mut base = String::from_str(alloc, folder)?;
    if !base.is_empty() && !base.ends_with('/') {
        base.push('/')?;
    }
    Ok(base)
}

/// The path of the system at which what is at a path below a folder is.
pub(crate) fn system_path(alloc: Global, base: &str, relative: &str) -> Result<String, AllocError> {
    let mut path = String::from_str(alloc, base)?;
    path.push_str(relative)?;
    Ok(path)
}

/// A path below a folder as the share has it: separators are backslashes.
pub(crate) fn share_path(alloc: Global, relative: &str) -> Result<String, AllocError> {
    relative
        .chars()
        .map(|character| if character == '/' { '\\' } else { character })
        .collect(alloc)
}

/// The path of a name in a folder that is at a path; the first folder of all is at the empty one.
pub(crate) fn joined(alloc: Global, relative: &[u8], name: &[u8]) -> Result<Vec<u8>, AllocError> {
    let mut path = Vec::from_slice(alloc, relative)?;
    if !path.is_empty() {
        path.push(b'/')?;
    }
    path.extend_from_slice(name)?;
    Ok(path)
}

/// The same of names that are texts.
pub(crate) fn child_of(alloc: Global, relative: &str, name: &str) -> Result<String, AllocError> {
    let mut path = String::from_str(alloc, relative)?;
    if !path.is_empty() {
        path.push('/')?;
    }
    path.push_str(name)?;
    Ok(path)
}

/// A name as a text, and whether it is Unicode: a surrogate without its other half is there in hex, as `\u{D800}`.
pub fn name_of(alloc: Global, units: Units<'_>) -> Result<(String, bool), AllocError> {
    let mut name = String::new(alloc);
    let mut is_unicode = true;
    let (pairs, _) = units.bytes().as_chunks::<2>();
    let units = pairs.iter().map(|pair| u16::from_le_bytes(*pair));
    for decoded in char::decode_utf16(units) {
        match decoded {
            Ok(character) => name.push(character)?,
            Err(alone) => {
                is_unicode = false;
                let unit = alone.unpaired_surrogate();
                write!(name, "\\u{{{unit:04X}}}")?;
            }
        }
    }
    Ok((name, is_unicode))
}

/// A path below a folder as it can be shown in one line.
pub(crate) fn shown(alloc: Global, base: &str, relative: &[u8]) -> Result<String, AllocError> {
    format!(in alloc; "{}{}", Shown(base.as_bytes()), Shown(relative))
}

/// The names in a folder of the system.
#[derive(Drop)]
pub(crate) struct Names {
    /// In order.
    pub(crate) names: Vec<Vec<u8>>,
    /// How many more there are.
    pub(crate) more: u64,
}

/// Adds the names that were read, but for `.` and `..`: of those past `most` it is counted how many there are.
fn add_names(alloc: Global, most: usize, read: &[u8], found: &mut Names) -> Result<(), Trouble> {
    for name in read.split(|byte| *byte == 0) {
        if name.is_empty() || name == b".".as_slice() || name == b"..".as_slice() {
            continue;
        }
        if found.names.len() > most {
            found.more = found.more.saturating_add(1);
        } else {
            found.names.push(Vec::from_slice(alloc, name)?)?;
        }
    }
    Ok(())
}

/// The names in a folder of the system, in order. Where it has more than a share can hold, which is `most`, these are
/// one more than that, and which ones the system says: one of them has no room, and all others have none either.
pub(crate) fn names_in<R: Files>(
    rt: &R,
    alloc: Global,
    most: usize,
    path: &str,
) -> Result<Names, Trouble> {
    let mut folder = rt.open_dir(path).map_err(Trouble::unread)?;
    let mut found = Names {
        names: Vec::new(alloc),
        more: 0,
    };
    let mut read = [0u8; NAMES_AT_ONCE];
    for _ in 0..u64::MAX {
        let count = folder.read(&mut read).map_err(Trouble::unread)?;
        if count == 0 {
            break;
        }
        add_names(alloc, most, &read[..count], &mut found)?;
    }
    found.names.sort()?;
    Ok(found)
}
