//! The name of a share.

use crate::fault::{SharingFault, SharingRule};
use smb_request::Config;
use smb_wire::limits::Limits;
use std::alloc::{AllocError, Global};
use std::fs;
use std::path::Path;

/// The least capacity that a share has.
const LEAST_CAPACITY: u64 = 4_096;

/// Whether a share can have a name.
fn is_share_name(alloc: Global, name: &str) -> Result<bool, AllocError> {
    let config = Config {
        share: String::from_str(alloc, name)?,
        label: String::new(alloc),
        guid: [0; 16],
        capacity: LEAST_CAPACITY,
        created: 0,
    };
    Ok(config.is_lawful_within(Limits::profile()))
}

/// The last name of a folder's path; of one that ends in none, such as `.`, that of the path from the root. It is empty
/// where that has none.
fn last_name(rt: &HostRuntime, folder: &str) -> Result<String, SharingFault> {
    let alloc = rt.alloc();
    if let Some(name) = Path::new(folder).file_name() {
        return Ok(String::from_str(alloc, name)?);
    }
    let whole = match fs::canonicalize(rt, folder) {
        Ok(whole) => whole,
        Err(error) => return Err(SharingFault::of_folder(alloc, folder, error)),
    };
    let name = whole.as_path().file_name().unwrap_or("");
    Ok(String::from_str(alloc, name)?)
}

/// The name of the share of a folder: the one that is asked for, or the last name of the folder's path.
///
/// [`SharingRule::ShareName`] or [`SharingRule::FolderName`] where no share can have it.
pub fn share_name(
    rt: &HostRuntime,
    folder: &str,
    asked: Option<&str>,
) -> Result<String, SharingFault> {
    let alloc = rt.alloc();
    let name = match asked {
        Some(name) => String::from_str(alloc, name)?,
        None => last_name(rt, folder)?,
    };
    if is_share_name(alloc, &name)? {
        return Ok(name);
    }
    Err(match asked {
        Some(name) => SharingFault::of_word(alloc, "--name", name, SharingRule::ShareName),
        None => SharingFault::of_name(alloc, folder, SharingRule::FolderName),
    })
}
