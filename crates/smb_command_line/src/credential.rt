//! Credentials: files that systemd hands to a service. Since its version 254 they belong to root, and an ACL lets the service's user
//! read them.

use std::env::Env;

/// The environment variable that names the folder of a service's credentials.
const FOLDER: &str = "CREDENTIALS_DIRECTORY";

/// How many bytes of its value there may be; a longer one names no folder here.
const LONGEST_FOLDER: usize = 4_096;

/// Whether a word can be the name of a file in a folder.
fn is_file_name(word: &[u8]) -> bool {
    let is_folder = word == b".".as_slice() || word == b"..".as_slice();
    !word.is_empty() && !is_folder && !word.contains(&b'/')
}

/// Whether a path is that of a file directly in a folder, both by their text. A folder's path begins at the root.
fn is_directly_in(folder: &[u8], path: &[u8]) -> bool {
    let folder = folder.strip_suffix(b"/").unwrap_or(folder);
    if !folder.starts_with(b"/") {
        return false;
    }
    let Some(behind) = path.strip_prefix(folder) else {
        return false;
    };
    match behind.strip_prefix(b"/") {
        Some(name) => is_file_name(name),
        None => false,
    }
}

/// Whether a path is that of a credential: of a file directly in the folder that the environment names for them.
pub fn is_credential(rt: &HostRuntime, path: &[u8]) -> bool {
    let mut folder = [0u8; LONGEST_FOLDER];
    match rt.var(FOLDER, &mut folder) {
        Ok(length) => is_directly_in(&folder[..length], path),
        Err(_) => false,
    }
}
