//! What a CREATE asks for and shares, and what a LOCK does, in words.

use crate::names::put_disposition;
use smb_body::{CreateRequest, LockRequest};
use smb_wire::{Access, CreateOptions, LockFlags, ShareAccess};
use std::alloc::AllocError;

/// The most elements of a LOCK that are shown.
const MOST_SHOWN: usize = 4;

/// The words of an access, each with its bits. Rights to attributes and the like have no word.
const ACCESS_WORDS: [(u32, &str); 7] = [
    (Access::MAXIMUM_ALLOWED.0, "maximum"),
    (Access::GENERIC_ALL.0, "all"),
    (Access::READ_DATA.0 | Access::GENERIC_READ.0, "read"),
    (Access::WRITE_DATA.0 | Access::GENERIC_WRITE.0, "write"),
    (Access::APPEND_DATA.0, "append"),
    (Access::EXECUTE.0 | Access::GENERIC_EXECUTE.0, "execute"),
    (Access::DELETE.0 | Access::DELETE_CHILD.0, "delete"),
];

/// The words of what an open shares, each with its bit.
const SHARE_WORDS: [(u32, &str); 3] = [
    (ShareAccess::READ.0, "read"),
    (ShareAccess::WRITE.0, "write"),
    (ShareAccess::DELETE.0, "delete"),
];

/// The words of a CREATE's options, each with its bit.
const OPTION_WORDS: [(u32, &str); 4] = [
    (CreateOptions::DIRECTORY_FILE.0, "directory"),
    (CreateOptions::NON_DIRECTORY_FILE.0, "file"),
    (CreateOptions::DELETE_ON_CLOSE.0, "delete_on_close"),
    (CreateOptions::OPEN_BY_FILE_ID.0, "by_file_id"),
];

/// The words of a lock's flags, each with its bit.
const LOCK_WORDS: [(u32, &str); 4] = [
    (LockFlags::SHARED_LOCK.0, "shared"),
    (LockFlags::EXCLUSIVE_LOCK.0, "exclusive"),
    (LockFlags::UNLOCK.0, "unlock"),
    (LockFlags::FAIL_IMMEDIATELY.0, "at_once"),
];

/// Adds the words whose bits are set, apart by commas, or `others` where none is.
fn put_words(
    bits: u32,
    words: &[(u32, &str)],
    others: &str,
    text: &mut String,
) -> Result<(), AllocError> {
    let before = text.len();
    for (mask, word) in words {
        if bits & *mask == 0 {
            continue;
        }
        if text.len() > before {
            text.push_str(",")?;
        }
        text.push_str(word)?;
    }
    if text.len() == before {
        text.push_str(others)?;
    }
    Ok(())
}

/// Adds what a CREATE asks for, behind its name.
pub(crate) fn put_create(asked: &CreateRequest<'_>, text: &mut String) -> Result<(), AllocError> {
    text.push_str(" ")?;
    put_disposition(asked.create_disposition, text)?;
    text.push_str(" access=")?;
    let access = asked.desired_access.0;
    let others = if access == 0 { "none" } else { "attributes" };
    put_words(access, ACCESS_WORDS.as_slice(), others, text)?;
    text.push_str(" share=")?;
    put_words(asked.share_access.0, SHARE_WORDS.as_slice(), "none", text)?;
    let options = asked.create_options.0;
    if OPTION_WORDS.iter().any(|(mask, _)| options & *mask != 0) {
        text.push_str(" options=")?;
        put_words(options, OPTION_WORDS.as_slice(), "", text)?;
    }
    Ok(())
}

/// Adds the first elements of a LOCK, and how many more there are.
pub(crate) fn put_locks(asked: &LockRequest<'_>, text: &mut String) -> Result<(), AllocError> {
    let count = asked.locks.len();
    for place in 0..count.min(MOST_SHOWN) {
        if let Some(element) = asked.locks.get(place) {
            let (offset, length) = (element.offset, element.length);
            write!(text, " offset={offset} length={length} ")?;
            put_words(element.flags.0, LOCK_WORDS.as_slice(), "none", text)?;
        }
    }
    if count > MOST_SHOWN {
        let more = count.saturating_sub(MOST_SHOWN);
        write!(text, " and {more} more")?;
    }
    Ok(())
}
