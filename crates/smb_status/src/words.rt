//! Dialects, access and sharing in words.

use smb_wire::{Access, Dialect, ShareAccess};
use std::alloc::AllocError;

/// The words of an access, each with its bits. Rights to attributes and the like have no word.
const ACCESS_WORDS: [(u32, &str); 5] = [
    (Access::READ_DATA.0, "read"),
    (Access::WRITE_DATA.0, "write"),
    (Access::APPEND_DATA.0, "append"),
    (Access::EXECUTE.0, "execute"),
    (Access::DELETE.0 | Access::DELETE_CHILD.0, "delete"),
];

/// The words of what an open shares, each with its bit.
const SHARE_WORDS: [(u32, &str); 3] = [
    (ShareAccess::READ.0, "read"),
    (ShareAccess::WRITE.0, "write"),
    (ShareAccess::DELETE.0, "delete"),
];

/// Adds the words whose bits are set, apart by blanks, or `others` where none is.
fn put_words(
    bits: u32,
    words: &[(u32, &str)],
    others: &str,
    text: &mut String,
) -> Result<(), AllocError> {
    let before = text.len();
    for (mask, word) in words {
        if bits & *mask == 0 {
            continue;
        }
        if text.len() > before {
            text.push_str(" ")?;
        }
        text.push_str(*word)?;
    }
    if text.len() == before {
        text.push_str(others)?;
    }
    Ok(())
}

/// Adds the access that an open was granted; `attributes` where it has none of the words.
pub(crate) fn put_access(access: Access, text: &mut String) -> Result<(), AllocError> {
    put_words(access.0, &ACCESS_WORDS, "attributes", text)
}

/// Adds what others may do beside an open, or `none`.
pub(crate) fn put_share(share: ShareAccess, text: &mut String) -> Result<(), AllocError> {
    put_words(share.0, &SHARE_WORDS, "none", text)
}

/// The name of a dialect.
pub(crate) fn dialect_name(dialect: Dialect) -> &'static str {
    match dialect {
        Dialect::Smb202 => "2.0.2",
        Dialect::Smb210 => "2.1",
    }
}
