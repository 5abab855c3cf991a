//! The checks of lines.

use std::hash::{DefaultHasher, Hasher};

/// The check of a line's text, behind a line of another check, 0 where there is none: SipHash-1-3 of both, under a key of zeros. It
/// finds lines that were changed, lost or put elsewhere by accident; it keeps nobody from changing them on purpose.
pub(crate) fn check_of(before: u64, text: &[u8]) -> u64 {
    let mut hasher = DefaultHasher::new();
    hasher.write(&before.to_be_bytes());
    hasher.write(text);
    hasher.finish()
}
