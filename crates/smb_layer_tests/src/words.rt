//! Frames as words: `zN` is N zero bytes, any other word is hex. Each was set by hand from the standard's tables.

use std::alloc::{AllocError, Global};

/// A NEGOTIATE request for dialect 0x0202.
pub const NEGOTIATE: &str = "00000066 fe534d42 4000 z8 1f00 z48 2400 0100 0100 z30 0202";

/// Its reply.
pub const NEGOTIATED: &str =
    "00000080 fe534d42 4000 z8 1f00 01000000 z44 4100 0100 0202 0000 000102030405060708090a0b0c0d0e0f 00000000 00000100 00000100 00000100 00803ed5deb19d01 z8 8000 0000 z4";

/// An ECHO request with MessageId 1.
pub const ECHO: &str = "00000044 fe534d42 4000 z6 0d00 0100 z8 0100000000000000 z32 0400 0000";

/// The moment of every piece: the start of 1970, in units of 100 ns since 1601.
pub const MOMENT: u64 = 116_444_736_000_000_000;

/// Adds the hex of so many zero bytes.
fn put_zeros(count: u32, text: &mut String) -> Result<(), AllocError> {
    for _ in 0..count {
        text.push_str("00")?;
    }
    Ok(())
}

/// Adds the hex that a word spells.
fn put_word(word: &str, text: &mut String) -> Result<(), AllocError> {
    match word.strip_prefix('z') {
        Some(count) => put_zeros(count.parse::<u32>().unwrap_or(0), text),
        None => text.push_str(word),
    }
}

/// Adds the hex that words spell.
fn put_hex(words: &str, text: &mut String) -> Result<(), AllocError> {
    for word in words.split_whitespace() {
        put_word(word, text)?;
    }
    Ok(())
}

/// The bytes that the words of frames spell, one after the other.
pub fn frames(alloc: Global, frames: &[&str]) -> Option<Vec<u8>> {
    let mut text = String::new(alloc);
    for words in frames {
        put_hex(words, &mut text).ok()?;
    }
    hex::decode(alloc, text.as_str()).ok()
}
