//! Bytes in words, as hex.
//!
//! | word | bytes |
//! |---|---|
//! | `fe534d42` | the bytes that hex digits spell |
//! | `z8` | 8 bytes of zero |
//! | `255*6100` | 255 times the bytes that hex digits spell |
//! | `u:x\y` | a text of ASCII in UTF-16, without a blank in it |
//! | `n4` | the 8 bytes of 4, the lowest first; where `times` repeats a line, of 4, of 5 and so on |
//! | `$negotiate` | the bytes that a line `let negotiate = ..` gives |

use crate::row::RowFault;
use std::alloc::{AllocError, Global};

/// A name for bytes, as hex.
#[derive(Drop)]
pub(crate) struct Definition {
    pub(crate) name: String,
    pub(crate) bytes: String,
}

/// The bytes of a name, as hex.
fn defined<'a>(name: &str, definitions: &'a [Definition]) -> Result<&'a str, RowFault> {
    for definition in definitions {
        if definition.name.as_str() == name {
            return Ok(definition.bytes.as_str());
        }
    }
    Err(RowFault::UnknownName)
}

/// Whether these are hex digits, two for each byte.
fn is_hex(digits: &str) -> bool {
    !digits.is_empty()
        && digits.len() % 2 == 0
        && digits.bytes().all(|digit| digit.is_ascii_hexdigit())
}

/// Adds the bytes that hex digits spell, so many times.
fn put_times(count: &str, digits: &str, text: &mut String) -> Result<(), RowFault> {
    let Ok(count) = count.parse::<u32>() else {
        return Err(RowFault::UnknownWord);
    };
    if !is_hex(digits) {
        return Err(RowFault::UnknownWord);
    }
    for _ in 0..count {
        text.push_str(digits)?;
    }
    Ok(())
}

/// Adds a text of ASCII in UTF-16.
fn put_text(alloc: Global, letters: &str, text: &mut String) -> Result<(), RowFault> {
    for letter in letters.bytes() {
        if !letter.is_ascii() {
            return Err(RowFault::UnknownWord);
        }
        text.push_str(format!(in alloc; "{letter:02x}00")?.as_str())?;
    }
    Ok(())
}

/// Adds the 8 bytes of a number, the lowest first.
fn put_number(alloc: Global, number: u64, text: &mut String) -> Result<(), AllocError> {
    for byte in number.to_le_bytes() {
        text.push_str(format!(in alloc; "{byte:02x}")?.as_str())?;
    }
    Ok(())
}

/// What words are read by: the names above them, and how many times their line was read before.
#[derive(Clone, Copy)]
pub(crate) struct Words<'a> {
    pub(crate) alloc: Global,
    pub(crate) definitions: &'a [Definition],
    pub(crate) turn: u64,
}

impl Words<'_> {
    /// Adds the bytes of a word, as hex.
    pub(crate) fn put_word(self, word: &str, text: &mut String) -> Result<(), RowFault> {
        if let Some(name) = word.strip_prefix('$') {
            text.push_str(defined(name, self.definitions)?)?;
            return Ok(());
        }
        if let Some(letters) = word.strip_prefix("u:") {
            return put_text(self.alloc, letters, text);
        }
        if let Some(number) = word.strip_prefix("n") {
            let number = number.parse::<u64>().map_err(|_| RowFault::UnknownWord)?;
            put_number(self.alloc, number.wrapping_add(self.turn), text)?;
            return Ok(());
        }
        if let Some(count) = word.strip_prefix('z') {
            return put_times(count, "00", text);
        }
        match word.split_once('*') {
            Some((count, digits)) => put_times(count, digits, text),
            None => put_times("1", word, text),
        }
    }

    /// Adds the bytes of words, as hex.
    pub(crate) fn put(self, words: &str, text: &mut String) -> Result<(), RowFault> {
        for word in words.split_whitespace() {
            self.put_word(word, text)?;
        }
        Ok(())
    }
}

/// What a character behind a backslash stands for.
fn meant(c: char) -> char {
    match c {
        'n' => '\n',
        'r' => '\r',
        't' => '\t',
        's' => ' ',
        'f' => '\x0c',
        'v' => '\x0b',
        '0' => '\0',
        '_' => '\u{a0}',
        other => other,
    }
}

/// Adds a text in which a backslash and a letter stand for a character: `\n`, `\r`, `\t`, `\f`, `\v` and `\0` as in
/// Rust, `\s` a blank, `\_` a no-break space; before any other character a backslash stands for nothing. Tells whether
/// the text ends in a backslash.
pub(crate) fn put_unescaped(escaped: &str, text: &mut String) -> Result<bool, AllocError> {
    let mut is_behind = false;
    for c in escaped.chars() {
        if is_behind {
            text.push(meant(c))?;
            is_behind = false;
        } else if c == '\\' {
            is_behind = true;
        } else {
            text.push(c)?;
        }
    }
    Ok(is_behind)
}
