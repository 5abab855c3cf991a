//! Names as texts that make no line, no field and nothing that a terminal obeys.

use smb_wire::Units;
use std::alloc::AllocError;

/// The most bytes of a text, behind which it is cut.
const MOST_BYTES: usize = 1_024;

/// What says that a text is cut.
const CUT: &str = "\\u{..}";

/// What a file is called whose name is not known.
const UNKNOWN: &str = "?";

/// What a guest's user begins with, where it has a number behind it.
const NUMBERED_GUEST: &[u8] = b"guest\0";

/// Whether a character ends a line or a field, or turns, hides or commands what is shown.
fn is_hidden(c: char) -> bool {
    matches!(
        c,
        '\0'..='\u{1F}'
            | '\u{7F}'..='\u{9F}'
            | '\u{61C}'
            | '\u{200B}'..='\u{200F}'
            | '\u{2028}'..='\u{202E}'
            | '\u{2060}'..='\u{2069}'
            | '\u{FEFF}'
    )
}

/// Adds the escape of a character or a unit.
fn put_escape(code: u32, text: &mut String) -> Result<(), AllocError> {
    write!(text, "\\u{{{code:X}}}")
}

/// Adds a character, as an escape where it is hidden.
fn put_char(c: char, text: &mut String) -> Result<(), AllocError> {
    if is_hidden(c) {
        put_escape(c as u32, text)
    } else {
        text.push(c)
    }
}

/// The character of a pair, where the units are one.
fn paired(high: u16, low: u16) -> Option<char> {
    if !matches!((high, low), (0xD800..=0xDBFF, 0xDC00..=0xDFFF)) {
        return None;
    }
    let (high, low) = (u32::from(high & 0x3FF), u32::from(low & 0x3FF));
    char::from_u32(
        high.saturating_mul(0x400)
            .saturating_add(low)
            .saturating_add(0x1_0000),
    )
}

/// The unit at a place, where there is one.
fn unit_at(units: Units<'_>, place: usize) -> Option<u16> {
    if place < units.len() {
        Some(units.unit(place))
    } else {
        None
    }
}

/// Whether the units from a place on would be read as an escape.
fn is_like_escape(units: Units<'_>, place: usize) -> bool {
    unit_at(units, place) == Some(0x5C)
        && unit_at(units, place.saturating_add(1)) == Some(0x75)
        && unit_at(units, place.saturating_add(2)) == Some(0x7B)
}

/// Adds the character that begins at a place, and gives how many units it has.
fn put_at(units: Units<'_>, place: usize, text: &mut String) -> Result<usize, AllocError> {
    let Some(unit) = unit_at(units, place) else {
        return Ok(1);
    };
    if is_like_escape(units, place) {
        put_escape(0x5C, text)?;
        return Ok(1);
    }
    let next = unit_at(units, place.saturating_add(1));
    if let Some(c) = next.and_then(|low| paired(unit, low)) {
        put_char(c, text)?;
        return Ok(2);
    }
    match char::from_u32(u32::from(unit)) {
        Some(c) => put_char(c, text)?,
        None => put_escape(u32::from(unit), text)?,
    }
    Ok(1)
}

/// Adds a text in UTF-16.
pub(crate) fn put_units(units: Units<'_>, text: &mut String) -> Result<(), AllocError> {
    let before = text.len();
    let mut place = 0usize;
    for _ in 0..units.len() {
        if place >= units.len() {
            break;
        }
        if text.len().saturating_sub(before) >= MOST_BYTES {
            return text.push_str(CUT);
        }
        place = place.saturating_add(put_at(units, place, text)?);
    }
    Ok(())
}

/// Adds a path, `.` for the root.
pub(crate) fn put_path(units: Units<'_>, text: &mut String) -> Result<(), AllocError> {
    if units.len() == 0 {
        return text.push_str(".");
    }
    put_units(units, text)
}

/// Adds the name of a file in UTF-16LE, `?` where it is not known.
pub fn put_file_name(name: Option<&[u8]>, text: &mut String) -> Result<(), AllocError> {
    match name.and_then(Units::of) {
        Some(units) => put_path(units, text),
        None => text.push_str(UNKNOWN),
    }
}

/// Adds a text that may have any character, or `-` where it is empty.
pub(crate) fn put_text(said: &str, text: &mut String) -> Result<(), AllocError> {
    if said.is_empty() {
        return text.push_str("-");
    }
    let before = text.len();
    for c in said.chars() {
        if text.len().saturating_sub(before) >= MOST_BYTES {
            return text.push_str(CUT);
        }
        if c == '\\' {
            put_escape(0x5C, text)?;
        } else {
            put_char(c, text)?;
        }
    }
    Ok(())
}

/// Adds bytes that are no UTF-8: ASCII as it is, each other byte as a sign for it.
fn put_bytes(bytes: &[u8], text: &mut String) -> Result<(), AllocError> {
    for byte in bytes.iter().take(MOST_BYTES) {
        if *byte == b'\\' {
            put_escape(0x5C, text)?;
        } else if byte.is_ascii() {
            put_char(char::from(*byte), text)?;
        } else {
            text.push('\u{FFFD}')?;
        }
    }
    Ok(())
}

/// Adds a user as an authenticator names it, `-` for none. A guest's name may have a zero and a number behind it.
pub fn put_user(user: &[u8], text: &mut String) -> Result<(), AllocError> {
    if user.starts_with(NUMBERED_GUEST) {
        return text.push_str("guest");
    }
    match std::str::from_utf8(user) {
        Ok(name) => put_text(name, text),
        Err(_) => put_bytes(user, text),
    }
}

/// Adds a name in UTF-16 as a client typed it, `-` for none. Bytes that are no units are shown as those of a user.
pub fn put_typed(name: &[u8], text: &mut String) -> Result<(), AllocError> {
    if name.is_empty() {
        return text.push_str("-");
    }
    match Units::of(name) {
        Some(units) => put_units(units, text),
        None => put_bytes(name, text),
    }
}
