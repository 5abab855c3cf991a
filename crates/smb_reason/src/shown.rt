//! The name of a file in one line.

use std::fmt;
use std::fmt::{Display, Write};

/// The bytes of a name or a path, shown in one line: control characters are escaped, as `\n`, and bytes that are no UTF-8 are in
/// hex, as `\xFF`.
#[derive(Clone, Copy)]
pub struct Shown<'a>(pub &'a [u8]);

/// Writes a text, its control characters escaped.
fn write_escaped<W: fmt::Write>(text: &str, f: &mut fmt::Formatter<W>) -> fmt::Result {
    for character in text.chars() {
        if character.is_control() {
            for escaped in character.escape_default() {
                f.write_char(escaped)?;
            }
        } else {
            f.write_char(character)?;
        }
    }
    Ok(())
}

impl Display for Shown<'_> {
    fn fmt<W: fmt::Write>(&self, f: &mut fmt::Formatter<W>) -> fmt::Result {
        let Shown(name) = *self;
        for chunk in name.utf8_chunks() {
            write_escaped(chunk.valid(), f)?;
            for byte in chunk.invalid() {
                write!(f, "\\x{byte:02X}")?;
            }
        }
        Ok(())
    }
}
