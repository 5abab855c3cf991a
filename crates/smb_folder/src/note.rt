//! What a folder of the system doesn't keep of a file, as a line of text.

use super::kept::{LAST_MOMENT, basic_of, written_of};
use smb_tree::{Basic, Kind};
use smb_wire::FileAttributes;
use std::alloc::{AllocError, Global};
use std::fmt;
use std::fs::Metadata;

/// The first line of a list.
pub(crate) const FIRST_LINE: &str = "# smbshare attributes 1";

/// The attributes that a line has a letter for. READONLY is a right of the system's.
const LETTERS: [(FileAttributes, char); 3] = [
    (FileAttributes::HIDDEN, 'H'),
    (FileAttributes::SYSTEM, 'S'),
    (FileAttributes::ARCHIVE, 'A'),
];

/// What a line says of a file or a folder.
#[derive(Clone, Copy, PartialEq, Eq)]
pub(crate) struct Note {
    kind: Kind,
    /// How many bytes it has in the folder; 0 of a folder.
    size: u64,
    /// When it was written last, as the folder says it.
    seen: u64,
    /// What the share has, but for READONLY and the time of the last access.
    basic: Basic,
}

/// Attributes as letters.
#[derive(Clone, Copy)]
struct Letters(FileAttributes);

impl fmt::Display for Letters {
    fn fmt<W: fmt::Write>(&self, f: &mut fmt::Formatter<W>) -> fmt::Result {
        if self.0.0 == 0 {
            return f.write_str("-");
        }
        for (attribute, letter) in LETTERS {
            if self.0.0 & attribute.0 != 0 {
                f.write_char(letter)?;
            }
        }
        Ok(())
    }
}

/// The attributes of letters, of which there is one at least.
fn attributes_in(letters: &str) -> Option<FileAttributes> {
    let mut attributes = 0u32;
    for found in letters.chars() {
        match found {
            'H' => attributes |= FileAttributes::HIDDEN.0,
            'S' => attributes |= FileAttributes::SYSTEM.0,
            'A' => attributes |= FileAttributes::ARCHIVE.0,
            '-' => {}
            _ => return None,
        }
    }
    if letters.is_empty() {
        None
    } else {
        Some(FileAttributes(attributes))
    }
}

/// Attributes without READONLY.
fn lettered(attributes: FileAttributes) -> FileAttributes {
    FileAttributes(attributes.0 & !FileAttributes::READONLY.0)
}

/// A file's bytes; none of a folder.
fn size_of(kind: Kind, metadata: &Metadata) -> u64 {
    match kind {
        Kind::File => metadata.len(),
        Kind::Folder => 0,
    }
}

/// A word of a kind.
fn word_of(kind: Kind) -> &'static str {
    match kind {
        Kind::File => "file",
        Kind::Folder => "folder",
    }
}

/// Adds a path as a line has it.
fn push_escaped(text: &mut String, path: &str) -> Result<(), AllocError> {
    for character in path.chars() {
        if character == '\\' {
            text.push_str("\\\\")?;
        } else if character.is_control() {
            write!(text, "\\u{{{:X}}}", u32::from(character))?;
        } else {
            text.push(character)?;
        }
    }
    Ok(())
}

/// The character that is written behind a backslash, and what is behind it.
fn escaped_in(text: &str) -> Option<(char, &str)> {
    if let Some(rest) = text.strip_prefix('\\') {
        return Some(('\\', rest));
    }
    let (digits, rest) = text.strip_prefix("u{")?.split_once('}')?;
    let character = char::from_u32(u32::from_str_radix(digits, 16).ok()?)?;
    if character.is_control() {
        Some((character, rest))
    } else {
        None
    }
}

/// The path that a line has; None where it is none.
pub(crate) fn unescaped(alloc: Global, text: &str) -> Result<Option<String>, AllocError> {
    let mut path = String::new(alloc);
    let mut rest = text;
    for _ in 0..text.len() {
        let Some((before, behind)) = rest.split_once('\\') else {
            break;
        };
        path.push_str(before)?;
        let Some((character, left)) = escaped_in(behind) else {
            return Ok(None);
        };
        path.push(character)?;
        rest = left;
    }
    path.push_str(rest)?;
    if path.is_empty() || text.chars().any(|character| character.is_control()) {
        return Ok(None);
    }
    Ok(Some(path))
}

/// A number at the begin of a text, and what is behind the blank that ends it.
fn number_in(text: &str) -> Option<(u64, &str)> {
    let (digits, rest) = text.split_once(' ')?;
    Some((digits.parse::<u64>().ok()?, rest))
}

/// The same of a time, which a share takes.
fn moment_in(text: &str) -> Option<(u64, &str)> {
    let (moment, rest) = number_in(text)?;
    if moment > LAST_MOMENT {
        return None;
    }
    Some((moment, rest))
}

/// The note of a line, and its path as the line has it.
pub(crate) fn note_in(line: &str) -> Option<(Note, &str)> {
    let (word, rest) = line.split_once(' ')?;
    let kind = match word {
        "file" => Kind::File,
        "folder" => Kind::Folder,
        _ => return None,
    };
    let (letters, rest) = rest.split_once(' ')?;
    let attributes = attributes_in(letters)?;
    let (size, rest) = number_in(rest)?;
    let (seen, rest) = moment_in(rest)?;
    let (creation_time, rest) = moment_in(rest)?;
    let (last_write_time, rest) = moment_in(rest)?;
    let (change_time, path) = moment_in(rest)?;
    let basic = Basic {
        creation_time,
        last_access_time: 0,
        last_write_time,
        change_time,
        attributes,
    };
    let note = Note {
        kind,
        size,
        seen,
        basic,
    };
    Some((note, path))
}

impl Note {
    /// What the folder does not keep of an entry that was put there; None where it keeps all.
    pub(crate) fn of(kind: Kind, basic: Basic, metadata: &Metadata) -> Option<Note> {
        let found = basic_of(kind, metadata);
        let is_kept = basic.creation_time == found.creation_time
            && basic.last_write_time == found.last_write_time
            && basic.change_time == found.change_time
            && lettered(basic.attributes) == lettered(found.attributes);
        if is_kept {
            return None;
        }
        Some(Note {
            kind,
            size: size_of(kind, metadata),
            seen: written_of(metadata),
            basic: Basic {
                creation_time: basic.creation_time.min(LAST_MOMENT),
                last_access_time: 0,
                last_write_time: basic.last_write_time.min(LAST_MOMENT),
                change_time: basic.change_time.min(LAST_MOMENT),
                attributes: lettered(basic.attributes),
            },
        })
    }

    /// Whether it is of what the folder has there.
    pub(crate) fn is_of(&self, kind: Kind, metadata: &Metadata) -> bool {
        self.kind == kind
            && self.size == size_of(kind, metadata)
            && self.seen == written_of(metadata)
    }

    /// What a share is to have of it, where this is found in the folder: READONLY and the time of the last access are
    /// of what is found.
    pub(crate) fn basic_over(&self, found: Basic) -> Basic {
        let read_only = found.attributes.0 & FileAttributes::READONLY.0;
        Basic {
            last_access_time: found.last_access_time,
            attributes: FileAttributes(self.basic.attributes.0 | read_only),
            ..self.basic
        }
    }

    /// Adds its line to a list, which begins with it where that has none.
    pub(crate) fn write(&self, list: &mut String, relative: &str) -> Result<(), AllocError> {
        if list.is_empty() {
            list.push_str(FIRST_LINE)?;
            list.push('\n')?;
        }
        let (word, letters) = (word_of(self.kind), Letters(self.basic.attributes));
        write!(list, "{word} {letters} {} {} ", self.size, self.seen)?;
        let Basic {
            creation_time,
            last_write_time,
            change_time,
            ..
        } = self.basic;
        write!(list, "{creation_time} {last_write_time} {change_time} ")?;
        push_escaped(list, relative)?;
        list.push('\n')
    }
}
