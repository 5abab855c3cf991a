//! A list of what a folder of the system doesn't keep of its files, which lies beside the folder.
//!
//! It is a text. Its first line says what it is, and each further one is of a file or a folder:
//!
//! ```text
//!    # smbshare attributes 1
//!    file HA 1234 133485408000000000 133485408000000000 133485408000000000 133485408000000000 a folder/a file
//! ```
//!
//! The words are: `file` or `folder`; the attributes, letters of `HSA` (HIDDEN, SYSTEM, ARCHIVE) or `-`; how many bytes
//! the file has, of a folder 0; when it was written last, as the folder says it; the times of its creation, its last
//! write and its change in the share; and the path below the folder. Times are in units of 100 ns since 1601. In a path
//! a backslash is written twice, and a control character as `\u{A}`.

use super::fault::{FolderFault, FolderRule, Trouble};
use super::grouped::Grouped;
use super::kept::basic_of;
use super::note::{FIRST_LINE, Note, note_in, unescaped};
use smb_tree::{Basic, Kind};
use std::alloc::{AllocError, Global};
use std::collections::BTreeMap;
use std::fs;
use std::fs::{Files, Metadata, OpenOptions};
use std::io::{ErrorKind, Read, Write};

/// What the list's name has behind the folder's.
const SUFFIX: &str = ".attributes";

/// What each list begins with, whichever its version.
const BEGIN: &[u8] = b"# smbshare attributes ";

/// The most bytes of a line: its words, and a path of 32 names of 255 characters.
const MOST_OF_LINE: u64 = 33_000;

/// The name of the list of a folder; None of a folder whose path ends in no name of its own.
fn list_path(alloc: Global, folder: &str) -> Result<Option<String>, AllocError> {
    let folder = folder.trim_end_matches('/');
    let name = match folder.rsplit_once('/') {
        Some((_, name)) => name,
        None => folder,
    };
    if matches!(name, "" | "." | "..") {
        return Ok(None);
    }
    let mut path = String::from_str(alloc, folder)?;
    path.push_str(SUFFIX)?;
    Ok(Some(path))
}

/// The fault of a list.
fn fault_of(alloc: Global, path: &str, trouble: Trouble) -> FolderFault {
    trouble.at(alloc, path, b"")
}

/// Refuses a folder that has a list: nothing is written over.
pub(crate) fn check_no_list<R: Files>(
    rt: &R,
    alloc: Global,
    folder: &str,
) -> Result<(), FolderFault> {
    let Some(path) = list_path(alloc, folder)? else {
        return Ok(());
    };
    match fs::symlink_metadata(rt, &path) {
        Ok(_) => Err(fault_of(alloc, &path, Trouble::Rule(FolderRule::ListExists))),
        Err(error) if error.kind() == ErrorKind::NotFound => Ok(()),
        Err(error) => Err(fault_of(alloc, &path, Trouble::unread(error))),
    }
}

/// Makes the file of a list.
fn make_list<R: Files>(rt: &R, path: &str, list: &str) -> Result<(), Trouble> {
    let mut file = OpenOptions::new()
        .write(true)
        .create_new(true)
        .open(rt, path)
        .map_err(Trouble::unwritten)?;
    file.write_all(list.as_bytes()).map_err(Trouble::unwritten)
}

/// Writes the list of a folder, unless nothing is in it. The fault has the list's name.
pub(crate) fn write_list<R: Files>(
    rt: &R,
    alloc: Global,
    folder: &str,
    list: &str,
) -> Result<(), FolderFault> {
    if list.is_empty() {
        return Ok(());
    }
    let Some(path) = list_path(alloc, folder)? else {
        return Ok(());
    };
    match make_list(rt, &path, list) {
        Ok(()) => Ok(()),
        Err(trouble) => Err(fault_of(alloc, &path, trouble)),
    }
}

/// What the list beside a folder says of what is in it.
#[derive(Drop)]
pub(crate) struct Notes {
    notes: BTreeMap<String, Note>,
}

/// What a list's file has: as many bytes as lines of this many entries can have; None where there is no such file.
fn read_list<R: Files>(
    rt: &R,
    alloc: Global,
    path: &str,
    most: usize,
) -> Result<Option<Vec<u8>>, Trouble> {
    match fs::metadata(rt, path) {
        Ok(found) if found.is_file() => {}
        Ok(_) => return Err(Trouble::Rule(FolderRule::NoList)),
        Err(error) if error.kind() == ErrorKind::NotFound => return Ok(None),
        Err(error) => return Err(Trouble::unread(error)),
    }
    let file = fs::open(rt, path).map_err(Trouble::unread)?;
    let most = (most as u64).saturating_add(1).saturating_mul(MOST_OF_LINE);
    let mut bytes = Vec::new(alloc);
    let mut limited = file.take(most.saturating_add(1));
    limited.read_to_end(&mut bytes).map_err(Trouble::unread)?;
    if bytes.len() as u64 > most {
        return Err(Trouble::Rule(FolderRule::ListTooLong));
    }
    Ok(Some(bytes))
}

/// Refuses what begins with another line than a list, and gives the lines behind the first one.
fn behind_first_line(bytes: &[u8]) -> Result<&[u8], Trouble> {
    let Some(rest) = bytes.strip_prefix(FIRST_LINE.as_bytes()) else {
        return Err(Trouble::Rule(if bytes.starts_with(BEGIN) {
            FolderRule::OtherList
        } else {
            FolderRule::NoList
        }));
    };
    match rest.strip_prefix(b"\n") {
        Some(rest) => Ok(rest),
        None if rest.is_empty() => Err(Trouble::Rule(FolderRule::NoList)),
        None => Err(Trouble::Rule(FolderRule::OtherList)),
    }
}

impl Notes {
    /// No notes.
    fn none(alloc: Global) -> Self {
        Notes {
            notes: BTreeMap::new(alloc),
        }
    }

    /// Takes a line of a list, without what ends it, and says whether it is one: no two have one path.
    fn take_line(&mut self, alloc: Global, line: &[u8]) -> Result<bool, AllocError> {
        let Ok(line) = str::from_utf8(line) else {
            return Ok(false);
        };
        let Some((note, path)) = note_in(line) else {
            return Ok(false);
        };
        let Some(path) = unescaped(alloc, path)? else {
            return Ok(false);
        };
        match self.notes.insert(path, note) {
            Ok(before) => Ok(before.is_none()),
            Err(error) => Err(AllocError::from(error)),
        }
    }

    /// Takes all lines of a list of at most this many entries.
    fn take_lines(&mut self, alloc: Global, lines: &[u8], most: usize) -> Result<(), Trouble> {
        let mut number = 1u64;
        let mut rest = lines;
        for _ in 0..lines.len() {
            if rest.is_empty() {
                break;
            }
            number = number.saturating_add(1);
            if self.notes.len() >= most {
                return Err(Trouble::Rule(FolderRule::ListTooLong));
            }
            let bad = Trouble::Rule(FolderRule::BadLine(Grouped(number)));
            let Some(end) = rest.iter().position(|byte| *byte == b'\n') else {
                return Err(bad);
            };
            let (line, behind) = rest.split_at(end);
            if !self.take_line(alloc, line)? {
                return Err(bad);
            }
            rest = behind.get(1..).unwrap_or(&[]);
        }
        Ok(())
    }

    /// Reads the list of this path.
    fn read<R: Files>(rt: &R, alloc: Global, path: &str, most: usize) -> Result<Self, Trouble> {
        let mut notes = Notes::none(alloc);
        if let Some(bytes) = read_list(rt, alloc, path, most)? {
            notes.take_lines(alloc, behind_first_line(&bytes)?, most)?;
        }
        Ok(notes)
    }

    /// What the list beside a folder says, of at most this many files and folders; nothing where there is none. A fault
    /// has the list's name.
    pub(crate) fn beside<R: Files>(
        rt: &R,
        alloc: Global,
        folder: &str,
        most: usize,
    ) -> Result<Self, FolderFault> {
        let Some(path) = list_path(alloc, folder)? else {
            return Ok(Notes::none(alloc));
        };
        match Notes::read(rt, alloc, &path, most) {
            Ok(notes) => Ok(notes),
            Err(trouble) => Err(fault_of(alloc, &path, trouble)),
        }
    }

    /// The note of what the folder has at a path, which is used once.
    fn take(&mut self, relative: &str, kind: Kind, metadata: &Metadata) -> Option<Note> {
        let note = *self.notes.get(relative)?;
        if !note.is_of(kind, metadata) {
            return None;
        }
        let _ = self.notes.remove(relative);
        Some(note)
    }

    /// What a share is to have of what the folder has at a path.
    pub(crate) fn basic_of(&mut self, relative: &str, kind: Kind, metadata: &Metadata) -> Basic {
        let found = basic_of(kind, metadata);
        let Some(note) = self.take(relative, kind, metadata) else {
            return found;
        };
        note.basic_over(found)
    }

    /// How many notes were not used.
    pub(crate) fn left(&self) -> u64 {
        self.notes.len() as u64
    }
}
