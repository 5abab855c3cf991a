//! Where a log is written: the file of a name, or standard error.

use crate::fault::{Fault, LogFault};
use crate::standard_error::{Severity, StandardError};
use smb_reason::Reason;
use std::fs::{File, Metadata, OpenOptions};
use std::io::{ErrorKind, Write};
use std::os::unix::fs::{MetadataExt, OpenOptionsExt};
use std::time::Instant;
use std::{fs, io};

/// The word for standard error.
const STANDARD_ERROR: &str = "-";

/// What is said, once, where a line can't be written.
const FAILED: &[u8] = b"log: failed\n";

/// How many seconds there are at least between two looks at whether another file has the log's name.
const SECONDS_BETWEEN_LOOKS: u64 = 1;

/// Opens the file of a name to add to, which is made with mode 600 where there is none.
fn open_to_add(rt: &HostRuntime, path: &str) -> io::Result<File> {
    let mut options = OpenOptions::new();
    let _ = options.append(true).create(true);
    let _ = options.mode(0o600);
    options.open(rt, path)
}

/// Whether both are of one file.
fn are_of_one(left: &Metadata, right: &Metadata) -> bool {
    left.dev() == right.dev() && left.ino() == right.ino()
}

/// The open file of a log, and the name that it had.
#[derive(Drop)]
struct LogFile<'a> {
    rt: &'a HostRuntime,
    path: &'a str,
    file: File,
    /// When it was last looked at whether it has the name still; None where the clock can't be read.
    looked_at: Option<Instant>,
    /// Whether what was written ends in the midst of a line.
    is_within_line: bool,
}

impl<'a> LogFile<'a> {
    /// The file of a name.
    fn open(rt: &'a HostRuntime, path: &'a str) -> io::Result<Self> {
        Ok(LogFile {
            rt,
            path,
            file: open_to_add(rt, path)?,
            looked_at: Instant::now(rt).ok(),
            is_within_line: false,
        })
    }

    /// Whether a second has passed since the last look.
    fn is_time_to_look(&self) -> bool {
        let Some(moment) = &self.looked_at else {
            return false;
        };
        match moment.elapsed(self.rt) {
            Ok(passed) => passed.as_secs() >= SECONDS_BETWEEN_LOOKS,
            Err(_) => false,
        }
    }

    /// Whether the open file has the log's name no more: it was moved or removed.
    fn has_lost_its_name(&self) -> bool {
        let named = match fs::metadata(self.rt, self.path) {
            Ok(named) => named,
            Err(error) => return error.kind() == ErrorKind::NotFound,
        };
        match self.file.metadata() {
            Ok(open) => !are_of_one(&open, &named),
            Err(_) => false,
        }
    }

    /// Goes on in the file that has the log's name, once the open one was moved or removed; where that can't be
    /// opened, in the open one.
    fn follow_the_name(&mut self) {
        if self.is_within_line || !self.is_time_to_look() {
            return;
        }
        self.looked_at = Instant::now(self.rt).ok();
        if self.has_lost_its_name()
            && let Ok(file) = open_to_add(self.rt, self.path)
        {
            self.file = file;
        }
    }

    /// Takes note of whether the first so many of these bytes, which were written, end a line.
    fn note_written(&mut self, bytes: &[u8], count: usize) {
        if let Some(last) = bytes[..count.min(bytes.len())].last() {
            self.is_within_line = *last != b'\n';
        }
    }
}

/// Where a log is written: a file, or standard error. Where a write fails standard error says so.
///
/// Who moves the file finds later lines in a new one of its name, and who empties it finds them there.
#[derive(Drop)]
pub struct LogOutput<'a> {
    file: Option<LogFile<'a>>,
    errors: StandardError,
}

impl<'a> LogOutput<'a> {
    /// The file of this name, which is made with mode 600 where it does not exist; or standard error, by its word.
    pub fn open(rt: &'a HostRuntime, path: &'a str) -> Result<Self, Fault> {
        if path == STANDARD_ERROR {
            return Ok(LogOutput {
                file: None,
                errors: StandardError::new(rt, Severity::Informational),
            });
        }
        match LogFile::open(rt, path) {
            Ok(file) => Ok(LogOutput {
                file: Some(file),
                errors: StandardError::new(rt, Severity::Error),
            }),
            Err(error) => Err(LogFault::of(rt.alloc(), path, Reason(error.kind()))),
        }
    }
}

impl Write for LogOutput<'_> {
    fn write(&mut self, bytes: &[u8]) -> io::Result<usize> {
        let Some(file) = &mut self.file else {
            return self.errors.write(bytes);
        };
        file.follow_the_name();
        match file.file.write(bytes) {
            Ok(count) => {
                file.note_written(bytes, count);
                Ok(count)
            }
            Err(error) => {
                let _ = self.errors.write_all(FAILED);
                Err(error)
            }
        }
    }

    fn flush(&mut self) -> io::Result<()> {
        Ok(())
    }
}
