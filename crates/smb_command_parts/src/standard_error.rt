//! Lines on standard error, which begin with how severe they are where systemd's journal takes them.

use std::env::Env;
use std::fmt::Display;
use std::io::{Stderr, Write};
use std::os::unix::fs::MetadataExt;
use std::{fs, io};

/// The environment variable by which systemd names the device and the inode of the stream to its journal.
const STREAM: &str = "JOURNAL_STREAM";

/// How many bytes the variable has at most that names a stream: two numbers and a colon.
const LONGEST_STREAM: usize = 41;

/// The name of the file that standard error is.
const STANDARD_ERROR: &str = "/proc/self/fd/2";

/// How severe a line is, as syslog has it.
#[derive(Clone, Copy, Debug, PartialEq, Eq)]
pub enum Severity {
    /// What ends the program, or the log.
    Error,
    /// Something is weak, or was left out.
    Warning,
    Informational,
}

impl Severity {
    /// The digit that a line of which the journal is to read the severity has at its begin, between `<` and `>`.
    fn digit(self) -> u8 {
        match self {
            Severity::Error => b'3',
            Severity::Warning => b'4',
            Severity::Informational => b'6',
        }
    }
}

/// The device and the inode that the variable's value names.
fn stream_of(value: &[u8]) -> Option<(u64, u64)> {
    let text = std::str::from_utf8(value).ok()?;
    let (device, inode) = text.split_once(':')?;
    Some((device.parse::<u64>().ok()?, inode.parse::<u64>().ok()?))
}

/// Whether the journal takes what is written on standard error: a program that a service starts has the variable too,
/// and may have another standard error.
fn is_journal(rt: &HostRuntime) -> bool {
    let mut value = [0u8; LONGEST_STREAM];
    let Ok(length) = rt.var(STREAM, &mut value) else {
        return false;
    };
    let Some(stream) = stream_of(&value[..length]) else {
        return false;
    };
    match fs::metadata(rt, STANDARD_ERROR) {
        Ok(found) => stream == (found.dev(), found.ino()),
        Err(_) => false,
    }
}

/// Says a line on standard error. That the line can't be written is passed over.
pub fn say<D: Display + Drop>(rt: &HostRuntime, severity: Severity, line: D) {
    let _ = if is_journal(rt) {
        let digit = char::from(severity.digit());
        eprintln!(rt; "<{digit}>{line}")
    } else {
        eprintln!(rt; "{line}")
    };
}

/// Standard error, for lines of one severity.
#[derive(Drop)]
pub struct StandardError {
    stream: Stderr,
    /// The severity that each line begins with, where the journal takes them.
    severity: Option<Severity>,
    /// Whether what was written ends in the midst of a line.
    is_within_line: bool,
}

impl StandardError {
    /// Standard error, where lines of this severity begin.
    pub fn new(rt: &HostRuntime, severity: Severity) -> Self {
        StandardError {
            stream: rt.stderr(),
            severity: if is_journal(rt) { Some(severity) } else { None },
            is_within_line: false,
        }
    }

    /// Writes what a line begins with, where a line begins.
    fn begin_line(&mut self, severity: Severity) -> io::Result<()> {
        if !self.is_within_line {
            self.stream.write_all(&[b'<', severity.digit(), b'>'])?;
            self.is_within_line = true;
        }
        Ok(())
    }
}

/// The bytes up to the end of their first line.
fn first_line(bytes: &[u8]) -> &[u8] {
    match bytes.iter().position(|byte| *byte == b'\n') {
        Some(end) => bytes.get(..=end).unwrap_or(bytes),
        None => bytes,
    }
}

impl Write for StandardError {
    fn write(&mut self, bytes: &[u8]) -> io::Result<usize> {
        let Some(severity) = self.severity else {
            return self.stream.write(bytes);
        };
        if bytes.is_empty() {
            return Ok(0);
        }
        self.begin_line(severity)?;
        let line = first_line(bytes);
        let count = self.stream.write(line)?.min(bytes.len());
        self.is_within_line = count < line.len() || !line.ends_with(b"\n");
        Ok(count)
    }

    fn flush(&mut self) -> io::Result<()> {
        Ok(())
    }
}
