//! The lines of a log, and where they are written.

use crate::escape::{put_text, put_user};
use crate::moment::put_moment;
use smb_refusal_texts::WithoutComma;
use smb_wire::NtStatus;
use std::alloc::{AllocError, Global};
use std::fmt::Display;
use std::io::Write;

/// The line that names the fields.
const HEADER: &str = "moment\tconnection\tpeer\tuser\tevent\tstatus\tmicroseconds\n";

/// What a line says where lines before it were left out.
const LOST: &str = "\t-\t-\t-\tlines were lost for want of memory\t-\t-\n";

/// Who an event is of.
#[derive(Clone, Copy)]
pub struct Subject<'a> {
    pub connection: Option<u64>,
    pub address: &'a str,
    /// As an authenticator names it; empty for none.
    pub user: &'a [u8],
}

/// How a request ended.
#[derive(Clone, Copy)]
pub struct Outcome {
    pub status: NtStatus,
    pub microseconds: u64,
    /// Why it was refused, where that is said.
    pub why: Option<WithoutComma>,
}

impl<'a> Subject<'a> {
    /// No connection, at this address; none where it is empty.
    pub fn at(address: &'a str) -> Self {
        Subject {
            connection: None,
            address,
            user: &[],
        }
    }
}

/// Lines, each written as it is made. After a failed write nothing more is written.
#[derive(Drop)]
pub struct Lines<W: Write + Drop> {
    writer: W,
    line: String,
    is_lost: bool,
    has_failed: bool,
}

/// Adds the fields of a line before its event.
fn put_front(moment: u64, subject: Subject<'_>, text: &mut String) -> Result<(), AllocError> {
    put_moment(moment, text)?;
    match subject.connection {
        Some(number) => write!(text, "\t{number}\t")?,
        None => text.push_str("\t-\t")?,
    }
    put_text(subject.address, text)?;
    text.push_str("\t")?;
    put_user(subject.user, text)?;
    text.push_str("\t")
}

/// Adds the fields of a line behind its event.
fn put_back(outcome: Option<Outcome>, text: &mut String) -> Result<(), AllocError> {
    let Some(outcome) = outcome else {
        return text.push_str("\t-\t-\n");
    };
    let (status, microseconds) = (outcome.status.name(), outcome.microseconds);
    write!(text, "\t{status}\t{microseconds}")?;
    if let Some(why) = outcome.why {
        write!(text, " why=\"{why}\"")?;
    }
    text.push_str("\n")
}

impl<W: Write + Drop> Lines<W> {
    /// Lines of a writer, of which the first, that names the fields, is written.
    pub fn new(alloc: Global, mut writer: W) -> Self {
        let has_failed = writer.write_all(HEADER.as_bytes()).is_err();
        Lines {
            writer,
            line: String::new(alloc),
            is_lost: false,
            has_failed,
        }
    }

    /// Whether a write failed.
    pub fn has_failed(&self) -> bool {
        self.has_failed
    }

    /// Notes that a line, or what later lines need, was lost for want of memory.
    pub fn lose(&mut self) {
        self.is_lost = true;
    }

    /// Makes a line, behind one that says that lines were lost, where some were.
    fn make<E: Display + Drop>(
        &mut self,
        moment: u64,
        subject: Subject<'_>,
        event: E,
        outcome: Option<Outcome>,
    ) -> Result<(), AllocError> {
        self.line.clear();
        if self.is_lost {
            put_moment(moment, &mut self.line)?;
            self.line.push_str(LOST)?;
        }
        put_front(moment, subject, &mut self.line)?;
        write!(self.line, "{event}")?;
        put_back(outcome, &mut self.line)
    }

    /// Writes the line of an event, in whose text is no TAB and no line feed; that of a request also says how it ended. False
    /// where there was no memory for it.
    pub fn put<E: Display + Drop>(
        &mut self,
        moment: u64,
        subject: Subject<'_>,
        event: E,
        outcome: Option<Outcome>,
    ) -> bool {
        if self.has_failed {
            return true;
        }
        self.is_lost = self.make(moment, subject, event, outcome).is_err();
        if !self.is_lost && self.writer.write_all(self.line.as_bytes()).is_err() {
            self.has_failed = true;
        }
        !self.is_lost
    }

    /// The writer.
    pub fn into_writer(self) -> W {
        self.writer
    }
}
