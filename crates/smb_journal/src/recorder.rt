//! Writes what happens to a share, line by line.

ghost use Rattle.std.specs.Prelude.{◌≡◌, is_some};

use crate::fault::JournalFault;
use crate::form::Header;
use crate::mailbox::Mailbox;
use crate::store::Store;
use crate::text::write_hex;
use smb_reason::Reason;
use std::alloc::Global;
use std::io::{ErrorKind, Write};
use std::{io, mem};

/// The version of the program: a recording names it, and `--version` prints it.
pub const VERSION: &str = "1.0.0";

/// How many bytes the line of a piece of 266,240 bytes takes at most.
const LINE_ROOM: usize = 532_608;

/// A line for each event, written before the call returns. After a failed write nothing more is written.
#[derive(Drop)]
pub struct Recorder<S: Store + Drop> {
    store: S,
    alloc: Global,
    /// The line that is made, and the answers that were taken last.
    line: Vec<u8>,
    answers: Vec<u8>,
    /// Whether what was written is not settled yet, and whether it is to be.
    is_dirty: bool,
    settles: bool,
    /// Why what failed first has failed, once something has.
    failure: Option<Reason>,
}

impl<S: Store + Drop> Recorder<S> {
    /// Writes to a store. With `settles` what is written is settled before it is answered. Room for a line is made
    /// first, so that none fails for want of memory while a share is served whose pieces have at most 266,240 bytes.
    pub fn new(alloc: Global, store: S, settles: bool) -> Result<Self, JournalFault> {
        Ok(Recorder {
            store,
            alloc,
            line: Vec::with_capacity(alloc, LINE_ROOM)?,
            answers: Vec::new(alloc),
            is_dirty: false,
            settles,
            failure: None,
        })
    }

    /// Writes the first line, and a comment that names the version.
    pub fn begin(
        &mut self,
        alloc: Global,
        header: &Header,
        version: &str,
    ) -> Result<(), JournalFault> {
        let mut line = header.line(alloc)?;
        writeln!(line, "# version {version}").map_err(JournalFault::of_write)?;
        self.store.add(&line).map_err(JournalFault::of_write)?;
        self.is_dirty = true;
        Ok(())
    }

    /// Whether a write failed.
    pub fn has_failed(&self) -> bool
        ensures { result ≡ is_some self.now.failure }
    {
        self.failure.is_some()
    }

    /// Why the first write that failed has failed; None where none has.
    pub fn failure(&self) -> Option<Reason> {
        self.failure
    }

    /// Notes why something can't be recorded, where nothing failed before.
    fn fail(&mut self, kind: ErrorKind) {
        if self.failure.is_none() {
            self.failure = Some(Reason(kind));
        }
    }

    /// Notes that something can't be recorded for want of memory.
    pub(crate) fn fail_without_memory(&mut self) {
        self.fail(ErrorKind::OutOfMemory);
    }

    /// Writes the line that was made, or notes why it couldn't be.
    fn write(&mut self, made: io::Result<()>) {
        if self.has_failed() {
            return;
        }
        self.is_dirty = true;
        let written = match made {
            Ok(()) => self.store.add(&self.line),
            Err(error) => Err(error),
        };
        if let Err(error) = written {
            self.fail(error.kind());
        }
    }

    /// Writes a line of a mark and numbers.
    fn numbers(&mut self, mark: char, first: u64, second: Option<u64>) {
        self.line.clear();
        let mut made = write!(self.line, "{mark} {first}");
        if let (Ok(()), Some(second)) = (&made, second) {
            made = write!(self.line, " {second}");
        }
        if made.is_ok() {
            made = self.line.write_all(b"\n");
        }
        self.write(made);
    }

    /// A connection was opened.
    pub fn opened(&mut self, connection: u64) {
        self.numbers('+', connection, None);
    }

    /// A connection has ended.
    pub fn ended(&mut self, connection: u64) {
        self.numbers('-', connection, None);
    }

    /// Memory ran out in the last piece, behind so many of its requests.
    pub(crate) fn stopped(&mut self, connection: u64, done: usize) {
        self.numbers('~', connection, Some(done as u64));
    }

    /// The line of a piece.
    fn make_line(&mut self, connection: u64, moment: u64, piece: &[u8]) -> io::Result<()> {
        write!(self.line, "> {connection} {moment} ")?;
        write_hex(piece, &mut self.line)?;
        self.line.write_all(b"\n")
    }

    /// A piece of a connection's stream came, at a moment in units of 100 ns since 1601.
    pub fn piece(&mut self, connection: u64, moment: u64, piece: &[u8]) {
        if piece.is_empty() {
            return;
        }
        self.line.clear();
        let made = self.make_line(connection, moment, piece);
        self.write(made);
    }

    /// Takes what an authenticator answered out of its mailbox.
    pub fn take_answers(&mut self, mailbox: &Mailbox) {
        let mut lines = mem::replace(&mut self.answers, Vec::new(self.alloc));
        lines.clear();
        if !mailbox.take(&mut lines) || mailbox.has_lost() {
            self.fail_without_memory();
        }
        self.write_answers(&lines);
        self.answers = lines;
    }

    /// Writes lines of answers, each of which has its line feed.
    fn write_answers(&mut self, lines: &[u8]) {
        for line in lines.split(|byte| *byte == b'\n') {
            if !line.is_empty() {
                self.line.clear();
                let mut made = self.line.write_all(line);
                if made.is_ok() {
                    made = self.line.write_all(b"\n");
                }
                self.write(made);
            }
        }
    }

    /// Has what was written settled, where it is to be, and returns whether all of it is kept.
    pub fn settle(&mut self) -> bool {
        if self.settles && self.is_dirty && !self.has_failed() {
            if let Err(error) = self.store.settle() {
                self.fail(error.kind());
            }
            self.is_dirty = false;
        }
        !self.has_failed()
    }
}
