//! The lines of a recording, read by parts.

use crate::check::check_of;
use crate::fault::JournalFault;
use crate::form::{Form, Header};
use crate::line::{Line, PieceHead, read_head, read_line};
use crate::text::{at_last, check_of_digits};
use smb_peers::Event;
use std::alloc::Global;
use std::io::{ErrorKind, Read};

/// How many bytes are read at a time.
const PART: usize = 262_144;

/// The most bytes of a line, those of a piece as hex among them.
const LONGEST_LINE: usize = 4_194_304;

/// Reads a recording, line by line. At most a line and two parts of it are held at a time.
#[derive(Drop)]
pub struct Lines<R: Read + Drop> {
    alloc: Global,
    reader: R,
    form: Form,
    /// What was read, and how many of these bytes were gone over.
    bytes: Vec<u8>,
    start: usize,
    has_ended: bool,
    /// The check of the line that was read last, 0 where it has none.
    check: u64,
    /// How many lines and bytes were gone over in all.
    number: u64,
    offset: u64,
}

impl<R: Read + Drop> Lines<R> {
    /// A recording of which nothing was read. [`Lines::header`] is to be called first.
    pub fn new(alloc: Global, reader: R) -> Self {
        Lines {
            alloc,
            reader,
            form: Form::Recording,
            bytes: Vec::new(alloc),
            start: 0,
            has_ended: false,
            check: 0,
            number: 0,
            offset: 0,
        }
    }

    /// The number of the line that was read last, from 1.
    pub fn number(&self) -> u64 {
        self.number
    }

    /// How many bytes the whole lines take that were read.
    pub fn offset(&self) -> u64 {
        self.offset
    }

    /// How many bytes are behind the last whole line: those of a last line that is cut, once [`Lines::next_line`] has given
    /// None.
    pub fn left_out(&self) -> u64 {
        self.bytes.len().saturating_sub(self.start) as u64
    }

    /// The bytes that are held from one index up to another; none where these are not there.
    fn part(&self, from: usize, to: usize) -> &[u8] {
        self.bytes.get(from..to).unwrap_or(&[])
    }

    /// The check of the line that was read last; 0 where it has none.
    pub fn check(&self) -> u64 {
        self.check
    }

    /// Reads the next bytes. A read is tried again where it was interrupted.
    fn fill(&mut self) -> Result<(), JournalFault> {
        let length = self.bytes.len();
        self.bytes.resize(length.saturating_add(PART), 0)?;
        let count = match self.reader.read(&mut self.bytes[length..]) {
            Ok(count) => count,
            Err(error) if error.kind() == ErrorKind::Interrupted => {
                self.bytes.truncate(length);
                return Ok(());
            }
            Err(error) => {
                self.bytes.truncate(length);
                return Err(JournalFault::of_read(error));
            }
        };
        self.bytes.truncate(length.saturating_add(count));
        self.has_ended = count == 0;
        Ok(())
    }

    /// Gives up the bytes that were gone over, once these are many.
    fn give_up(&mut self) {
        if self.start >= PART || self.start == self.bytes.len() {
            let length = self.bytes.len();
            let start = self.start.min(length);
            self.bytes.copy_within(start..length, 0);
            self.bytes.truncate(length - start);
            self.start = 0;
        }
    }

    /// Whether bytes are there up to an index; more are read where they aren't.
    fn has_up_to(&mut self, end: usize) -> Result<bool, JournalFault> {
        for _ in 0..u64::MAX {
            if self.bytes.len() >= end {
                return Ok(true);
            }
            if self.has_ended {
                return Ok(false);
            }
            self.fill()?;
        }
        Ok(false)
    }

    /// The index of the next line feed; None where there is none up to the end.
    fn line_feed(&mut self) -> Result<Option<usize>, JournalFault> {
        let mut from = self.start;
        for _ in 0..u64::MAX {
            let seen = self.bytes.len();
            let others = self.bytes.get(from..).unwrap_or(&[]);
            if let Some(place) = others.iter().position(|byte| *byte == b'\n') {
                return Ok(Some(from + place));
            }
            if self.has_ended {
                return Ok(None);
            }
            if seen.saturating_sub(self.start) > LONGEST_LINE {
                return Err(JournalFault::Unreadable(self.number.saturating_add(1)));
            }
            from = seen;
            self.fill()?;
        }
        Ok(None)
    }

    /// Notes that the bytes up to an index were gone over.
    fn pass(&mut self, end: usize) {
        let count = end.saturating_sub(self.start);
        self.offset = self.offset.saturating_add(count as u64);
        self.start = end;
    }

    /// Reads the first line.
    ///
    /// # Errors
    /// [`JournalFault::NoRecording`] where it's not that of a recording, [`JournalFault::Unread`] and
    /// [`JournalFault::NoMemory`].
    pub fn header(&mut self) -> Result<Header, JournalFault> {
        let Some(end) = self.line_feed()? else {
            return Err(JournalFault::NoRecording);
        };
        let line = Vec::from_slice(self.alloc, self.part(0, end))?;
        let header = Header::read(self.alloc, &line)?;
        self.form = header.form;
        self.number = 1;
        self.pass(end.saturating_add(1));
        Ok(header)
    }

    /// Where the text of the line ends that ends at a line feed, and the check behind it: that of the line before where it
    /// has none.
    fn checked(&self, end: usize) -> Result<(usize, u64), JournalFault> {
        let line = self.part(self.start, end);
        if self.form == Form::Recording || line.is_empty() || line.starts_with(b"#") {
            return Ok((end, self.check));
        }
        let Some((text, digits)) = at_last(b" ", line) else {
            return Err(JournalFault::Unreadable(self.number));
        };
        match check_of_digits(digits) {
            Some(check) if check == check_of(self.check, text) => {
                Ok((self.start.saturating_add(text.len()), check))
            }
            Some(_) => Err(JournalFault::Changed(self.number)),
            None => Err(JournalFault::Unreadable(self.number)),
        }
    }

    /// The head of a piece in a journal, where the text up to an index is one.
    fn head(&self, end: usize) -> Option<PieceHead> {
        match self.form {
            Form::Recording => None,
            Form::Journal => read_head(self.part(self.start, end)),
        }
    }

    /// The line of a piece whose head ends at a line feed; None where not all of its bytes are there.
    fn piece(&mut self, end: usize, head: PieceHead) -> Result<Option<Line>, JournalFault> {
        let first = end.saturating_add(1);
        let last = first.saturating_add(head.length);
        if !self.has_up_to(last.saturating_add(1))? {
            return Ok(None);
        }
        let piece = self.part(first, last);
        if self.bytes.get(last) != Some(&b'\n') || head.sum != check_of(0, piece) {
            return Err(JournalFault::Changed(self.number));
        }
        let piece = Vec::from_slice(self.alloc, piece)?;
        self.pass(last.saturating_add(1));
        Ok(Some(Line::Happens(Event::Bytes {
            connection: head.connection,
            moment: head.moment,
            piece,
        })))
    }

    /// The line that ends at a line feed, and whose text ends before it; None where it is a piece and not all of its bytes are there.
    fn line(&mut self, text: usize, end: usize) -> Result<Option<Line>, JournalFault> {
        if let Some(head) = self.head(text) {
            return self.piece(end, head);
        }
        let read = read_line(self.alloc, self.part(self.start, text))?;
        match read {
            Some(line) => {
                self.pass(end.saturating_add(1));
                Ok(Some(line))
            }
            None => Err(JournalFault::Unreadable(self.number)),
        }
    }

    /// Reads the next line; None at the end, and where the last line is cut: it was never answered.
    ///
    /// # Errors
    /// [`JournalFault::Unreadable`] and [`JournalFault::Changed`] with the line's number, [`JournalFault::Unread`] and
    /// [`JournalFault::NoMemory`].
    pub fn next_line(&mut self) -> Result<Option<Line>, JournalFault> {
        self.give_up();
        let Some(end) = self.line_feed()? else {
            return Ok(None);
        };
        self.number = self.number.saturating_add(1);
        let (text, check) = self.checked(end)?;
        let line = self.line(text, end)?;
        if line.is_some() {
            self.check = check;
        }
        Ok(line)
    }
}
