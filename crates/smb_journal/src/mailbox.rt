//! What an authenticator answered, on its way to the recording.

use crate::text::write_hex;
use smb_session::{Answer, Signing};
use std::alloc::{AllocError, Global};
use std::cell::{Cell, RefCell};
use std::io::Write;
use std::{io, mem};

/// The most bytes of a line that says an answer.
const LONGEST_LINE: usize = 8_800;

/// Lines `= ..`, put in by an authenticator as it answers, and taken out before anything is sent.
#[derive(Drop)]
pub struct Mailbox {
    lines: RefCell<Vec<u8>>,
    /// An answer could not be put in.
    lost: Cell<bool>,
    /// Nothing is put in any more.
    closed: Cell<bool>,
    /// Somebody was asked.
    asked: Cell<bool>,
}

/// Writes a token or a user: its bytes as hex, and `-` for none.
fn write_token(bytes: &[u8], out: &mut Vec<u8>) -> io::Result<()> {
    if bytes.is_empty() {
        return out.write_all(b"-");
    }
    write_hex(bytes, out)
}

/// Writes the key of a session's messages, and whether each of its requests has to be signed; nothing where none is.
fn write_signing(signing: Option<Signing>, out: &mut Vec<u8>) -> io::Result<()> {
    let Some(Signing { key, required }) = signing else {
        return Ok(());
    };
    out.write_all(b" ")?;
    write_hex(&key.bytes(), out)?;
    write!(out, " {}", u8::from(required))
}

/// Writes an answer as a line.
fn write_answer(answer: &Answer, out: &mut Vec<u8>) -> io::Result<()> {
    match answer {
        Answer::Continue(token) => {
            out.write_all(b"= continue ")?;
            write_token(token, out)?;
        }
        Answer::Accept {
            user,
            flags,
            read_only,
            signing,
            token,
        } => {
            out.write_all(b"= accept ")?;
            write_token(user, out)?;
            write!(out, " {flags} {} ", u8::from(*read_only))?;
            write_token(token, out)?;
            write_signing(*signing, out)?;
        }
        Answer::Deny => out.write_all(b"= deny")?,
    }
    out.write_all(b"\n")
}

impl Mailbox {
    /// One with nothing in it.
    pub fn new(alloc: Global) -> Self {
        Mailbox {
            lines: RefCell::new(Vec::new(alloc)),
            lost: Cell::new(false),
            closed: Cell::new(false),
            asked: Cell::new(false),
        }
    }

    /// Puts nothing in any more: for a share of which nothing is recorded.
    pub fn close(&self) {
        self.closed.set(true);
    }

    /// Makes room for one answer more.
    pub fn make_room(&self) -> Result<(), AllocError> {
        match self.lines.try_borrow_mut() {
            Ok(mut lines) => lines.reserve(LONGEST_LINE),
            Err(_) => Err(AllocError),
        }
    }

    /// Puts an answer in, for which there is room.
    pub fn put(&self, answer: &Answer) {
        self.asked.set(true);
        if self.closed.get() {
            return;
        }
        let is_put = match self.lines.try_borrow_mut() {
            Ok(mut lines) => write_answer(answer, &mut lines).is_ok(),
            Err(_) => false,
        };
        if !is_put {
            self.lost.set(true);
        }
    }

    /// Whether an answer was given that is not recorded: in the last piece of a recording, which is cut behind it.
    pub fn has_asked(&self) -> bool {
        self.asked.get()
    }

    /// Whether an answer was lost.
    pub(crate) fn has_lost(&self) -> bool {
        self.lost.get()
    }

    /// Gives the lines in exchange for a vector without any, and returns whether that was done. It takes no memory.
    pub(crate) fn take(&self, into: &mut Vec<u8>) -> bool {
        match self.lines.try_borrow_mut() {
            Ok(mut lines) => {
                mem::swap(&mut *lines, into);
                true
            }
            Err(_) => false,
        }
    }
}
