//! Which part of the bytes that came of a peer it is lent at once.

ghost use Rattle.std.specs.Prelude.{◌≤◌, length, vec_len, IfSome};

use super::piece::Piece;
use smb_wire::{Command, u16_at, u32_at};
use std::alloc::Global;

/// How many bytes the length of a frame takes ([MS-SMB2] 2.1).
const HEAD: usize = 4;

/// Where a request has its CreditCharge, its command, and the way to the next one of its chain ([MS-SMB2] 2.2.1.2).
const CREDIT_CHARGE_AT: usize = 6;

const COMMAND_AT: usize = 12;

const NEXT_COMMAND_AT: usize = 20;

/// How many requests of a chain are looked at: as many as one may have.
const MOST_LOOKED_AT: usize = 16;

/// How many requests are lent at once behind those of the first frame: so many READs of 65,536 bytes are answered by 36,747,200
/// bytes, and by four times as many those that the longest piece has room for.
const MOST_LENT: usize = 560;

/// How far a stream has come in its current frame.
#[derive(Clone, Copy)]
pub(crate) struct FrameCursor {
    /// How many bytes of its length have come, and what they say so far, the first one highest.
    head_bytes: usize,
    head: u32,
    /// How many bytes of its payload are still to come.
    left: usize,
}

impl FrameCursor {
    /// Before the first frame of a stream.
    pub(crate) fn new() -> Self {
        FrameCursor {
            head_bytes: 0,
            head: 0,
            left: 0,
        }
    }

    /// Takes a byte of a frame's length, and tells whether it was the last one.
    fn take_head(&mut self, byte: u8) -> bool {
        self.head = self.head << 8 | u32::from(byte);
        self.head_bytes = self.head_bytes.saturating_add(1);
        if self.head_bytes < HEAD {
            return false;
        }
        self.left = (self.head & 0xff_ffff) as usize;
        self.head_bytes = 0;
        self.head = 0;
        true
    }

    /// Goes over bytes that come next up to the end of a frame, and tells how many these are; None where no frame ends.
    fn end_of_frame(&mut self, bytes: &[u8]) -> Option<usize>
        ensures { IfSome result (λ end. end ≤ length bytes.now) }
    {
        let mut at = 0;
        for byte in bytes {
            if self.left > 0 {
                break;
            }
            at += 1;
            if self.take_head(*byte) && self.left == 0 {
                return Some(at);
            }
        }
        if self.left == 0 {
            return None;
        }
        let there = bytes.len() - at;
        if self.left > there {
            self.left -= there;
            return None;
        }
        at += self.left;
        self.left = 0;
        Some(at)
    }

    /// Goes over bytes that begin with a frame, and tells whether one of their frames asks for much, or all together
    /// have more requests than are lent at once.
    fn has_much(&mut self, bytes: &[u8]) -> bool {
        let mut rest = bytes;
        let mut count: usize = 0;
        let mut found = false;
        for _ in 0..bytes.len() {
            match requests_of(rest) {
                Some(more) => count = count.saturating_add(more),
                None => found = true,
            }
            match self.end_of_frame(rest) {
                Some(end) => rest = &rest[end..],
                None => break,
            }
        }
        found || count > MOST_LENT
    }

    /// Goes over what is lent of bytes that come next, and tells how many these are: all of them, or where the peer is dear, or
    /// one of their frames asks for much, or they have too many requests, those up to the end of the first frame. It tells too
    /// whether there are others behind it.
    fn lend(&mut self, bytes: &[u8], is_dear: bool) -> (usize, bool)
        ensures { result.0 ≤ length bytes.now }
    {
        let begins = self.head_bytes == 0 && self.left == 0;
        let Some(first) = self.end_of_frame(bytes) else {
            return (bytes.len(), false);
        };
        if first == bytes.len() {
            return (first, false);
        }
        let behind_first = *self;
        if is_dear
            || begins && requests_of(&bytes[..first]).is_none()
            || self.has_much(&bytes[first..])
        {
            *self = behind_first;
            return (first, true);
        }
        (bytes.len(), true)
    }
}

/// How many requests the frame has that bytes begin with, as far as it is there, and 1 at least; None where it asks for much: a
/// QUERY_DIRECTORY, or a request of several credits, is among them.
fn requests_of(bytes: &[u8]) -> Option<usize> {
    let mut at = HEAD;
    for count in 1..=MOST_LOOKED_AT {
        let Some(command) = u16_at(bytes, at.saturating_add(COMMAND_AT)) else {
            return Some(count);
        };
        let charge = u16_at(bytes, at.saturating_add(CREDIT_CHARGE_AT));
        if command == Command::QueryDirectory.code().0 || charge.is_some_and(|charge| charge > 1) {
            return None;
        }
        match u32_at(bytes, at.saturating_add(NEXT_COMMAND_AT)) {
            None | Some(0) => return Some(count),
            Some(next) => at = at.saturating_add(next as usize),
        }
    }
    Some(MOST_LOOKED_AT)
}

/// The bytes that came of a peer, and are lent to the share one frame after the other where a frame may be dear: so others
/// are read between two of them.
#[derive(Drop)]
pub(crate) struct Lending {
    cursor: FrameCursor,
    // What came and is kept back, and how many of these bytes were lent since.
    bytes: Vec<u8>,
    lent: usize,
    is_dear: bool,
    ghost few: { vec_len bytes ≤ 266240 },
    ghost within: { lent ≤ vec_len bytes },
}

impl Lending {
    /// Of a stream of which nothing came. It takes no memory.
    pub(crate) fn new(alloc: Global) -> Self {
        Lending {
            cursor: FrameCursor::new(),
            bytes: Vec::new(alloc),
            lent: 0,
            is_dear: false,
        }
    }

    /// Whether bytes are kept back.
    pub(crate) fn has_more(&self) -> bool {
        self.lent < self.bytes.len()
    }

    /// Notes whether a turn of the peer took long.
    pub(crate) fn note_turn(&mut self, took_long: bool) {
        self.is_dear = took_long;
    }

    /// Gives up the room of what was lent.
    fn give_up(&mut self) {
        self.lent = 0;
        self.bytes.clear();
        self.bytes.shrink_to_fit();
    }

    /// Makes the next frame of the bytes that are kept back the piece, or what is there of it. These bytes are lent one frame at a
    /// time without another look at what the frames are: so each of them is gone over once. Tells whether the turn is to be timed:
    /// so it is where others are left, or the peer is dear.
    pub(crate) fn lend_next(&mut self, piece: &mut Piece) -> bool {
        let bytes = &self.bytes[self.lent..];
        let (count, _) = self.cursor.lend(bytes, true);
        piece.fill(&bytes[..count]);
        self.lent += count;
        if self.lent == self.bytes.len() {
            self.give_up();
        }
        self.is_dear || self.has_more()
    }

    /// Keeps back these bytes, and tells whether there was memory for that.
    fn keep(&mut self, bytes: &[u8]) -> bool
        requires { length bytes.now ≤ 266240 }
    {
        self.lent = 0;
        self.bytes.clear();
        self.bytes.extend_from_slice(bytes).is_ok()
    }

    /// Cuts a piece that came to what is lent of it at once, and keeps the rest back. Where there is no memory for that, all of it
    /// is lent. Tells whether the turn is to be timed: so it is where several frames were there, or the peer is dear. A frame that
    /// comes alone is lent alone in any case.
    pub(crate) fn keep_back(&mut self, piece: &mut Piece) -> bool {
        let bytes = piece.bytes();
        let (count, others) = self.cursor.lend(bytes, self.is_dear);
        let is_timed = self.is_dear || others;
        if count == bytes.len() {
            return is_timed;
        }
        if self.keep(&bytes[count..]) {
            piece.cut(count);
        } else {
            let _ = self.cursor.has_much(&bytes[count..]);
        }
        is_timed
    }
}
