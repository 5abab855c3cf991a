//! The bytes of one stream that are held.

ghost use Rattle.std.specs.Prelude.{◌≡◌, ◌↔◌, ◌+◌, ◌≤◌, ℕ, IsTrue, List, [], length, drop, OnOk, OnErr, IfErr, IsSome, IfSome};
ghost use Rattle.std.specs.Option.{option_map};
ghost use Rattle.smb_frame.specs.Reading.{first, fault_of, EachStreamHasOneReading, RestIsEnough, FaultIsForGood, OpenRestIsShort};
ghost use Rattle.smb_frame.specs.Parts.{size};
ghost use Rattle.smb_frame.specs.Unread.{without_done, with_piece, lacking};

use super::fault::FrameFault;
use std::alloc::Global;
use std::marker::Model;

/// The bytes of a stream that have come and are not done, as whole frames and a rest.
///
/// The bytes of a frame that is done are given up at the next [`push`](FrameBuffer::push) and nowhere else, so over a
/// stream the work is in proportion to its bytes, however it is cut. Where no whole frame is left, and nothing is wrong
/// with what is, at most `limit + 3` bytes are unread.
#[derive(Drop)]
pub struct FrameBuffer {
    limit: u32,
    bytes: Vec<u8>,
    start: usize,
}

impl Model for FrameBuffer {
    ghost use Rattle.std.specs.Prelude.{drop, length, ◌≤◌};
    ghost use Rattle.smb_frame.specs.Unread.{Unread};

    ghost Value = { Unread };

    ghost view = { λ b. record { limit = b.limit; done = b.start; bytes = drop b.start b.bytes.items } };

    ghost invariant = { λ b. b.start ≤ length b.bytes.items };
}

/// The length of a payload, in bytes, from the three bytes that say it.
fn payload_length(high: u8, middle: u8, low: u8) -> usize
    ensures { result ≡ size high middle low }
{
    65_536 * high as usize + 256 * middle as usize + low as usize
}

/// The payload of the first frame in some bytes of a stream, where it is whole and at most `limit` bytes long.
pub fn first_payload(limit: u32, bytes: &[u8]) -> Option<&[u8]>
    ensures first { option_map (λ payload. payload.now) result ≡ first limit bytes.now }
    ensures long { IfSome result (λ payload. length payload.now + 4 ≤ length bytes.now) }
{
    match bytes {
        [kind, high, middle, low, after @ ..] => {
            let length = payload_length(*high, *middle, *low);
            if *kind == 0 && length <= limit as usize && length <= after.len() {
                Some(&after[..length])
            } else {
                None
            }
        }
        _ => None,
    }
}

impl FrameBuffer {
    /// An empty buffer, which takes payloads of up to `limit` bytes. It allocates nothing yet.
    pub fn new(alloc: Global, limit: u32) -> Self
        ensures { result ≡ record { limit = limit; done = 0; bytes = [] } }
    {
        FrameBuffer {
            limit,
            bytes: Vec::new(alloc),
            start: 0,
        }
    }

    /// Takes the next piece of the stream, and gives up the bytes of frames that are done. Once
    /// [`fault`](FrameBuffer::fault) is Some nothing is added.
    ///
    /// After [`FrameFault::NoMemory`], the only refusal, nothing was added, and those bytes are given up too.
    pub fn push(&mut self, piece: &[u8]) -> Result<(), FrameFault>
        ensures ok { OnOk result (self.new ≡ with_piece self.old piece.now) }
        ensures memory { IfErr result (λ fault. fault ≡ FrameFault.NoMemory) }
        ensures err { OnErr result (self.new ≡ without_done self.old) }
    {
        self.give_up_done();
        if self.fault().is_some() {
            return Ok(());
        }
        self.bytes.extend_from_slice(piece)?;
        Ok(())
    }

    /// How many bytes the first frame lacks, once its first four bytes are there; before that 0. Where they
    /// come by themselves no unread byte is moved at the next [`push`](FrameBuffer::push).
    pub fn lacking(&self) -> usize
        ensures { result ≡ lacking self.now.bytes }
    {
        match &self.bytes[self.start..] {
            [_, high, middle, low, after @ ..] => {
                payload_length(*high, *middle, *low).saturating_sub(after.len())
            }
            _ => 0,
        }
    }

    /// Moves the unread bytes to the front, in place of frames that are done. One move of the unread
    /// bytes, and none where no frame was done since the last one.
    fn give_up_done(&mut self)
        ensures { self.new ≡ without_done self.old }
    {
        if self.start > 0 {
            let length = self.bytes.len();
            self.bytes.copy_within(self.start..length, 0);
            self.bytes.truncate(length - self.start);
            self.start = 0;
        }
    }

    /// How many bytes are unread.
    pub fn len(&self) -> usize
        ensures { result ≡ length self.now.bytes }
    {
        self.bytes.len() - self.start
    }

    /// Whether no byte is unread.
    pub fn is_empty(&self) -> bool
        ensures { IsTrue result ↔ (length self.now.bytes ≡ 0) }
    {
        self.start == self.bytes.len()
    }

    /// The payload of the first frame, where it is whole.
    pub fn next(&self) -> Option<&[u8]>
        ensures first { option_map (λ payload. payload.now) result ≡ first self.now.limit self.now.bytes }
        ensures long { IfSome result (λ payload. length payload.now + 4 ≤ length self.now.bytes) }
    {
        first_payload(self.limit, &self.bytes[self.start..])
    }

    /// Drops the first frame, which is whole: [`next`](FrameBuffer::next) is Some.
    pub fn done(&mut self)
        requires { IsSome (first self.old.limit self.old.bytes) }
        ensures { (payload : List ℕ) → first self.old.limit self.old.bytes ≡ Some payload →
            self.new ≡ record self.old {
              done = self.old.done + (length payload + 4);
              bytes = drop (length payload + 4) self.old.bytes;
            } }
    {
        if let Some(payload) = self.next() {
            let length = payload.len();
            self.start += length + 4;
        }
    }

    /// What is wrong with the first frame: [`FrameFault::FirstByte`] once its first byte is
    /// there, [`FrameFault::TooLong`] once its fourth is.
    pub fn fault(&self) -> Option<FrameFault>
        ensures { result ≡ fault_of self.now.limit self.now.bytes }
    {
        match &self.bytes[self.start..] {
            [] => None,
            [kind, high, middle, low, ..] => {
                if *kind != 0 {
                    Some(FrameFault::FirstByte)
                } else if payload_length(*high, *middle, *low) > self.limit as usize {
                    Some(FrameFault::TooLong)
                } else {
                    None
                }
            }
            [kind, ..] => {
                if *kind == 0 {
                    None
                } else {
                    Some(FrameFault::FirstByte)
                }
            }
        }
    }
}

/// The laws of framed streams: the contract is the statement, and the body does nothing.
pub fn laws_of_frames()
    ensures one { EachStreamHasOneReading }
    ensures more { RestIsEnough }
    ensures faulty { FaultIsForGood }
    ensures short { OpenRestIsShort }
{}
