//! Peers over memory, for trials.

ghost use Rattle.std.specs.Prelude.{◌≡◌, ◌<◌, ◌≤◌, ◌++◌, ◌∷◌, [], length, take, IsTrue, IfSome, IfOk, OnErr, slice_get};
ghost use Rattle.smb_peers.specs.Record.{Keeping, close, taken_by, closes_of};
ghost use Rattle.smb_peers.specs.Peers.{call_of, send_call, OpensOnce};
ghost use Rattle.smb_serving.specs.MemoryPeers.{are_distinct, opened_by, new_peers};
ghost use Rattle.smb_serving.specs.MemoryRecord.{piece_at, piece_place, step_at, step_event, step_failures, send_count};

use super::memory_record::{Call, closes_in, keep_bytes, keep_call, taken_at};
use smb_peers::{PeerEvent, Peers, SendFault};
use std::alloc::{AllocError, Global};
use std::marker::Model;

/// A step of a script: what one call of `next` brings, of the connection of a number.
#[derive(Debug, Drop)]
pub enum PeerStep {
    /// It is opened.
    Opened(u64),
    /// These bytes of its stream come.
    Bytes(u64, Vec<u8>),
    /// Its stream ends.
    Ended(u64),
    /// A read of it fails: that is its end, and counts as a failure.
    Fails(u64),
    /// Nothing comes.
    Idle,
}

/// What one send does with the bytes that it is offered.
#[derive(Clone, Copy, Debug, PartialEq, Eq)]
pub enum SendStep {
    /// It takes at most so many, from the first on.
    Takes(usize),
    /// It is refused, and counts as a failure.
    Fails,
}

/// Peers that do what a script says, for trials. `next` brings its steps one after the other, and then [`PeerStep::Idle`] for ever.
/// Each send has a step too; behind the last of them all that fits is taken.
///
/// They keep a record of so many calls, and take so many bytes in all: a send takes what still fits, and then 0 bytes. Behind the
/// last of those calls nothing is brought or taken any more, and the record is kept no more: each `next` is Idle, and each send takes
/// 0 bytes.
#[derive(Debug, Drop)]
pub struct MemoryPeers {
    script: Vec<PeerStep>,
    place: usize,
    piece: Option<usize>,
    sends: Vec<SendStep>,
    sent: usize,
    calls: Vec<Call>,
    calls_left: usize,
    bytes: Vec<u8>,
    bytes_left: usize,
    keeps: bool,
    failures: u64,
}

impl Model for MemoryPeers {
    ghost use Rattle.std.specs.Prelude.{◌≡◌, ◌+◌, ◌<◌, ◌≤◌, ◌^◌, length, IsTrue, vec_len, vec_capacity};
    ghost use Rattle.smb_serving.specs.MemoryPeers.{MemoryPeersState, are_distinct, opened_by};
    ghost use Rattle.smb_serving.specs.MemoryRecord.{piece_at, calls_told, bytes_of};

    ghost Value = { MemoryPeersState };

    ghost view = { λ p. record {
      script = p.script.items;
      place = p.place;
      piece = piece_at p.script.items p.piece;
      sends = p.sends.items;
      sent = p.sent;
      calls = calls_told p.script.items p.calls.items p.bytes.items;
      calls_left = p.calls_left;
      bytes_left = p.bytes_left;
      keeps = p.keeps;
      failures = p.failures;
    } };

    // The script opens each number once, the bytes are those of the calls, there is room for what is left, and no count can pass 2^64:
    // each failure is one of the calls.
    ghost invariant = { λ p.
        IsTrue (are_distinct (opened_by p.script.items))
        × (bytes_of p.calls.items ≡ length p.bytes.items)
        × (vec_len p.calls + p.calls_left ≤ vec_capacity p.calls)
        × (vec_len p.bytes + p.bytes_left ≤ vec_capacity p.bytes)
        × (p.place + p.calls_left < 18446744073709551616)
        × (p.sent + p.calls_left < 18446744073709551616)
        × (p.failures + p.calls_left < 18446744073709551616) };
}

impl MemoryPeers {
    /// Peers with a script, which opens each number at most once, the steps of their sends, and room for so many calls and so many
    /// bytes. No memory is taken later; AllocError where there is not enough for that room.
    pub fn new(
        alloc: Global,
        script: Vec<PeerStep>,
        sends: Vec<SendStep>,
        calls: usize,
        room: usize,
    ) -> Result<Self, AllocError>
        requires { IsTrue (are_distinct (opened_by script.items)) }
        ensures { IfOk result (λ peers. peers ≡ new_peers script.items sends.items calls room) }
    {
        Ok(MemoryPeers {
            script,
            place: 0,
            piece: None,
            sends,
            sent: 0,
            calls: Vec::with_capacity(alloc, calls)?,
            calls_left: calls,
            bytes: Vec::with_capacity(alloc, room)?,
            bytes_left: room,
            keeps: true,
            failures: 0,
        })
    }
}

impl Peers for MemoryPeers {
    ghost use Rattle.std.specs.Prelude.{take};
    ghost use Rattle.smb_serving.specs.MemoryPeers.{opened_by, next_of, send_of, behind_close};

    ghost calls = { λ p. p.calls };

    ghost keeps = { λ p. p.keeps };

    ghost opened = { λ p. opened_by (take p.place p.script) };

    ghost piece_of = { λ p. p.piece };

    ghost failed = { λ p. p.failures };

    fn next(&mut self) -> PeerEvent
        ensures told { Keeping self.old.keeps self.new.keeps (self.new.calls ≡ self.old.calls ++ call_of result self.new.piece ∷ []) }
        ensures once { OpensOnce result (opened_by (take self.old.place self.old.script)) (opened_by (take self.new.place self.new.script)) }
        ensures value { result ≡ (next_of self.old).0 }
        ensures after { self.new ≡ (next_of self.old).1 }
    {
        if self.calls_left == 0 {
            self.keeps = false;
            return PeerEvent::Idle;
        }
        let place = self.place;
        keep_call(&mut self.calls, Call::Next(place));
        self.calls_left -= 1;
        self.place += 1;
        self.piece = piece_behind(&self.script, place, self.piece);
        self.failures += failures_at(&self.script, place);
        event_at(&self.script, place)
    }

    fn piece(&self) -> &[u8]
        ensures { result.now ≡ self.now.piece }
    {
        piece_of(&self.script, self.piece)
    }

    fn send(&mut self, number: u64, bytes: &[u8]) -> Result<usize, SendFault>
        ensures told { Keeping self.old.keeps self.new.keeps (self.new.calls ≡ self.old.calls ++ send_call number bytes.now result ∷ []) }
        ensures within { IfOk result (λ count. count ≤ length bytes.now) }
        ensures failed { OnErr result (self.old.failures < self.new.failures) }
        ensures opened { opened_by (take self.new.place self.new.script) ≡ opened_by (take self.old.place self.old.script) }
        ensures value { result ≡ (send_of number bytes.now self.old).0 }
        ensures after { self.new ≡ (send_of number bytes.now self.old).1 }
    {
        if self.calls_left == 0 {
            self.keeps = false;
            return Ok(0);
        }
        let room = bytes.len().min(self.bytes_left);
        let count = count_at(&self.sends, self.sent, room);
        keep_call(
            &mut self.calls,
            Call::Sent {
                number,
                offered: bytes.len(),
                count,
            },
        );
        self.calls_left -= 1;
        self.sent += 1;
        match count {
            Some(count) => {
                keep_bytes(&mut self.bytes, &bytes[..count]);
                self.bytes_left -= count;
                Ok(count)
            }
            None => {
                self.failures += 1;
                Err(SendFault)
            }
        }
    }

    fn close(&mut self, number: u64)
        ensures told { Keeping self.old.keeps self.new.keeps (self.new.calls ≡ self.old.calls ++ close number ∷ []) }
        ensures opened { opened_by (take self.new.place self.new.script) ≡ opened_by (take self.old.place self.old.script) }
        ensures after { self.new ≡ behind_close number self.old }
    {
        if self.calls_left == 0 {
            self.keeps = false;
            return;
        }
        keep_call(&mut self.calls, Call::Closed(number));
        self.calls_left -= 1;
    }

    fn failures(&self) -> u64
        ensures { result ≡ self.now.failures }
    {
        self.failures
    }
}

impl MemoryPeers {
    /// The byte at an index of all bytes that were taken for a number, over all sends to it in order; None past the last. It takes
    /// time in proportion to the calls in the record.
    pub fn taken(&self, number: u64, index: usize) -> Option<u8>
        ensures { result ≡ slice_get (taken_by number self.now.calls) index }
    {
        taken_at(&self.calls, &self.bytes, number, index)
    }

    /// How many calls in the record close a number.
    pub fn closed(&self, number: u64) -> u64
        ensures { result ≡ closes_of number self.now.calls }
    {
        closes_in(&self.calls, number) as u64
    }
}

/// The event of a call of `next`: behind the last step Idle.
fn event_at(script: &[PeerStep], place: usize) -> PeerEvent
    ensures { result ≡ step_event (step_at script.now place) }
{
    match script.get(place) {
        Some(PeerStep::Opened(number)) => PeerEvent::Opened(*number),
        Some(PeerStep::Bytes(number, _)) => PeerEvent::Bytes(*number),
        Some(PeerStep::Ended(number)) => PeerEvent::Ended(*number),
        Some(PeerStep::Fails(number)) => PeerEvent::Ended(*number),
        Some(PeerStep::Idle) => PeerEvent::Idle,
        None => PeerEvent::Idle,
    }
}

/// The place of the piece that came last, behind a step.
fn piece_behind(script: &[PeerStep], place: usize, before: Option<usize>) -> Option<usize>
    ensures { result ≡ piece_place (step_at script.now place) place before }
{
    match script.get(place) {
        Some(PeerStep::Bytes(_, _)) => Some(place),
        _ => before,
    }
}

/// How many calls fail in a step.
fn failures_at(script: &[PeerStep], place: usize) -> u64
    ensures count { result ≡ step_failures (step_at script.now place) }
    ensures few { result ≤ 1 }
{
    match script.get(place) {
        Some(PeerStep::Fails(_)) => 1,
        _ => 0,
    }
}

/// The bytes of the step at a place, where it is a piece.
fn piece_of(script: &[PeerStep], place: Option<usize>) -> &[u8]
    ensures { result.now ≡ piece_at script.now place }
{
    let Some(place) = place else {
        return &[];
    };
    match script.get(place) {
        Some(PeerStep::Bytes(_, piece)) => piece.as_slice(),
        _ => &[],
    }
}

/// How many bytes a send takes, of so many that there is room for. None where it is refused.
fn count_at(sends: &[SendStep], sent: usize, room: usize) -> Option<usize>
    ensures count { result ≡ send_count (slice_get sends.now sent) room }
    ensures within { IfSome result (λ count. count ≤ room) }
{
    match sends.get(sent) {
        Some(SendStep::Takes(most)) => Some((*most).min(room)),
        Some(SendStep::Fails) => None,
        None => Some(room),
    }
}
