//! Peers of a share that is served, of which all is recorded.

ghost use Rattle.std.specs.Prelude.{◌≡◌};

use crate::mailbox::Mailbox;
use crate::recorder::Recorder;
use crate::store::Store;
use smb_peers::{Clock, PeerEvent, Peers, SendFault, Stopping, Usage};
use std::alloc::{AllocError, Global};
use std::cell::Cell;

/// The most connections that have a number at a time.
const MOST_NUMBERS: usize = 128;

/// A connection's number among the peers, and in the share.
#[derive(Clone, Copy)]
struct Pair {
    number: u64,
    connection: u64,
}

/// Other peers, of which each event is recorded before it is handed on, and each end by the share as it comes. What can't be
/// recorded isn't handed on; nothing is sent then, and they ask to stop.
///
/// A piece is recorded with the moment of a clock, which a [`RecordedClock`] gives again. An opening waits for the next event:
/// where the share refuses it, it is never recorded, and has no number in the share.
#[derive(Drop)]
pub struct RecordedPeers<'a, P: Peers + Drop, C: Clock + Drop, S: Store + Drop> {
    peers: P,
    clock: C,
    moment: &'a Cell<u64>,
    mailbox: &'a Mailbox,
    recorder: Recorder<S>,
    pairs: Vec<Pair>,
    waiting: Option<u64>,
    next: u64,
}

impl<'a, P: Peers + Drop, C: Clock + Drop, S: Store + Drop> RecordedPeers<'a, P, C, S> {
    /// Peers of a share whose next connection has the number `next`.
    pub fn new(
        alloc: Global,
        peers: P,
        clock: C,
        moment: &'a Cell<u64>,
        mailbox: &'a Mailbox,
        recorder: Recorder<S>,
        next: u64,
    ) -> Result<Self, AllocError> {
        Ok(RecordedPeers {
            peers,
            clock,
            moment,
            mailbox,
            recorder,
            pairs: Vec::with_capacity(alloc, MOST_NUMBERS)?,
            waiting: None,
            next,
        })
    }

    /// Records what the authenticator answered.
    fn record_answers(&mut self)
        ensures { self.new.peers ≡ self.old.peers }
    {
        self.recorder.take_answers(self.mailbox);
    }

    /// Records the opening that waits.
    fn record_opening(&mut self)
        ensures { self.new.peers ≡ self.old.peers }
    {
        let Some(number) = self.waiting.take() else {
            return;
        };
        let connection = self.next;
        self.next = connection.saturating_add(1);
        self.recorder.opened(connection);
        if self.pairs.push(Pair { number, connection }).is_err() {
            self.recorder.fail_without_memory();
        }
    }

    /// Records all that is not recorded yet, and returns whether all is.
    pub fn record_rest(&mut self) -> bool
        ensures { self.new.peers ≡ self.old.peers }
    {
        self.record_answers();
        self.record_opening();
        !self.recorder.has_failed()
    }

    /// The number of a connection in the share.
    fn connection_of(&self, number: u64) -> Option<u64> {
        let pair = self.pairs.iter().find(|pair| pair.number == number)?;
        Some(pair.connection)
    }

    /// Records a piece.
    fn record_piece(&mut self, number: u64)
        ensures { self.new.peers ≡ self.old.peers }
    {
        let moment = self.clock.moment();
        self.moment.set(moment);
        if let Some(connection) = self.connection_of(number) {
            self.recorder.piece(connection, moment, self.peers.piece());
        }
    }

    /// Records an end, once.
    fn record_end(&mut self, number: u64)
        ensures { self.new.peers ≡ self.old.peers }
    {
        let place = self.pairs.iter().position(|pair| pair.number == number);
        if let Some(place) = place {
            let pair = self.pairs.swap_remove(place);
            self.recorder.ended(pair.connection);
        }
    }

    /// Records what is left, has it settled, and gives the recorder and the peers.
    pub fn finish(mut self) -> (Recorder<S>, P) {
        let _ = self.record_rest();
        let _ = self.recorder.settle();
        (self.recorder, self.peers)
    }
}

impl<P: Peers + Drop, C: Clock + Drop, S: Store + Drop> Peers for RecordedPeers<'_, P, C, S> {
    ghost use Rattle.std.specs.Prelude.{[], false};

    ghost calls = { λ p. [] };

    ghost keeps = { λ p. false };

    ghost opened = { λ p. P.opened p.peers };

    ghost piece_of = { λ p. P.piece_of p.peers };

    ghost failed = { λ p. P.failed p.peers };

    fn next(&mut self) -> PeerEvent {
        if !self.record_rest() {
            return PeerEvent::Idle;
        }
        let event = self.peers.next();
        match event {
            PeerEvent::Opened(number) => {
                self.waiting = Some(number);
                return event;
            }
            PeerEvent::Bytes(number) => self.record_piece(number),
            PeerEvent::Ended(number) => self.record_end(number),
            PeerEvent::Idle => {}
        }
        if self.recorder.has_failed() {
            return PeerEvent::Idle;
        }
        event
    }

    fn piece(&self) -> &[u8] {
        self.peers.piece()
    }

    fn send(&mut self, number: u64, bytes: &[u8]) -> Result<usize, SendFault> {
        self.record_answers();
        if !self.recorder.settle() {
            return Ok(0);
        }
        self.peers.send(number, bytes)
    }

    fn close(&mut self, number: u64) {
        self.record_answers();
        if self.waiting == Some(number) {
            self.waiting = None;
        }
        self.record_end(number);
        self.peers.close(number)
    }

    fn ran_out(&mut self, number: u64, done: usize) {
        self.record_answers();
        if let Some(connection) = self.connection_of(number) {
            self.recorder.stopped(connection, done);
        }
        self.peers.ran_out(number, done)
    }

    fn wants_usage(&self) -> bool {
        self.peers.wants_usage()
    }

    fn note_usage(&mut self, usage: Usage) {
        self.peers.note_usage(usage)
    }

    fn failures(&self) -> u64 {
        self.peers.failures()
    }
}

impl<P: Peers + Stopping + Drop, C: Clock + Drop, S: Store + Drop> Stopping
    for RecordedPeers<'_, P, C, S> {
    ghost use Rattle.std.specs.Prelude.{◌||◌, is_some};

    ghost stopped = { λ p. is_some p.recorder.failure || P.stopped p.peers };

    fn is_stopped(&self) -> bool {
        self.recorder.has_failed() || self.peers.is_stopped()
    }
}

/// The clock of a share that is served to [`RecordedPeers`]: it gives the moment that was recorded last.
#[derive(Drop)]
pub struct RecordedClock<'a> {
    moment: &'a Cell<u64>,
}

impl<'a> RecordedClock<'a> {
    /// The clock of a moment that peers set.
    pub fn new(moment: &'a Cell<u64>) -> Self {
        RecordedClock { moment }
    }
}

impl Clock for RecordedClock<'_> {
    ghost use Rattle.std.specs.Prelude.{[], false};

    ghost moments = { λ clock. [] };

    ghost keeps = { λ clock. false };

    fn moment(&mut self) -> u64 {
        self.moment.get()
    }
}
