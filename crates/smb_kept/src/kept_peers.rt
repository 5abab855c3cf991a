//! Peers of a share whose changes are kept.

use smb_journal_file::{SharedSync, is_full};
use smb_peers::{PeerEvent, Peers, SendFault, Stopping, Usage};
use smb_reason::Reason;
use std::thread::sleep;
use std::time::Duration;

/// How many milliseconds pass between two trials to keep what changed, where the disk has no room.
const MILLISECONDS_BETWEEN_TRIALS: u64 = 100;

/// Other peers, which are sent nothing while what changed in the share is not kept; nor is a piece of them taken then.
/// Where the disk has no room, keeping is tried again; where another reason forbids it, they ask to stop. While a wait
/// until what changed lasts is put off, pieces are taken, and nothing is sent.
#[derive(Drop)]
pub struct KeptPeers<'a, P: Peers + Drop> {
    rt: &'a HostRuntime,
    peers: P,
    sync: &'a SharedSync,
    // Whether a send was put off, and nothing was sent since.
    is_held: bool,
    // Whether what changed waits for room on the disk.
    waits: bool,
    // Why what changed could not be kept.
    failure: Option<Reason>,
}

impl<'a, P: Peers + Drop> KeptPeers<'a, P> {
    /// Peers of a share of which all is kept so far.
    pub fn new(rt: &'a HostRuntime, peers: P, sync: &'a SharedSync) -> Self {
        KeptPeers {
            rt,
            peers,
            sync,
            is_held: false,
            waits: false,
            failure: None,
        }
    }

    /// The peers, and why what changed could not be kept; None where it is, or waits for room.
    pub fn finish(self) -> (P, Option<Reason>) {
        (self.peers, self.failure.or(self.sync.failure()))
    }
}

impl<P: Peers + Drop> Peers for KeptPeers<'_, P> {
    ghost use Rattle.std.specs.Prelude.{[], false};

    ghost calls = { λ p. [] };

    ghost keeps = { λ p. false };

    ghost opened = { λ p. P.opened p.peers };

    ghost piece_of = { λ p. P.piece_of p.peers };

    ghost failed = { λ p. P.failed p.peers };

    fn next(&mut self) -> PeerEvent {
        self.failure = self.failure.or(self.sync.failure());
        if self.failure.is_some() {
            return PeerEvent::Idle;
        }
        if self.is_held && !self.sync.is_put_off() {
            self.is_held = false;
            return PeerEvent::Idle;
        }
        if self.waits {
            sleep(self.rt, Duration::from_millis(MILLISECONDS_BETWEEN_TRIALS));
            return PeerEvent::Idle;
        }
        self.peers.next()
    }

    fn piece(&self) -> &[u8] {
        self.peers.piece()
    }

    fn send(&mut self, number: u64, bytes: &[u8]) -> Result<usize, SendFault> {
        if self.waits || self.failure.is_some() {
            return Ok(0);
        }
        self.is_held = self.sync.is_put_off();
        if self.is_held {
            return Ok(0);
        }
        self.peers.send(number, bytes)
    }

    fn close(&mut self, number: u64) {
        self.peers.close(number)
    }

    fn ran_out(&mut self, number: u64, done: usize) {
        self.peers.ran_out(number, done)
    }

    fn wants_usage(&self) -> bool {
        self.peers.wants_usage()
    }

    fn note_usage(&mut self, usage: Usage) {
        self.peers.note_usage(usage)
    }

    fn note_kept(&mut self, kept: Result<(), Reason>) {
        self.waits = false;
        match kept {
            Err(reason) if is_full(reason.0) => self.waits = true,
            Err(reason) if self.failure.is_none() => self.failure = Some(reason),
            _ => {}
        }
    }

    fn failures(&self) -> u64 {
        self.peers.failures()
    }
}

impl<P: Peers + Stopping + Drop> Stopping for KeptPeers<'_, P> {
    ghost use Rattle.std.specs.Prelude.{◌||◌, is_some};

    ghost stopped = { λ p. is_some p.failure || P.stopped p.peers };

    fn is_stopped(&self) -> bool {
        self.failure.is_some() || self.peers.is_stopped()
    }
}
