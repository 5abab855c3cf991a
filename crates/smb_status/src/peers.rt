//! Peers of a share that is served, of which its clients and its traffic are noted.

ghost use Rattle.std.specs.Prelude.{◌≡◌};

use crate::watch::{Client, Watch, borrowed};
use smb_log::ConnectionFacts;
use smb_peers::{Clock, PeerEvent, Peers, SendFault, Stopping, Usage};
use smb_reason::Reason;
use std::cell::RefCell;
use std::time;

/// An opening of which the share has not decided, and when it came.
#[derive(Clone, Copy)]
struct Opening {
    number: u64,
    moment: u64,
}

/// Other peers, of which is noted who they are, how many bytes come and are taken, and how long a turn takes, where
/// something is noted. A connection has the number that it has in the share, which an opening gets with the next
/// event: it is not refused then.
#[derive(Drop)]
pub struct WatchedPeers<'a, P: Peers + Drop, F: ConnectionFacts, C: Clock + Drop, R: time::Clock> {
    peers: P,
    facts: &'a F,
    clock: C,
    system: &'a R,
    watch: Option<&'a RefCell<Watch>>,
    waiting: Option<Opening>,
    next: u64,
}

impl<'a, P: Peers + Drop, F: ConnectionFacts, C: Clock + Drop, R: time::Clock> WatchedPeers<
    'a,
    P,
    F,
    C,
    R,
> {
    /// Peers of a share whose next connection has the number `next`. The clock has the moments at which clients come,
    /// the system the time that a turn takes.
    pub fn new(
        peers: P,
        facts: &'a F,
        clock: C,
        system: &'a R,
        watch: Option<&'a RefCell<Watch>>,
        next: u64,
    ) -> Self {
        WatchedPeers {
            peers,
            facts,
            clock,
            system,
            watch,
            waiting: None,
            next,
        }
    }

    /// The peers.
    pub fn finish(self) -> P {
        self.peers
    }

    /// Notes how long the turn took that ends now.
    fn end_turn(&self) {
        if let Some(mut watch) = borrowed(self.watch)
            && let Ok(now) = self.system.monotonic()
        {
            watch.end_turn(now);
        }
    }

    /// Notes that a turn begins, where something is noted.
    fn begin_turn(&self) {
        if let Some(mut watch) = borrowed(self.watch)
            && let Ok(now) = self.system.monotonic()
        {
            watch.begin_turn(now);
        }
    }

    /// Notes the client of the opening that waits.
    fn note_opening(&mut self)
        ensures { self.new.peers ≡ self.old.peers }
    {
        let Some(Opening { number, moment }) = self.waiting.take() else {
            return;
        };
        let connection = self.next;
        self.next = connection.saturating_add(1);
        if let Some(mut watch) = borrowed(self.watch) {
            let mut address = watch.text();
            if self.facts.put_address(number, &mut address).is_err() {
                address.clear();
            }
            watch.opened(
                number,
                Client {
                    connection,
                    address,
                    since: moment,
                },
            );
        }
    }

    /// Notes that a client is gone.
    fn note_end(&mut self, number: u64)
        ensures { self.new.peers ≡ self.old.peers }
    {
        if let Some(mut watch) = borrowed(self.watch) {
            watch.ended(number);
        }
    }

    /// Notes an event, an opening once the share has taken it.
    fn note_event(&mut self, event: PeerEvent)
        ensures { self.new.peers ≡ self.old.peers }
    {
        match event {
            PeerEvent::Opened(number) => {
                let moment = self.clock.moment();
                self.waiting = Some(Opening { number, moment });
            }
            PeerEvent::Bytes(_) => {
                if let Some(mut watch) = borrowed(self.watch) {
                    watch.counts.count_received(self.peers.piece().len());
                }
            }
            PeerEvent::Ended(number) => self.note_end(number),
            PeerEvent::Idle => {}
        }
    }
}

impl<P: Peers + Drop, F: ConnectionFacts, C: Clock + Drop, R: time::Clock> Peers
    for WatchedPeers<'_, P, F, C, R> {
    ghost use Rattle.std.specs.Prelude.{[], false};

    ghost calls = { λ p. [] };

    ghost keeps = { λ p. false };

    ghost opened = { λ p. P.opened p.peers };

    ghost piece_of = { λ p. P.piece_of p.peers };

    ghost failed = { λ p. P.failed p.peers };

    fn next(&mut self) -> PeerEvent {
        self.end_turn();
        self.note_opening();
        let event = self.peers.next();
        self.begin_turn();
        if self.watch.is_some() {
            self.note_event(event);
        }
        event
    }

    fn piece(&self) -> &[u8] {
        self.peers.piece()
    }

    fn send(&mut self, number: u64, bytes: &[u8]) -> Result<usize, SendFault> {
        let sent = self.peers.send(number, bytes);
        if let Ok(count) = &sent
            && let Some(mut watch) = borrowed(self.watch)
        {
            watch.counts.count_sent(*count);
        }
        sent
    }

    fn close(&mut self, number: u64) {
        if self.waiting.is_some_and(|opening| opening.number == number) {
            self.waiting = None;
        } else {
            self.note_end(number);
        }
        self.peers.close(number)
    }

    fn ran_out(&mut self, number: u64, done: usize) {
        self.peers.ran_out(number, done)
    }

    fn wants_usage(&self) -> bool {
        self.peers.wants_usage()
    }

    fn note_usage(&mut self, usage: Usage) {
        self.peers.note_usage(usage)
    }

    fn note_kept(&mut self, kept: Result<(), Reason>) {
        self.peers.note_kept(kept)
    }

    fn failures(&self) -> u64 {
        self.peers.failures()
    }
}

impl<P: Peers + Stopping + Drop, F: ConnectionFacts, C: Clock + Drop, R: time::Clock> Stopping
    for WatchedPeers<'_, P, F, C, R> {
    ghost stopped = { λ p. P.stopped p.peers };

    fn is_stopped(&self) -> bool {
        self.peers.is_stopped()
    }
}
