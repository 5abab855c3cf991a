//! Peers of a share that is served, of which all is logged.

ghost use Rattle.std.specs.Prelude.{◌≡◌};

use crate::ending::Ending;
use crate::kept_back::KeptBack;
use crate::kept_out::{KeptOut, KeptOutLines};
use crate::log::Log;
use crate::observer::borrowed;
use smb_peers::{Clock, PeerEvent, Peers, SendFault, Stopping, Usage};
use std::alloc::{AllocError, Global};
use std::cell::{RefCell, RefMut};
use std::collections::BTreeMap;
use std::io::Write;

/// A minute, in units of 100 ns.
const MINUTE: u64 = 600_000_000;

/// What is known of the connections of peers, by the numbers under which the peers opened them.
pub trait ConnectionFacts {
    /// Adds the address of a connection's peer, or nothing where it is not known.
    fn put_address(&self, number: u64, text: &mut String) -> Result<(), AllocError>;

    /// Why a connection has ended that the share did not end.
    fn ending(&self, number: u64) -> Ending;

    /// Why a connection was closed as it was accepted, where one was since this was asked last: its address is added.
    fn take_kept_out(&self, address: &mut String) -> Option<KeptOut>;

    /// Why nothing is read for a time of an address's connections that have no session, where that began since this was
    /// asked last: the address is added, with the port of the connection by which it began. By itself never.
    fn take_kept_back(&self, _address: &mut String) -> Option<KeptBack> {
        None
    }
}

/// An opening of which the share has not decided, and when it came.
#[derive(Clone, Copy)]
struct Opening {
    number: u64,
    moment: u64,
}

/// Other peers, of which all is logged where there is a log: each event as it comes, and how many bytes are taken. A connection has
/// the number in the log that it has in the share, which an opening gets with the next event: it is not refused then.
#[derive(Drop)]
pub struct LoggedPeers<'a, P: Peers + Drop, F: ConnectionFacts, C: Clock + Drop, W: Write + Drop> {
    peers: P,
    facts: &'a F,
    clock: C,
    log: Option<&'a RefCell<Log<W>>>,
    /// Whether they ask to stop where the log can't be written, and whether they do.
    stops: bool,
    asks_to_stop: bool,
    alloc: Global,
    /// When the last line of a minute was written, or the first event came; and whether a minute has passed since then.
    minute: Option<u64>,
    is_due: bool,
    /// The numbers in the share, by those of the peers.
    connections: BTreeMap<u64, u64>,
    waiting: Option<Opening>,
    next: u64,
    kept_out: KeptOutLines,
}

impl<'a, P: Peers + Drop, F: ConnectionFacts, C: Clock + Drop, W: Write + Drop> LoggedPeers<
    'a,
    P,
    F,
    C,
    W,
> {
    /// Peers of a share whose next connection has the number `next`. The clock has the moments of the events. With `stops` they ask to
    /// stop where the log can't be written.
    pub fn new(
        alloc: Global,
        peers: P,
        facts: &'a F,
        clock: C,
        log: Option<&'a RefCell<Log<W>>>,
        stops: bool,
        next: u64,
    ) -> Self {
        LoggedPeers {
            peers,
            facts,
            clock,
            log,
            stops,
            asks_to_stop: false,
            alloc,
            minute: None,
            is_due: false,
            connections: BTreeMap::new(alloc),
            waiting: None,
            next,
            kept_out: KeptOutLines::none(),
        }
    }

    /// The address of a number's peer; empty where it is not known.
    fn address(&self, number: u64) -> String {
        let mut address = String::new(self.alloc);
        if self.facts.put_address(number, &mut address).is_err() {
            address.clear();
        }
        address
    }

    /// The log, and the number in it of a connection that is open.
    fn of_open(&self, number: u64) -> Option<(RefMut<'a, Log<W>>, u64)> {
        let connection = self.connections.get(&number)?;
        Some((borrowed(self.log)?, *connection))
    }

    /// Logs the opening that waits.
    fn log_opening(&mut self)
        ensures { self.new.peers ≡ self.old.peers }
    {
        let Some(Opening { number, moment }) = self.waiting.take() else {
            return;
        };
        let connection = self.next;
        self.next = connection.saturating_add(1);
        let is_noted = self.connections.insert(number, connection).is_ok();
        let address = self.address(number);
        if let Some(mut log) = borrowed(self.log) {
            if !is_noted {
                log.lose();
            }
            log.note_moment(moment);
            log.opened(connection, address.as_str());
        }
    }

    /// Logs an end, once.
    fn log_end(&mut self, number: u64, why: Ending)
        ensures { self.new.peers ≡ self.old.peers }
    {
        if let Some((mut log, connection)) = self.of_open(number) {
            log.end(connection, why);
        }
        let _ = self.connections.remove(&number);
    }

    /// Logs a connection that was closed at this moment as it was accepted, where one was.
    fn log_kept_out(&mut self, moment: u64)
        ensures { self.new.peers ≡ self.old.peers }
    {
        let mut address = String::new(self.alloc);
        if let Some(why) = self.facts.take_kept_out(&mut address)
            && let Some(before) = self.kept_out.next(moment)
            && let Some(mut log) = borrowed(self.log)
        {
            log.kept_out(address.as_str(), why, before);
        }
    }

    /// Logs that an address is kept back, where that began.
    fn log_kept_back(&mut self)
        ensures { self.new.peers ≡ self.old.peers }
    {
        let mut address = String::new(self.alloc);
        if let Some(why) = self.facts.take_kept_back(&mut address)
            && let Some(mut log) = borrowed(self.log)
        {
            log.kept_back(address.as_str(), why);
        }
    }

    /// Logs an event at this moment, an opening once the share has taken it; and notes whether a line of a minute is due.
    fn log_event(&mut self, event: PeerEvent, moment: u64)
        ensures { self.new.peers ≡ self.old.peers }
    {
        let first = *self.minute.get_or_insert(moment);
        self.is_due = moment.saturating_sub(first) >= MINUTE;
        if let Some(mut log) = borrowed(self.log) {
            log.note_moment(moment);
        }
        self.log_kept_back();
        self.log_kept_out(moment);
        match event {
            PeerEvent::Opened(number) => self.waiting = Some(Opening { number, moment }),
            PeerEvent::Bytes(number) => {
                if let Some((mut log, connection)) = self.of_open(number) {
                    log.came(connection, self.peers.piece().len());
                }
            }
            PeerEvent::Ended(number) => {
                let why = self.facts.ending(number);
                self.log_end(number, why);
            }
            PeerEvent::Idle => {}
        }
    }

    /// Logs an opening that the share refuses.
    fn log_refusal(&mut self, number: u64)
        ensures { self.new.peers ≡ self.old.peers }
    {
        self.waiting = None;
        let address = self.address(number);
        if let Some(mut log) = borrowed(self.log) {
            log.refused(address.as_str());
        }
    }

    /// Writes the line of a minute, at this moment.
    fn log_minute(&mut self, usage: Usage)
        ensures { self.new.peers ≡ self.old.peers }
    {
        let moment = self.clock.moment();
        self.is_due = false;
        self.minute = Some(moment);
        if let Some(mut log) = borrowed(self.log) {
            log.note_moment(moment);
            log.minute(usage, true);
        }
    }

    /// Whether a write of the log failed.
    pub fn has_failed(&self) -> bool {
        match borrowed(self.log) {
            Some(log) => log.has_failed(),
            None => false,
        }
    }

    /// Logs what happens to the server itself, in a line without TAB and line feed: that it is `started`, or a failure.
    pub fn note(&mut self, event: &str)
        ensures { self.new.peers ≡ self.old.peers }
    {
        if let Some(mut log) = borrowed(self.log) {
            log.note_moment(self.clock.moment());
            log.note(event);
        }
    }

    /// Writes what is left, a last line of a minute with what the share holds, and that the server has stopped. False where the share
    /// was served no more since the log could not be written.
    pub fn finish(mut self, usage: Usage) -> bool {
        self.log_opening();
        if self.log.is_some() {
            self.log_minute(usage);
            self.note("stopped");
        }
        !(self.stops && self.has_failed())
    }
}

impl<P: Peers + Drop, F: ConnectionFacts, C: Clock + Drop, W: Write + Drop> Peers
    for LoggedPeers<'_, P, F, C, W> {
    ghost use Rattle.std.specs.Prelude.{[], false};

    ghost calls = { λ p. [] };

    ghost keeps = { λ p. false };

    ghost opened = { λ p. P.opened p.peers };

    ghost piece_of = { λ p. P.piece_of p.peers };

    ghost failed = { λ p. P.failed p.peers };

    fn next(&mut self) -> PeerEvent {
        self.log_opening();
        self.asks_to_stop = self.stops && self.has_failed();
        let event = self.peers.next();
        if self.log.is_some() {
            let moment = self.clock.moment();
            self.log_event(event, moment);
        }
        event
    }

    fn piece(&self) -> &[u8] {
        self.peers.piece()
    }

    fn send(&mut self, number: u64, bytes: &[u8]) -> Result<usize, SendFault> {
        let sent = self.peers.send(number, bytes);
        if let Some((mut log, connection)) = self.of_open(number) {
            match &sent {
                Ok(count) => log.sent(*count),
                Err(_) => log.note_cause(connection, Ending::SendFailed),
            }
        }
        sent
    }

    fn close(&mut self, number: u64) {
        if self.waiting.is_some_and(|opening| opening.number == number) {
            self.log_refusal(number);
        } else {
            self.log_end(number, Ending::Owed);
        }
        self.peers.close(number)
    }

    fn ran_out(&mut self, number: u64, done: usize) {
        if let Some((mut log, connection)) = self.of_open(number) {
            log.ran_out(connection);
        }
        self.peers.ran_out(number, done)
    }

    fn wants_usage(&self) -> bool {
        self.is_due || self.peers.wants_usage()
    }

    fn note_usage(&mut self, usage: Usage) {
        if self.is_due {
            self.log_minute(usage);
        }
        self.peers.note_usage(usage)
    }

    fn failures(&self) -> u64 {
        self.peers.failures()
    }
}

impl<P: Peers + Drop, F: ConnectionFacts, C: Clock + Drop, W: Write + Drop> Stopping
    for LoggedPeers<'_, P, F, C, W> {
    ghost use Rattle.std.specs.Prelude.{Bool};

    ghost stopped = { λ p. p.asks_to_stop };

    fn is_stopped(&self) -> bool {
        self.asks_to_stop
    }
}
