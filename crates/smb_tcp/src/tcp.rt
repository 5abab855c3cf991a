//! The peers of TCP listeners.

ghost use Rattle.std.specs.Prelude.{◌≡◌, ◌<◌, ◌≤◌, ◌+◌, true, IfSome, IfNone, vec_len};
ghost use Rattle.smb_peers.specs.Peers.{OpensOnce};
ghost use Rattle.smb_peers.specs.declared.peers.PeerEvent.TheVariants.{Opened};
ghost use Rattle.smb_tcp.specs.Numbers.{numbers_to};

use super::admission::Admission;
use super::connection::Connection;
use super::connections::{Connections, Reading};
use super::door::{Doors, LAST_NUMBER, MOST_LISTENERS, Newcomer, Waiting};
use super::facts::{GivenUp, PeerFacts};
use super::logins::HeardLogins;
use super::piece::Piece;
use super::streams::{DEFAULT_CONNECTIONS, streams_for};
use mio::{Events, Interest, Poll, Token};
use smb_peers::{PeerEvent, Peers, SendFault};
use std::alloc::Global;
use std::net::{IpAddr, Net};
use std::time::{Clock, Duration};
use std::{io, net};

/// A turn that takes so long is dear: until one of the same peer does not, it is lent one frame at a time.
const DEAR_TURN_MILLISECONDS: u64 = 4;

/// The streams of one listener or several, numbered from 1 as they are accepted, and read in turn: at most those of the
/// connections that they are made for, and a newcomer's. All their room is made first, but for the counts of
/// `with_address_limit`. All are looked at only where a limit of silence may have passed, where a newcomer finds all
/// places taken, and where an address begins or ends to be kept back.
///
/// A turn is what one read of a peer brings, at most 266,240 bytes, and at most 560 requests behind those of its first
/// frame. Where they are more, where a listing or a request of several credits is among them, or where the peer's last
/// turn took 4 ms, it is one frame.
///
/// No call waits for a peer. A stream of which a send took only a part is not read until one takes all. One that
/// neither says nor takes anything for as long as the idle limit has ended, as if by its peer; so has one that was
/// never answered after a limit of its own. Where as many streams are open as the listener is made for and another one
/// comes, that of those never answered which is silent longest has ended, and makes room for it.
#[derive(Drop)]
pub struct TcpPeers<'a, R: Net + Clock> {
    system: &'a R,
    pub(crate) alloc: Global,
    pub(crate) poll: Poll,
    events: Events,
    pub(crate) doors: Doors,
    pub(crate) admission: Admission,
    pub(crate) connections: Connections,
    opened: u64,
    // The number of the stream that was looked at last.
    turn: u64,
    piece: Piece,
    // Who was lent bytes last, and when.
    lent: Option<(u64, Duration)>,
    failures: u64,
    wait: Duration,
    // Since a start that is the system's own.
    time: Duration,
    // What is known of the peers, for others.
    pub(crate) facts: Option<&'a PeerFacts>,
    // The logins that are noted, where wrong passwords are slowed down.
    pub(crate) heard: Option<HeardLogins<'a>>,
}

impl<'a, R: Net + Clock> TcpPeers<'a, R> {
    /// The peers of a listener. They never wait: where nothing is to do, `next` is `Idle` at once. There is no limit of
    /// silence.
    pub fn new(system: &'a R, alloc: Global, listener: net::TcpListener) -> io::Result<Self> {
        TcpPeers::waiting(system, alloc, listener, Duration::ZERO)
    }

    /// The peers of a listener. Where nothing is to do, `next` waits for it, about so long at most.
    pub fn waiting(
        system: &'a R,
        alloc: Global,
        listener: net::TcpListener,
        wait: Duration,
    ) -> io::Result<Self> {
        TcpPeers::waiting_within(system, alloc, listener, wait, DEFAULT_CONNECTIONS)
    }

    /// The same, for a share that may have so many connections, 1 to 4,096: fewer count as 1, and more as 4,096.
    pub fn waiting_within(
        system: &'a R,
        alloc: Global,
        listener: net::TcpListener,
        wait: Duration,
        connections: usize,
    ) -> io::Result<Self> {
        let streams = streams_for(connections);
        let peers = TcpPeers {
            system,
            alloc,
            poll: Poll::new(system)?,
            events: Events::with_capacity(alloc, streams + MOST_LISTENERS)?,
            doors: Doors::with_room(alloc)?,
            admission: Admission::of_all(alloc),
            connections: Connections::with_room(alloc, streams)?,
            opened: 0,
            turn: 0,
            piece: Piece::new(alloc)?,
            lent: None,
            failures: 0,
            wait,
            time: system.monotonic()?,
            facts: None,
            heard: None,
        };
        peers.with_listener(listener)
    }

    /// Whether a stream and a number are free.
    fn has_room(&self) -> bool
        ensures room { result ≡ true → self.now.opened < 0xffff_ffff_ffff_fffe }
        ensures free { result ≡ true → vec_len self.now.connections.list < self.now.connections.most }
    {
        self.connections.has_room() && self.opened < LAST_NUMBER
    }

    /// The first connection after the turn that may be read.
    fn next_place(&self) -> Option<usize>
        ensures { IfSome result (λ place. place < vec_len self.now.connections.list) }
    {
        self.connections.ready_above(self.turn)
    }

    /// Whether another connection may be read in this round, behind the one that was looked at last.
    pub fn is_another_ready(&self) -> bool {
        self.next_place().is_some()
    }

    /// Ends the connection at a place, as if its peer had, and notes why.
    fn end(&mut self, place: usize, why: GivenUp) -> PeerEvent
        requires { place < vec_len self.old.connections.list }
        ensures opened { self.new.opened ≡ self.old.opened }
        ensures once { OpensOnce result (numbers_to self.old.opened) (numbers_to self.old.opened) }
    {
        let number = self.connections.end(place);
        if let Some(facts) = self.facts {
            facts.note_given_up(number, why);
        }
        PeerEvent::Ended(number)
    }

    /// Where all places are taken, that of the connection that makes room for another: of those that were never
    /// answered the one that is silent longest.
    fn place_to_clear(&self) -> Option<usize>
        ensures { IfSome result (λ place. place < vec_len self.now.connections.list) }
    {
        if !self.connections.is_full() {
            return None;
        }
        self.connections.longest_unanswered()
    }

    /// Asks the system what is ready, and waits where nothing is left to do without a wait. Where no connection behind
    /// the turn may be read, a new round begins.
    fn look(&mut self)
        ensures opened { self.new.opened ≡ self.old.opened }
    {
        let comes = match self.doors.waiting() {
            Waiting::Newcomer => true,
            Waiting::AtDoor(_) => self.has_room(),
            Waiting::Nobody => false,
        };
        let is_busy = comes || self.connections.has_ready();
        let wait = if is_busy {
            Duration::ZERO
        } else {
            self.wait.min(self.connections.shortest_wait(self.time))
        };
        if self.poll.poll(&mut self.events, Some(wait)).is_err() {
            self.failures = self.failures.saturating_add(1);
        }
        if let Ok(time) = self.system.monotonic() {
            self.time = time;
        }
        self.doors.try_again();
        self.connections.mark_all(&self.events, &mut self.doors);
        self.connections.release(self.time);
        if self.next_place().is_none() {
            self.turn = 0;
        }
    }

    /// Accepts a connection as the newcomer, where one waits at the listener of a place. One that is not let in is
    /// closed.
    fn accept(&mut self, place: usize)
        ensures opened { self.new.opened ≡ self.old.opened }
    {
        if !self.doors.accept(place) {
            self.failures = self.failures.saturating_add(1);
        }
        let Some(address) = self.doors.address() else {
            return;
        };
        if let Some(why) = self.admission.refusal(address.ip()) {
            drop(self.doors.take());
            if let Some(facts) = self.facts {
                facts.note_kept_out(address, why);
            }
        }
    }

    /// Takes in one connection as the newcomer, where one waits and there is room, and gives a newcomer the next
    /// number. Where all places are taken, one that was never answered ends for it.
    fn take_newcomer(&mut self) -> Option<PeerEvent>
        ensures none { IfNone result (self.new.opened ≡ self.old.opened) }
        ensures once { IfSome result (λ event. OpensOnce event (numbers_to self.old.opened) (numbers_to self.new.opened)) }
    {
        if let Waiting::AtDoor(place) = self.doors.waiting()
            && self.has_room()
        {
            self.accept(place);
        }
        let Waiting::Newcomer = self.doors.waiting() else {
            return None;
        };
        if let Some(place) = self.place_to_clear() {
            return Some(self.end(place, GivenUp::Silent));
        }
        if !self.has_room() {
            return None;
        }
        let newcomer = self.doors.take()?;
        let number = self.admit(newcomer)?;
        Some(PeerEvent::Opened(number))
    }

    /// Takes in a connection and counts it, and tells whether there was memory for it.
    fn keep(&mut self, connection: Connection) -> bool
        requires { vec_len self.old.connections.list < self.old.connections.most }
        ensures { self.new.opened ≡ self.old.opened }
    {
        let address = connection.address;
        if !self.admission.add(address) {
            return false;
        }
        let is_kept = self.connections.add(connection);
        if !is_kept {
            self.admission.remove(address);
        }
        is_kept
    }

    /// Gives a newcomer the next number.
    #[tactic(auto, using(crate::proofs::Numbering::counted))]
    fn admit(&mut self, newcomer: Newcomer) -> Option<u64>
        requires number { self.old.opened < 0xffff_ffff_ffff_fffe }
        requires free { vec_len self.old.connections.list < self.old.connections.most }
        ensures none { IfNone result (self.new.opened ≡ self.old.opened) }
        ensures some { IfSome result (λ number. (number ≡ self.old.opened + 1) × (self.new.opened ≡ self.old.opened + 1)) }
        ensures once { IfSome result (λ number. OpensOnce (Opened number) (numbers_to self.old.opened) (numbers_to self.new.opened)) }
    {
        let Newcomer {
            mut stream,
            address,
        } = newcomer;
        let number = self.opened + 1;
        if stream.set_nodelay(true).is_err() {
            self.failures = self.failures.saturating_add(1);
        }
        let both = Interest::READABLE | Interest::WRITABLE;
        let registry = self.poll.registry();
        if registry
            .register(&mut stream, Token(number as usize), both)
            .is_err()
        {
            self.failures = self.failures.saturating_add(1);
            return None;
        }
        let mut connection = Connection::new(self.alloc, number, stream, address.ip(), self.time);
        connection.kept_until = self.kept_until(address.ip());
        if !self.keep(connection) {
            self.failures = self.failures.saturating_add(1);
            return None;
        }
        if let Some(facts) = self.facts {
            facts.add(number, address);
        }
        self.opened = number;
        Some(number)
    }

    /// Reads from the connections in turn, up to the first that brings something. One whose turn was dear, or that asks
    /// for listings, is lent one frame at a time, and the others between two of them.
    fn read_on(&mut self) -> PeerEvent
        ensures { OpensOnce result (numbers_to self.old.opened) (numbers_to self.new.opened) }
    {
        for _ in 0..self.connections.most {
            let Some(place) = self.next_place() else {
                break;
            };
            if let Some(event) = self.read(place) {
                return event;
            }
        }
        PeerEvent::Idle
    }

    /// Until when a connection of an address is kept back that opens now; None where it is not.
    fn kept_until(&self, address: IpAddr) -> Option<Duration> {
        let left = self.heard.as_ref()?.left(address, self.time);
        if left.is_zero() {
            return None;
        }
        Some(self.time.saturating_add(left))
    }

    /// Takes how the logins ended that came in the piece that was lent last, and says whether an address is kept back
    /// by them.
    fn take_logins(&mut self) -> bool
        ensures opened { self.new.opened ≡ self.old.opened }
    {
        let Some(heard) = &mut self.heard else {
            return false;
        };
        let Some(ended) = heard.logins.take() else {
            return false;
        };
        let Some(place) = self.connections.place_of(self.turn) else {
            return false;
        };
        let now = self.system.monotonic().unwrap_or(self.time);
        let Some(kept_back) = heard.take(&mut self.connections, place, ended, now) else {
            return false;
        };
        if let Some(facts) = self.facts {
            facts.note_kept_back(self.turn, kept_back);
        }
        true
    }

    /// Notes whether the turn in which bytes were lent took long.
    fn note_turn(&mut self)
        ensures opened { self.new.opened ≡ self.old.opened }
    {
        let Some((number, since)) = self.lent.take() else {
            return;
        };
        let Ok(now) = self.system.monotonic() else {
            return;
        };
        if let Some(place) = self.connections.place_of(number) {
            let took_long = now.saturating_sub(since)
                >= Duration::from_millis(DEAR_TURN_MILLISECONDS);
            self.connections.note_turn(place, took_long);
        }
    }

    /// Lends the peer at a place its next piece: of the bytes that are kept back, where there are some, else of those that
    /// were read last. Where its turn is to be timed, it is noted when that began.
    fn lend(&mut self, place: usize) -> PeerEvent
        requires { place < vec_len self.old.connections.list }
        ensures opened { self.new.opened ≡ self.old.opened }
        ensures once { OpensOnce result (numbers_to self.old.opened) (numbers_to self.old.opened) }
    {
        let number = self.connections.number_at(place);
        let is_timed = self.connections.lend(place, &mut self.piece);
        if is_timed {
            if let Ok(now) = self.system.monotonic() {
                self.lent = Some((number, now));
            }
        }
        PeerEvent::Bytes(number)
    }

    /// Reads from the connection at a place, or lends what came of it before.
    fn read(&mut self, place: usize) -> Option<PeerEvent>
        requires { place < vec_len self.old.connections.list }
        ensures opened { self.new.opened ≡ self.old.opened }
        ensures once { IfSome result (λ event. OpensOnce event (numbers_to self.old.opened) (numbers_to self.old.opened)) }
    {
        let number = self.connections.number_at(place);
        self.turn = number;
        match self.connections.read(place, &mut self.piece, self.time) {
            Reading::Bytes => Some(self.lend(place)),
            Reading::Nothing => None,
            Reading::Ended => Some(PeerEvent::Ended(number)),
            Reading::Failed => {
                self.failures = self.failures.saturating_add(1);
                Some(PeerEvent::Ended(number))
            }
        }
    }
}

impl<R: Net + Clock> Peers for TcpPeers<'_, R> {
    ghost use Rattle.std.specs.Prelude.{take, [], false};
    ghost use Rattle.smb_tcp.specs.Numbers.{numbers_to};

    ghost calls = { λ peers. [] };

    ghost keeps = { λ peers. false };

    ghost opened = { λ peers. numbers_to peers.opened };

    ghost piece_of = { λ peers. take peers.piece.end peers.piece.buffer.items };

    ghost failed = { λ peers. peers.failures };

    fn next(&mut self) -> PeerEvent {
        self.note_turn();
        if let Some(facts) = self.facts {
            facts.note_owed(self.connections.owed() as u64);
        }
        if self.take_logins() {
            return PeerEvent::Idle;
        }
        if self.failures == u64::MAX {
            return PeerEvent::Idle;
        }
        if let Some(place) = self.connections.owed_most() {
            return self.end(place, GivenUp::OwedMost);
        }
        if self.next_place().is_none() {
            self.look();
            if let Some(event) = self.take_newcomer() {
                return event;
            }
            if let Some(place) = self.connections.first_silent(self.time) {
                return self.end(place, GivenUp::Silent);
            }
        }
        self.read_on()
    }

    fn piece(&self) -> &[u8] {
        self.piece.bytes()
    }

    fn send(&mut self, number: u64, bytes: &[u8]) -> Result<usize, SendFault> {
        let Some(place) = self.connections.place_of(number) else {
            return Ok(0);
        };
        if self.failures == u64::MAX {
            return Ok(0);
        }
        match self.connections.send(place, bytes, self.time) {
            Ok(count) => Ok(count),
            Err(_) => {
                self.failures += 1;
                Err(SendFault)
            }
        }
    }

    fn close(&mut self, number: u64) {
        let _ = self.take_logins();
        if let Some(address) = self.connections.remove(number) {
            self.admission.remove(address);
        }
        if let Some(facts) = self.facts {
            facts.remove(number);
        }
        self.doors.try_again();
    }

    fn failures(&self) -> u64 {
        self.failures
    }
}
