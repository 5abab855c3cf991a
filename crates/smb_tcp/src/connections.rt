//! The connections of a listener.

ghost use Rattle.std.specs.Prelude.{◌≡◌, ◌<◌, ◌≤◌, true, length, IfSome, IfOk, vec_len};

use super::connection::{Connection, SilenceLimits};
use super::door::Doors;
use super::login_delay::key_of;
use super::piece::{PIECE_SIZE, Piece};
use mio::Events;
use std::alloc::{AllocError, Global};
use std::io;
use std::io::{ErrorKind, Write};
use std::net::IpAddr;
use std::time::Duration;

/// What came of a read.
pub(crate) enum Reading {
    /// Bytes: they are in the piece, or were kept back before.
    Bytes,
    /// Nothing for now.
    Nothing,
    /// The peer's end.
    Ended,
    /// A failure, at which the connection has ended.
    Failed,
}

/// Connections in the order of their numbers, with what is asked of all of them at each turn, which is answered without a look at
/// each. All room is made first.
#[derive(Drop)]
pub(crate) struct Connections {
    list: Vec<Connection>,
    /// How many there are at most.
    pub(crate) most: usize,
    // The numbers of those that may be read, in rising order.
    ready: Vec<u64>,
    // How many go on: no `Ended` was given for them.
    going_on: usize,
    limits: SilenceLimits,
    // No limit of silence passes before this moment, for any of them.
    quiet_until: Duration,
    // No connection that is kept back may be read before this moment.
    kept_until: Duration,
    // How many bytes all are owed, and how many they may be.
    owed: usize,
    most_owed: usize,
    ghost few: { vec_len list ≤ most },
}

impl Connections {
    /// None, with room for so many.
    pub(crate) fn with_room(alloc: Global, most: usize) -> Result<Self, AllocError>
        ensures { IfOk result (λ connections. connections.most ≡ most) }
    {
        Ok(Connections {
            list: Vec::with_capacity(alloc, most)?,
            most,
            ready: Vec::with_capacity(alloc, most)?,
            going_on: 0,
            limits: SilenceLimits::none(),
            quiet_until: Duration::ZERO,
            kept_until: Duration::MAX,
            owed: 0,
            most_owed: usize::MAX,
        })
    }

    /// Sets how long one may neither say nor take anything.
    pub(crate) fn limit_idle(&mut self, limit: Duration) {
        self.limits = self.limits.with_idle(limit);
        self.quiet_until = Duration::ZERO;
    }

    /// Sets how long one may stay without an answer.
    pub(crate) fn limit_unanswered(&mut self, limit: Duration) {
        self.limits = self.limits.with_unanswered(limit);
        self.quiet_until = Duration::ZERO;
    }

    /// Sets how many bytes all may be owed together.
    pub(crate) fn limit_owed(&mut self, limit: usize) {
        self.most_owed = limit;
    }

    /// Whether there is room for one more.
    pub(crate) fn has_room(&self) -> bool
        ensures { result ≡ true → vec_len self.now.list < self.now.most }
    {
        self.list.len() < self.most
    }

    /// Whether as many go on as there may be beside a newcomer.
    pub(crate) fn is_full(&self) -> bool {
        self.going_on.saturating_add(1) >= self.most
    }

    /// The place of the connection of a number.
    pub(crate) fn place_of(&self, number: u64) -> Option<usize>
        ensures { IfSome result (λ place. place < vec_len self.now.list) }
    {
        self.list
            .binary_search_by_key(&number, |connection| connection.number)
            .ok()
    }

    /// Whether one may be read.
    pub(crate) fn has_ready(&self) -> bool {
        !self.ready.is_empty()
    }

    /// The place of the first one above a number that may be read.
    pub(crate) fn ready_above(&self, number: u64) -> Option<usize>
        ensures { IfSome result (λ place. place < vec_len self.now.list) }
    {
        let first = self.ready.partition_point(|other| *other <= number);
        self.place_of(*self.ready.get(first)?)
    }

    /// Notes whether a connection of a number may be read. One behind all that may be read, or the last of them, is found without a
    /// search: one that is served alone is the last.
    fn note_ready(&mut self, number: u64, may_be_read: bool)
        ensures list { vec_len self.new.list ≡ vec_len self.old.list }
    {
        let last = self.ready.last().copied();
        if last == Some(number) {
            if !may_be_read {
                let _ = self.ready.pop();
            }
            return;
        }
        if last.is_none_or(|last| last < number) {
            if may_be_read {
                let _ = self.ready.push(number);
            }
            return;
        }
        match self.ready.binary_search(&number) {
            Ok(place) => {
                if !may_be_read {
                    let _ = self.ready.remove(place);
                }
            }
            Err(place) => {
                if may_be_read {
                    let _ = self.ready.insert(place, number);
                }
            }
        }
    }

    /// Notes whether the one at a place may be read, behind a change of it.
    pub(crate) fn note(&mut self, place: usize)
        requires { place < vec_len self.old.list }
        ensures { vec_len self.new.list ≡ vec_len self.old.list }
    {
        let connection = &self.list[place];
        let number = connection.number;
        let may_be_read = connection.may_be_read();
        self.note_ready(number, may_be_read);
    }

    /// The place of the first one for which a limit of silence has passed. All are looked at only where one may have passed for some.
    pub(crate) fn first_silent(&mut self, now: Duration) -> Option<usize>
        ensures { IfSome result (λ place. place < vec_len self.new.list) }
    {
        if now < self.quiet_until {
            return None;
        }
        let limits = self.limits;
        let found = self
            .list
            .iter()
            .position(|connection| connection.silent_at(limits) <= now);
        if found.is_none() {
            self.quiet_until = self.first_silence();
        }
        found
    }

    /// The first moment at which a limit of silence passes for one of them, where none changes.
    fn first_silence(&self) -> Duration {
        let mut first = Duration::MAX;
        for connection in self.list.iter() {
            first = first.min(connection.silent_at(self.limits));
        }
        first
    }

    /// Of those that were never answered, the place of the one that is silent longest: it may end for a newcomer.
    pub(crate) fn longest_unanswered(&self) -> Option<usize>
        ensures { IfSome result (λ place. place < vec_len self.now.list) }
    {
        let mut found = None;
        let mut since = Duration::MAX;
        for (place, connection) in self.list.iter().enumerate() {
            if connection.may_make_room() && connection.heard < since {
                since = connection.heard;
                found = Some(place);
            }
        }
        found
    }

    /// How many bytes all are owed.
    pub(crate) fn owed(&self) -> usize {
        self.owed
    }

    /// Where all are owed more bytes than they may be, the place of the one that is owed most. All are looked at only then.
    pub(crate) fn owed_most(&self) -> Option<usize>
        ensures { IfSome result (λ place. place < vec_len self.now.list) }
    {
        if self.owed <= self.most_owed {
            return None;
        }
        let mut found = None;
        let mut most = 0;
        for (place, connection) in self.list.iter().enumerate() {
            if connection.owed > most && !connection.ended {
                most = connection.owed;
                found = Some(place);
            }
        }
        found
    }

    /// Notes how many bytes the one at a place is owed.
    fn note_owed(&mut self, place: usize, owed: usize)
        requires { place < vec_len self.old.list }
        ensures { vec_len self.new.list ≡ vec_len self.old.list }
    {
        let connection = &mut self.list[place];
        self.owed = self
            .owed
            .saturating_sub(connection.owed)
            .saturating_add(owed);
        connection.owed = owed;
    }

    /// Notes what the system says of each connection, and of each listener.
    pub(crate) fn mark_all(&mut self, events: &Events, doors: &mut Doors) {
        for event in events {
            let token = event.token();
            if let Some(place) = self.place_of(token.0 as u64) {
                self.list[place].mark(event);
                self.note(place);
            } else {
                doors.mark(token);
            }
        }
    }

    /// Takes in a new connection, and tells whether there was memory for it.
    pub(crate) fn add(&mut self, connection: Connection) -> bool
        requires { vec_len self.old.list < self.old.most }
    {
        let silent_at = connection.silent_at(self.limits);
        let kept_until = connection.kept_until.unwrap_or(Duration::MAX);
        if self.list.push(connection).is_err() {
            return false;
        }
        self.going_on = self.going_on.saturating_add(1);
        self.quiet_until = self.quiet_until.min(silent_at);
        self.kept_until = self.kept_until.min(kept_until);
        true
    }

    /// Notes that `Ended` is given for the one at a place, and tells its number.
    pub(crate) fn end(&mut self, place: usize) -> u64
        requires { place < vec_len self.old.list }
        ensures { vec_len self.new.list ≡ vec_len self.old.list }
    {
        let connection = &mut self.list[place];
        let number = connection.number;
        if !connection.ended {
            connection.ended = true;
            self.going_on = self.going_on.saturating_sub(1);
        }
        self.note_ready(number, false);
        number
    }

    /// The number of the one at a place.
    pub(crate) fn number_at(&self, place: usize) -> u64
        requires { place < vec_len self.now.list }
    {
        self.list[place].number
    }

    /// Notes whether a turn of the one at a place took long.
    pub(crate) fn note_turn(&mut self, place: usize, took_long: bool)
        requires { place < vec_len self.old.list }
    {
        self.list[place].lending.note_turn(took_long);
    }

    /// Makes the next piece that the one at a place is lent: of the bytes that are kept back, where there are some, else of those
    /// that were read. Tells whether the turn is to be timed.
    pub(crate) fn lend(&mut self, place: usize, piece: &mut Piece) -> bool
        requires { place < vec_len self.old.list }
    {
        let lending = &mut self.list[place].lending;
        let is_timed = if lending.has_more() {
            lending.lend_next(piece)
        } else {
            lending.keep_back(piece)
        };
        self.note(place);
        is_timed
    }

    /// Reads from the one at a place, where no bytes of it are kept back.
    pub(crate) fn read(&mut self, place: usize, piece: &mut Piece, now: Duration) -> Reading
        requires { place < vec_len self.old.list }
        ensures { vec_len self.new.list ≡ vec_len self.old.list }
    {
        let connection = &mut self.list[place];
        if connection.lending.has_more() {
            return Reading::Bytes;
        }
        match piece.read(&mut connection.stream) {
            Ok(0) => {
                self.end(place);
                Reading::Ended
            }
            Ok(count) => {
                connection.heard = now;
                if count < PIECE_SIZE && !connection.closing {
                    connection.readable = false;
                }
                Reading::Bytes
            }
            Err(error) if error.kind() == ErrorKind::WouldBlock => {
                connection.readable = false;
                self.note(place);
                Reading::Nothing
            }
            Err(error) if error.kind() == ErrorKind::Interrupted => Reading::Nothing,
            Err(_) => {
                self.end(place);
                Reading::Failed
            }
        }
    }

    /// Sends to the one at a place, and tells how many of the bytes were taken. Where not all were, it is not read until all are.
    pub(crate) fn send(&mut self, place: usize, bytes: &[u8], now: Duration) -> io::Result<usize>
        requires { place < vec_len self.old.list }
        ensures { IfOk result (λ count. count ≤ length bytes.now) }
    {
        let connection = &mut self.list[place];
        match connection.stream.write(bytes) {
            Ok(count) => {
                connection.blocked = count < bytes.len();
                connection.take(now, count);
                self.note_owed(place, bytes.len().saturating_sub(count));
                self.note(place);
                Ok(count)
            }
            Err(error) if error.kind() == ErrorKind::WouldBlock => {
                connection.blocked = true;
                self.note_owed(place, bytes.len());
                self.note(place);
                Ok(0)
            }
            Err(error) if error.kind() == ErrorKind::Interrupted => Ok(0),
            Err(error) => Err(error),
        }
    }

    /// How long the first of those that are kept back still waits, at a moment.
    pub(crate) fn shortest_wait(&self, now: Duration) -> Duration {
        self.kept_until.saturating_sub(now)
    }

    /// Has those that are kept back read again whose time has come. All are looked at only where it may have come for
    /// some.
    pub(crate) fn release(&mut self, now: Duration) {
        if now < self.kept_until {
            return;
        }
        self.kept_until = Duration::MAX;
        for place in 0..self.list.len() {
            let until = self.list[place].release(now);
            self.kept_until = self.kept_until.min(until);
            self.note(place);
        }
    }

    /// Keeps back, up to a moment, those of an address that have no session.
    pub(crate) fn keep_back(&mut self, key: u128, until: Duration) {
        self.kept_until = self.kept_until.min(until);
        for place in 0..self.list.len() {
            let connection = &mut self.list[place];
            if !connection.has_session && key_of(connection.address) == key {
                connection.kept_until = Some(until);
                self.note(place);
            }
        }
    }

    /// Notes whether the last login of the one at a place let its client in, and returns its address.
    pub(crate) fn note_login(&mut self, place: usize, is_in: bool) -> IpAddr
        requires { place < vec_len self.old.list }
    {
        let connection = &mut self.list[place];
        connection.has_session = is_in;
        connection.address
    }

    /// Drops the one of a number, and tells its peer's address.
    pub(crate) fn remove(&mut self, number: u64) -> Option<IpAddr> {
        let place = self.place_of(number)?;
        let _ = self.end(place);
        self.note_owed(place, 0);
        let connection = self.list.remove(place);
        Some(connection.address)
    }
}
