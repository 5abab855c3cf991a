//! A connection of a peer.

use super::lending::Lending;
use mio::event::Event;
use mio::net::TcpStream;
use std::alloc::Global;
use std::net::IpAddr;
use std::time::Duration;

/// When a limit passes that runs since then; at the end of all time where there is none.
fn passes_at(since: Duration, limit: Option<Duration>) -> Duration {
    match limit {
        Some(limit) => since.saturating_add(limit),
        None => Duration::MAX,
    }
}

/// A peer's stream, under its number.
#[derive(Drop)]
pub(crate) struct Connection {
    pub(crate) number: u64,
    pub(crate) stream: TcpStream,
    /// Its peer's address.
    pub(crate) address: IpAddr,
    /// It may have bytes: no read has found it empty since the system last spoke of it.
    pub(crate) readable: bool,
    /// What came of it, and is lent by and by.
    pub(crate) lending: Lending,
    /// The peer has ended its side, so that the end may stand behind the last bytes.
    pub(crate) closing: bool,
    /// `Ended` was given for it.
    pub(crate) ended: bool,
    /// The last send took only a part. It is not read until a send takes all: so a peer that never reads is owed little.
    pub(crate) blocked: bool,
    /// How many of the bytes that were sent to it last were not taken.
    pub(crate) owed: usize,
    /// When it was accepted, by the system's time.
    pub(crate) accepted: Duration,
    /// When bytes of it came last, or were taken last of what was sent to it.
    pub(crate) heard: Duration,
    /// Something that was sent to it was taken.
    pub(crate) answered: bool,
    /// Its last login let its client in.
    pub(crate) has_session: bool,
    /// When its bytes may be read again, while they are kept back behind wrong passwords.
    pub(crate) kept_until: Option<Duration>,
}

/// How long a peer may do nothing; None: for ever.
#[derive(Clone, Copy)]
pub(crate) struct SilenceLimits {
    // Since it last said or took something.
    idle: Option<Duration>,
    // Since it was accepted, where it was never answered.
    unanswered: Option<Duration>,
}

impl SilenceLimits {
    /// No limit.
    pub(crate) fn none() -> Self {
        SilenceLimits {
            idle: None,
            unanswered: None,
        }
    }

    /// These limits, with one for how long it may neither say nor take anything.
    pub(crate) fn with_idle(self, limit: Duration) -> Self {
        SilenceLimits {
            idle: Some(limit),
            unanswered: self.unanswered,
        }
    }

    /// These limits, with one for how long it may stay without an answer.
    pub(crate) fn with_unanswered(self, limit: Duration) -> Self {
        SilenceLimits {
            idle: self.idle,
            unanswered: Some(limit),
        }
    }
}

impl Connection {
    /// A connection that was accepted at this time.
    pub(crate) fn new(
        alloc: Global,
        number: u64,
        stream: TcpStream,
        address: IpAddr,
        now: Duration,
    ) -> Self {
        Connection {
            number,
            stream,
            address,
            readable: false,
            lending: Lending::new(alloc),
            closing: false,
            ended: false,
            blocked: false,
            owed: 0,
            accepted: now,
            heard: now,
            answered: false,
            has_session: false,
            kept_until: None,
        }
    }

    /// Whether its bytes are kept back: those that came, and those that are still to be read.
    pub(crate) fn is_held(&self) -> bool {
        self.blocked || self.kept_until.is_some()
    }

    /// Whether a read may bring something, or something that came before is to be lent.
    pub(crate) fn may_be_read(&self) -> bool {
        (self.readable || self.lending.has_more()) && !self.ended && !self.is_held()
    }

    /// Has it read again where its time has come, and gives that time where it has not; the end of all time where it is
    /// not kept back.
    pub(crate) fn release(&mut self, now: Duration) -> Duration {
        let until = self.kept_until.unwrap_or(Duration::MAX);
        if until <= now {
            self.kept_until = None;
            return Duration::MAX;
        }
        until
    }

    /// When a limit of silence passes, if it neither says nor takes anything until then; at the end of all time where none does, or `Ended`
    /// was given for the connection.
    pub(crate) fn silent_at(&self, limits: SilenceLimits) -> Duration {
        if self.ended {
            return Duration::MAX;
        }
        let idle = passes_at(self.heard, limits.idle);
        if self.answered {
            return idle;
        }
        idle.min(passes_at(self.accepted, limits.unanswered))
    }

    /// Whether the connection may end for a newcomer: it was never answered, and no `Ended` was given for it.
    pub(crate) fn may_make_room(&self) -> bool {
        !self.answered && !self.ended
    }

    /// Notes that it took so many bytes of what was sent to it.
    pub(crate) fn take(&mut self, now: Duration, count: usize) {
        if count > 0 {
            self.heard = now;
            self.answered = true;
        }
    }

    /// Notes what the system says of it.
    pub(crate) fn mark(&mut self, event: &Event) {
        self.readable = self.readable || event.is_readable() || event.is_error();
        self.closing = self.closing || event.is_read_closed() || event.is_error();
    }
}
