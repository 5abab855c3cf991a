//! What the peers learn of logins.

ghost use Rattle.std.specs.Prelude.{◌<◌, ◌≤◌, vec_len, IfSome};

use super::connections::Connections;
use super::login_delay::{LoginDelays, key_of};
use std::cell::Cell;
use std::net::IpAddr;
use std::time::Duration;

/// How the logins ended that came in one piece.
#[derive(Clone, Copy)]
pub(crate) struct EndedLogins {
    /// How many had a wrong password.
    pub(crate) wrong: u64,
    /// The last one let its client in.
    pub(crate) is_in: bool,
}

/// How logins ended: who lets clients in notes it here, and the peers take it. What is noted is of the piece that they
/// lent last.
#[derive(Drop)]
pub struct Logins {
    ended: Cell<Option<EndedLogins>>,
}

/// That pieces of an address are kept back, of its connections without a session.
#[derive(Clone, Copy, Debug, PartialEq, Eq)]
pub struct KeptBack {
    /// How many wrong passwords came, each less than a minute behind the one before.
    pub wrong: u64,
    /// For how long.
    pub seconds: u64,
}

impl Logins {
    /// None ended yet.
    pub const fn new() -> Self {
        Logins {
            ended: Cell::new(None),
        }
    }

    /// Notes that a login ended: its client was let in, or denied, as by a wrong password.
    pub fn note(&self, is_let_in: bool) {
        let before = match self.ended.get() {
            Some(ended) => ended.wrong,
            None => 0,
        };
        let wrong = if is_let_in {
            before
        } else {
            before.saturating_add(1)
        };
        self.ended.set(Some(EndedLogins {
            wrong,
            is_in: is_let_in,
        }));
    }

    /// How those ended that were noted since this was asked last; None where none were.
    pub(crate) fn take(&self) -> Option<EndedLogins> {
        self.ended.replace(None)
    }
}

/// The logins that peers learn of, and what they keep in mind of them.
#[derive(Drop)]
pub(crate) struct HeardLogins<'a> {
    pub(crate) logins: &'a Logins,
    pub(crate) delays: LoginDelays,
}

impl HeardLogins<'_> {
    /// How long pieces of an address are kept back from a moment on.
    pub(crate) fn left(&self, address: IpAddr, now: Duration) -> Duration {
        self.delays.left(key_of(address), now)
    }

    /// Takes how logins of the connection at a place ended, at a moment, and keeps back what is to be kept back by
    /// them.
    pub(crate) fn take(
        &mut self,
        connections: &mut Connections,
        place: usize,
        ended: EndedLogins,
        now: Duration,
    ) -> Option<KeptBack>
        requires { place < vec_len connections.old.list }
        ensures few { IfSome result (λ kept_back. 5 ≤ kept_back.wrong) }
        ensures most { IfSome result (λ kept_back. kept_back.seconds ≤ 60) }
    {
        let key = key_of(connections.note_login(place, ended.is_in));
        if ended.wrong == 0 {
            return None;
        }
        self.delays.note(key, ended.wrong, now);
        let left = self.delays.left(key, now);
        if left.is_zero() {
            return None;
        }
        connections.keep_back(key, now.saturating_add(left));
        Some(KeptBack {
            wrong: self.delays.wrong(key, now),
            seconds: left.as_secs(),
        })
    }
}
