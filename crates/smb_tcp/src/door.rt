//! Where newcomers come in.

use mio::Token;
use mio::net::{TcpListener, TcpStream};
use std::alloc::{AllocError, Global};
use std::io::ErrorKind;
use std::net::SocketAddr;

/// How many listeners there are at most.
pub const MOST_LISTENERS: usize = 16;

/// The number of the last connection that can be: those above are the tokens of listeners.
pub(crate) const LAST_NUMBER: u64 = u64::MAX - MOST_LISTENERS as u64;

/// A listener.
#[derive(Drop)]
struct Door {
    listener: TcpListener,
    // A connection may wait to be accepted.
    acceptable: bool,
    // An accept failed, as it does where no descriptor is left: the next one waits.
    refused: bool,
}

/// A stream that was accepted, and its peer's address.
#[derive(Drop)]
pub(crate) struct Newcomer {
    pub(crate) stream: TcpStream,
    pub(crate) address: SocketAddr,
}

impl Door {
    /// Accepts a connection, where one waits; false where the system refuses.
    fn accept(&mut self, newcomer: &mut Option<Newcomer>) -> bool {
        match self.listener.accept() {
            Ok((stream, address)) => {
                *newcomer = Some(Newcomer { stream, address });
                true
            }
            Err(error) if error.kind() == ErrorKind::WouldBlock => {
                self.acceptable = false;
                true
            }
            Err(_) => {
                self.acceptable = false;
                self.refused = true;
                false
            }
        }
    }
}

/// Who waits to come in.
#[derive(Clone, Copy)]
pub(crate) enum Waiting {
    /// Somebody who was accepted, for a number.
    Newcomer,
    /// Maybe somebody at the listener of a place, to be accepted.
    AtDoor(usize),
    /// Nobody.
    Nobody,
}

/// Listeners, and the stream that one of them accepted last, while that has no number yet.
#[derive(Drop)]
pub(crate) struct Doors {
    // By their tokens, from the greatest downward.
    list: Vec<Door>,
    newcomer: Option<Newcomer>,
    // The place of the listener that accepts next, where somebody waits there.
    turn: usize,
}

impl Doors {
    /// None, with room for as many as there are at most.
    pub(crate) fn with_room(alloc: Global) -> Result<Self, AllocError> {
        Ok(Doors {
            list: Vec::with_capacity(alloc, MOST_LISTENERS)?,
            newcomer: None,
            turn: 0,
        })
    }

    /// The token of the next listener that is added; None where there are as many as there are at most.
    pub(crate) fn next_token(&self) -> Option<Token> {
        let count = self.list.len();
        if count < MOST_LISTENERS {
            Some(Token(usize::MAX - count))
        } else {
            None
        }
    }

    /// Adds a listener, at which somebody may wait.
    pub(crate) fn add(&mut self, listener: TcpListener) -> Result<(), AllocError> {
        self.list.push(Door {
            listener,
            acceptable: true,
            refused: false,
        })?;
        Ok(())
    }

    /// Notes that a connection waits at the listener of a token, where it is one's.
    pub(crate) fn mark(&mut self, token: Token) {
        if let Some(door) = self.list.get_mut(usize::MAX - token.0) {
            door.acceptable = true;
        }
    }

    /// Has the next accept tried, where one failed.
    pub(crate) fn try_again(&mut self) {
        for door in self.list.iter_mut() {
            if door.refused {
                door.refused = false;
                door.acceptable = true;
            }
        }
    }

    /// Who waits. Of several listeners at which somebody may wait it is the first one from the turn on, else the first.
    pub(crate) fn waiting(&self) -> Waiting {
        if self.newcomer.is_some() {
            return Waiting::Newcomer;
        }
        let mut first = None;
        for (place, door) in self.list.iter().enumerate() {
            if door.acceptable {
                if place >= self.turn {
                    return Waiting::AtDoor(place);
                }
                first = first.or(Some(place));
            }
        }
        match first {
            Some(place) => Waiting::AtDoor(place),
            None => Waiting::Nobody,
        }
    }

    /// Takes in one connection as the newcomer, where one waits at a listener; false where the system refuses.
    pub(crate) fn accept(&mut self, place: usize) -> bool {
        self.turn = place.saturating_add(1);
        match self.list.get_mut(place) {
            Some(door) => door.accept(&mut self.newcomer),
            None => true,
        }
    }

    /// The address of the newcomer, where there is one.
    pub(crate) fn address(&self) -> Option<SocketAddr> {
        self.newcomer.as_ref().map(|newcomer| newcomer.address)
    }

    /// Gives away the newcomer.
    pub(crate) fn take(&mut self) -> Option<Newcomer> {
        self.newcomer.take()
    }
}
