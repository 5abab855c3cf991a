//! What is known of peers beside their bytes.

use super::admission::KeptOut;
use super::logins::KeptBack;
use super::streams::{DEFAULT_CONNECTIONS, streams_for};
use std::alloc::{AllocError, Global};
use std::cell::{Cell, RefCell};
use std::net::SocketAddr;

/// Why the listener itself ended a connection.
#[derive(Clone, Copy, Debug, PartialEq, Eq)]
pub enum GivenUp {
    /// A limit of silence passed, or it made room for another one.
    Silent,
    /// All were owed too much, and it most.
    OwedMost,
}

/// What is known of a peer's connection, under its number.
#[derive(Clone, Copy)]
struct Fact {
    number: u64,
    address: SocketAddr,
    given_up: Option<GivenUp>,
}

/// The addresses of peers, and which of them the listener ended, for whoever logs them. Each is known from the opening
/// of its connection until that is closed; of those that are closed as they are accepted, the last one, and so of those
/// that are kept back. All room is made first.
#[derive(Drop)]
pub struct PeerFacts {
    // In the order of their numbers.
    facts: RefCell<Vec<Fact>>,
    kept_out: Cell<Option<(SocketAddr, KeptOut)>>,
    kept_back: Cell<Option<(SocketAddr, KeptBack)>>,
    // How many bytes all peers are owed.
    owed: Cell<u64>,
}

impl PeerFacts {
    /// Of no peers, with room for those of a listener that was made without a number of connections.
    pub fn new(alloc: Global) -> Result<Self, AllocError> {
        PeerFacts::within(alloc, DEFAULT_CONNECTIONS)
    }

    /// Of no peers, with room for those of a listener that was made for so many connections.
    pub fn within(alloc: Global, connections: usize) -> Result<Self, AllocError> {
        Ok(PeerFacts {
            facts: RefCell::new(Vec::with_capacity(alloc, streams_for(connections))?),
            kept_out: Cell::new(None),
            kept_back: Cell::new(None),
            owed: Cell::new(0),
        })
    }

    /// What is known of a connection.
    fn fact(&self, number: u64) -> Option<Fact> {
        let Ok(facts) = self.facts.try_borrow() else {
            return None;
        };
        let place = facts
            .binary_search_by_key(&number, |fact| fact.number)
            .ok()?;
        facts.get(place).copied()
    }

    /// The address of the peer of a connection; None where it is not known.
    pub fn address(&self, number: u64) -> Option<SocketAddr> {
        Some(self.fact(number)?.address)
    }

    /// Why the listener ended a connection; None where it did not.
    pub fn given_up(&self, number: u64) -> Option<GivenUp> {
        self.fact(number)?.given_up
    }

    /// The address of the connection that was closed last as it was accepted, and why; None where none was since this was asked last.
    pub fn take_kept_out(&self) -> Option<(SocketAddr, KeptOut)> {
        self.kept_out.replace(None)
    }

    /// The address whose connections were kept back last, by the one that brought the wrong password, and why; None
    /// where none were since this was asked last.
    pub fn take_kept_back(&self) -> Option<(SocketAddr, KeptBack)> {
        self.kept_back.replace(None)
    }

    /// How many bytes all peers together were owed when a turn began last.
    pub fn owed(&self) -> u64 {
        self.owed.get()
    }

    /// Notes how many bytes all peers are owed.
    pub(crate) fn note_owed(&self, bytes: u64) {
        self.owed.set(bytes);
    }

    /// Notes that the address of a connection is kept back, and why.
    pub(crate) fn note_kept_back(&self, number: u64, why: KeptBack) {
        if let Some(address) = self.address(number) {
            self.kept_back.set(Some((address, why)));
        }
    }

    /// Notes a connection that was closed as it was accepted, and why.
    pub(crate) fn note_kept_out(&self, address: SocketAddr, why: KeptOut) {
        self.kept_out.set(Some((address, why)));
    }

    /// Notes a connection that was opened.
    pub(crate) fn add(&self, number: u64, address: SocketAddr) {
        if let Ok(mut facts) = self.facts.try_borrow_mut() {
            let _ = facts.push(Fact {
                number,
                address,
                given_up: None,
            });
        }
    }

    /// Notes that the listener ended a connection, and why.
    pub(crate) fn note_given_up(&self, number: u64, why: GivenUp) {
        if let Ok(mut facts) = self.facts.try_borrow_mut() {
            if let Ok(place) = facts.binary_search_by_key(&number, |fact| fact.number) {
                if let Some(fact) = facts.get_mut(place) {
                    fact.given_up = Some(why);
                }
            }
        }
    }

    /// Notes that a connection was closed.
    pub(crate) fn remove(&self, number: u64) {
        if let Ok(mut facts) = self.facts.try_borrow_mut() {
            if let Ok(place) = facts.binary_search_by_key(&number, |fact| fact.number) {
                let _ = facts.remove(place);
            }
        }
    }
}
