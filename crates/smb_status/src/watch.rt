//! What is noted of a share while it is served: its counts, and its clients.

use crate::counts::Counts;
use std::alloc::{AllocError, Global};
use std::cell::{RefCell, RefMut};
use std::collections::BTreeMap;
use std::time::Duration;

/// A client, as its peers know it.
#[derive(Drop)]
pub struct Client {
    /// Its connection's number in the share.
    pub connection: u64,
    /// Its address, empty where it is not known.
    pub address: String,
    /// When it came, in units of 100 ns since 1601.
    pub since: u64,
}

/// What is noted of a share while it is served. Two borrow it in turn: [`WatchedPeers`](crate::WatchedPeers) and a
/// [`WatchObserver`](crate::WatchObserver).
#[derive(Drop)]
pub struct Watch {
    pub(crate) alloc: Global,
    /// Since when the share is served, in units of 100 ns since 1601.
    pub(crate) since: u64,
    pub(crate) counts: Counts,
    // By the numbers under which the peers opened them, and so in the order of their connections.
    pub(crate) clients: BTreeMap<u64, Client>,
    // When the turn began, by the system's time.
    turn: Option<Duration>,
}

/// What is noted, lent, where something is.
pub(crate) fn borrowed(watch: Option<&RefCell<Watch>>) -> Option<RefMut<'_, Watch>> {
    watch?.try_borrow_mut().ok()
}

impl Watch {
    /// Of a share that is served since this moment, in units of 100 ns since 1601, and has no client.
    pub fn new(alloc: Global, since: u64) -> Self {
        Watch {
            alloc,
            since,
            counts: Counts::none(),
            clients: BTreeMap::new(alloc),
            turn: None,
        }
    }

    /// What is counted.
    pub fn counts(&self) -> &Counts {
        &self.counts
    }

    /// When the turn began that goes on, by the system's time; None where none does, or the time is not known.
    pub fn turn(&self) -> Option<Duration> {
        self.turn
    }

    /// Notes that a turn begins at a moment of the system's time.
    pub(crate) fn begin_turn(&mut self, now: Duration) {
        self.turn = Some(now);
    }

    /// Notes that the turn ends, and how long it took.
    pub(crate) fn end_turn(&mut self, now: Duration) {
        if let Some(since) = self.turn.take() {
            self.counts.count_turn(now.saturating_sub(since));
        }
    }

    /// Takes note of a client under its peers' number. One for which there is no memory is not shown.
    pub fn opened(&mut self, number: u64, client: Client) {
        let _ = self.clients.insert(number, client);
    }

    /// Takes note that a client is gone.
    pub(crate) fn ended(&mut self, number: u64) {
        let _ = self.clients.remove(&number);
    }

    /// A text that an address is to be put into.
    pub(crate) fn text(&self) -> String {
        String::new(self.alloc)
    }
}
