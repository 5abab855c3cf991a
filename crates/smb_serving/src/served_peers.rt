//! The peers of a share, and which of them may need something in a turn.

ghost use Rattle.std.specs.Prelude.{◌≡◌, ◌<◌, ◌≤◌, ◌++◌, ◌∷◌, [], length, true, false};
ghost use Rattle.std.specs.Vec.{vec_len, vec_capacity};
ghost use Rattle.smb_serving.specs.Restless.{ArePlaces, IsNoted};

use super::served_peer::ServedPeer;
use std::alloc::Global;

/// What a peer's part of a turn comes to.
#[derive(Clone, Copy)]
pub enum Part {
    /// The peer is owed nothing, and its connection is open.
    Rests,
    /// It is owed bytes.
    IsOwed,
    /// The send failed.
    Fails,
    /// The peer is closed.
    Closes,
}

/// The peers that a share serves, in rising number.
#[derive(Drop)]
pub struct ServedPeers {
    pub(crate) peers: Vec<ServedPeer>,
    // The places, in rising order, of the peers that may need something in the next turn: each other peer is owed nothing, and
    // its connection is open. Where `all` is set, any peer may need something. There is room for the place of each peer, made
    // at its opening: a note needs no memory.
    pub(crate) restless: Vec<usize>,
    pub(crate) all: bool,
}

impl ServedPeers {
    /// No peers.
    pub(crate) fn new(alloc: Global) -> Self
        ensures peers { result.peers.items ≡ [] }
        ensures restless { result.restless.items ≡ [] }
        ensures all { result.all ≡ false }
    {
        ServedPeers {
            peers: Vec::new(alloc),
            restless: Vec::new(alloc),
            all: false,
        }
    }

    /// Makes room for a peer more and for its place, and returns whether it could.
    pub(crate) fn make_room(&mut self) -> bool
        ensures peers { self.new.peers.items ≡ self.old.peers.items }
        ensures restless { self.new.restless.items ≡ self.old.restless.items }
        ensures all { self.new.all ≡ self.old.all }
        ensures kept { vec_capacity self.old.restless ≤ vec_capacity self.new.restless }
        ensures room { result ≡ true → (vec_len self.new.peers < vec_capacity self.new.peers) × (length self.new.peers.items < vec_capacity self.new.restless) }
    {
        if self.peers.reserve(1).is_err() {
            return false;
        }
        let places = self.peers.len() + 1;
        self.restless
            .reserve(places.saturating_sub(self.restless.len()))
            .is_ok()
    }

    /// Takes note that the peer at a place may need something in the next turn.
    pub(crate) fn note(&mut self, place: usize)
        requires within { place < length self.old.peers.items }
        requires room { length self.old.peers.items ≤ vec_capacity self.old.restless }
        requires places { self.old.all ≡ false → ArePlaces self.old.restless.items (length self.old.peers.items) }
        ensures peers { self.new.peers.items ≡ self.old.peers.items }
        ensures noted { IsNoted place self.old self.new }
        ensures room { vec_capacity self.old.restless ≤ vec_capacity self.new.restless }
    {
        if self.all {
            return;
        }
        match self.restless.binary_search(&place) {
            Ok(_) => {}
            Err(at) => match self.restless.insert(at, place) {
                Ok(()) => {}
                Err(_) => unreachable!(),
            },
        }
    }

    /// Takes note of a place behind all that are noted, of a peer that is owed bytes.
    pub(crate) fn note_last(&mut self, place: usize)
        requires { self.old.all ≡ false → length self.old.restless.items < vec_capacity self.old.restless }
        ensures peers { self.new.peers.items ≡ self.old.peers.items }
        ensures all { self.new.all ≡ self.old.all }
        ensures noted { self.new.all ≡ false → self.new.restless.items ≡ self.old.restless.items ++ place ∷ [] }
        ensures room { vec_capacity self.new.restless ≡ vec_capacity self.old.restless }
    {
        if self.all {
            return;
        }
        self.restless.push_reserved(place);
    }
}
