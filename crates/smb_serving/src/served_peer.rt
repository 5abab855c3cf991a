//! A peer of a share that is served, and the bytes that it is owed.

ghost use Rattle.std.specs.Prelude.{◌≡◌, ◌≤◌, [], drop, length, nat_lt, OnOk, IfErr};
ghost use Rattle.smb_serving.specs.ServingParts.{dropped, piece_taken, PieceEnds};
ghost use Rattle.smb_engine.specs.Run.{bytes_step};
ghost use Rattle.smb_engine.specs.Output.{AreShort};

use smb_engine::{ServeFault, Share};
use smb_opens::Opens;
use smb_peers::Observer;
use smb_session::Authenticator;
use smb_tree::Tree;
use std::alloc::Global;
use std::marker::Model;

/// The most bytes that a peer may be owed.
const MOST_OWED: usize = 33_554_432;

/// The most room, in bytes, that a peer keeps while it is owed nothing.
const ROOM_KEPT: usize = 1_048_576;

/// Memory ran out in a piece, behind so many of its requests.
#[derive(Clone, Copy)]
pub(crate) struct OutOfMemory {
    pub(crate) done: usize,
}

/// A peer: its number, its connection in the share, and the bytes that it is owed.
#[derive(Drop)]
pub struct ServedPeer {
    pub(crate) number: u64,
    pub(crate) connection: u64,
    owed: Vec<u8>,
    // How many of these bytes were taken. They are given up once they are half of all: so over time a byte is moved at most once.
    taken: usize,
}

impl Model for ServedPeer {
    ghost use Rattle.std.specs.Prelude.{drop, length, ◌≤◌};
    ghost use Rattle.smb_serving.specs.ServedPeers.{PeerState};

    ghost Value = { PeerState };

    ghost view = { λ p. record { number = p.number; connection = p.connection; owed = drop p.taken p.owed.items } };

    ghost invariant = { λ p. p.taken ≤ length p.owed.items };
}

impl ServedPeer {
    /// A peer that is owed nothing.
    pub(crate) fn new(alloc: Global, number: u64, connection: u64) -> Self
        ensures { result ≡ record { number = number; connection = connection; owed = [] } }
    {
        ServedPeer {
            number,
            connection,
            owed: Vec::new(alloc),
            taken: 0,
        }
    }

    /// The bytes that it is owed.
    pub(crate) fn owed(&self) -> &[u8]
        ensures { result.now ≡ self.now.owed }
    {
        &self.owed[self.taken..]
    }

    /// Whether it is owed any.
    pub(crate) fn is_owed(&self) -> bool
        ensures { result ≡ nat_lt 0 (length self.now.owed) }
    {
        self.taken < self.owed.len()
    }

    /// Drops the first of the bytes that it is owed. Over time the work is in proportion to these.
    pub(crate) fn drop_first(&mut self, count: usize)
        requires { count ≤ length self.old.owed }
        ensures { self.new ≡ record self.old { owed = drop count self.old.owed } }
    {
        let length = self.owed.len();
        let taken = self.taken + count;
        if taken < length - taken {
            self.taken = taken;
        } else {
            self.owed.copy_within(taken..length, 0);
            self.owed.truncate(length - taken);
            self.taken = 0;
            self.give_back_room();
        }
    }

    /// Gives room back that was made for many bytes, where it is owed none.
    fn give_back_room(&mut self)
        ensures { self.new ≡ self.old }
    {
        if self.owed.is_empty() {
            self.owed.shrink_to(ROOM_KEPT);
        }
    }

    /// Drops all that it is owed.
    pub(crate) fn drop_owed(&mut self)
        ensures { self.new ≡ dropped self.old }
    {
        self.owed.clear();
        self.taken = 0;
        self.give_back_room();
    }

    /// Takes a piece of its stream at a moment; the replies are owed to it. Where that is too much, its connection ends and
    /// they are dropped.
    pub(crate) fn take_piece<A: Authenticator + Drop, T: Tree + Drop, O: Opens + Drop, W: Observer>(
        &mut self,
        share: &mut Share<A, T, O>,
        moment: u64,
        piece: &[u8],
        observer: &mut W,
    ) -> Result<(), OutOfMemory>
        ensures ok { OnOk result (record { share = share.new; peer = self.new }
            ≡ piece_taken A.meaning share.old self.old moment piece.now) }
        ensures short { OnOk result (AreShort (bytes_step A.meaning share.old self.old.connection moment piece.now).outputs) }
        ensures err { IfErr result (λ ran_out. PieceEnds A.meaning share.old self.old moment piece.now ran_out.done share.new self.new) }
    {
        match share.feed_observed(self.connection, moment, piece, &mut self.owed, observer) {
            Ok(_) => {
                if self.owed().len() > MOST_OWED {
                    share.ended(self.connection);
                    self.drop_owed();
                }
                Ok(())
            }
            Err(ServeFault::NoMemory { done }) => {
                self.drop_owed();
                Err(OutOfMemory { done })
            }
            Err(_) => unreachable!(),
        }
    }
}
