//! The peers that a share is served to.

ghost use Rattle.std.specs.Prelude.{◌≡◌, ◌<◌, ◌≤◌, ◌++◌, ◌∷◌, [], length, IfOk, OnErr};
ghost use Rattle.smb_peers.specs.Record.{Keeping, close};
ghost use Rattle.smb_peers.specs.Peers.{call_of, send_call, OpensOnce};

use smb_reason::Reason;

/// How much a share holds.
#[derive(Clone, Copy, Debug, PartialEq, Eq)]
pub struct Usage {
    /// Its files and folders, without the root.
    pub entries: usize,
    /// The room that all files take, in bytes: of each its size, rounded up to 4,096.
    pub used: u64,
    /// Its sessions, those that are not finished among them.
    pub sessions: usize,
    pub opens: usize,
}

/// What `next` brought. Peers number their connections as they like.
#[derive(Clone, Copy, Debug, PartialEq, Eq)]
pub enum PeerEvent {
    /// A connection was opened.
    Opened(u64),
    /// A piece of its stream came: it is what [`Peers::piece`] lends.
    Bytes(u64),
    /// Its stream has ended, or a read of it failed.
    Ended(u64),
    /// Nothing came.
    Idle,
}

/// A send was refused.
#[derive(Clone, Copy, Debug, PartialEq, Eq, thiserror::Error)]
#[error("the send failed")]
pub struct SendFault;

/// Streams of bytes that come and go.
///
/// Peers may keep a record of all calls on them with their answers: then each call adds itself to it.
pub trait Peers {
    ghost use Rattle.std.specs.Prelude.{ℕ, List, Bool};
    ghost use Rattle.smb_peers.specs.Record.{PeerCall};

    /// The calls so far, of peers that keep their record.
    ghost calls: { Self → List PeerCall };

    /// Whether all calls are in the record.
    ghost keeps: { Self → Bool };

    /// The numbers that were opened so far.
    ghost opened: { Self → List ℕ };

    /// The piece that came last.
    ghost piece_of: { Self → List ℕ };

    /// How many calls failed so far.
    ghost failed: { Self → ℕ };

    /// Waits a while for the next event. Each number is opened at most once.
    fn next(&mut self) -> PeerEvent
        ensures told { Keeping (keeps self.old) (keeps self.new) (calls self.new ≡ calls self.old ++ call_of result (piece_of self.new) ∷ []) }
        ensures once { OpensOnce result (opened self.old) (opened self.new) };

    /// The bytes of the last [`PeerEvent::Bytes`], until the next call of `next`.
    fn piece(&self) -> &[u8]
        ensures { result.now ≡ piece_of self.now };

    /// Sends what can be sent at once of these bytes to a connection, from the first on, and tells how many. It is refused
    /// only where a call of the system failed, which `failures` counts.
    fn send(&mut self, number: u64, bytes: &[u8]) -> Result<usize, SendFault>
        ensures told { Keeping (keeps self.old) (keeps self.new) (calls self.new ≡ calls self.old ++ send_call number bytes.now result ∷ []) }
        ensures within { IfOk result (λ count. count ≤ length bytes.now) }
        ensures failed { OnErr result (failed self.old < failed self.new) }
        ensures opened { opened self.new ≡ opened self.old };

    /// Ends a connection, where it is there.
    fn close(&mut self, number: u64)
        ensures told { Keeping (keeps self.old) (keeps self.new) (calls self.new ≡ calls self.old ++ close number ∷ []) }
        ensures opened { opened self.new ≡ opened self.old };

    /// Takes note that memory ran out in the piece that came last, of a connection's stream, after so many of its requests. The
    /// connection is closed in the same turn. It does nothing to what is sent, and is not in the record.
    fn ran_out(&mut self, _number: u64, _done: usize)
        ensures kept { Keeping (keeps self.old) (keeps self.new) (calls self.new ≡ calls self.old) }
        ensures opened { opened self.new ≡ opened self.old }
    {}

    /// Whether they want to know how much the share holds, before the next turn.
    fn wants_usage(&self) -> bool {
        false
    }

    /// Takes note of how much the share holds, where they want to know. It does nothing to what is sent, and is not in the record.
    fn note_usage(&mut self, _usage: Usage)
        ensures kept { Keeping (keeps self.old) (keeps self.new) (calls self.new ≡ calls self.old) }
        ensures opened { opened self.new ≡ opened self.old }
    {}

    /// Takes note of whether all that changed in the share so far is kept, once in each turn before its sends. It does nothing to
    /// what was sent, and is not in the record.
    fn note_kept(&mut self, _kept: Result<(), Reason>)
        ensures kept { Keeping (keeps self.old) (keeps self.new) (calls self.new ≡ calls self.old) }
        ensures opened { opened self.new ≡ opened self.old }
    {}

    /// How many calls failed.
    fn failures(&self) -> u64
        ensures { result ≡ failed self.now };
}

/// Peers that may end the serving of a share, as those do that can no longer keep what came.
pub trait Stopping {
    ghost use Rattle.std.specs.Prelude.{Bool};

    /// Whether they ask for that.
    ghost stopped: { Self → Bool };

    /// Whether the share is to be served no more.
    fn is_stopped(&self) -> bool
        ensures { result ≡ stopped self.now };
}
