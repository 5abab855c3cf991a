//! TCP peers by the system that the program runs on.

use smb_journal_file::SharedSync;
use smb_peers::{PeerEvent, Peers, SendFault, Usage};
use smb_reason::Reason;
use smb_tcp::TcpPeers;

/// TCP peers by the system that the program runs on. It is a type without parameters but its lifetime: a proof about
/// peers around it takes fewer steps than around [`TcpPeers`].
#[derive(Drop)]
pub struct HostPeers<'a> {
    peers: TcpPeers<'a, HostRuntime>,
    /// What is to know whether another piece is ready, where something is.
    sync: Option<&'a SharedSync>,
}

impl<'a> HostPeers<'a> {
    /// These peers. `sync` gets to know at each event whether another piece is ready behind it.
    pub fn new(peers: TcpPeers<'a, HostRuntime>, sync: Option<&'a SharedSync>) -> Self {
        HostPeers { peers, sync }
    }
}

impl<'a> Peers for HostPeers<'a> {
    ghost use Rattle.std.specs.Prelude.{[], false};

    ghost calls = { λ p. [] };

    ghost keeps = { λ p. false };

    ghost opened = { λ p. ⟦<TcpPeers<'a, HostRuntime> as Peers>⟧.opened p.peers };

    ghost piece_of = { λ p. ⟦<TcpPeers<'a, HostRuntime> as Peers>⟧.piece_of p.peers };

    ghost failed = { λ p. ⟦<TcpPeers<'a, HostRuntime> as Peers>⟧.failed p.peers };

    fn next(&mut self) -> PeerEvent {
        let Some(sync) = self.sync else {
            return self.peers.next();
        };
        // The piece for which a wait was put off may be gone with its connection: none else is waited for.
        if sync.is_put_off() && !self.peers.is_another_ready() {
            sync.note_another(false);
            return PeerEvent::Idle;
        }
        let event = self.peers.next();
        sync.note_another(self.peers.is_another_ready());
        event
    }

    fn piece(&self) -> &[u8] {
        self.peers.piece()
    }

    fn send(&mut self, number: u64, bytes: &[u8]) -> Result<usize, SendFault> {
        self.peers.send(number, bytes)
    }

    fn close(&mut self, number: u64) {
        self.peers.close(number)
    }

    fn ran_out(&mut self, number: u64, done: usize) {
        self.peers.ran_out(number, done)
    }

    fn wants_usage(&self) -> bool {
        self.peers.wants_usage()
    }

    fn note_usage(&mut self, usage: Usage) {
        self.peers.note_usage(usage)
    }

    fn note_kept(&mut self, kept: Result<(), Reason>) {
        self.peers.note_kept(kept)
    }

    fn failures(&self) -> u64 {
        self.peers.failures()
    }
}
