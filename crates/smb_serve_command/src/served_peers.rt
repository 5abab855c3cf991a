//! The peers of a share that is served: those of TCP, logged and noted.

use crate::clock::ServeClock;
use crate::host_peers::HostPeers;
use crate::logging::TcpFacts;
use smb_command_parts::LogOutput;
use smb_log::LoggedPeers;
use smb_peers::{PeerEvent, Peers, SendFault, Stopping, Usage};
use smb_reason::Reason;
use smb_status::WatchedPeers;

/// TCP peers, of which all is logged where there is a log.
pub type LoggedTcpPeers<'l, 'a> = LoggedPeers<
    'l,
    HostPeers<'a>,
    TcpFacts,
    ServeClock<'a>,
    LogOutput<'a>,
>;

/// The same, noted where there is a status.
pub type NotedTcpPeers<'l, 'a> = WatchedPeers<
    'l,
    LoggedTcpPeers<'l, 'a>,
    TcpFacts,
    ServeClock<'a>,
    HostRuntime,
>;

/// The peers of a share that is served: those of TCP, logged where there is a log, and noted where there is a status.
/// It is a type without parameters but its lifetimes: around the nested ones a proof takes too many steps.
#[derive(Drop)]
pub struct ServedPeers<'l, 'a> {
    peers: NotedTcpPeers<'l, 'a>,
}

impl<'l, 'a> ServedPeers<'l, 'a> {
    /// These peers.
    pub fn new(peers: NotedTcpPeers<'l, 'a>) -> Self {
        ServedPeers { peers }
    }

    /// The peers that are logged.
    pub fn finish(self) -> LoggedTcpPeers<'l, 'a> {
        self.peers.finish()
    }
}

impl<'l, 'a> Peers for ServedPeers<'l, 'a> {
    ghost use Rattle.std.specs.Prelude.{[], false};

    ghost calls = { λ p. [] };

    ghost keeps = { λ p. false };

    ghost opened = { λ p. ⟦<NotedTcpPeers<'l, 'a> as Peers>⟧.opened p.peers };

    ghost piece_of = { λ p. ⟦<NotedTcpPeers<'l, 'a> as Peers>⟧.piece_of p.peers };

    ghost failed = { λ p. ⟦<NotedTcpPeers<'l, 'a> as Peers>⟧.failed p.peers };

    fn next(&mut self) -> PeerEvent {
        self.peers.next()
    }

    fn piece(&self) -> &[u8] {
        self.peers.piece()
    }

    fn send(&mut self, number: u64, bytes: &[u8]) -> Result<usize, SendFault> {
        self.peers.send(number, bytes)
    }

    fn close(&mut self, number: u64) {
        self.peers.close(number)
    }

    fn ran_out(&mut self, number: u64, done: usize) {
        self.peers.ran_out(number, done)
    }

    fn wants_usage(&self) -> bool {
        self.peers.wants_usage()
    }

    fn note_usage(&mut self, usage: Usage) {
        self.peers.note_usage(usage)
    }

    fn note_kept(&mut self, kept: Result<(), Reason>) {
        self.peers.note_kept(kept)
    }

    fn failures(&self) -> u64 {
        self.peers.failures()
    }
}

impl<'l, 'a> Stopping for ServedPeers<'l, 'a> {
    ghost stopped = { λ p. ⟦<NotedTcpPeers<'l, 'a> as Stopping>⟧.stopped p.peers };

    fn is_stopped(&self) -> bool {
        self.peers.is_stopped()
    }
}
