//! A share that is served to peers in memory.

use smb_config::{BUILT_IN, Configuration};
use smb_engine::Share;
use smb_handles::HandleTable;
use smb_nodes::NodeTree;
use smb_peers::ListClock;
use smb_replay::new_share;
use smb_serving::{MemoryPeers, serve};
use smb_session::Tokens;
use std::alloc::Global;

/// A share as the program serves it.
pub(crate) type Served = Share<Tokens, NodeTree, HandleTable>;

/// A share of the built-in configuration.
pub(crate) fn built_in(alloc: Global) -> Option<Served> {
    match Configuration::read(alloc, BUILT_IN) {
        Ok(configuration) => new_share(alloc, configuration).ok(),
        Err(_) => None,
    }
}

/// Serves a share for so many turns at a moment. Whether memory never runs out.
fn serves(
    alloc: Global,
    share: &mut Served,
    peers: &mut MemoryPeers,
    moment: u64,
    turns: u64,
) -> bool {
    match ListClock::new(alloc, &[moment]) {
        Ok(mut clock) => serve(share, peers, &mut clock, turns) == 0,
        Err(_) => false,
    }
}

/// The same of a new share of the built-in configuration.
pub(crate) fn serves_anew(alloc: Global, peers: &mut MemoryPeers, moment: u64, turns: u64) -> bool {
    match built_in(alloc) {
        Some(mut share) => serves(alloc, &mut share, peers, moment, turns),
        None => false,
    }
}
