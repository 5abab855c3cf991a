//! A share that is served to its peers, here peers in memory with a script: a client that negotiates and asks for an echo.

use super::share::{new_share, print_reply};
use smb_client::{Client, Replies};
use smb_engine::FILETIME_OF_1970;
use smb_peers::ListClock;
use smb_serving::{MemoryPeers, PeerStep, serve, taken_from};
use std::alloc::Global;

/// A client on connection 1 that negotiates and asks for an echo, as peers that take up to 4,096 bytes.
fn one_client(alloc: Global) -> anyhow::Result<MemoryPeers> {
    let mut client = Client::new(alloc, 1);
    client.negotiate()?;
    client.echo()?;
    let frames = PeerStep::Bytes(1, client.take_frames());
    let script = vec![in alloc; PeerStep::Opened(1), frames]?;
    Ok(MemoryPeers::new(alloc, script, Vec::new(alloc), 16, 4_096)?)
}

/// Serves a new share to that client for some turns, and gives what it was sent.
fn answers(alloc: Global) -> anyhow::Result<Vec<u8>> {
    let mut peers = one_client(alloc)?;
    let mut clock = ListClock::new(alloc, &[FILETIME_OF_1970])?;
    let mut share = new_share(alloc)?;
    serve(&mut share, &mut peers, &mut clock, 4);
    Ok(taken_from(alloc, &peers, 1)?)
}

/// Serves a share, and prints what its client was answered.
pub(crate) fn run<R: Print + AllocGlobal>(rt: &R) -> anyhow::Result<()> {
    let bytes = answers(rt.alloc())?;
    let mut replies = Replies::of(&bytes);
    for _ in 0..bytes.len() {
        let Some(reply) = replies.next_reply() else {
            break;
        };
        print_reply(rt, 1, &reply)?;
    }
    Ok(())
}
