//! A client that talks to a share in names, through calls and over peers in memory.

ghost use Rattle.std.specs.Prelude.{IfSome, IsTrue};
ghost use Rattle.smb_serving.specs.MemoryPeers.{are_distinct, opened_by};

use super::serving::{built_in, serves_anew};
use smb_client::{Client, ClientFault, Replies};
use smb_handles::HandleTable;
use smb_layer_tests::words::MOMENT;
use smb_nodes::NodeTree;
use smb_pair::Pair;
use smb_serving::{MemoryPeers, PeerStep, taken_from};
use smb_session::Tokens;
use smb_wire::{CreateDisposition, FileId, NtStatus};
use std::alloc::Global;

/// A share in memory, and what it answered.
pub(crate) type Talk = Pair<Tokens, NodeTree, HandleTable>;

/// Whether there are so many replies, each with success.
fn are_good(replies: &mut Replies<'_>, count: usize) -> bool {
    for _ in 0..count {
        match replies.next_reply() {
            Some(reply) if reply.header.status == NtStatus::Success.code() => {}
            _ => return false,
        }
    }
    replies.next_reply().is_none()
}

/// Whether what a client says is answered with success.
pub(crate) fn is_told(
    pair: &mut Talk,
    client: &mut Client,
    asked: Result<(), ClientFault>,
) -> bool {
    if asked.is_err() {
        return false;
    }
    match pair.exchange(client) {
        Ok(mut replies) => are_good(&mut replies, 1),
        Err(_) => false,
    }
}

/// Whether a client that has a dialect logs in, and is connected to the share.
pub(crate) fn logs_in(pair: &mut Talk, client: &mut Client) -> bool {
    let asked = client.session_setup(b"a");
    if !is_told(pair, client, asked) {
        return false;
    }
    let asked = client.tree_connect(r"\\server\data");
    is_told(pair, client, asked)
}

/// Whether a client comes in.
pub(crate) fn comes_in(pair: &mut Talk, client: &mut Client) -> bool {
    let asked = client.negotiate();
    is_told(pair, client, asked) && logs_in(pair, client)
}

/// The FileId of a new file.
pub(crate) fn made(pair: &mut Talk, client: &mut Client, name: &str) -> Option<FileId> {
    client.create(name, CreateDisposition::Create).ok()?;
    let mut replies = pair.exchange(client).ok()?;
    replies.next_reply()?.file_id()
}

/// Whether a client reads from the front of a file what it wrote there.
fn reads_what_it_wrote(pair: &mut Talk, client: &mut Client, file_id: FileId) -> bool {
    let asked = client.write(file_id, 0, b"first draft");
    if !is_told(pair, client, asked) || client.read(file_id, 0, 64).is_err() {
        return false;
    }
    match pair.exchange(client) {
        Ok(mut replies) => match replies.next_reply() {
            Some(reply) => reply.data() == Some(b"first draft"),
            None => false,
        },
        Err(_) => false,
    }
}

/// Whether a client makes a file, writes it, reads it and closes it.
fn keeps_a_file(pair: &mut Talk, client: &mut Client) -> bool {
    let Some(file_id) = made(pair, client, "plan.txt") else {
        return false;
    };
    if !reads_what_it_wrote(pair, client, file_id) {
        return false;
    }
    let asked = client.close(file_id);
    is_told(pair, client, asked)
}

/// Whether a new client of a share comes in, and keeps a file there.
fn talks(pair: &mut Talk) -> bool {
    match pair.connect() {
        Ok(mut client) => comes_in(pair, &mut client) && keeps_a_file(pair, &mut client),
        Err(_) => false,
    }
}

/// A pair of the built-in configuration.
pub(crate) fn new_pair(alloc: Global) -> Option<Talk> {
    Some(Pair::new(alloc, built_in(alloc)?, MOMENT))
}

#[test]
fn talks_to_a_share(rt: HostRuntime) {
    let is_so = match new_pair(rt.alloc()) {
        Some(mut pair) => talks(&mut pair),
        None => false,
    };
    assert!(rt; is_so);
}

/// The frames of a client that negotiates and asks for an echo.
fn both_requests(alloc: Global) -> Option<Vec<u8>> {
    let mut client = Client::new(alloc, 1);
    client.negotiate().ok()?;
    client.echo().ok()?;
    Some(client.take_frames())
}

/// The script of that client.
fn script(alloc: Global) -> Option<Vec<PeerStep>>
    ensures { IfSome result (λ script. IsTrue (are_distinct (opened_by script.items))) }
{
    let frames = both_requests(alloc)?;
    vec![in alloc; PeerStep::Opened(1), PeerStep::Bytes(1, frames)].ok()
}

/// That client.
fn client(alloc: Global) -> Option<MemoryPeers> {
    MemoryPeers::new(alloc, script(alloc)?, Vec::new(alloc), 100, 1_000).ok()
}

/// Whether a client took so many replies, each with success.
fn took_good(alloc: Global, peers: &MemoryPeers, count: usize) -> bool {
    match taken_from(alloc, peers, 1) {
        Ok(heard) => are_good(&mut Replies::of(&heard), count),
        Err(_) => false,
    }
}

/// Whether a share answers both requests of that client over peers in memory.
fn answers_both(alloc: Global, peers: &mut MemoryPeers) -> bool {
    serves_anew(alloc, peers, MOMENT, 8) && took_good(alloc, peers, 2)
}

#[test]
fn talks_over_memory(rt: HostRuntime) {
    let is_so = match client(rt.alloc()) {
        Some(mut peers) => answers_both(rt.alloc(), &mut peers),
        None => false,
    };
    assert!(rt; is_so);
}
