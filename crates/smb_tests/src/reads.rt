//! A client over memory that asks for all that a window allows in one piece.

ghost use Rattle.std.specs.Prelude.{◌<◌, IfSome, IsTrue};
ghost use Rattle.smb_serving.specs.MemoryPeers.{are_distinct, opened_by};

use super::serving::serves_anew;
use smb_layer_tests::words::{MOMENT, frames};
use smb_serving::{MemoryPeers, PeerStep};
use std::alloc::Global;

/// How many MessageIds a window holds at most, and the first of the READs.
const WINDOW: usize = 256;

const FIRST: usize = 5;

/// How many bytes a READ asks for, and how many its reply has with its frame.
const LENGTH: usize = 65_536;

const REPLY: usize = LENGTH + 84;

/// How many bytes the replies before those of the READs have.
const BEFORE: usize = 132 + 76 + 84 + 156 + 84;

/// A NEGOTIATE that asks for 256 credits.
const NEGOTIATE: &str = "00000066 fe534d42 4000 z8 0001 z48 2400 0100 0100 z30 0202";

/// What opens a file then: a SESSION_SETUP, a TREE_CONNECT, and a CREATE.
pub(crate) const OPENING: [&str; 3] = [
    "00000059 fe534d42 4000 z6 0100 0100 z8 0100000000000000 z32 1900 00 01 z8 5800 0100 z8 61",
    "00000058 fe534d42 4000 z6 0300 0100 z8 0200000000000000 z8 0100000000000000 z16 0900 0000 4800 1000 5c005c0073005c006400610074006100",
    "0000007a fe534d42 4000 z6 0500 0100 z8 0300000000000000 z4 01000000 0100000000000000 z16 3900 z2 02000000 z16 03000000 z4 07000000 02000000 00000000 7800 0200 z8 6100",
];

/// The front of a WRITE of 65,536 bytes, and a READ of as many, both from the first byte on.
const WRITE: &str =
    "00010070 fe534d42 4000 z6 0900 0100 z8 0400000000000000 z4 01000000 0100000000000000 z16 3100 7000 00000100 z8 01000000000000000100000000000000 z16";

const READ: &str =
    "00000070 fe534d42 4000 z6 0800 0100 z8 z8 z4 01000000 0100000000000000 z16 3100 z2 00000100 z8 01000000000000000100000000000000 z16";

/// The byte of the file at an offset.
pub(crate) fn byte_at(offset: usize) -> u8 {
    (offset % 251) as u8
}

/// The requests before the READs.
fn opening(alloc: Global) -> Option<Vec<u8>> {
    let mut bytes = frames(alloc, &[NEGOTIATE])?;
    bytes.extend_from_slice(&frames(alloc, &OPENING)?).ok()?;
    bytes.extend_from_slice(&frames(alloc, &[WRITE])?).ok()?;
    for offset in 0..LENGTH {
        bytes.push(byte_at(offset)).ok()?;
    }
    Some(bytes)
}

/// A READ for each MessageId of the window.
fn reads(alloc: Global) -> Option<Vec<u8>> {
    let one = frames(alloc, &[READ])?;
    let (front, rest) = one.split_at_checked(28)?;
    let (_, back) = rest.split_at_checked(8)?;
    let mut bytes = Vec::new(alloc);
    for i in 0..WINDOW {
        bytes.extend_from_slice(front).ok()?;
        bytes
            .extend_from_slice(&((FIRST + i) as u64).to_le_bytes())
            .ok()?;
        bytes.extend_from_slice(back).ok()?;
    }
    Some(bytes)
}

/// A client opens, sends what opens a file in one piece and its READs in another, and says nothing more.
fn script(alloc: Global) -> Option<Vec<PeerStep>>
    ensures { IfSome result (λ script. IsTrue (are_distinct (opened_by script.items))) }
{
    let opening = opening(alloc)?;
    let reads = reads(alloc)?;
    let script = vec![in alloc;
        PeerStep::Opened(1),
        PeerStep::Bytes(1, opening),
        PeerStep::Bytes(1, reads),
    ];
    script.ok()
}

/// That client.
fn client(alloc: Global) -> Option<MemoryPeers> {
    MemoryPeers::new(alloc, script(alloc)?, Vec::new(alloc), 100, 17_000_000).ok()
}

/// Whether the reply to a READ is where it should be, with its MessageId, SUCCESS and the bytes of the file.
fn is_read(peers: &MemoryPeers, i: usize) -> bool
    requires { i < 256 }
{
    let start = BEFORE + i * REPLY;
    let id = ((FIRST + i) as u64).to_le_bytes();
    let mut is_so = peers.taken(1, start + 12) == Some(0) && peers.taken(1, start + 15) == Some(0);
    is_so = is_so
        && peers.taken(1, start + 28) == Some(id[0])
        && peers.taken(1, start + 29) == Some(id[1]);
    for offset in 0..LENGTH {
        is_so = is_so && peers.taken(1, start + 84 + offset) == Some(byte_at(offset));
    }
    is_so
}

/// Whether the replies to all READs came, and nothing behind them.
fn are_read(peers: &MemoryPeers) -> bool {
    let mut are_so = peers.taken(1, BEFORE + WINDOW * REPLY).is_none();
    for i in 0..WINDOW {
        are_so = are_so && is_read(peers, i);
    }
    are_so
}

/// Whether a share answers all of them, and the client is not closed.
fn answers_all(alloc: Global, peers: &mut MemoryPeers) -> bool {
    serves_anew(alloc, peers, MOMENT, 8) && peers.closed(1) == 0 && are_read(peers)
}

#[test]
fn reads_a_whole_window_in_one_piece(rt: HostRuntime) {
    let is_so = match client(rt.alloc()) {
        Some(mut peers) => answers_all(rt.alloc(), &mut peers),
        None => false,
    };
    assert!(rt; is_so);
}
