//! A share that is served to peers over memory.

ghost use Rattle.std.specs.Prelude.{◌≡◌, [], IfSome, IsTrue};
ghost use Rattle.smb_serving.specs.MemoryPeers.{are_distinct, opened_by};
ghost use Rattle.smb_serving.specs.MemoryRecord.{step_opens};

use super::serving::serves_anew;
use smb_layer_tests::words::{ECHO, MOMENT, NEGOTIATE, NEGOTIATED, frames};
use smb_peers::Peers;
use smb_serving::{MemoryPeers, PeerStep, SendStep};
use std::alloc::Global;

/// How many calls and bytes the peers have room for.
const CALLS: usize = 1_000;

const ROOM: usize = 10_000;

/// How many bytes the answer to a NEGOTIATE has.
const ANSWER: usize = 132;

/// Client 1 opens, sends its bytes, and says nothing more.
fn one_client(alloc: Global) -> Option<Vec<PeerStep>>
    ensures { IfSome result (λ script. IsTrue (are_distinct (opened_by script.items))) }
{
    let frame = frames(alloc, &[NEGOTIATE])?;
    vec![in alloc; PeerStep::Opened(1), PeerStep::Bytes(1, frame)].ok()
}

/// Client 1 does so, and then client 2.
fn two_clients(alloc: Global) -> Option<Vec<PeerStep>>
    ensures { IfSome result (λ script. IsTrue (are_distinct (opened_by script.items))) }
{
    let frame = frames(alloc, &[NEGOTIATE])?;
    let other = frames(alloc, &[NEGOTIATE])?;
    let script = vec![in alloc;
        PeerStep::Opened(1),
        PeerStep::Bytes(1, frame),
        PeerStep::Opened(2),
        PeerStep::Bytes(2, other),
    ];
    script.ok()
}

/// Client 1 opens and sends a part of a frame, of which a read then fails; client 2 sends a whole one.
fn one_fails(alloc: Global) -> Option<Vec<PeerStep>>
    ensures { IfSome result (λ script. IsTrue (are_distinct (opened_by script.items))) }
{
    let part = Vec::from_slice(alloc, &[0, 0, 0]).ok()?;
    let other = frames(alloc, &[NEGOTIATE])?;
    let script = vec![in alloc;
        PeerStep::Opened(1),
        PeerStep::Bytes(1, part),
        PeerStep::Fails(1),
        PeerStep::Opened(2),
        PeerStep::Bytes(2, other),
    ];
    script.ok()
}

/// Peers of a script, with a step for each of so many sends.
fn peers(alloc: Global, script: Vec<PeerStep>, step: SendStep, count: usize) -> Option<MemoryPeers>
    requires { IsTrue (are_distinct (opened_by script.items)) }
{
    let sends = Vec::from_elem(alloc, step, count).ok()?;
    MemoryPeers::new(alloc, script, sends, CALLS, ROOM).ok()
}

/// Whether just these bytes were taken for a number.
fn took(peers: &MemoryPeers, number: u64, wanted: &[u8]) -> bool {
    let mut all = peers.taken(number, wanted.len()).is_none();
    for (i, byte) in wanted.iter().enumerate() {
        all = all && peers.taken(number, i) == Some(*byte);
    }
    all
}

/// Whether just so many bytes of the answer to a NEGOTIATE were taken for a number.
fn took_answer(alloc: Global, peers: &MemoryPeers, number: u64, count: usize) -> bool {
    let Some(answer) = frames(alloc, &[NEGOTIATED]) else {
        return false;
    };
    match answer.get(..count) {
        Some(wanted) => answer.len() == ANSWER && took(peers, number, wanted),
        None => false,
    }
}

/// Whether so many bytes of its answer are taken for client 1 after so many turns.
fn has_taken(alloc: Global, peers: &mut MemoryPeers, turns: u64, count: usize) -> bool {
    serves_anew(alloc, peers, MOMENT, turns) && took_answer(alloc, peers, 1, count)
}

/// Client 1, as peers with a step for each of so many sends.
fn client(alloc: Global, step: SendStep, count: usize) -> Option<MemoryPeers> {
    peers(alloc, one_client(alloc)?, step, count)
}

/// Whether client 1, of whose answer a send takes at first 100 bytes, has taken so many bytes after so many turns.
fn takes_in_time(alloc: Global, turns: u64, count: usize) -> bool {
    match client(alloc, SendStep::Takes(100), 1) {
        Some(mut peers) => has_taken(alloc, &mut peers, turns, count),
        None => false,
    }
}

#[test]
fn sends_what_was_not_taken(rt: HostRuntime) {
    let first = takes_in_time(rt.alloc(), 2, 100);
    let all = takes_in_time(rt.alloc(), 3, ANSWER);
    let later = takes_in_time(rt.alloc(), 30, ANSWER);
    assert!(rt; first && all && later);
}

/// Whether an answer comes whole in so many turns, and the client is not closed.
fn comes_whole(alloc: Global, peers: &mut MemoryPeers) -> bool {
    has_taken(alloc, peers, 140, ANSWER) && peers.closed(1) == 0
}

#[test]
fn sends_byte_by_byte(rt: HostRuntime) {
    let is_so = match client(rt.alloc(), SendStep::Takes(1), 200) {
        Some(mut peers) => comes_whole(rt.alloc(), &mut peers),
        None => false,
    };
    assert!(rt; is_so);
}

/// What a client took of its answer, and how often it was closed.
#[derive(Clone, Copy)]
struct Met {
    count: usize,
    closed: u64,
}

/// A client that took all.
const ALL: Met = Met {
    count: ANSWER,
    closed: 0,
};

/// A client that took so many bytes, and was closed.
fn closed_behind(count: usize) -> Met {
    Met { count, closed: 1 }
}

/// Whether a client met this.
fn has_met(alloc: Global, peers: &MemoryPeers, number: u64, met: Met) -> bool {
    took_answer(alloc, peers, number, met.count) && peers.closed(number) == met.closed
}

/// Whether two clients met this in so many turns, in which one call failed.
fn have_met(alloc: Global, peers: &mut MemoryPeers, turns: u64, first: Met, second: Met) -> bool {
    serves_anew(alloc, peers, MOMENT, turns)
        && has_met(alloc, peers, 1, first)
        && has_met(alloc, peers, 2, second)
        && peers.failures() == 1
}

/// The same of clients that may not have been made.
fn meet(alloc: Global, peers: Option<MemoryPeers>, turns: u64, first: Met, second: Met) -> bool {
    match peers {
        Some(mut peers) => have_met(alloc, &mut peers, turns, first, second),
        None => false,
    }
}

/// So many sends that take 40 bytes, and one that fails.
fn fails_behind(alloc: Global, place: usize) -> Option<Vec<SendStep>> {
    let mut sends = Vec::from_elem(alloc, SendStep::Takes(40), place).ok()?;
    sends.push(SendStep::Fails).ok()?;
    Some(sends)
}

/// Two clients, as peers with these sends.
fn a_send_fails_behind(alloc: Global, place: usize) -> Option<MemoryPeers> {
    let sends = fails_behind(alloc, place)?;
    MemoryPeers::new(alloc, two_clients(alloc)?, sends, CALLS, ROOM).ok()
}

/// Two clients, of the first of which a read fails.
fn a_read_fails(alloc: Global) -> Option<MemoryPeers> {
    peers(alloc, one_fails(alloc)?, SendStep::Takes(200), 1)
}

/// The first client is closed once, with nothing taken, and the next one is served.
#[test]
fn ends_a_client_that_fails_alone(rt: HostRuntime) {
    let alloc = rt.alloc();
    let sends = meet(
        alloc,
        a_send_fails_behind(alloc, 0),
        10,
        closed_behind(0),
        ALL,
    );
    let reads = meet(alloc, a_read_fails(alloc), 10, closed_behind(0), ALL);
    assert!(rt; sends && reads);
}

/// Nothing, or a read of client 1 that fails where that is at this place.
fn fails_at(place: u32, here: u32) -> PeerStep
    ensures { step_opens result ≡ [] }
{
    if place == here {
        PeerStep::Fails(1)
    } else {
        PeerStep::Idle
    }
}

/// A NEGOTIATE in two pieces.
fn two_pieces(alloc: Global) -> Option<(Vec<u8>, Vec<u8>)> {
    let whole = frames(alloc, &[NEGOTIATE])?;
    let (front, back) = whole.split_at_checked(40)?;
    let front = Vec::from_slice(alloc, front).ok()?;
    let back = Vec::from_slice(alloc, back).ok()?;
    Some((front, back))
}

/// Client 1 sends a NEGOTIATE in two pieces and an ECHO in a third one, and a read of it fails before the piece of a place;
/// client 2 sends a NEGOTIATE.
fn fails_before(alloc: Global, place: u32) -> Option<Vec<PeerStep>>
    ensures { IfSome result (λ script. IsTrue (are_distinct (opened_by script.items))) }
{
    let (front, back) = two_pieces(alloc)?;
    let echo = frames(alloc, &[ECHO])?;
    let other = frames(alloc, &[NEGOTIATE])?;
    let script = vec![in alloc;
        PeerStep::Opened(1),
        fails_at(place, 0),
        PeerStep::Bytes(1, front),
        fails_at(place, 1),
        PeerStep::Bytes(1, back),
        fails_at(place, 2),
        PeerStep::Bytes(1, echo),
        PeerStep::Opened(2),
        PeerStep::Bytes(2, other),
    ];
    script.ok()
}

/// These two clients.
fn a_read_fails_at(alloc: Global, place: u32) -> Option<MemoryPeers> {
    peers(alloc, fails_before(alloc, place)?, SendStep::Takes(200), 1)
}

/// Client 1 takes what was answered before, and is closed once; client 2 takes all of its own.
#[test]
fn ends_a_client_at_each_read_that_fails(rt: HostRuntime) {
    let alloc = rt.alloc();
    let first = meet(alloc, a_read_fails_at(alloc, 0), 12, closed_behind(0), ALL);
    let second = meet(alloc, a_read_fails_at(alloc, 1), 12, closed_behind(0), ALL);
    let third = meet(
        alloc,
        a_read_fails_at(alloc, 2),
        12,
        closed_behind(ANSWER),
        ALL,
    );
    assert!(rt; first && second && third);
}

/// What both clients meet where the send of a place fails, and those before it take 40 bytes: the first three sends
/// and the fifth are to client 1, the fourth is to client 2.
const SENDS: [(Met, Met); 5] = [
    (
        Met {
            count: 0,
            closed: 1,
        },
        ALL,
    ),
    (
        Met {
            count: 40,
            closed: 1,
        },
        ALL,
    ),
    (
        Met {
            count: 80,
            closed: 1,
        },
        ALL,
    ),
    (
        ALL,
        Met {
            count: 0,
            closed: 1,
        },
    ),
    (
        Met {
            count: 120,
            closed: 1,
        },
        ALL,
    ),
];

/// The first place at which they meet something else.
fn met_otherwise(alloc: Global) -> Option<usize> {
    for (place, (first, second)) in SENDS.iter().enumerate() {
        if !meet(
            alloc,
            a_send_fails_behind(alloc, place),
            12,
            *first,
            *second,
        ) {
            return Some(place);
        }
    }
    None
}

#[test]
fn ends_a_client_at_each_send_that_fails(rt: HostRuntime) {
    assert_eq!(rt; met_otherwise(rt.alloc()), None);
}

/// Whether an answer has the clock's moment, also one before 1970.
fn tells_an_early_moment(alloc: Global, peers: &mut MemoryPeers) -> bool {
    serves_anew(alloc, peers, 5, 10)
        && peers.taken(1, 108) == Some(5)
        && peers.taken(1, 109) == Some(0)
}

#[test]
fn tells_what_the_clock_tells(rt: HostRuntime) {
    let is_so = match client(rt.alloc(), SendStep::Takes(200), 1) {
        Some(mut peers) => tells_an_early_moment(rt.alloc(), &mut peers),
        None => false,
    };
    assert!(rt; is_so);
}
