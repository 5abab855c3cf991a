//! Events that come of the peers of a share that is served.

use crate::fault::PlayFault;
use crate::one_by_one::write_begin;
use crate::steps::{first_moment, steps};
use smb_engine::{Answer, Authenticator, Event, Opens, Share, Tree};
use smb_peers::{ListClock, PeerEvent, Peers, SendFault};
use smb_replay::{CommandFault, write_answers};
use smb_serving::{MemoryPeers, serve, taken_from};
use std::alloc::Global;
use std::io;
use std::io::Write;

/// How many calls for each event the peers have room for, and how many bytes in all.
const CALLS: usize = 16;

const ROOM: usize = 1_048_576;

/// Peers over memory, of which each step is written out as it begins.
#[derive(Drop)]
struct ToldPeers<W: Write + Drop> {
    peers: MemoryPeers,
    output: W,
    place: u64,
}

impl<W: Write + Drop> Peers for ToldPeers<W> {
    ghost use Rattle.std.specs.Prelude.{take};
    ghost use Rattle.smb_serving.specs.MemoryPeers.{opened_by};

    ghost calls = { λ p. p.peers.calls };

    ghost keeps = { λ p. p.peers.keeps };

    ghost opened = { λ p. opened_by (take p.peers.place p.peers.script) };

    ghost piece_of = { λ p. p.peers.piece };

    ghost failed = { λ p. p.peers.failures };

    fn next(&mut self) -> PeerEvent {
        let _ = write_begin(self.place, &mut self.output);
        self.place = self.place.wrapping_add(1);
        self.peers.next()
    }

    fn piece(&self) -> &[u8] {
        self.peers.piece()
    }

    fn send(&mut self, number: u64, bytes: &[u8]) -> Result<usize, SendFault> {
        self.peers.send(number, bytes)
    }

    fn close(&mut self, number: u64) {
        self.peers.close(number)
    }

    fn failures(&self) -> u64 {
        self.peers.failures()
    }
}

/// Writes how often a connection was closed, and all bytes that it took.
fn write_taken<W: Write>(
    alloc: Global,
    peers: &MemoryPeers,
    number: u64,
    output: &mut W,
) -> Result<(), CommandFault> {
    let closed = peers.closed(number);
    if writeln!(output, "connection {number}: closed {closed} times").is_err() {
        return Err(CommandFault::OutputFailed);
    }
    let Ok(taken) = taken_from(alloc, peers, number) else {
        return Err(CommandFault::NoMemory);
    };
    match vec![in alloc; Answer::Frame(number, taken)] {
        Ok(answers) => write_answers(&answers, output),
        Err(_) => Err(CommandFault::NoMemory),
    }
}

/// How many connections events open.
fn count_opened(events: &[Event]) -> u64 {
    let opened = events
        .iter()
        .filter(|event| matches!(event, Event::Opened(_)));
    opened.count() as u64
}

/// Writes how often memory ran out.
fn write_count<W: Write>(count: u64, output: &mut W) -> io::Result<()> {
    writeln!(output, "no memory {count} times")
}

/// Serves a share to peers of which these events come, numbered from 1 on, and writes what became of them.
pub(crate) fn play_served<
    A: Authenticator + Drop,
    T: Tree + Drop,
    O: Opens + Drop,
    W: Write + Drop,
>(
    alloc: Global,
    share: &mut Share<A, T, O>,
    events: Vec<Event>,
    output: W,
) -> Result<(), PlayFault> {
    let turns = events.len();
    let opened = count_opened(&events);
    let mut clock = ListClock::new(alloc, &[first_moment(&events)])?;
    let steps = steps(alloc, events)?;
    let calls = turns.saturating_mul(CALLS);
    let peers = MemoryPeers::new(alloc, steps, Vec::new(alloc), calls, ROOM)?;
    let mut told = ToldPeers {
        peers,
        output,
        place: 0,
    };
    let count = serve(
        share,
        &mut told,
        &mut clock,
        (turns as u64).saturating_add(1),
    );
    if write_count(count, &mut told.output).is_err() {
        return Err(PlayFault::Command(CommandFault::OutputFailed));
    }
    for number in 1..opened.saturating_add(1) {
        write_taken(alloc, &told.peers, number, &mut told.output)?;
    }
    Ok(())
}
