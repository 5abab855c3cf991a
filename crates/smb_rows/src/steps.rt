//! Events as the steps of peers over memory.

ghost use Rattle.std.specs.Prelude.{◌≡◌, ◌==◌, IfOk, IsTrue};
ghost use Rattle.std.specs.List.{list_any};
ghost use Rattle.smb_serving.specs.MemoryPeers.{are_distinct, opened_by};

use crate::fault::PlayFault;
use smb_engine::Event;
use smb_serving::PeerStep;
use std::alloc::{AllocError, Global};

/// Whether steps open the connection of a number.
fn opens(steps: &[PeerStep], number: u64) -> bool
    ensures { result ≡ list_any (λ opened. number == opened) (opened_by steps.now) }
{
    match steps {
        [] => false,
        [PeerStep::Opened(opened), others @ ..] => number == *opened || opens(others, number),
        [_, others @ ..] => opens(others, number),
    }
}

/// Whether steps open no number twice.
fn open_once(steps: &[PeerStep]) -> bool
    ensures { result ≡ are_distinct (opened_by steps.now) }
{
    match steps {
        [] => true,
        [PeerStep::Opened(opened), others @ ..] => !opens(others, *opened) && open_once(others),
        [_, others @ ..] => open_once(others),
    }
}

/// The moment of the first piece, and 0 where there is none.
pub(crate) fn first_moment(events: &[Event]) -> u64 {
    for event in events {
        if let Event::Bytes { moment, .. } = event {
            return *moment;
        }
    }
    0
}

/// An event as a step of the peer with the number of its connection.
fn step_of(event: Event) -> PeerStep {
    match event {
        Event::Opened(connection) => PeerStep::Opened(connection),
        Event::Bytes {
            connection,
            moment: _,
            piece,
        } => PeerStep::Bytes(connection, piece),
        Event::Ended(connection) => PeerStep::Ended(connection),
    }
}

/// Events as steps, in order.
fn all_steps(alloc: Global, events: Vec<Event>) -> Result<Vec<PeerStep>, AllocError> {
    events.into_iter().map(step_of).collect(alloc)
}

/// Events as the steps of peers over memory. [`PlayFault::OutOfTurn`] where they open a number twice.
pub(crate) fn steps(alloc: Global, events: Vec<Event>) -> Result<Vec<PeerStep>, PlayFault>
    ensures { IfOk result (λ steps. IsTrue (are_distinct (opened_by steps.items))) }
{
    let steps = all_steps(alloc, events)?;
    if open_once(&steps) {
        Ok(steps)
    } else {
        Err(PlayFault::OutOfTurn)
    }
}
