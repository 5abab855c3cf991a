//! Why a call of the share is refused.

use thiserror::Error;

/// A refusal of the share.
#[derive(Clone, Copy, Debug, PartialEq, Eq, Error)]
pub enum ServeFault {
    /// As many connections are open as the limits let be, or the numbers of connections are spent.
    #[error("too many connections")]
    TooManyConnections,
    /// Memory could not be had. The first `done` requests of the call, or of the event, were performed,
    /// and then its connection has ended; an opening changed nothing.
    #[error("no memory, after {done} requests")]
    NoMemory { done: usize },
    /// An opening out of turn, or an event on a number that was never opened.
    #[error("a bad event")]
    BadEvent,
    /// The configuration breaks its rules.
    #[error("the configuration breaks its rules")]
    BadConfig,
}

/// A piece was cut short after so many requests: memory ran out, or no more of them were to be performed.
#[derive(Clone, Copy)]
pub(crate) struct CutShort {
    pub(crate) done: usize,
}

/// Where a run stopped, and why.
#[derive(Clone, Copy, Debug, PartialEq, Eq, Error)]
#[error("event {place}, connection {connection}: {fault}")]
pub struct RunFault {
    /// The event's place in the list, from 0. The events before it were performed.
    pub place: usize,
    /// The number of the event's connection.
    pub connection: u64,
    pub fault: ServeFault,
}
