//! The files that a journal keeps are read from its bytes.
//!
//! [`recover`] reads a [`Source`] once, from its first byte to its last, and holds one batch of it at a time. It gives
//! the files that its whole batches make, how many bytes these are, and the number and the seed of the batch that is to
//! come behind them. What lies behind the whole batches must be what a lost end leaves of one (`is_cut` of
//! `smb_changes`); all else is damage, and [`RecoveryFault::Damaged`] says where it is.
#![tactic(auto)]

mod batch;
mod fault;
mod reading;
mod rest;
mod source;

pub use fault::RecoveryFault;
pub use reading::{Recovered, recover};
pub use source::{MemorySource, Source};
