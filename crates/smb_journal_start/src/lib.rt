//! A share's files begin, or go on with what a journal of changes keeps.
//!
//! [`read`] gives what a journal keeps, and [`start`] goes on with that: the journal's whole batches make the files, what a
//! lost end left behind them is taken off before anything is written, and entries that are marked go, as they would have
//! gone with their last open. Where there is no whole batch the tree is a new one, and the first batch has its root.
//! [`files_left`] gives the same files to who does not go on with the journal.
#![tactic(auto)]

mod fault;
mod left;
mod marks;
mod starting;

pub use fault::StartFault;
pub use left::{LeftFiles, files_left};
pub use starting::{KeptTree, Space, read, start};
