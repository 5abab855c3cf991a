//! What a start from a journal promises, as laws over the definitions of a share (smb_engine).
//!
//! Nothing here runs: each public function has an empty body, and its `ensures` clauses are the laws. [`laws_of_ends`]
//! says what the ends of all connections leave of a share, whatever happened to it before; [`laws_of_restarts`] that a
//! start is one run of the journal's events and these ends, and what goes on behind it.
#![tactic(auto)]

mod ends;
mod restarts;

pub use ends::laws_of_ends;
pub use restarts::laws_of_restarts;
