//! The words in which it is told that the system refuses something: a [`Reason`] in place of a kind of error, and the name of a
//! file as it can be [`Shown`]. Every crate that tells of a refusal of the system has them from here, so that it is told in the
//! same words everywhere.
//!
//! That the calls are safe and return is proved; what they write is tested (tests/words, tests/keeping).
#![tactic(auto)]

mod reason;
mod shown;

pub use reason::Reason;
pub use shown::Shown;
