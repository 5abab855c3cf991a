//! Why a request or a login is refused and a connection ended, in sentences for a user: a [`Why`] as text, for a log, a replay and
//! the tables of docs/PROFILE.md. It stands above the share, which knows labels alone, so that no proof depends on a word here.
//!
//! That the calls are safe and return is proved; the sentences are those of docs/PROFILE.md (tools/lib/refusals.py).
#![tactic(auto)]

mod create;
mod ending;
mod file;
mod login;
mod query;
mod refusal;
mod request;
mod session;
mod set_info;
mod why;

pub use why::{Why, WithoutComma};
