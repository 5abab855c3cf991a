//! The commands that serve nobody: `check`, `replay`, `extract`, `compact`, `check-journal` and `account`.
//!
//! ```text
//!    check            what would be served by a configuration and accounts, and for whom
//!    replay_input     the events of standard input, performed on a share; print_recording: those of a recording
//!    extract, compact the files that the journal or recording on standard input leaves, as a folder, or a new journal
//!    check_journal    what a journal keeps, and whether it is whole
//!    account          changes a file of accounts, or lists it
//! ```
//!
//! A caller reads the words of a command and the texts of its files (smb_command_line), and hands them on. What ends a
//! command is a
//! `Fault` of smb_command_parts.
//!
//! Its calls have no clauses: that they are safe and return is proved, and what they do is tested over the program
//! (docs/TESTING.md).
#![tactic(auto)]

mod account_change;
mod checking;
mod compaction;
mod hearing;
mod journal_check;
mod replaying;

pub use account_change::account;
pub use checking::check;
pub use compaction::compact;
pub use journal_check::check_journal;
pub use replaying::{extract, print_recording, replay_input};
