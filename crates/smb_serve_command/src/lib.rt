//! The commands that serve: `serve`, a share of a configuration to clients over TCP, and `share`, a folder's files.
//!
//! ```text
//!    serve_share      a share, new or with the files of a folder or a journal; recorded, logged, or neither
//!    share_folder     a folder's files, by a configuration and accounts that are made for them
//! ```
//!
//! A caller reads the words of a command and the texts of its files (smb_command_line), and hands them on. What ends a
//! command is a `Fault` of smb_command_parts.
//!
//! Its calls have no clauses: that they are safe and return is proved, and what they do is tested over the program
//! (docs/TESTING.md).
#![tactic(auto)]

mod clock;
mod filling;
mod heard_login;
mod host_peers;
mod journal_watch;
mod logging;
mod serve;
mod served_journal;
mod served_peers;
mod served_record;
mod share;
mod shown_journal;
mod sight;
mod status_door;

pub use logging::TcpFacts;
pub use serve::{ServeWords, serve_share};
pub use share::share_folder;
pub use smb_kept::{JournalWords, KeepWords};
pub use smb_sharing::SharingWords;
pub use status_door::StatusWords;
