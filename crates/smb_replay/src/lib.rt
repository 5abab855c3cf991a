//! The replay of a text of events on a new share, the listing of a client's stream, and the hash of a password: all
//! that the program `smbshare` does, but for its command line, its files and its network.
//!
//! [`replay_text`] reads a configuration and a script, runs the script's events on a [`Share`](smb_engine::Share) and
//! writes a line for each answer; [`replay_ntlm_text`] does so on a share to which clients log in by NTLM,
//! [`replay_on_share`] on a share of the caller's, and [`replay_heard`] so that a [`Hears`] hears each event with its answers, and, where
//! its [`ReplayWords`] ask for it, with the share's reasons among them.
//! [`show_text`] lists the requests of a stream, [`show_fields`] with their fields. All are over any reader and writers,
//! and return an exit status. [`Detail`] is how much is written of a fault: with [`Detail::Explained`] why it came. The
//! configuration is of the crate smb_config. Who plays the events in another way takes them by [`read_input`] and
//! [`read_events`], and has what answers them written by [`write_answers`].
//!
//! Inside the crate the listing of a stream and the events of a part of a text have clauses (`list_stream`,
//! `Part::read`). All else that the public calls print and return is tested.
#![tactic(auto)]

mod fault;
mod fields;
mod hears;
mod input;
mod listing;
mod ntlm;
mod password;
mod playing;
mod reasons;
mod replay;
mod script;
mod show;

pub use fault::{CommandFault, Detail, Given, ListenFault};
pub use hears::{Deaf, Hears};
pub use input::{INPUT_LIMIT, read_input};
pub use listing::show_fields;
pub use ntlm::{check_unsigned, new_ntlm, new_ntlm_share, replay_ntlm_text, signing_of};
pub use password::hash_password;
pub use playing::ReplayWords;
pub use replay::{
    new_plain_share, new_share, read_events, replay_heard, replay_in_detail, replay_on_share,
    replay_plain_text, replay_text, write_answers,
};
pub use script::Expected;
pub use show::show_text;
