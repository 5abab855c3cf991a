//! What the commands of the program have in common: their faults, logins, notices, and the output of a log.
//!
//! A [`Fault`] is what ends a command: it prints itself, and gives the exit status. What the machine has, random bytes
//! and the accounts of a text are asked for here; [`say_notices`] says on standard error who can't log in, and what is
//! not safe. [`say`] and [`StandardError`] write lines there with their [`Severity`].
//!
//! Its calls have no clauses: that they are safe and return is proved, and what they do is tested over the program
//! (docs/TESTING.md).
#![tactic(auto)]

mod fault;
mod hosts;
mod log_output;
mod log_words;
mod login;
mod machine;
mod notices;
mod standard_error;

pub use fault::{AccountsFileFault, Fault};
pub use hosts::{HostsFault, hosts_of};
pub use log_output::LogOutput;
pub use log_words::{LogWords, log_of};
pub use login::{SERVED_SIGNING, ntlm_of, random_number, random_seed, read_accounts};
pub use machine::memory;
pub use notices::{Entrance, say_cut, say_cut_batch, say_notices};
pub use smb_log::Level;
pub use standard_error::{Severity, StandardError, say};
