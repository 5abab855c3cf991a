//! What `share` has served: a folder's files under a name, by a configuration and accounts that are made for them.
//!
//! ```text
//!    Wanted      what the words of the command ask for, each of them looked at; share_name: the share's name
//!    measure     how much there is in the folder
//!    accounts_of the accounts of the words, by their passwords, a line for each
//!    Plan        the text of a configuration, as `serve` takes it (accounts_text: that of accounts), and what is said
//! ```
//!
//! A word that is refused is a [`SharingFault`]: what was asked for, and a [`SharingRule`], which says what is wrong
//! and what to do. Want of memory is a fault of its own and never the reason for another one. Nothing is served here,
//! and no file is changed.
//!
//! That the calls are safe and return is proved; what they take, refuse and say is tested (tests/words/sharing.py).
#![tactic(auto)]

mod fault;
mod limits;
mod measured;
mod name;
mod passwords;
mod plan;
mod said;
mod size;
mod text;
mod wanted;

pub use fault::{SharingFault, SharingRule};
pub use measured::{Measured, measure};
pub use name::share_name;
pub use passwords::{Passwords, accounts_of, read_passwords};
pub use plan::{Found, Plan};
pub use said::Said;
pub use text::accounts_text;
pub use wanted::{SharingWords, Wanted};
