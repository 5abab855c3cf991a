//! The words of the program's command line, and the texts of the files that they name.
//!
//! ```text
//!    CommandLine   the words as the system has them: a file's name need not be text
//!    command       which commands there are, each with its options and its help
//!    login_of      how clients log in by them, where they go together
//!    account_of    what `account` is asked for
//!    Texts         the configuration and the accounts, out of the files that the words name
//! ```
//!
//! That the calls are safe and return is proved. Which words are taken, and what is said of others, is tested
//! (tests/words).
#![tactic(auto)]

mod account;
mod clients;
mod command_line;
mod commands;
mod credential;
mod login;
mod mode;
mod named_file;
mod options;
mod share;
mod texts;

pub use account::{AccountAction, AccountWords, account_of};
pub use command_line::{CommandLine, FileOption};
pub use commands::command;
pub use login::{Login, NtlmWords, login_of};
pub use named_file::NamedFile;
pub use texts::Texts;
