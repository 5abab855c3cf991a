//! Changes of a file of accounts, line by line: an account more or less, another password. Comments, the order of the
//! accounts and all other lines stay as they are, byte for byte.
//!
//! ```text
//!    read_password     the password on an input, of one line
//!    change_accounts   changes a file: reads it, changes its text, reads that again, and gives it the file's name
//!    list_accounts     the accounts of a file
//! ```
//!
//! What is written was read again before, and has the accounts that it is to have: those of before, but for the change.
//! After a fault the file is as it was. It is this program's alone while it is changed.
//!
//! That the calls are safe and return is proved; what they read and write is tested (tests/words/accounts.py).
#![tactic(auto)]

mod change;
mod changing;
mod fault;
mod files;
mod password;
mod reading;
mod tables;

pub use change::Change;
pub use changing::{change_accounts, list_accounts};
pub use fault::{AccountsFault, PasswordFault};
pub use password::read_password;
pub use reading::name_fault;
