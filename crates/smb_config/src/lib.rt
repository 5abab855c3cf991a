//! The server's configuration, a TOML text that says what the share is and who may come in, and a text of accounts.
//!
//! [`read_config`] reads a file's text, [`Configuration::read`] or [`Accounts::read`] the text; [`BUILT_IN`] is a text
//! that is taken. Where one is refused, [`ConfigFault`] has the first [`ConfigRule`] that it breaks, and
//! [`write_place`] writes where it breaks it, and what was found there; never of a token or a hash.
//!
//! [`Configuration::read`] has a clause: the share's part of what it takes keeps the share's rules under its limits. [`Accounts`] are
//! those that a login may have, by their type. Which rule is named, and where, is tested.
#![tactic(auto)]

mod accounts;
mod configuration;
mod file;
mod key_place;
mod limits;
mod rule;

pub use accounts::{Accounts, read_account_list};
pub use configuration::{BUILT_IN, ConfigFault, Configuration, signing_mode};
pub use file::{CONFIG_LIMIT, read_config, read_past};
pub use key_place::write_place;
pub use limits::LimitKey;
pub use rule::ConfigRule;
pub use smb_ntlm::SigningMode;
