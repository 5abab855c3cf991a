//! A login by NTLM ([MS-NLMP]), by itself or in SPNEGO (RFC 4178), as an
//! [`Authenticator`](smb_session::Authenticator).
//!
//! [`Ntlm`] lets in who knows an account's password, by NTLM's second version, and guests where these may come. It
//! keeps nothing of a login between tokens: which message a token brings stands in the token, and a session's challenge
//! is a digest of a seed and the session's number. Why the last token was denied is kept for who asks, and decides
//! nothing. It signs and seals nothing itself; where signing is on ([`SigningMode`]) an account's session has a key, by
//! which its messages are signed. An [`Account`] has the NT hash of its password, which [`nt_hash_of`] makes;
//! [`account_fault`] tells what is wrong with accounts.
//!
//! What a token is answered is a table of ten rows, `specs/Login.antt`. What the rows ask is read off the token:
//! elements of DER (`Der.antt`), tokens of SPNEGO (`Spnego.antt`, `Tokens.antt`), messages (`Messages.antt`), and the
//! proof of an account's password and the session's key (`Accounts.antt`, `Proof.antt`, `Hmac.antt`; `Md4.antt` and
//! `Passwords.antt` for its hash; `SigningModes.antt` for who has a key). That nobody comes in but by that proof or as
//! a guest, that nobody has a key but by that proof, that a token which was cut is denied, and what else holds of every
//! login is the contract of [`laws_of_ntlm`]; that the digests are those that the standards print, that of
//! [`laws_of_digests`].
//!
//! A token is read in place. Memory is taken for the answer alone: a token of at most 145 bytes, and a user's name.
//! Accounts are looked through one by one.
#![tactic(auto)]

mod account;
mod capitals;
mod decision;
mod der;
mod entry;
mod hmac;
mod laws;
mod login;
mod md4;
mod messages;
mod ntlm;
mod password;
mod signing;
mod spnego;
mod token;

pub use account::{Account, AccountFault, account_fault};
pub use laws::{laws_of_digests, laws_of_ntlm};
pub use ntlm::Ntlm;
pub use password::nt_hash_of;
pub use signing::SigningMode;
