//! The texts of a log's lines: requests in words, the names of things, moments as dates, and users and paths as they were given.
//!
//! ```text
//!    put_request    a request in words, out of its bytes
//!    Lines          the fields of an event as a line, written as it is made
//! ```
//!
//! # Names
//!
//! A name, path, pattern, user or address never makes a line, a field, or a character that a terminal obeys. These are written
//! as `\u{9}`, with the hex digits of the character or the unit, at least one and without leading zeros:
//!
//! - characters below U+0020 (TAB, line feed, escape), U+007F, and U+0080 to U+009F (U+0085 among them);
//! - U+2028 and U+2029, the ends of a line and of a paragraph;
//! - what turns or hides text: U+061C, U+200B to U+200F, U+202A to U+202E, U+2060 to U+2069 and U+FEFF;
//! - a surrogate without its other half, as `\u{D800}`;
//! - a backslash, as `\u{5C}`, where `u{` follows it in a path, and everywhere in a user and an address.
//!
//! Each other character is written as it is, a backslash between two names of a path too, and so `\u{` always begins an escape. A text
//! is cut behind 1,024 bytes, which `\u{..}` then says. Bytes of a user that are no UTF-8 are written as U+FFFD.
//! A name is not quoted: one with blanks may look like the words behind it, but it stays in its field.
//!
//! That the calls are safe and return is proved. What the texts say is tested (tests/logging, crates/smb_tests/src/logs.rt).
#![tactic(auto)]

mod access;
mod asked;
mod escape;
mod line;
mod moment;
mod names;

pub use asked::put_request;
pub use escape::{put_file_name, put_typed, put_user};
pub use line::{Lines, Outcome, Subject};
pub use moment::put_moment;
