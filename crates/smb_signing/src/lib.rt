//! Signatures of messages in dialects 2.0.2 and 2.1 ([MS-SMB2] 3.1.4.1).
//!
//! A [`Key`] has the 16 bytes of a session's key. [`Key::signature`] is the signature of a message, [`Key::sign`] puts
//! it into the message's header, and [`Key::has_signed`] is whether the one that is there is right. All three are by
//! the definitions of `specs/Signature.antt`: `signature`, which is HMAC-SHA256 (RFC 2104, over the `sha256` of the
//! library `sha2`) with zeros in the place of the signature, and `signed`. [`signatures_of_four`] gives those of up to
//! four messages, each by its own key, in less time: where they are alike in length, four take about that of two.
//!
//! A message is a slice: one request or response of a chain, from its header up to the next header or the end of the
//! payload, with the padding between them. It is hashed where it lies, in one pass, and no memory is taken.
//!
//! That nobody signs without the key is believed of HMAC-SHA256, and not proved. No contract says how long a call
//! takes; a comparison is written to take as long for each wrong signature.
#![tactic(auto)]

mod four;
mod hmac;
mod key;
mod known;
#[cfg(test)]
mod tests;

pub use four::{Message, signatures_of_four};
pub use key::Key;
pub use known::KnownSignature;
