//! SHA-256 of four messages side by side, in vectors of four words: lane j of each vector is message j's.
//!
//! An inner crate of smb_signing: four messages are signed by it, and nothing of it is exported on.
//!
//! A [`FourHashes`] takes in a block of 64 bytes of each of four messages at a time, by [`FourHashes::add_blocks`], and
//! [`FourHashes::finish`] takes what is left of each, of any lengths, and gives the four digests. They are by `sha256`
//! as the library `sha2` defines it. No memory is taken, and no message is copied but for its last 64 bytes at most.
//!
//! `rounds` takes one block of each message into the four hash values, and `vectors` has its words. `source` gives the
//! blocks of a message where they lie, and behind them those of its padding. `hash` goes through the blocks of four
//! sources side by side, until the longest is done.
//!
//! Of four messages that are alike in length, it takes about half the time of one hash after the other; of one long
//! message beside three short ones it takes about twice the time. Which to take is left to the caller.
#![tactic(auto)]

mod constants;
mod hash;
mod rounds;
mod source;
#[cfg(test)]
mod tests;
mod vectors;

pub use hash::FourHashes;
