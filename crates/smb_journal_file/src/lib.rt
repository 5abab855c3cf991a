//! A journal of changes in a file.
//!
//! A [`DiskFile`] is the file of a journal, which a [`JournaledTree`](smb_journaled_tree::JournaledTree) writes to. Its
//! first line says what it is, and has the seed of the first batch and how many bytes are behind it at least; the batches
//! are behind it. To clauses the file is the bytes that were read of it and written to it ([`Done`]): that the disk has
//! these bytes is trusted, and so is that after a crash it has some beginning of them, with zeros behind it or none.
//!
//! Beside it is a [`RoomFile`] of zeros: room on the disk that is taken before it is needed. Where the disk has no
//! more, the bytes of a batch get this room, and a change that needs more is refused before it is made.
//!
//! Where it gets much longer than its files need, a next file is made beside it ([`NextWords`]), which takes its place
//! once it has all of them. The file whose place it took goes a step at a time.
//!
//! Where what is written has to last before it is answered, one wait is for all pieces that are ready ([`SharedSync`]).
#![tactic(auto)]

mod disk;
mod done;
mod first;
mod leaving;
mod next;
mod pace;
mod renewals;
mod room;
mod shared_sync;

pub use disk::DiskFile;
pub use done::Done;
pub use first::{DIGITS, FIRST_LINE, FIRST_LINE_BEFORE, LEAST_AT, SEED_AT, first_line};
pub use next::NextWords;
pub use renewals::{Renewals, Renewed};
pub use room::{RoomFile, is_full};
pub use shared_sync::SharedSync;
