//! A tree around a tree whose changes are kept in a journal.
//!
//! A [`JournaledTree`] is a tree (`Tree` of the library `smb_tree`) with the content of another one that it holds. It
//! notes what changes, and [`JournaledTree::settle`] writes what changed since the last time as one batch of changes
//! (the library `smb_changes`) behind those that a [`JournalFile`] has. What a crash leaves of the file then keeps the
//! files as they were at the last time or as they are at this one (`specs/Journal.antt`). Where nothing changed nothing
//! is written.
//!
//! Additions, writes and other sizes are noted before they are made: want of memory refuses them, and want of room in
//! the file for all that is noted and a margin (`specs/Room.antt`). Other times and attributes, marks, removals and
//! moves take no memory for the journal, and the margin of its room: the entries that they change are marked dirty, for
//! which each has a slot from its addition on, and `settle` notes each of these as it then is.
//!
//! A journal that is much longer than its files need is written anew beside itself, a slice at a time, while changes go on
//! (`JournaledTree::renew`): the entries in the order of their numbers, and between two slices each batch that the journal
//! gets. So what is written of an entry is followed by all that changes it, and once all entries are written, both files
//! keep the same (`specs/Renewal.antt`). Only then, and once all of it lasts, the new file takes the old one's place.
//!
//! [`MemoryFile`] is a journal's file in memory, for trials.
#![tactic(auto)]

mod faults;
mod file;
mod journal;
mod notes;
mod place;
mod renewal;
mod renewing;
mod room;
mod slice;
mod slots;
mod torn;

pub use file::{JournalFault, JournalFile, MemoryFile};
pub use journal::{Chain, JournaledTree};
