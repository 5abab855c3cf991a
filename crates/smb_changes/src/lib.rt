//! Changes of a share's files as bytes, in batches that are each written whole.
//!
//! A [`Change`] says what an entry is, puts bytes into a file, sets a file's size, removes an entry, or raises the next
//! number. It speaks of entries by their numbers, and what changes make of files is `replayed` of the library
//! `smb_files`. [`put_change`] adds the bytes of one, and [`read_change`] reads one.
//!
//! [`put_batch`] adds a batch: its front, of 24 bytes, the bytes of its changes, and its back, of 9 bytes
//! (`specs/Batches.antt`). An [`OpenBatch`] is the same, made in the bytes to which its changes are added one by one,
//! so that none is copied again. Each number of a batch stands in 8 bytes, the lowest first. Batches are numbered
//! from 1 on, and each is chained to the one before it: both its checks are begun with a seed, which is the check in
//! the back of the batch before, and of the first batch a number that is kept elsewhere. So a batch that was written
//! by another seed is never read, though its number is right. [`check_of`] finds damage, and keeps nobody from
//! writing what he likes. [`is_front`] says whether 24 bytes are a batch's front, and [`read_batch`] reads the batch
//! of a number and a seed, and gives the seed of the next.
//!
//! The last byte of a batch is not 0. So of a beginning of the bytes, with zeros behind it or none, those batches are
//! read that lie wholly in it, and no other, whatever the checks say. That, and that no such beginning is taken for
//! damage, is the contract of [`laws_of_batches`] (`specs/Crash.antt`, `specs/Chains.antt`); so is that bytes have no
//! second spelling: those that are read as a batch are those that are written of its changes (`specs/Exact.antt`). That
//! a file keeps what was written in order, up to some byte, is not proved here, nor that other damage is found.
#![tactic(auto)]

mod batch;
mod change;
mod check;
mod laws;
mod open_batch;
mod read;

pub use batch::put_batch;
pub use change::{Change, put_change};
pub use check::check_of;
pub use laws::laws_of_batches;
pub use open_batch::OpenBatch;
pub use read::{BatchView, is_front, read_batch, read_change};
