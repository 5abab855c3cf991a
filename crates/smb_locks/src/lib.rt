//! Byte-range locks of files ([MS-SMB2] 3.3.5.14).
//!
//! A [`LockTable`] has for each file its locks, oldest first. A lock is held by an open over a range of bytes, and is
//! shared or exclusive. A range is a set of numbers, and two ranges overlap where some number is in both
//! (`specs/Ranges.antt`). What conflicts with what, and what bars a read or a write, is said by overlap over the locks
//! of one file (`specs/Conflicts.antt`). A request that locks adds all of its locks or none (`specs/Locking.antt`); one
//! that unlocks takes locks out one by one, up to the first element that is refused (`specs/Unlocking.antt`).
//!
//! No two overlapping locks of different opens have an exclusive one among them: [`LockTable::good`]. That the ends of
//! two ranges, which the code compares, say whether they overlap, is among the laws of [`laws_of_locks`].
#![tactic(auto)]

mod ask;
mod fault;
mod file_locks;
mod laws;
mod lock;
mod range;
mod table;

pub use ask::LockAsk;
pub use fault::{LockFault, UnlockError};
pub use laws::laws_of_locks;
pub use lock::Lock;
pub use range::ByteRange;
pub use table::LockTable;
