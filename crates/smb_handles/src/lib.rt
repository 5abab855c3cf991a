//! The opens of a server in slots, with indexes.
//!
//! [`HandleTable`] is a body of the trait [`Opens`](smb_access::Opens): a list of opens in rising number, as that trait's contract
//! says it in the words of smb_access (`specs/Opens.antt` there). Nothing else of the table is seen from outside, so a caller may
//! take it in place of [`PlainOpens`](smb_access::PlainOpens), which meets the same contract, and goes through all opens where this
//! one looks up.
//!
//! Its parts:
//!
//! - the opens, each in a slot of a slab. A slot is used again, the number of an open never;
//! - an index that leads from the numbers, in their order, to the slots;
//! - groups of opens (`groups.rt`), under names (`key.rt`): for each entry, each session, and each tree connect of a session, the
//!   numbers of its opens in order; all in one ordered set, in which each number has the name of its group. A group that has
//!   no opens takes no memory;
//! - uses (`uses.rt`): for each entry how many of its opens read it, write it, delete it, and do not share one of these. So whether
//!   an entry has an open that stands in the way of another one is looked up. An entry that none uses so takes no memory.
//!
//! What `specs/` says of them (that the index leads to the opens of its numbers, and to each slot that is in use, that
//! each group has the numbers of its opens, and that each count is right) holds of every table; only the proofs need
//! it.
//!
//! A call takes time logarithmic in the number of opens, and `on_entry` as much more as the place it is asked for. Memory is taken
//! by `add` alone.
#![tactic(auto)]

mod groups;
mod key;
mod table;
mod uses;

pub use table::HandleTable;
