//! What a user would say of a share's files, proved as laws over its definitions.
//!
//! The definitions of the crates below say what each request does to a store; a reader must believe them. The laws here
//! say what a user relies on, in sentences that do not repeat those definitions: [`laws_of_locking`] what a LOCK adds,
//! what an UNLOCK takes away, and that no lock of another open is touched; [`laws_of_reading`] that a READ gives what
//! was last written there, and zeros where nothing was; [`laws_of_space`] that the space used is the sum of what the
//! files take and never passes the capacity; [`laws_of_successes`] that a request succeeds exactly where it may, with
//! an example of each command; and [`laws_of_good_stores`] that a good store stays good, so that these laws hold
//! between any two requests. A definition that breaks one of them is refused by the check. The files
//! proofs/Wrong*.antt have, for each kind of law, a wrong definition that it refuses.
//!
//! The statements are in `specs/`, a file for each function. Nothing uses this crate, and it has no code: each
//! function's contract is the statement, and its body does nothing.
#![tactic(auto)]

mod good_stores;
mod locking;
mod reading;
mod space;
mod successes;

pub use good_stores::laws_of_good_stores;
pub use locking::laws_of_locking;
pub use reading::laws_of_reading;
pub use space::laws_of_space;
pub use successes::laws_of_successes;
