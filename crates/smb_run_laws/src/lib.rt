//! What a user would say of a whole run of a share, as laws over its definition (smb_engine).
//!
//! Nothing here runs: the public function has an empty body, and its `ensures` clauses are the laws. A run is the list
//! of its actions: the requests that it performed, and the connections that it ended (`specs/Actions.antt`); each
//! changes the files by at most one step of the store, or, as the end of a connection, by one for each session. That is
//! the bridge from the laws of stores to runs: over it [`laws_of_runs`] says what one client's requests are to
//! another's, `specs/Written.antt`, `specs/OpenFiles.antt` and `specs/Locks.antt`, and how a chain is answered,
//! `specs/Answers.antt`. All of it holds where memory runs out too (`specs/MemoryRuns.antt`). Definitions that a user
//! would call wrong, each with a proof that a law is false of it, are in `proofs/WrongRuns.antt` and
//! `proofs/WrongChains.antt`. Only laws stand on this crate.
#![tactic(auto)]

mod runs;

pub use runs::laws_of_runs;
