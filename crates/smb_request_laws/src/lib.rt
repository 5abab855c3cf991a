//! What a user would say of one request, as laws over the definitions of requests (smb_request) and of what they stand
//! on.
//!
//! Nothing here runs: each public function has an empty body, and its `ensures` clauses are the laws.
//! [`laws_of_acting`] says under whose session, tree connect and open a request acts; [`laws_of_doing`] that what is
//! answered is what was done; [`laws_of_responses`] that what a response says of an entry is what is there;
//! [`laws_of_scans`] that an entry that keeps its name while a directory is listed is listed once; [`laws_of_serving`]
//! that whoever may is served; [`laws_of_answers`] and [`laws_of_admission`] who is let in; [`laws_of_credits`] how many
//! credits are granted. For each law, proofs/Wrong*.antt have a wrong definition that it refuses.
#![tactic(auto)]

mod acting;
mod admission;
mod credits;
mod doing;
mod responses;
mod scans;
mod serving;

pub use acting::laws_of_acting;
pub use admission::{laws_of_admission, laws_of_answers};
pub use credits::laws_of_credits;
pub use doing::laws_of_doing;
pub use responses::laws_of_responses;
pub use scans::laws_of_scans;
pub use serving::laws_of_serving;
