//! What a user would say of names, opens and deletes, as laws over the definitions of a store (smb_opens).
//!
//! Nothing here runs: each public function has an empty body, and its `ensures` clauses are the laws.
//! [`laws_of_deletes`] says which entry goes with which CLOSE; [`laws_of_sharing`] whom an open keeps out;
//! [`laws_of_creates`] and [`laws_of_renames`] what a name finds afterwards; [`laws_of_new_names`] which names can be
//! made, and which an entry can be renamed to; [`laws_of_opens`] what an open is like that is made;
//! [`laws_of_settings`] what a SET_INFO and a WRITE set of an entry; [`laws_of_numbers`] that no number of an open or
//! an entry is given twice. For each kind of law, proofs/Wrong*.antt have a wrong definition that it refuses.
#![tactic(auto)]

mod creates;
mod deletes;
mod names;
mod new_names;
mod numbers;
mod opened;
mod settings;
mod sharing;

pub use creates::laws_of_creates;
pub use deletes::laws_of_deletes;
pub use names::laws_of_renames;
pub use new_names::laws_of_new_names;
pub use numbers::laws_of_numbers;
pub use opened::laws_of_opens;
pub use settings::laws_of_settings;
pub use sharing::laws_of_sharing;
