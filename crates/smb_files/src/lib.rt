//! Files by their numbers, and which changes of them the calls of a tree (smb_tree) are.
//!
//! A tree's content has its entries at paths, so that a folder that is moved changes the path of all beneath it. Its
//! files (`files_of`) have the same entries under their numbers, each with the number of its folder: there a call
//! changes one entry, or two. So a list of changes, each of one entry, says what a tree went through, and whoever has
//! the files before and the list has the files after: that is `replayed`.
//!
//! Nothing here runs: [`laws_of_files`] has an empty body, and its `ensures` clauses are the laws. For each of them
//! proofs/WrongChanges.antt has a wrong definition that it refuses.
#![tactic(auto)]

mod laws;

pub use laws::laws_of_files;
