//! The tests of the crates below smb_request, and of a start from a journal, that no row of `smb_rows` can say; and the
//! words in which frames are written in tests.
#![tactic(auto)]

#[cfg(test)]
mod body;
#[cfg(test)]
mod frame;
#[cfg(test)]
mod head;
#[cfg(test)]
mod opens;
#[cfg(test)]
mod pages;
#[cfg(test)]
mod recovery;
#[cfg(test)]
mod session;
#[cfg(test)]
mod tree;
#[cfg(test)]
mod tree_of_files;
#[cfg(test)]
mod wire;
pub mod words;
