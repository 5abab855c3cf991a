//! A tree from files that are held by their numbers.
//!
//! [`tree_of`] makes a [`NodeTree`](smb_nodes::NodeTree) whose files are those of a
//! [`HeldFiles`](smb_held_files::HeldFiles): each entry has its number, its folder, its spelling, its times and
//! attributes, its mark and its bytes, and the next number is the same. Files that are not those of a tree are refused.
//!
//! The entries are added in the order of their numbers, each under a temporary name in the root, and are then moved to
//! their places, a folder before what is in it. What came of it is compared with what was held, entry by entry, so that
//! no proof needs the way in which it was made. Then each file gets its bytes, and what was held of it is let go.
#![tactic(auto)]

mod build;
mod check;
mod fault;
mod fill;
mod names;
mod numbers;
mod places;
mod steps;

pub use build::tree_of;
pub use fault::BuildFault;
pub use numbers::numbers_of;
