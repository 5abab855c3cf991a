//! The tree of nodes: files and folders in slots.
//!
//! A [`NodeTree`] is a [`Tree`](smb_tree::Tree), with a content as each tree of smb_tree has (its
//! `specs/Content.antt`). An entry is a node in a slot of a slab; it knows the slot of the folder in which it stands
//! and, by folded name, the slots of its children. An index has the slot of each number.
//!
//! The path of a node is what the names say on the way up to the root, and the rows of the content are the nodes of
//! the index at their paths, in the order of their numbers: `specs/Nodes.antt`, which also says what holds between
//! nodes and index at any time (`IsTree`). A path is found by one step down for each component, a number by the
//! index. A rename changes a node and two folders, and with them the paths of all that lies beneath. Nothing goes
//! through all entries, but a rename by which a path could get too long.
//!
//! The bytes of a file are the `Pages` of smb_pages. What needs memory takes it before anything is changed, so that a
//! refusal leaves the tree as it was.
#![tactic(auto)]

mod additions;
mod change;
mod children;
mod first;
mod look;
mod moves;
mod next;
mod node;
mod paths;
mod places;
mod removals;
mod sizes;
mod tree;
mod ways;
mod whole_names;

pub use tree::NodeTree;
