//! The tree of files and folders: which entry stands at which path.
//!
//! A [`Tree`] has a content: the entries at their paths, in the order of their numbers, with the next number and the
//! capacity (`specs/Content.antt`). A path is a list of folded components; the entry at a path, and the entry of a
//! number, is the first one found in the list. Every call answers by the content and changes it as its clauses say; why
//! one is refused is `specs/Faults.antt`, the first reason that holds, or that memory ran out, and a refusal leaves the
//! tree as it was. That a list in which no path and no number is there twice is a finite map from paths, and stays so,
//! is the contract of [`laws_of_contents`].
//!
//! A file is a list of bytes: [`Tree::read`] gives a part of it, and [`Tree::write`] replaces one, behind zeros
//! where it is past the end. Which entries stand in a folder, and in which order [`Tree::child_after`] gives
//! them, is `specs/Children.antt`. What a user expects of both is among the laws (`specs/FileLaws.antt`,
//! `specs/ChildLaws.antt`).
//!
//! [`Tree::move_entry`] takes an entry, with all that lies beneath it, to another path, and replaces a file there:
//! `specs/Moves.antt`. What a user expects of a move, and that it keeps a content good, is the contract of
//! [`laws_of_moves`]. [`Tree::copy_entry`] gives an entry with its whole name, `specs/WholeNames.antt`.
//!
//! Code over a `T: Tree` knows all this of every tree. [`PlainTree`] is one: a list of entries, each with its
//! whole path and its bytes.
#![tactic(auto)]

mod bytes;
mod children;
mod entry;
mod entry_copy;
mod fault;
mod laws;
mod look;
mod moves;
mod paths;
mod plain;
mod stored;
mod texts;
mod tree;
mod usage;
mod whole_names;

pub use entry::{Basic, EntryNo, EntryView, KEPT_ATTRIBUTES, Kind, allocation_size};
pub use entry_copy::EntryCopy;
pub use fault::TreeFault;
pub use laws::{laws_of_contents, laws_of_moves};
pub use plain::PlainTree;
pub use tree::{CHILDREN_AT_ONCE, Children, KeptContent, Tree};
pub use usage::Usage;
