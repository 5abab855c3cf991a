//! Patterns of file names ([MS-FSA] 2.1.4.4), and which names they match.
//!
//! A [`Pattern`] says which names of a directory are wanted. What each of its units may take of a name is a table,
//! `specs/Patterns.antt`; [`matches`] decides it, and a [`Matcher`] decides it for many names by one pattern. What
//! that means for `*`, for `?`, for names without wildcards and for the three wildcards of DOS is the contract of
//! [`laws_of_patterns`].
#![tactic(auto)]

mod bits;
mod byte_table;
mod laws;
mod matcher;
mod matching;
mod pattern;
mod rests;
mod rows;
mod step;
mod symbol;
mod symbols;

pub use laws::laws_of_patterns;
pub use matcher::Matcher;
pub use matching::matches;
pub use pattern::Pattern;
