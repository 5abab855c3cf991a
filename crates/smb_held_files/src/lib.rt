//! The files that changes make (smb_files), held in memory by their numbers.
//!
//! Whoever reads a journal begins with [`HeldFiles::new`], gives each change in its turn to [`HeldFiles::apply`], and
//! then has the files that all of them make: a change takes them to `changed_by` of smb_files. They can then be gone
//! through in rising number, and taken out one by one. The bytes of a file are kept in pages (smb_pages), and each call
//! finds its entry in logarithmic time.
//!
//! A change of a number that no entry has changes nothing, but for one that says what the entry is. Only what no share
//! can have is refused: bytes past the greatest size of a file, and the number after which there is no next one.
#![tactic(auto)]

mod fault;
mod file;
mod files;
mod map;

pub use fault::HoldFault;
pub use file::HeldFile;
pub use files::HeldFiles;
