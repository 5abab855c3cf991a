//! What a client is shown, and what it asks to be set: which names a pattern matches, and the information
//! classes.
//!
//! A [`Pattern`] says which names of a directory are wanted ([MS-FSA] 2.1.4.4). It is of smb_patterns, as are [`matches`] and
//! [`laws_of_patterns`].
//!
//! An information class is a table of fields beside its number ([MS-FSCC] 2.4, 2.5), some with a name behind it.
//! [`file_info`] tells those of a file or a folder, `specs/FileInformation.antt`, and [`fs_info`] those of a share
//! as a file system, `specs/FileSystemInformation.antt`. As many bytes are told as there is room for: a name may be
//! cut, the fixed part never. [`read_set_info`] reads what a SET_INFO asks, `specs/SetInformation.antt`.
//!
//! [`list`] answers a QUERY_DIRECTORY. What there is to list behind a place is `specs/Listing.antt`, what a query asks, by which
//! scan it goes on and why it is refused `specs/Queries.antt`, and what is told of an entry `specs/DirectoryInformation.antt`.
#![tactic(auto)]

mod candidate;
mod cursor;
mod directory;
mod directory_class;
mod directory_entry;
mod directory_fields;
mod fault;
mod file;
mod file_class;
mod file_fields;
mod file_system;
mod file_system_class;
mod file_system_fields;
mod following;
mod laws;
mod listing;
mod query;
mod scan;
mod set_info;
mod volume;
mod written;

pub use directory::list;
pub use directory_class::DirectoryInformationClass;
pub use fault::InfoFault;
pub use file::file_info;
pub use file_system::fs_info;
pub use laws::laws_of_listings;
pub use scan::ListAsk;
pub use set_info::{SetAsk, read_set_info};
pub use smb_patterns::{Pattern, laws_of_patterns, matches};
pub use volume::Volume;
pub use written::Truncation;
