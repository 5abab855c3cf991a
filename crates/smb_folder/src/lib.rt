//! Files between a folder of the system and a share.
//!
//! [`put_folder`] puts the files and folders of a folder into a share, by the requests of a
//! [`Client`](smb_client::Client) over a [`Line`](smb_client::Line), which has its session and its tree; every limit
//! and rule of the share holds for them. [`take_folder`] makes a new folder of the files of a
//! [`Tree`](smb_tree::Tree), by the tree's own calls. Beside names and bytes the times of the last write and of the
//! last access are kept, in units of 100 ns, and READONLY, which is a mode without a right to write.
//!
//! What a folder does not keep, as HIDDEN and the time of a creation, is in a list beside it, a file of its name and
//! `.attributes`: the module `notes` has its form. [`take_folder`] writes it, [`put_folder`] reads it.
//!
//! What cannot be moved is a [`FolderFault`], which names the path and the rule. The others are moved all the same,
//! and all faults returned. None needs more memory than the names in the folders that are being walked, the list, and
//! one part of a file.
//!
//! That the calls are safe and return is proved; what they make of files and requests is tested.
#![tactic(auto)]

mod counts;
mod fault;
mod grouped;
mod kept;
mod names;
mod note;
mod notes;
mod progress;
mod put;
mod take;
mod talk;

pub use counts::Counts;
pub use fault::{FolderFault, FolderRule};
pub use names::name_of;
pub use progress::Progress;
pub use put::{Put, put_folder, put_folder_noted};
pub use take::{Taken, take_folder};
