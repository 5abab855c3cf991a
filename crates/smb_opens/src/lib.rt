//! Opens of files and folders, and the store that joins them to a tree ([MS-SMB2] 3.3.5.9 to 3.3.5.14, 3.3.5.21).
//!
//! Which open is granted is in the crate smb_access, and what a request does through one in smb_entry; all their types are exported
//! here: an open is an [`OpenRow`], [`Opens`] any list of them in rising number, and [`PlainOpens`] the plain one.
//! A [`Store`] is a tree, its opens and their locks; its state is `specs/State.antt`, and what holds of it between any two
//! calls `specs/Good.antt`. A file of specs/ here says of a store what the one of its name in those crates says of its parts.
//!
//! [`Store::create`] answers a CREATE: with the status that the table of `specs/Create.antt` gives; or, where no row
//! holds, with what `specs/Effect.antt` does: one entry at most is added or overwritten, and one open comes last. A
//! refusal, and memory that runs out, change nothing. Two opens of one entry never conflict, as smb_access says it in
//! its `specs/Sharing.antt`. [`Store::close`] and [`Store::close_all`] take opens away, and with its last open an entry
//! that is marked, as `specs/Close.antt` says; they take no memory.
//!
//! [`Store::read`] and [`Store::write`] read and write the bytes of a file, as `specs/Bytes.antt` says; they are copied once.
//! [`Store::lock`] and [`Store::unlock`] answer a LOCK, as `specs/Locks.antt` says; the locks of a file bar reads and writes
//! through other opens, and go with the open that holds them.
//!
//! [`Store::set_delete`], [`Store::set_size`] and [`Store::set_basic`] answer a SET_INFO, as `specs/SetInfo.antt` says: of
//! the mark of an entry, of the size of a file, and of an entry's times and attributes. [`Store::rename`] answers one of an
//! entry's name: with the status that the table of `specs/Renames.antt` gives; or the entry is moved with all that lies beneath it, as the
//! same file says.
//!
//! Each call that has a table comes twice. [`Store::write_by_row`], and so each of that ending, is Ok only where no row
//! of its table refuses it, and else names the row; out of memory comes only where none does (`IsRefusedBy` of
//! smb_refusals). [`Store::write`], and so each without that ending, is Ok only where its status by the table is
//! STATUS_SUCCESS, and else tells the status; out of memory comes only there too (`IsRefusal` of smb_access).
//!
//! [`Store::set_scan`] keeps how far a scan of a directory has come through an open.
//!
//! A CREATE looks its path and its folder up, asks at most six questions of the opens of its entry, and takes what is stored for an
//! overwritten file away; all else takes time as the tree and the opens say.
#![tactic(auto)]

mod bytes;
mod laws;
mod locks;
mod renames;
mod scans;
mod set_info;
mod store;

pub use bytes::FilePart;
pub use laws::laws_of_stores;
pub use smb_access::{
    Closed, CreateAsk, Created, OpenNo, OpenRow, Opens, Owner, PlainOpens, Scan, ScanLast,
    SharingUse, StoreFault, View,
};
pub use smb_entry::BasicAsk;
pub use store::Store;
