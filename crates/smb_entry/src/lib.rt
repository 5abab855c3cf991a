//! What a request does to its entry through an open ([MS-SMB2] 3.3.5.12 to 3.3.5.14, 3.3.5.21).
//!
//! An inner crate of smb_opens: functions over any tree, any opens and plain values, which smb_opens joins to a store.
//! What an open shows of its entry is a view of smb_access, the inner crate below. Whether a request may is a table of
//! refusals, of which the first row that holds decides. The tables are in smb_opens, and here by what the code looks at
//! (`specs/Parts.antt`).
//!
//! - READ and WRITE: [`bytes`]. LOCK: [`locks`] (`specs/Locks.antt`).
//! - SET_INFO: [`set_info`] (`specs/SetInfo.antt`), of what a [`BasicAsk`] asks.
//! - A rename: [`rename`] (`specs/Rename.antt`, and what it finds on its way in `specs/Ways.antt`), and [`beneath`], which tells what lies
//!   beneath what.
//!
//! Calls take time as the tree and the opens say: [`beneath::has_open_beneath`] goes through all opens, and from each up to the root.
#![tactic(auto)]

mod ask;
pub mod beneath;
pub mod bytes;
pub mod locks;
pub mod rename;
pub mod set_info;

pub use ask::BasicAsk;
