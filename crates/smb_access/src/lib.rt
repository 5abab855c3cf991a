//! What an open is, which one is granted, and what its end does ([MS-SMB2] 3.3.5.9, 3.3.5.10).
//!
//! An inner crate of smb_opens: that crate joins these parts to a store, and exports the types of this one on. Here is what
//! needs no store: functions over any tree, any opens and plain values. What a request does through an open that was granted is
//! in smb_entry.
//!
//! An open is an entry, who opened it and what for: an [`OpenRow`]. [`Opens`] is any list of them in rising number, as
//! `specs/Opens.antt` says, and [`PlainOpens`] the plain one. What an open shows of its entry is a [`View`] (`specs/Views.antt`).
//! Whether a request may is a table of statuses, of which the first row that holds decides (`specs/StatusRows.antt`). Why a
//! store refuses is a [`StoreFault`] (`specs/Faults.antt`).
//!
//! - CREATE: what is asked is a [`CreateAsk`] (`specs/Asked.antt`). [`look`] looks up the entry and the folder around it
//!   (`specs/Found.antt`), [`checks`] goes through the rows of the table, [`access`] says which access is granted
//!   (`specs/Access.antt`), [`sharing`] which two opens of an entry conflict (`specs/Sharing.antt`), and [`effect`] overwrites an
//!   entry and makes the open (`specs/Effect.antt`, `specs/Parts.antt`).
//! - CLOSE: [`close`] marks an entry, and removes one that is marked and has no open (`specs/Close.antt`, `specs/Parts.antt`).
//!
//! Calls take time as the tree and the opens say: [`sharing::conflicts`] asks the opens at most six questions ([`Opens::has_use`]),
//! and [`look::count_entries`] goes through all numbers of entries.
#![tactic(auto)]

pub mod access;
mod ask;
pub mod checks;
pub mod close;
pub mod effect;
pub mod fault;
pub mod found;
pub mod look;
mod open_row;
mod opens;
mod plain;
mod scan;
pub mod sharing;
mod use_kind;
mod view;

pub use access::most_allowed;
pub use ask::CreateAsk;
pub use fault::StoreFault;
pub use open_row::{OpenNo, OpenRow, Owner};
pub use opens::Opens;
pub use plain::PlainOpens;
pub use scan::{Scan, ScanLast};
pub use use_kind::SharingUse;
pub use view::{Closed, Created, View};
