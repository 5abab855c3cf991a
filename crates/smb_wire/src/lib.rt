//! What every layer of the protocol reads and writes: numbers, tables of fields, text, names and paths.
//!
//! A number is unsigned and stands with its lowest byte first ([MS-SMB2] 2.2). [`u16_at`] and its kin
//! take any bytes and any place; [`u16_in`] and its kin are for a place that was looked at before; both
//! allocate nothing. The `put_` calls add to the end of a vector. What bytes spell which number is
//! `specs/Number.antt`; that each number has one spelling, and that what is put is read, is the
//! contract of [`laws_of_numbers`].
//!
//! A header, a body or an information class is a table of fields, one row a field, as the standard
//! prints it: `specs/Fields.antt`. That what is written so is read so is the contract of
//! [`laws_of_fields`].
//!
//! Text is [`Units`]: UTF-16 units over borrowed bytes, as `specs/Pairs.antt` says.
//!
//! Names are compared folded, a to z as A to Z: `specs/Names.antt`. [`same_name`] and [`compare_folded`]
//! compare borrowed text in place; a [`FoldedName`] is a key of its own. A [`PathView`] is a name cut into
//! its components, over the same borrowed text; which names are paths, and why the others are none, is
//! `specs/Paths.antt`. Names and paths allocate nothing.
//!
//! What a number on the wire means has a type here, one for each meaning, which every crate above uses: [`Command`],
//! [`Dialect`], [`Access`], [`ShareAccess`], [`CreateOptions`], [`CreateDisposition`], [`CreateAction`],
//! [`FileAttributes`], [`LockFlags`], [`QueryDirectoryFlags`], [`FileId`]; [`NtStatus`] is the one list of statuses. Their numbers stand in
//! `specs/` by the standard's names. [`limits`] has the limits of messages, clients and files.
#![tactic(auto)]

mod access;
mod attributes;
mod command;
mod create_action;
mod create_options;
mod dialect;
mod disposition;
mod fault;
mod fields;
mod file_id;
mod folded;
pub mod limits;
mod lock_flags;
mod names;
mod nt_status;
mod number;
mod parts;
mod paths;
mod query_directory_flags;
mod split;
mod units;

pub use access::{Access, ShareAccess};
pub use attributes::FileAttributes;
pub use command::{Command, CommandCode, laws_of_commands};
pub use create_action::CreateAction;
pub use create_options::CreateOptions;
pub use dialect::Dialect;
pub use disposition::{CreateDisposition, CreateDispositionCode};
pub use fault::{PathFault, WireFault};
pub use fields::{laws_of_fields, put_bytes, put_u8, u8_in, u16_in, u32_in, u64_in};
pub use file_id::FileId;
pub use folded::FoldedName;
pub use lock_flags::LockFlags;
pub use names::{compare_folded, fold_unit, same_name};
pub use nt_status::{NtStatus, laws_of_statuses};
pub use number::{
    in_eight, in_four, in_two, laws_of_numbers, put_u16, put_u32, put_u64, u16_at, u32_at, u64_at,
};
pub use paths::PathView;
pub use query_directory_flags::QueryDirectoryFlags;
pub use split::{laws_of_components, split_path};
pub use units::{Units, laws_of_units};
