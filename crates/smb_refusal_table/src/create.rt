//! The rows of a CREATE, in the order in which they are looked at.

use crate::table::Table;
use smb_refusals::{CreateRefusal, Refusal};

pub(crate) const CREATE: Table = Table {
    name: "CREATE",
    rows: &[
        Refusal::Create(CreateRefusal::UnknownDisposition),
        Refusal::Create(CreateRefusal::DirectoryToBeOverwritten),
        Refusal::Create(CreateRefusal::NameBeginsWithSeparator),
        Refusal::Create(CreateRefusal::OpenByFileId),
        Refusal::Create(CreateRefusal::NameIsNoPath),
        Refusal::Create(CreateRefusal::NoAccessAsked),
        Refusal::Create(CreateRefusal::SessionMayOnlyRead),
        Refusal::Create(CreateRefusal::PathNotFound),
        Refusal::Create(CreateRefusal::EntryToBeDeleted),
        Refusal::Create(CreateRefusal::EntryAbsent),
        Refusal::Create(CreateRefusal::SessionMayNotAdd),
        Refusal::Create(CreateRefusal::EntryExists),
        Refusal::Create(CreateRefusal::EntryIsDirectory),
        Refusal::Create(CreateRefusal::EntryIsFile),
        Refusal::Create(CreateRefusal::FileIsReadOnly),
        Refusal::Create(CreateRefusal::EntryNotDeletable),
        Refusal::Create(CreateRefusal::OpenConflicts),
        Refusal::Create(CreateRefusal::NoOpenLeft),
        Refusal::Create(CreateRefusal::NoEntryLeft),
    ],
};
