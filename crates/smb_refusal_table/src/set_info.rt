//! The rows of a SET_INFO, in the order in which they are looked at.

use crate::table::Table;
use smb_refusals::{
    Refusal, RenameRefusal, SetBasicRefusal, SetDispositionRefusal, SetInfoRefusal, SetSizeRefusal,
};

pub(crate) const SET_INFO: Table = Table {
    name: "SET_INFO",
    rows: &[
        Refusal::SetInfo(SetInfoRefusal::TypeNotSupported),
        Refusal::SetInfo(SetInfoRefusal::UnknownType),
        Refusal::SetInfo(SetInfoRefusal::UnknownClass),
        Refusal::SetInfo(SetInfoRefusal::BufferTooShort),
        Refusal::SetInfo(SetInfoRefusal::RenameSaysNoName),
    ],
};

pub(crate) const SET_BASIC: Table = Table {
    name: "SET_INFO, class 4",
    rows: &[
        Refusal::SetBasic(SetBasicRefusal::TimeOrAttributesInvalid),
        Refusal::SetBasic(SetBasicRefusal::AttributesNotGranted),
    ],
};

pub(crate) const SET_DISPOSITION: Table = Table {
    name: "SET_INFO, class 13",
    rows: &[
        Refusal::SetDisposition(SetDispositionRefusal::DeleteNotGranted),
        Refusal::SetDisposition(SetDispositionRefusal::EntryNotDeletable),
        Refusal::SetDisposition(SetDispositionRefusal::DirectoryNotEmpty),
    ],
};

pub(crate) const SET_SIZE: Table = Table {
    name: "SET_INFO, classes 19 and 20",
    rows: &[
        Refusal::SetSize(SetSizeRefusal::EntryIsDirectory),
        Refusal::SetSize(SetSizeRefusal::WriteNotGranted),
        Refusal::SetSize(SetSizeRefusal::NoSpaceLeft),
    ],
};

pub(crate) const RENAME: Table = Table {
    name: "SET_INFO, class 10",
    rows: &[
        Refusal::Rename(RenameRefusal::NameBeginsWithSeparator),
        Refusal::Rename(RenameRefusal::NameIsNoPath),
        Refusal::Rename(RenameRefusal::DeleteNotGranted),
        Refusal::Rename(RenameRefusal::EntryToBeDeleted),
        Refusal::Rename(RenameRefusal::NewPathIsBeneath),
        Refusal::Rename(RenameRefusal::PathNotFound),
        Refusal::Rename(RenameRefusal::OpenBeneath),
        Refusal::Rename(RenameRefusal::TargetToBeDeleted),
        Refusal::Rename(RenameRefusal::TargetExists),
        Refusal::Rename(RenameRefusal::TargetNotReplaceable),
        Refusal::Rename(RenameRefusal::PathTooDeep),
    ],
};
