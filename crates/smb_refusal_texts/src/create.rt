//! The sentences of a CREATE.

use smb_refusals::CreateRefusal;

/// Why a CREATE is refused.
pub(crate) fn create_refusal(refusal: CreateRefusal) -> &'static str {
    match refusal {
        CreateRefusal::UnknownDisposition => "CreateDisposition is over 5",
        CreateRefusal::DirectoryToBeOverwritten =>
            "a directory is asked for, and a file too, or one to be overwritten",
        CreateRefusal::NameBeginsWithSeparator => "the name begins with a separator",
        CreateRefusal::OpenByFileId => "OPEN_BY_FILE_ID is not supported",
        CreateRefusal::NameIsNoPath =>
            "the name has a component that is not allowed, or more than 32",
        CreateRefusal::NoAccessAsked =>
            "no access is asked for, or an unknown bit; or DELETE_ON_CLOSE without DELETE",
        CreateRefusal::SessionMayOnlyRead => "the session may only read, and asks for more",
        CreateRefusal::PathNotFound => "an entry above the path is absent, or a file",
        CreateRefusal::EntryToBeDeleted => "the entry or its directory is marked to be deleted",
        CreateRefusal::EntryAbsent => "the entry is absent, and has to exist",
        CreateRefusal::SessionMayNotAdd => "the entry is absent, and the session may only read",
        CreateRefusal::EntryExists => "the entry exists, and has to be new",
        CreateRefusal::EntryIsDirectory =>
            "it is a directory, where a file is asked for or is to be overwritten",
        CreateRefusal::EntryIsFile => "it is a file, where a directory is asked for",
        CreateRefusal::FileIsReadOnly =>
            "it is a read-only file, and is to be overwritten or written",
        CreateRefusal::EntryNotDeletable =>
            "DELETE_ON_CLOSE of the root, or of a file that is or becomes read-only",
        CreateRefusal::OpenConflicts => "it has an open with which this one conflicts",
        CreateRefusal::NoOpenLeft =>
            "there are as many opens as the limits allow, or their numbers are spent",
        CreateRefusal::NoEntryLeft =>
            "there are as many entries as the limits allow, or their numbers are spent",
    }
}
