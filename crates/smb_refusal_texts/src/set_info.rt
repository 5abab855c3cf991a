//! The sentences of a SET_INFO.

use smb_refusals::{
    RenameRefusal, SetBasicRefusal, SetDispositionRefusal, SetInfoRefusal, SetSizeRefusal,
};

/// Why a SET_INFO, whatever its class is refused.
pub(crate) fn set_info_refusal(refusal: SetInfoRefusal) -> &'static str {
    match refusal {
        SetInfoRefusal::TypeNotSupported => "InfoType asks for a file system, security or quotas",
        SetInfoRefusal::UnknownType => "InfoType is none",
        SetInfoRefusal::UnknownClass => "the class cannot be set",
        SetInfoRefusal::BufferTooShort => "the buffer is shorter than the fixed part",
        SetInfoRefusal::RenameSaysNoName =>
            "RootDirectory is not 0, or FileNameLength is 0, odd or past the buffer",
    }
}

/// Why a SET_INFO of FileBasicInformation is refused.
pub(crate) fn set_basic_refusal(refusal: SetBasicRefusal) -> &'static str {
    match refusal {
        SetBasicRefusal::TimeOrAttributesInvalid =>
            "a time is none, or a file is to be a directory",
        SetBasicRefusal::AttributesNotGranted => "WRITE_ATTRIBUTES was not granted",
    }
}

/// Why a SET_INFO of FileDispositionInformation is refused.
pub(crate) fn set_disposition_refusal(refusal: SetDispositionRefusal) -> &'static str {
    match refusal {
        SetDispositionRefusal::DeleteNotGranted => "DELETE was not granted",
        SetDispositionRefusal::EntryNotDeletable => "it is the root, or a read-only file",
        SetDispositionRefusal::DirectoryNotEmpty => "entries are in the directory",
    }
}

/// Why a SET_INFO of FileEndOfFileInformation or FileAllocationInformation is refused.
pub(crate) fn set_size_refusal(refusal: SetSizeRefusal) -> &'static str {
    match refusal {
        SetSizeRefusal::EntryIsDirectory => "a directory has no size",
        SetSizeRefusal::WriteNotGranted => "WRITE_DATA was not granted",
        SetSizeRefusal::NoSpaceLeft =>
            "the file would be longer than the limits allow, or the space used pass the capacity",
    }
}

/// Why a SET_INFO of FileRenameInformation is refused.
pub(crate) fn rename_refusal(refusal: RenameRefusal) -> &'static str {
    match refusal {
        RenameRefusal::NameBeginsWithSeparator => "the new name begins with a separator",
        RenameRefusal::NameIsNoPath =>
            "the new name has a component that is not allowed, or more than 32",
        RenameRefusal::DeleteNotGranted => "DELETE was not granted, or the entry is the root",
        RenameRefusal::EntryToBeDeleted => "the entry is marked to be deleted",
        RenameRefusal::NewPathIsBeneath => "the new path lies beneath the entry",
        RenameRefusal::PathNotFound => "an entry above the new path is absent, or a file",
        RenameRefusal::OpenBeneath => "an entry beneath the directory is open",
        RenameRefusal::TargetToBeDeleted =>
            "what is at the new path, or its directory, is marked to be deleted",
        RenameRefusal::TargetExists =>
            "an entry exists at the new path, and ReplaceIfExists is not set",
        RenameRefusal::TargetNotReplaceable =>
            "what is at the new path is a directory, a read-only file, or open",
        RenameRefusal::PathTooDeep => "a path would have more than 32 components",
    }
}
