//! Why a CREATE is refused ([MS-SMB2] 3.3.5.9).

ghost use Rattle.std.specs.Prelude.{◌≡◌};
ghost use Rattle.smb_refusals.specs.Refusals.{refusal_status, refusal_label};
ghost use Rattle.smb_refusals.specs.declared.refusal.Refusal.{Refusal};

use smb_wire::NtStatus;

/// Why a CREATE is refused, in the order in which it is looked at ([MS-SMB2] 3.3.5.9).
#[derive(Clone, Copy)]
pub enum CreateRefusal {
    /// C1: CreateDisposition is over 5.
    UnknownDisposition,
    /// C2: a directory is asked for, and a file too, or one to be overwritten.
    DirectoryToBeOverwritten,
    /// C3: the name begins with a separator.
    NameBeginsWithSeparator,
    /// C4: OPEN_BY_FILE_ID is not supported.
    OpenByFileId,
    /// C5: the name has a component that is not allowed, or more than 32.
    NameIsNoPath,
    /// C6: no access is asked for, or an unknown bit; or DELETE_ON_CLOSE without DELETE.
    NoAccessAsked,
    /// C6b: the session may only read, and asks for more.
    SessionMayOnlyRead,
    /// C7: an entry above the path is absent, or a file.
    PathNotFound,
    /// C8: the entry or its directory is marked to be deleted.
    EntryToBeDeleted,
    /// C9: the entry is absent, and has to exist.
    EntryAbsent,
    /// C9b: the entry is absent, and the session may only read.
    SessionMayNotAdd,
    /// C10: the entry exists, and has to be new.
    EntryExists,
    /// C11: it is a directory, where a file is asked for or is to be overwritten.
    EntryIsDirectory,
    /// C12: it is a file, where a directory is asked for.
    EntryIsFile,
    /// C13: it is a read-only file, and is to be overwritten or written.
    FileIsReadOnly,
    /// C14: DELETE_ON_CLOSE of the root, or of a file that is or becomes read-only.
    EntryNotDeletable,
    /// C15: it has an open with which this one conflicts.
    OpenConflicts,
    /// C16: there are as many opens as the limits allow, or their numbers are spent.
    NoOpenLeft,
    /// C17: there are as many entries as the limits allow, or their numbers are spent.
    NoEntryLeft,
}

impl CreateRefusal {
    /// The status that answers it.
    pub fn status(self) -> NtStatus
        ensures { result ≡ refusal_status (Refusal.Create self) }
    {
        match self {
            CreateRefusal::UnknownDisposition
            | CreateRefusal::DirectoryToBeOverwritten
            | CreateRefusal::NameBeginsWithSeparator => NtStatus::InvalidParameter,
            CreateRefusal::OpenByFileId => NtStatus::NotSupported,
            CreateRefusal::NameIsNoPath => NtStatus::ObjectNameInvalid,
            CreateRefusal::NoAccessAsked
            | CreateRefusal::SessionMayOnlyRead
            | CreateRefusal::SessionMayNotAdd
            | CreateRefusal::FileIsReadOnly => NtStatus::AccessDenied,
            CreateRefusal::PathNotFound => NtStatus::ObjectPathNotFound,
            CreateRefusal::EntryToBeDeleted => NtStatus::DeletePending,
            CreateRefusal::EntryAbsent => NtStatus::ObjectNameNotFound,
            CreateRefusal::EntryExists => NtStatus::ObjectNameCollision,
            CreateRefusal::EntryIsDirectory => NtStatus::FileIsADirectory,
            CreateRefusal::EntryIsFile => NtStatus::NotADirectory,
            CreateRefusal::EntryNotDeletable => NtStatus::CannotDelete,
            CreateRefusal::OpenConflicts => NtStatus::SharingViolation,
            CreateRefusal::NoOpenLeft => NtStatus::TooManyOpenedFiles,
            CreateRefusal::NoEntryLeft => NtStatus::DiskFull,
        }
    }

    /// The label of its row in docs/PROFILE.md.
    pub fn label(self) -> &'static str
        ensures { result.now ≡ refusal_label (Refusal.Create self) }
    {
        match self {
            CreateRefusal::UnknownDisposition => "C1",
            CreateRefusal::DirectoryToBeOverwritten => "C2",
            CreateRefusal::NameBeginsWithSeparator => "C3",
            CreateRefusal::OpenByFileId => "C4",
            CreateRefusal::NameIsNoPath => "C5",
            CreateRefusal::NoAccessAsked => "C6",
            CreateRefusal::SessionMayOnlyRead => "C6b",
            CreateRefusal::PathNotFound => "C7",
            CreateRefusal::EntryToBeDeleted => "C8",
            CreateRefusal::EntryAbsent => "C9",
            CreateRefusal::SessionMayNotAdd => "C9b",
            CreateRefusal::EntryExists => "C10",
            CreateRefusal::EntryIsDirectory => "C11",
            CreateRefusal::EntryIsFile => "C12",
            CreateRefusal::FileIsReadOnly => "C13",
            CreateRefusal::EntryNotDeletable => "C14",
            CreateRefusal::OpenConflicts => "C15",
            CreateRefusal::NoOpenLeft => "C16",
            CreateRefusal::NoEntryLeft => "C17",
        }
    }
}
