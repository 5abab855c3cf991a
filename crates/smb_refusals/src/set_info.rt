//! Why a SET_INFO is refused, by its class ([MS-SMB2] 3.3.5.21 and behind it).

ghost use Rattle.std.specs.Prelude.{◌≡◌};
ghost use Rattle.smb_refusals.specs.Refusals.{refusal_status, refusal_label};
ghost use Rattle.smb_refusals.specs.declared.refusal.Refusal.{Refusal};

use smb_wire::NtStatus;

/// Why a SET_INFO, before its class is looked at is refused, in the order in which it is looked at ([MS-SMB2] 3.3.5.21).
#[derive(Clone, Copy)]
pub enum SetInfoRefusal {
    /// SI1: InfoType asks for a file system, security or quotas.
    TypeNotSupported,
    /// SI2: InfoType is none.
    UnknownType,
    /// SI3: the class cannot be set.
    UnknownClass,
    /// SI4: the buffer is shorter than the fixed part.
    BufferTooShort,
    /// N1: RootDirectory is not 0, or FileNameLength is 0, odd or past the buffer.
    RenameSaysNoName,
}

impl SetInfoRefusal {
    /// The status that answers it.
    pub fn status(self) -> NtStatus
        ensures { result ≡ refusal_status (Refusal.SetInfo self) }
    {
        match self {
            SetInfoRefusal::TypeNotSupported => NtStatus::NotSupported,
            SetInfoRefusal::UnknownType | SetInfoRefusal::RenameSaysNoName =>
                NtStatus::InvalidParameter,
            SetInfoRefusal::UnknownClass => NtStatus::InvalidInfoClass,
            SetInfoRefusal::BufferTooShort => NtStatus::InfoLengthMismatch,
        }
    }

    /// The label of its row in docs/PROFILE.md.
    pub fn label(self) -> &'static str
        ensures { result.now ≡ refusal_label (Refusal.SetInfo self) }
    {
        match self {
            SetInfoRefusal::TypeNotSupported => "SI1",
            SetInfoRefusal::UnknownType => "SI2",
            SetInfoRefusal::UnknownClass => "SI3",
            SetInfoRefusal::BufferTooShort => "SI4",
            SetInfoRefusal::RenameSaysNoName => "N1",
        }
    }
}

/// Why a SET_INFO of FileBasicInformation is refused, in the order in which it is looked at ([MS-SMB2] 3.3.5.21.1).
#[derive(Clone, Copy)]
pub enum SetBasicRefusal {
    /// SB1: a time is none, or a file is to be a directory.
    TimeOrAttributesInvalid,
    /// SB2: WRITE_ATTRIBUTES was not granted.
    AttributesNotGranted,
}

impl SetBasicRefusal {
    /// The status that answers it.
    pub fn status(self) -> NtStatus
        ensures { result ≡ refusal_status (Refusal.SetBasic self) }
    {
        match self {
            SetBasicRefusal::TimeOrAttributesInvalid => NtStatus::InvalidParameter,
            SetBasicRefusal::AttributesNotGranted => NtStatus::AccessDenied,
        }
    }

    /// The label of its row in docs/PROFILE.md.
    pub fn label(self) -> &'static str
        ensures { result.now ≡ refusal_label (Refusal.SetBasic self) }
    {
        match self {
            SetBasicRefusal::TimeOrAttributesInvalid => "SB1",
            SetBasicRefusal::AttributesNotGranted => "SB2",
        }
    }
}

/// Why a SET_INFO of FileDispositionInformation is refused, in the order in which it is looked at ([MS-SMB2] 3.3.5.21.1).
#[derive(Clone, Copy)]
pub enum SetDispositionRefusal {
    /// SD1: DELETE was not granted.
    DeleteNotGranted,
    /// SD2: it is the root, or a read-only file.
    EntryNotDeletable,
    /// SD3: entries are in the directory.
    DirectoryNotEmpty,
}

impl SetDispositionRefusal {
    /// The status that answers it.
    pub fn status(self) -> NtStatus
        ensures { result ≡ refusal_status (Refusal.SetDisposition self) }
    {
        match self {
            SetDispositionRefusal::DeleteNotGranted => NtStatus::AccessDenied,
            SetDispositionRefusal::EntryNotDeletable => NtStatus::CannotDelete,
            SetDispositionRefusal::DirectoryNotEmpty => NtStatus::DirectoryNotEmpty,
        }
    }

    /// The label of its row in docs/PROFILE.md.
    pub fn label(self) -> &'static str
        ensures { result.now ≡ refusal_label (Refusal.SetDisposition self) }
    {
        match self {
            SetDispositionRefusal::DeleteNotGranted => "SD1",
            SetDispositionRefusal::EntryNotDeletable => "SD2",
            SetDispositionRefusal::DirectoryNotEmpty => "SD3",
        }
    }
}

/// Why a SET_INFO of FileEndOfFileInformation or FileAllocationInformation is refused, in the order in which it is looked at ([MS-SMB2] 3.3.5.21.1).
#[derive(Clone, Copy)]
pub enum SetSizeRefusal {
    /// SZ1: a directory has no size.
    EntryIsDirectory,
    /// SZ2: WRITE_DATA was not granted.
    WriteNotGranted,
    /// SZ3: the file would be longer than the limits allow, or the space used pass the capacity.
    NoSpaceLeft,
}

impl SetSizeRefusal {
    /// The status that answers it.
    pub fn status(self) -> NtStatus
        ensures { result ≡ refusal_status (Refusal.SetSize self) }
    {
        match self {
            SetSizeRefusal::EntryIsDirectory => NtStatus::InvalidParameter,
            SetSizeRefusal::WriteNotGranted => NtStatus::AccessDenied,
            SetSizeRefusal::NoSpaceLeft => NtStatus::DiskFull,
        }
    }

    /// The label of its row in docs/PROFILE.md.
    pub fn label(self) -> &'static str
        ensures { result.now ≡ refusal_label (Refusal.SetSize self) }
    {
        match self {
            SetSizeRefusal::EntryIsDirectory => "SZ1",
            SetSizeRefusal::WriteNotGranted => "SZ2",
            SetSizeRefusal::NoSpaceLeft => "SZ3",
        }
    }
}

/// Why a SET_INFO of FileRenameInformation is refused, in the order in which it is looked at ([MS-SMB2] 3.3.5.21.1).
#[derive(Clone, Copy)]
pub enum RenameRefusal {
    /// N1: the new name begins with a separator.
    NameBeginsWithSeparator,
    /// N2: the new name has a component that is not allowed, or more than 32.
    NameIsNoPath,
    /// N3: DELETE was not granted, or the entry is the root.
    DeleteNotGranted,
    /// N4: the entry is marked to be deleted.
    EntryToBeDeleted,
    /// N5: the new path lies beneath the entry.
    NewPathIsBeneath,
    /// N6: an entry above the new path is absent, or a file.
    PathNotFound,
    /// N8: an entry beneath the directory is open.
    OpenBeneath,
    /// N9: what is at the new path, or its directory, is marked to be deleted.
    TargetToBeDeleted,
    /// N10: an entry exists at the new path, and ReplaceIfExists is not set.
    TargetExists,
    /// N11: what is at the new path is a directory, a read-only file, or open.
    TargetNotReplaceable,
    /// N12: a path would have more than 32 components.
    PathTooDeep,
}

impl RenameRefusal {
    /// The status that answers it.
    pub fn status(self) -> NtStatus
        ensures { result ≡ refusal_status (Refusal.Rename self) }
    {
        match self {
            RenameRefusal::NameBeginsWithSeparator | RenameRefusal::NewPathIsBeneath =>
                NtStatus::InvalidParameter,
            RenameRefusal::NameIsNoPath | RenameRefusal::PathTooDeep => NtStatus::ObjectNameInvalid,
            RenameRefusal::DeleteNotGranted
            | RenameRefusal::OpenBeneath
            | RenameRefusal::TargetNotReplaceable => NtStatus::AccessDenied,
            RenameRefusal::EntryToBeDeleted | RenameRefusal::TargetToBeDeleted =>
                NtStatus::DeletePending,
            RenameRefusal::PathNotFound => NtStatus::ObjectPathNotFound,
            RenameRefusal::TargetExists => NtStatus::ObjectNameCollision,
        }
    }

    /// The label of its row in docs/PROFILE.md.
    pub fn label(self) -> &'static str
        ensures { result.now ≡ refusal_label (Refusal.Rename self) }
    {
        match self {
            RenameRefusal::NameBeginsWithSeparator => "N1",
            RenameRefusal::NameIsNoPath => "N2",
            RenameRefusal::DeleteNotGranted => "N3",
            RenameRefusal::EntryToBeDeleted => "N4",
            RenameRefusal::NewPathIsBeneath => "N5",
            RenameRefusal::PathNotFound => "N6",
            RenameRefusal::OpenBeneath => "N8",
            RenameRefusal::TargetToBeDeleted => "N9",
            RenameRefusal::TargetExists => "N10",
            RenameRefusal::TargetNotReplaceable => "N11",
            RenameRefusal::PathTooDeep => "N12",
        }
    }
}
