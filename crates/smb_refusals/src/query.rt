//! Why QUERY_DIRECTORY and QUERY_INFO are refused ([MS-SMB2] 3.3.5.18 and behind it).

ghost use Rattle.std.specs.Prelude.{◌≡◌};
ghost use Rattle.smb_refusals.specs.Refusals.{refusal_status, refusal_label};
ghost use Rattle.smb_refusals.specs.declared.refusal.Refusal.{Refusal};

use smb_wire::NtStatus;

/// Why a QUERY_DIRECTORY is refused, in the order in which it is looked at ([MS-SMB2] 3.3.5.18).
#[derive(Clone, Copy)]
pub enum QueryDirectoryRefusal {
    /// QD1: OutputBufferLength is more than one request may ask for.
    LengthTooGreat,
    /// QD1: the open is of a file.
    EntryIsFile,
    /// QD2: LIST_DIRECTORY was not granted.
    ListNotGranted,
    /// QD3: the class is none of a directory.
    UnknownClass,
    /// QD4: the pattern has over 255 units.
    PatternTooLong,
    /// QD5: OutputBufferLength is less than the fixed part.
    NoRoomForFields,
    /// QD6: no name matches the pattern.
    NoNameMatches,
    /// QD7: no further name matches.
    NoMoreNames,
    /// QD8: the first entry does not fit.
    NoRoomForName,
}

impl QueryDirectoryRefusal {
    /// The status that answers it.
    pub fn status(self) -> NtStatus
        ensures { result ≡ refusal_status (Refusal.QueryDirectory self) }
    {
        match self {
            QueryDirectoryRefusal::LengthTooGreat | QueryDirectoryRefusal::EntryIsFile =>
                NtStatus::InvalidParameter,
            QueryDirectoryRefusal::ListNotGranted => NtStatus::AccessDenied,
            QueryDirectoryRefusal::UnknownClass => NtStatus::InvalidInfoClass,
            QueryDirectoryRefusal::PatternTooLong => NtStatus::ObjectNameInvalid,
            QueryDirectoryRefusal::NoRoomForFields | QueryDirectoryRefusal::NoRoomForName =>
                NtStatus::InfoLengthMismatch,
            QueryDirectoryRefusal::NoNameMatches => NtStatus::NoSuchFile,
            QueryDirectoryRefusal::NoMoreNames => NtStatus::NoMoreFiles,
        }
    }

    /// The label of its row in docs/PROFILE.md.
    pub fn label(self) -> &'static str
        ensures { result.now ≡ refusal_label (Refusal.QueryDirectory self) }
    {
        match self {
            QueryDirectoryRefusal::LengthTooGreat | QueryDirectoryRefusal::EntryIsFile => "QD1",
            QueryDirectoryRefusal::ListNotGranted => "QD2",
            QueryDirectoryRefusal::UnknownClass => "QD3",
            QueryDirectoryRefusal::PatternTooLong => "QD4",
            QueryDirectoryRefusal::NoRoomForFields => "QD5",
            QueryDirectoryRefusal::NoNameMatches => "QD6",
            QueryDirectoryRefusal::NoMoreNames => "QD7",
            QueryDirectoryRefusal::NoRoomForName => "QD8",
        }
    }
}

/// Why a QUERY_INFO is refused, in the order in which it is looked at ([MS-SMB2] 3.3.5.20).
#[derive(Clone, Copy)]
pub enum QueryInfoRefusal {
    /// QI1: InfoType asks for security or quotas.
    TypeNotSupported,
    /// QI2: InfoType is none.
    UnknownType,
    /// QI3: OutputBufferLength is more than one request may ask for.
    LengthTooGreat,
    /// QI4: the class is none of its InfoType.
    UnknownClass,
    /// QI5: OutputBufferLength is less than the fixed part.
    NoRoomForFields,
}

impl QueryInfoRefusal {
    /// The status that answers it.
    pub fn status(self) -> NtStatus
        ensures { result ≡ refusal_status (Refusal.QueryInfo self) }
    {
        match self {
            QueryInfoRefusal::TypeNotSupported => NtStatus::NotSupported,
            QueryInfoRefusal::UnknownType | QueryInfoRefusal::LengthTooGreat =>
                NtStatus::InvalidParameter,
            QueryInfoRefusal::UnknownClass => NtStatus::InvalidInfoClass,
            QueryInfoRefusal::NoRoomForFields => NtStatus::InfoLengthMismatch,
        }
    }

    /// The label of its row in docs/PROFILE.md.
    pub fn label(self) -> &'static str
        ensures { result.now ≡ refusal_label (Refusal.QueryInfo self) }
    {
        match self {
            QueryInfoRefusal::TypeNotSupported => "QI1",
            QueryInfoRefusal::UnknownType => "QI2",
            QueryInfoRefusal::LengthTooGreat => "QI3",
            QueryInfoRefusal::UnknownClass => "QI4",
            QueryInfoRefusal::NoRoomForFields => "QI5",
        }
    }
}
