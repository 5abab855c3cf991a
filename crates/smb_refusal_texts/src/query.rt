//! The sentences of QUERY_DIRECTORY and QUERY_INFO.

use smb_refusals::{QueryDirectoryRefusal, QueryInfoRefusal};

/// Why a QUERY_DIRECTORY is refused.
pub(crate) fn query_directory_refusal(refusal: QueryDirectoryRefusal) -> &'static str {
    match refusal {
        QueryDirectoryRefusal::LengthTooGreat =>
            "OutputBufferLength is more than one request may ask for",
        QueryDirectoryRefusal::EntryIsFile => "the open is of a file",
        QueryDirectoryRefusal::ListNotGranted => "LIST_DIRECTORY was not granted",
        QueryDirectoryRefusal::UnknownClass => "the class is none of a directory",
        QueryDirectoryRefusal::PatternTooLong => "the pattern has over 255 units",
        QueryDirectoryRefusal::NoRoomForFields => "OutputBufferLength is less than the fixed part",
        QueryDirectoryRefusal::NoNameMatches => "no name matches the pattern",
        QueryDirectoryRefusal::NoMoreNames => "no further name matches",
        QueryDirectoryRefusal::NoRoomForName => "the first entry does not fit",
    }
}

/// Why a QUERY_INFO is refused.
pub(crate) fn query_info_refusal(refusal: QueryInfoRefusal) -> &'static str {
    match refusal {
        QueryInfoRefusal::TypeNotSupported => "InfoType asks for security or quotas",
        QueryInfoRefusal::UnknownType => "InfoType is none",
        QueryInfoRefusal::LengthTooGreat =>
            "OutputBufferLength is more than one request may ask for",
        QueryInfoRefusal::UnknownClass => "the class is none of its InfoType",
        QueryInfoRefusal::NoRoomForFields => "OutputBufferLength is less than the fixed part",
    }
}
