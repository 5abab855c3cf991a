//! The rows of QUERY_DIRECTORY and QUERY_INFO, in the order in which they are looked at.

use crate::table::Table;
use smb_refusals::{QueryDirectoryRefusal, QueryInfoRefusal, Refusal};

pub(crate) const QUERY_DIRECTORY: Table = Table {
    name: "QUERY_DIRECTORY",
    rows: &[
        Refusal::QueryDirectory(QueryDirectoryRefusal::LengthTooGreat),
        Refusal::QueryDirectory(QueryDirectoryRefusal::EntryIsFile),
        Refusal::QueryDirectory(QueryDirectoryRefusal::ListNotGranted),
        Refusal::QueryDirectory(QueryDirectoryRefusal::UnknownClass),
        Refusal::QueryDirectory(QueryDirectoryRefusal::PatternTooLong),
        Refusal::QueryDirectory(QueryDirectoryRefusal::NoRoomForFields),
        Refusal::QueryDirectory(QueryDirectoryRefusal::NoNameMatches),
        Refusal::QueryDirectory(QueryDirectoryRefusal::NoMoreNames),
        Refusal::QueryDirectory(QueryDirectoryRefusal::NoRoomForName),
    ],
};

pub(crate) const QUERY_INFO: Table = Table {
    name: "QUERY_INFO",
    rows: &[
        Refusal::QueryInfo(QueryInfoRefusal::TypeNotSupported),
        Refusal::QueryInfo(QueryInfoRefusal::UnknownType),
        Refusal::QueryInfo(QueryInfoRefusal::LengthTooGreat),
        Refusal::QueryInfo(QueryInfoRefusal::UnknownClass),
        Refusal::QueryInfo(QueryInfoRefusal::NoRoomForFields),
    ],
};
