//! Why the system refuses something.

use std::fmt;
use std::fmt::Display;
use std::io::ErrorKind;

/// Why the system refuses something: a kind of error, which is shown in plain words.
#[derive(Clone, Copy, Debug, PartialEq, Eq)]
pub struct Reason(pub ErrorKind);

/// The words of a kind that a file, a folder or a stream can have; None of another one.
fn words_of(kind: ErrorKind) -> Option<&'static str> {
    match kind {
        ErrorKind::NotFound => Some("no such file"),
        ErrorKind::PermissionDenied => Some("permission denied"),
        ErrorKind::AlreadyExists => Some("it exists already"),
        ErrorKind::IsADirectory => Some("is a directory"),
        ErrorKind::NotADirectory => Some("not a directory"),
        ErrorKind::DirectoryNotEmpty => Some("the directory is not empty"),
        ErrorKind::StorageFull => Some("no room on the disk"),
        ErrorKind::QuotaExceeded => Some("no room left to this user"),
        ErrorKind::FileTooLarge => Some("file too large"),
        ErrorKind::ReadOnlyFilesystem => Some("the disk may only be read"),
        ErrorKind::InvalidFilename => Some("name too long"),
        ErrorKind::FilesystemLoop => Some("links that lead in a circle"),
        ErrorKind::TooManyLinks => Some("too many links to it"),
        ErrorKind::CrossesDevices => Some("on another disk"),
        ErrorKind::ResourceBusy => Some("in use"),
        ErrorKind::ExecutableFileBusy => Some("a program that runs"),
        ErrorKind::StaleNetworkFileHandle => Some("gone from its file server"),
        ErrorKind::BrokenPipe => Some("nobody reads it"),
        ErrorKind::WriteZero => Some("nothing more is taken"),
        ErrorKind::UnexpectedEof => Some("it ends too early"),
        ErrorKind::Interrupted => Some("interrupted"),
        ErrorKind::InvalidInput => Some("not a name or a value that the system takes"),
        ErrorKind::InvalidData => Some("not a text"),
        ErrorKind::Unsupported => Some("the system can't do that here"),
        ErrorKind::OutOfMemory => Some("no memory"),
        ErrorKind::Other | ErrorKind::Uncategorized => Some("another fault of the system"),
        _ => None,
    }
}

impl Display for Reason {
    fn fmt<W: fmt::Write>(&self, f: &mut fmt::Formatter<W>) -> fmt::Result {
        let Reason(kind) = *self;
        match words_of(kind) {
            Some(words) => f.write_str(words),
            None => write!(f, "{kind}"),
        }
    }
}
