//! The names of commands, dialects, dispositions and information classes.

use smb_body::{InfoType, InformationClass};
use smb_wire::{Command, CommandCode, CreateDisposition, CreateDispositionCode};
use std::alloc::AllocError;

/// The name of a command.
fn command_name(command: Command) -> &'static str {
    match command {
        Command::Negotiate => "NEGOTIATE",
        Command::SessionSetup => "SESSION_SETUP",
        Command::Logoff => "LOGOFF",
        Command::TreeConnect => "TREE_CONNECT",
        Command::TreeDisconnect => "TREE_DISCONNECT",
        Command::Create => "CREATE",
        Command::Close => "CLOSE",
        Command::Flush => "FLUSH",
        Command::Read => "READ",
        Command::Write => "WRITE",
        Command::Lock => "LOCK",
        Command::Ioctl => "IOCTL",
        Command::Cancel => "CANCEL",
        Command::Echo => "ECHO",
        Command::QueryDirectory => "QUERY_DIRECTORY",
        Command::ChangeNotify => "CHANGE_NOTIFY",
        Command::QueryInfo => "QUERY_INFO",
        Command::SetInfo => "SET_INFO",
        Command::OplockBreak => "OPLOCK_BREAK",
    }
}

/// Adds the name of a command, or the number of an unknown one.
pub(crate) fn put_command(code: CommandCode, text: &mut String) -> Result<(), AllocError> {
    match code.known() {
        Some(command) => text.push_str(command_name(command)),
        None => {
            let number = code.0;
            write!(text, "COMMAND {number}")
        }
    }
}

/// Adds the name of a dialect, or the number of an unknown one.
pub(crate) fn put_dialect(revision: u16, text: &mut String) -> Result<(), AllocError> {
    match revision {
        0x0202 => text.push_str("2.0.2"),
        0x0210 => text.push_str("2.1"),
        0x02FF => text.push_str("2.???"),
        0x0300 => text.push_str("3.0"),
        0x0302 => text.push_str("3.0.2"),
        0x0311 => text.push_str("3.1.1"),
        _ => write!(text, "0x{revision:04X}"),
    }
}

/// Adds the name of a disposition, or the number of an unknown one.
pub(crate) fn put_disposition(
    code: CreateDispositionCode,
    text: &mut String,
) -> Result<(), AllocError> {
    let name = match code.known() {
        Some(CreateDisposition::Supersede) => "SUPERSEDE",
        Some(CreateDisposition::Open) => "OPEN",
        Some(CreateDisposition::Create) => "CREATE",
        Some(CreateDisposition::OpenIf) => "OPEN_IF",
        Some(CreateDisposition::Overwrite) => "OVERWRITE",
        Some(CreateDisposition::OverwriteIf) => "OVERWRITE_IF",
        None => {
            let number = code.0;
            return write!(text, "disposition={number}");
        }
    };
    text.push_str(name)
}

/// The name of a class of file information ([MS-FSCC] 2.4), without `Information` at its end.
fn file_class(number: u8) -> Option<&'static str> {
    match number {
        4 => Some("FileBasic"),
        5 => Some("FileStandard"),
        6 => Some("FileInternal"),
        7 => Some("FileEa"),
        8 => Some("FileAccess"),
        9 => Some("FileName"),
        10 => Some("FileRename"),
        11 => Some("FileLink"),
        13 => Some("FileDisposition"),
        14 => Some("FilePosition"),
        15 => Some("FileFullEa"),
        16 => Some("FileMode"),
        17 => Some("FileAlignment"),
        18 => Some("FileAll"),
        19 => Some("FileAllocation"),
        20 => Some("FileEndOfFile"),
        21 => Some("FileAlternateName"),
        22 => Some("FileStream"),
        34 => Some("FileNetworkOpen"),
        35 => Some("FileAttributeTag"),
        48 => Some("FileNormalizedName"),
        59 => Some("FileId"),
        _ => None,
    }
}

/// The name of a class of file system information ([MS-FSCC] 2.5), without `Information` at its end.
fn file_system_class(number: u8) -> Option<&'static str> {
    match number {
        1 => Some("FileFsVolume"),
        3 => Some("FileFsSize"),
        4 => Some("FileFsDevice"),
        5 => Some("FileFsAttribute"),
        7 => Some("FileFsFullSize"),
        8 => Some("FileFsObjectId"),
        11 => Some("FileFsSectorSize"),
        _ => None,
    }
}

/// Adds a blank and the name of an information class, or the numbers of an unknown one.
pub(crate) fn put_class(
    kind: InfoType,
    class: InformationClass,
    text: &mut String,
) -> Result<(), AllocError> {
    let name = match kind {
        InfoType::FILE => file_class(class.0),
        InfoType::FILESYSTEM => file_system_class(class.0),
        InfoType::SECURITY => Some("Security"),
        InfoType::QUOTA => Some("Quota"),
        _ => None,
    };
    match name {
        Some(name) => write!(text, " {name}Information"),
        None => {
            let (kind, class) = (kind.0, class.0);
            write!(text, " type={kind} class={class}")
        }
    }
}
