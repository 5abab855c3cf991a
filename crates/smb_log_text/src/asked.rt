//! A request in words: its command, the name of its file, and what it asks.

use crate::access::{put_create, put_locks};
use crate::escape::{put_path, put_units};
use crate::names::{put_class, put_command, put_dialect};
use smb_body::{
    Dialects, InfoType, Request, SetInfoRequest, Smb1Dialects, read_body, read_smb1_negotiate,
};
use smb_info::{SetAsk, read_set_info};
use smb_wire::{Command, CommandCode, Units};
use std::alloc::AllocError;

/// The most dialects of a NEGOTIATE that are shown.
const MOST_SHOWN: usize = 8;

/// Adds the dialects of a NEGOTIATE, the first ones where there are many.
fn put_dialects(dialects: Dialects<'_>, text: &mut String) -> Result<(), AllocError> {
    for place in 0..dialects.len().min(MOST_SHOWN) {
        if let Some(dialect) = dialects.get(place) {
            text.push_str(" ")?;
            put_dialect(dialect.0, text)?;
        }
    }
    if dialects.len() > MOST_SHOWN {
        text.push_str(" ..")?;
    }
    Ok(())
}

/// Adds where bytes begin, and how many they are.
fn put_span(offset: u64, length: usize, text: &mut String) -> Result<(), AllocError> {
    write!(text, " offset={offset} length={length}")
}

/// Adds a path or a pattern.
fn put_name(name: Units<'_>, text: &mut String) -> Result<(), AllocError> {
    text.push_str(" ")?;
    put_units(name, text)
}

/// Adds what is set of a file, where it is one of the things that are shown by their values; false where it is none.
fn put_set_file(asked: &SetAsk<'_>, text: &mut String) -> Result<bool, AllocError> {
    match asked {
        SetAsk::Rename(replaces, name) => {
            let words = if *replaces {
                " rename over "
            } else {
                " rename to "
            };
            text.push_str(words)?;
            put_path(*name, text)?;
        }
        SetAsk::Mark(goes) => {
            text.push_str(if *goes { " delete=yes" } else { " delete=no" })?;
        }
        SetAsk::Allocation(size) => write!(text, " allocation={size}")?,
        SetAsk::End(size) => write!(text, " size={size}")?,
        SetAsk::Basic(_) => return Ok(false),
    }
    Ok(true)
}

/// Adds what a SET_INFO sets.
fn put_set(asked: &SetInfoRequest<'_>, text: &mut String) -> Result<(), AllocError> {
    if asked.info_type == InfoType::FILE
        && let Ok(set) = read_set_info(asked.file_info_class.0, asked.buffer)
        && put_set_file(&set, text)?
    {
        return Ok(());
    }
    put_class(asked.info_type, asked.file_info_class, text)
}

/// Adds what a request asks, but for the name of the file that it makes, opens or acts on.
fn put_terms(request: &Request<'_>, text: &mut String) -> Result<(), AllocError> {
    match request {
        Request::Negotiate(asked) => put_dialects(asked.dialects, text),
        Request::TreeConnect(asked) => put_name(asked.path, text),
        Request::Create(asked) => put_create(asked, text),
        Request::Read(asked) => put_span(asked.offset, asked.length as usize, text),
        Request::Write(asked) => put_span(asked.offset, asked.buffer.len(), text),
        Request::Lock(asked) => put_locks(asked, text),
        Request::QueryDirectory(asked) if asked.file_name.len() == 0 => Ok(()),
        Request::QueryDirectory(asked) => put_name(asked.file_name, text),
        Request::QueryInfo(asked) => put_class(asked.info_type, asked.file_info_class, text),
        Request::SetInfo(asked) => put_set(asked, text),
        Request::SessionSetup(_)
        | Request::Logoff(_)
        | Request::TreeDisconnect(_)
        | Request::Close(_)
        | Request::Flush(_)
        | Request::Cancel(_)
        | Request::Echo(_) => Ok(()),
    }
}

/// Adds the dialects of an SMB_COM_NEGOTIATE.
fn put_smb1(dialects: Smb1Dialects, text: &mut String) -> Result<(), AllocError> {
    text.push_str(" by SMB1")?;
    if dialects.smb_2_002 {
        text.push_str(" 2.0.2")?;
    }
    if dialects.smb_2_wildcard {
        text.push_str(" 2.???")?;
    }
    Ok(())
}

/// Adds that a body cannot be read, where its command is refused for that.
fn put_unread(command: CommandCode, text: &mut String) -> Result<(), AllocError> {
    use Command::{Cancel, ChangeNotify, Ioctl, OplockBreak};
    match command.known() {
        Some(Ioctl | ChangeNotify | OplockBreak | Cancel) | None => Ok(()),
        Some(_) => text.push_str(" unreadable"),
    }
}

/// Adds the name of the file that a request makes or opens, or acts on.
fn put_file(request: &Request<'_>, file: &str, text: &mut String) -> Result<(), AllocError> {
    if let Request::Create(asked) = request {
        text.push_str(" ")?;
        return put_path(asked.name, text);
    }
    if request.facts().file_id.is_some() {
        text.push_str(" ")?;
        text.push_str(file)?;
    }
    Ok(())
}

/// Adds a request of this command, by its whole bytes; of an SMB_COM_NEGOTIATE by those of the payload. `file` is the name of
/// the file of the open that it names, as it is to be shown.
pub fn put_request(
    command: CommandCode,
    request: &[u8],
    file: &str,
    text: &mut String,
) -> Result<(), AllocError> {
    put_command(command, text)?;
    if let Some(dialects) = read_smb1_negotiate(request) {
        return put_smb1(dialects, text);
    }
    let Ok(body) = read_body(command.0, request) else {
        return put_unread(command, text);
    };
    put_file(&body, file, text)?;
    put_terms(&body, text)
}
