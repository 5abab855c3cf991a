//! The fields of a request, by the names of [MS-SMB2] 2.2.

use bitflags::parser::WriteHex;
use bitflags::{Flags, parser};
use smb_body::{
    CreateRequest, Dialects, LockList, LockRequest, QueryDirectoryRequest, QueryInfoRequest,
    ReadRequest, Request, SessionSetupRequest, SetInfoRequest, WriteRequest,
};
use smb_head::{Header, HeaderFlags};
use smb_wire::{FileId, Units};
use std::alloc::{AllocError, Global};

/// Adds the names of the flags that are set, joined, and the bits without a name.
fn put_names<B: Flags>(alloc: Global, flags: &B, text: &mut String) -> Result<(), AllocError>
where
    B::Bits: WriteHex,
{
    let mut names = String::new(alloc);
    parser::to_writer(flags, &mut names).map_err(|_| AllocError)?;
    for (i, name) in names.split(" | ").enumerate() {
        if i > 0 {
            text.push_str("|")?;
        }
        text.push_str(name)?;
    }
    Ok(())
}

/// Adds a field of flags, where one is set.
fn put_flags<B: Flags>(
    alloc: Global,
    name: &str,
    flags: &B,
    text: &mut String,
) -> Result<(), AllocError>
where
    B::Bits: WriteHex,
{
    if flags.is_empty() {
        return Ok(());
    }
    write!(text, " {name}=")?;
    put_names(alloc, flags, text)
}

/// Adds a text in UTF-16; what is no text is shown by a sign for it.
fn put_units(
    alloc: Global,
    name: &str,
    units: Units<'_>,
    text: &mut String,
) -> Result<(), AllocError> {
    let mut shown = Vec::new(alloc);
    for i in 0..units.len() {
        shown.push(units.unit(i))?;
    }
    let shown = String::from_utf16_lossy(alloc, &shown)?;
    write!(text, " {name}={shown:?}")
}

/// Adds a FileId; its two halves are mostly the same.
fn put_file_id(file_id: FileId, text: &mut String) -> Result<(), AllocError> {
    let (persistent, volatile) = (file_id.persistent, file_id.volatile);
    if persistent == volatile {
        write!(text, " FileId={persistent}")
    } else {
        write!(text, " FileId={persistent}:{volatile}")
    }
}

/// Adds the dialects of a NEGOTIATE.
fn put_dialects(dialects: Dialects<'_>, text: &mut String) -> Result<(), AllocError> {
    write!(text, " Dialects=")?;
    for i in 0..dialects.len() {
        if let Some(dialect) = dialects.get(i) {
            if i > 0 {
                text.push_str(",")?;
            }
            write!(text, "0x{:04x}", dialect.0)?;
        }
    }
    Ok(())
}

/// Adds the elements of a LOCK.
fn put_locks(alloc: Global, locks: LockList<'_>, text: &mut String) -> Result<(), AllocError> {
    for i in 0..locks.len() {
        if let Some(element) = locks.get(i) {
            let (offset, length) = (element.offset, element.length);
            write!(text, " Lock={offset}+{length}:")?;
            put_names(alloc, &element.flags, text)?;
        }
    }
    Ok(())
}

/// Adds how many bytes a buffer has: a token or a file's data is not shown.
fn put_length(name: &str, buffer: &[u8], text: &mut String) -> Result<(), AllocError> {
    let length = buffer.len();
    write!(text, " {name}={length} bytes")
}

fn put_setup(asked: &SessionSetupRequest<'_>, text: &mut String) -> Result<(), AllocError> {
    put_length("Buffer", asked.security_buffer, text)?;
    let previous = asked.previous_session_id;
    write!(text, " PreviousSessionId={previous}")
}

fn put_create(
    alloc: Global,
    asked: &CreateRequest<'_>,
    text: &mut String,
) -> Result<(), AllocError> {
    put_units(alloc, "Name", asked.name, text)?;
    match asked.create_disposition.known() {
        Some(disposition) => write!(text, " CreateDisposition={disposition:?}")?,
        None => write!(text, " CreateDisposition={}", asked.create_disposition.0)?,
    }
    put_flags(alloc, "DesiredAccess", &asked.desired_access, text)?;
    put_flags(alloc, "ShareAccess", &asked.share_access, text)?;
    put_flags(alloc, "CreateOptions", &asked.create_options, text)?;
    put_flags(alloc, "FileAttributes", &asked.file_attributes, text)
}

fn put_read(asked: &ReadRequest, text: &mut String) -> Result<(), AllocError> {
    put_file_id(asked.file_id, text)?;
    let (offset, length, least) = (asked.offset, asked.length, asked.minimum_count);
    write!(
        text,
        " Offset={offset} Length={length} MinimumCount={least}"
    )
}

fn put_write(asked: &WriteRequest<'_>, text: &mut String) -> Result<(), AllocError> {
    put_file_id(asked.file_id, text)?;
    let offset = asked.offset;
    write!(text, " Offset={offset}")?;
    put_length("Buffer", asked.buffer, text)
}

fn put_lock(alloc: Global, asked: &LockRequest<'_>, text: &mut String) -> Result<(), AllocError> {
    put_file_id(asked.file_id, text)?;
    put_locks(alloc, asked.locks, text)
}

fn put_query_directory(
    alloc: Global,
    asked: &QueryDirectoryRequest<'_>,
    text: &mut String,
) -> Result<(), AllocError> {
    put_file_id(asked.file_id, text)?;
    put_units(alloc, "FileName", asked.file_name, text)?;
    let (class, room) = (asked.file_information_class.0, asked.output_buffer_length);
    write!(
        text,
        " FileInformationClass={class} OutputBufferLength={room}"
    )?;
    put_flags(alloc, "Flags", &asked.flags, text)
}

fn put_query_info(asked: &QueryInfoRequest, text: &mut String) -> Result<(), AllocError> {
    put_file_id(asked.file_id, text)?;
    let (kind, class) = (asked.info_type.0, asked.file_info_class.0);
    let room = asked.output_buffer_length;
    write!(
        text,
        " InfoType={kind} FileInfoClass={class} OutputBufferLength={room}"
    )
}

fn put_set_info(asked: &SetInfoRequest<'_>, text: &mut String) -> Result<(), AllocError> {
    put_file_id(asked.file_id, text)?;
    let (kind, class) = (asked.info_type.0, asked.file_info_class.0);
    write!(text, " InfoType={kind} FileInfoClass={class}")?;
    put_length("Buffer", asked.buffer, text)
}

/// Adds the fields of a request's body that say what is asked. Of tokens and of a file's data it is how many bytes they have.
pub(crate) fn put_body_fields(
    alloc: Global,
    request: &Request<'_>,
    text: &mut String,
) -> Result<(), AllocError> {
    match request {
        Request::Negotiate(asked) => put_dialects(asked.dialects, text),
        Request::SessionSetup(asked) => put_setup(asked, text),
        Request::TreeConnect(asked) => put_units(alloc, "Path", asked.path, text),
        Request::Create(asked) => put_create(alloc, asked, text),
        Request::Close(asked) => put_file_id(asked.file_id, text),
        Request::Flush(asked) => put_file_id(asked.file_id, text),
        Request::Read(asked) => put_read(asked, text),
        Request::Write(asked) => put_write(asked, text),
        Request::Lock(asked) => put_lock(alloc, asked, text),
        Request::QueryDirectory(asked) => put_query_directory(alloc, asked, text),
        Request::QueryInfo(asked) => put_query_info(asked, text),
        Request::SetInfo(asked) => put_set_info(asked, text),
        Request::Logoff(_) | Request::TreeDisconnect(_) | Request::Cancel(_) | Request::Echo(_) => {
            Ok(())
        }
    }
}

/// Adds the fields of a header that say what a message acts under, where they are not 0.
pub(crate) fn put_header_fields(
    alloc: Global,
    header: &Header,
    text: &mut String,
) -> Result<(), AllocError> {
    let (session, tree, credits) = (header.session_id, header.tree_id, header.credits);
    if session != 0 {
        write!(text, " SessionId={session}")?;
    }
    if tree != 0 {
        write!(text, " TreeId={tree}")?;
    }
    if credits != 0 {
        write!(text, " Credits={credits}")?;
    }
    let flags = header.flags.difference(HeaderFlags::SERVER_TO_REDIR);
    put_flags(alloc, "Flags", &flags, text)
}
