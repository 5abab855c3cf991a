//! The listing of a stream's requests with their fields, and of the replies in a replay's output with their statuses. It is made for
//! people; nothing of it is proved but that it is safe and returns.

use crate::fault::{CommandFault, Detail};
use crate::fields::{put_body_fields, put_header_fields};
use crate::input::read_input;
use crate::show::{buffer_of, fault_number, put_name, read_stream};
use smb_body::{read_body, read_smb1_negotiate};
use smb_frame::FrameBuffer;
use smb_head::{Chain, Header, read_chain, read_header};
use smb_wire::NtStatus;
use std::alloc::{AllocError, Global};
use std::io::{Read, Write};

/// The most messages that a payload has.
const MOST_REQUESTS: usize = 16;

/// A listing, and whether nothing is wrong in what it lists.
#[derive(Drop)]
struct Listing {
    text: String,
    is_good: bool,
}

/// Adds a message's name, its MessageId and what it acts under.
fn put_header(header: &Header, text: &mut String) -> Result<(), AllocError> {
    put_name(header.command, text)?;
    let message_id = header.message_id;
    write!(text, " mid={message_id}")
}

/// Adds a request's line.
fn put_request(
    alloc: Global,
    header: &Header,
    request: &[u8],
    text: &mut String,
) -> Result<(), AllocError> {
    put_header(header, text)?;
    put_header_fields(alloc, header, text)?;
    match read_body(header.command.0, request) {
        Ok(request) => put_body_fields(alloc, &request, text)?,
        Err(_) => text.push_str(" unreadable")?,
    }
    text.push_str("\n")
}

/// Adds the lines of a chain's requests.
fn put_requests(
    alloc: Global,
    frame: u64,
    chain: &Chain<'_>,
    text: &mut String,
) -> Result<(), AllocError> {
    for place in 0..chain.len() {
        if let Some((header, request)) = chain.get(place) {
            let number = place.saturating_add(1);
            write!(text, "{frame}.{number} ")?;
            put_request(alloc, &header, request, text)?;
        }
    }
    Ok(())
}

/// Adds the lines of a payload. Ok says whether nothing is wrong with it.
fn put_payload(
    alloc: Global,
    frame: u64,
    payload: &[u8],
    text: &mut String,
) -> Result<bool, AllocError> {
    if frame == 1 && read_smb1_negotiate(payload).is_some() {
        text.push_str("1 smb1 negotiate\n")?;
        return Ok(true);
    }
    match read_chain(payload) {
        Ok(chain) => {
            put_requests(alloc, frame, &chain, text)?;
            Ok(true)
        }
        Err(fault) => {
            let number = fault.number();
            write!(text, "{frame}: H{number}: {fault}\n")?;
            Ok(false)
        }
    }
}

/// Adds the line of what is behind the last whole frame. Ok says whether nothing is.
fn put_rest(frame: u64, buffer: &FrameBuffer, text: &mut String) -> Result<bool, AllocError> {
    if let Some(fault) = buffer.fault() {
        let number = fault_number(fault);
        write!(text, "{frame}: F{number}: {fault}\n")?;
        return Ok(false);
    }
    let length = buffer.len();
    if length == 0 {
        return Ok(true);
    }
    write!(text, "rest {length}\n")?;
    Ok(false)
}

/// The listing of a stream, with the fields of its requests.
fn list_requests(alloc: Global, stream: &[u8]) -> Result<Listing, AllocError> {
    let mut buffer = buffer_of(alloc, stream)?;
    let mut text = String::new(alloc);
    let mut frame = 1u64;
    for _ in 0..stream.len() {
        let Some(payload) = buffer.next() else {
            break;
        };
        if !put_payload(alloc, frame, payload, &mut text)? {
            let is_good = false;
            return Ok(Listing { text, is_good });
        }
        buffer.done();
        frame = frame.saturating_add(1);
    }
    let is_good = put_rest(frame, &buffer, &mut text)?;
    Ok(Listing { text, is_good })
}

/// Adds a reply's line.
fn put_reply(
    alloc: Global,
    connection: &str,
    header: &Header,
    length: usize,
    text: &mut String,
) -> Result<(), AllocError> {
    write!(text, "< {connection} ")?;
    put_header(header, text)?;
    match NtStatus::known(header.status) {
        Some(status) => write!(text, " {}", status.name())?,
        None => write!(text, " 0x{:08X}", header.status)?,
    }
    put_header_fields(alloc, header, text)?;
    write!(text, " bytes={length}\n")
}

/// Adds the lines of the replies in a frame; false where it is no frame of replies.
fn put_replies(
    alloc: Global,
    connection: &str,
    frame: &[u8],
    text: &mut String,
) -> Result<bool, AllocError> {
    let Some((_, mut payload)) = frame.split_at_checked(4) else {
        return Ok(false);
    };
    for _ in 0..MOST_REQUESTS {
        let Ok(header) = read_header(payload) else {
            return Ok(false);
        };
        let next = header.next_command as usize;
        let end = if next == 0 { payload.len() } else { next };
        let Some((_, others)) = payload.split_at_checked(end) else {
            return Ok(false);
        };
        put_reply(alloc, connection, &header, end, text)?;
        if next == 0 {
            return Ok(true);
        }
        payload = others;
    }
    Ok(false)
}

/// Adds what a line of a replay's output says, of a comment itself; false where it is none.
fn put_line(alloc: Global, line: &str, text: &mut String) -> Result<bool, AllocError> {
    if let Some(answer) = line.strip_prefix("< ") {
        let Some((connection, digits)) = answer.split_once(' ') else {
            return Ok(false);
        };
        let frame = Vec::from_slice(alloc, digits.as_bytes())?;
        return match read_stream(alloc, frame)? {
            Some(frame) => put_replies(alloc, connection, &frame, text),
            None => Ok(false),
        };
    }
    text.push_str(line)?;
    text.push_str("\n")?;
    Ok(line.starts_with("x ") || line.starts_with("#"))
}

/// The listing of a replay's output; None where it is none.
fn list_replies(alloc: Global, output: &str) -> Result<Option<Listing>, AllocError> {
    let mut text = String::new(alloc);
    for line in output.lines() {
        if !line.is_empty() && !put_line(alloc, line, &mut text)? {
            return Ok(None);
        }
    }
    let is_good = true;
    Ok(Some(Listing { text, is_good }))
}

/// The listing of an input: a replay's output, where `<` or `x` begins it, else a stream in hex.
fn list(alloc: Global, text: Vec<u8>) -> Result<Option<Listing>, AllocError> {
    match text.first() {
        Some(b'<') | Some(b'x') => match std::str::from_utf8(&text) {
            Ok(output) => list_replies(alloc, output),
            Err(_) => Ok(None),
        },
        _ => match read_stream(alloc, text)? {
            Some(stream) => Ok(Some(list_requests(alloc, &stream)?)),
            None => Ok(None),
        },
    }
}

/// Shows an input with fields. Ok says whether nothing is wrong in it.
fn show<R: Read + Drop, W: Write>(
    alloc: Global,
    input: R,
    output: &mut W,
) -> Result<bool, CommandFault> {
    let text = read_input(alloc, input)?;
    let Some(listing) = list(alloc, text)? else {
        return Err(CommandFault::InputUnreadable);
    };
    output
        .write_all(listing.text.as_bytes())
        .map_err(|_| CommandFault::OutputFailed)?;
    output.flush().map_err(|_| CommandFault::OutputFailed)?;
    Ok(listing.is_good)
}

/// Lists the requests of a client's stream with their fields, or the replies of a replay's output with their statuses, and gives the
/// exit status.
///
/// The input is the stream in hex, as [`show_text`](crate::show_text) takes it, or the lines that a replay writes: `<` or `x` begins
/// these. `output` gets a line for each request or reply, with fields by the names of [MS-SMB2]; of a token and of a file's data it is
/// how many bytes they have. Faults, `rest N` and the status are those of [`show_text`](crate::show_text), a fault with its words.
pub fn show_fields<R: Read + Drop, W: Write, E: Write>(
    alloc: Global,
    input: R,
    output: &mut W,
    errors: &mut E,
) -> u8 {
    match show(alloc, input, output) {
        Ok(is_good) => u8::from(!is_good),
        Err(fault) => fault.report(alloc, Detail::Brief, errors),
    }
}
