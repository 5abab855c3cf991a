//! The listing of a client's stream: a line for each request.

ghost use Rattle.std.specs.Prelude.{◌≡◌, ◌++◌, not, is_some, string_bytes, OnOk, IfOk};
ghost use Rattle.std.specs.List.{filter};
ghost use Rattle.std.specs.Option.{option_map};
ghost use Rattle.smb_head.specs.Headers.{header_of};
ghost use Rattle.smb_body.specs.Requests.{request_of};
ghost use Rattle.smb_wire.specs.Limits.{longest_payload};
ghost use Rattle.smb_replay.specs.Show.{is_white, stream_of, command_name, called, line_end, request_line, request_lines, payload_lines, frame_fault_number, rest_lines, show_of, listing_text};

use crate::fault::{CommandFault, Detail};
use crate::input::read_input;
use smb_body::{read_body, read_smb1_negotiate};
use smb_frame::{FrameBuffer, FrameFault};
use smb_head::{Chain, Header, read_chain};
use smb_journal::read_hex;
use smb_wire::limits::LONGEST_PAYLOAD;
use smb_wire::{Command, CommandCode};
use std::alloc::{AllocError, Global};
use std::io::{Read, Write};

/// The lines of a stream, and whether nothing is wrong in it.
#[derive(Drop)]
pub(crate) struct Listing {
    text: String,
    is_good: bool,
}

/// Whether a character is ASCII white space.
fn is_white(c: u8) -> bool
    ensures { result ≡ is_white c }
{
    c == b' ' || c == b'\t' || c == b'\n' || c == 0x0c || c == b'\r'
}

/// Takes the white space out of a text.
fn drop_white(text: &mut Vec<u8>)
    ensures { text.new.items ≡ filter (λ c. not (is_white c)) text.old.items }
{
    text.retain(|c| !is_white(*c));
}

/// The bytes that a text spells in hex, its white space left out; None where it spells no whole bytes.
pub(crate) fn read_stream(alloc: Global, mut text: Vec<u8>) -> Result<Option<Vec<u8>>, AllocError>
    ensures { IfOk result (λ stream. option_map (λ bytes. bytes.items) stream ≡ stream_of text.items) }
{
    drop_white(&mut text);
    read_hex(alloc, text.as_slice())
}

/// A command's name.
fn command_name(command: Command) -> &'static str
    ensures { result.now ≡ command_name command }
{
    match command {
        Command::Negotiate => "NEGOTIATE",
        Command::SessionSetup => "SESSION_SETUP",
        Command::Logoff => "LOGOFF",
        Command::TreeConnect => "TREE_CONNECT",
        Command::TreeDisconnect => "TREE_DISCONNECT",
        Command::Create => "CREATE",
        Command::Close => "CLOSE",
        Command::Flush => "FLUSH",
        Command::Read => "READ",
        Command::Write => "WRITE",
        Command::Lock => "LOCK",
        Command::Ioctl => "IOCTL",
        Command::Cancel => "CANCEL",
        Command::Echo => "ECHO",
        Command::QueryDirectory => "QUERY_DIRECTORY",
        Command::ChangeNotify => "CHANGE_NOTIFY",
        Command::QueryInfo => "QUERY_INFO",
        Command::SetInfo => "SET_INFO",
        Command::OplockBreak => "OPLOCK_BREAK",
    }
}

/// Adds what a code is called: a command's name, or past the last one its number.
pub(crate) fn put_name(code: CommandCode, text: &mut String) -> Result<(), AllocError>
    ensures { OnOk result (string_bytes text.new ≡ string_bytes text.old ++ called code.0) }
{
    match code.known() {
        Some(command) => text.push_str(command_name(command)),
        None => {
            let number = code.0;
            write!(text, "COMMAND{number}")
        }
    }
}

/// Ends a request's line.
fn put_line_end(readable: bool, text: &mut String) -> Result<(), AllocError>
    ensures { OnOk result (string_bytes text.new ≡ string_bytes text.old ++ line_end readable) }
{
    text.push_str(if readable { "\n" } else { " unreadable\n" })
}

/// Whether the body of a request can be read.
fn is_readable(code: CommandCode, request: &[u8]) -> bool
    ensures { result ≡ is_some (request_of code.0 request.now) }
{
    read_body(code.0, request).is_ok()
}

/// Adds a request's line.
#[tactic(auto, unfolding(crate::specs::Show::request_line))]
fn put_request(
    frame: u64,
    number: usize,
    header: &Header,
    request: &[u8],
    text: &mut String,
) -> Result<(), AllocError>
    requires { header.now ≡ header_of request.now }
    ensures { OnOk result (string_bytes text.new ≡ string_bytes text.old ++ request_line frame number request.now) }
{
    let message_id = header.message_id;
    let code = header.command;
    write!(text, "{frame}.{number} ")?;
    put_name(code, text)?;
    write!(text, " mid={message_id}")?;
    put_line_end(is_readable(code, request), text)
}

/// Adds the lines of a chain's requests.
fn put_chain(frame: u64, chain: &Chain<'_>, text: &mut String) -> Result<(), AllocError>
    ensures { OnOk result (string_bytes text.new ≡ string_bytes text.old ++ request_lines frame 1 chain.now) }
{
    let _count = chain.len();
    let mut place = 0;
    while let Some((header, request)) = chain.get(place) {
        place += 1;
        put_request(frame, place, &header, request, text)?;
    }
    Ok(())
}

/// Adds the lines of a payload. Ok says whether nothing is wrong with it.
#[tactic(auto, unfolding(crate::specs::Show::payload_lines))]
fn put_payload(frame: u64, payload: &[u8], text: &mut String) -> Result<bool, AllocError>
    ensures text { OnOk result (string_bytes text.new ≡ string_bytes text.old ++ (payload_lines frame payload.now).text) }
    ensures good { IfOk result (λ good. good ≡ (payload_lines frame payload.now).is_good) }
{
    if frame == 1 && read_smb1_negotiate(payload).is_some() {
        text.push_str("1 smb1 negotiate\n")?;
        return Ok(true);
    }
    match read_chain(payload) {
        Ok(chain) => {
            put_chain(frame, &chain, text)?;
            Ok(true)
        }
        Err(fault) => {
            let number = fault.number();
            write!(text, "{frame}: H{number}\n")?;
            Ok(false)
        }
    }
}

/// The number of a fault, 1 to 4: 2 for F2.
pub(crate) fn fault_number(fault: FrameFault) -> u8
    ensures { result ≡ frame_fault_number fault }
{
    match fault {
        FrameFault::FirstByte => 1,
        FrameFault::TooLong => 2,
        FrameFault::PayloadTooLong => 3,
        FrameFault::NoMemory => 4,
    }
}

/// Adds the line of what is behind the last whole frame. Ok says whether nothing is.
#[tactic(auto, unfolding(crate::specs::Show::rest_lines))]
fn put_rest(frame: u64, buffer: &FrameBuffer, text: &mut String) -> Result<bool, AllocError>
    requires { buffer.now.limit ≡ longest_payload }
    ensures text { OnOk result (string_bytes text.new ≡ string_bytes text.old ++ (rest_lines frame buffer.now.bytes).text) }
    ensures good { IfOk result (λ good. good ≡ (rest_lines frame buffer.now.bytes).is_good) }
{
    if let Some(fault) = buffer.fault() {
        let number = fault_number(fault);
        write!(text, "{frame}: F{number}\n")?;
        return Ok(false);
    }
    let length = buffer.len();
    if length == 0 {
        return Ok(true);
    }
    write!(text, "rest {length}\n")?;
    Ok(false)
}

/// A buffer that holds a whole stream.
pub(crate) fn buffer_of(alloc: Global, stream: &[u8]) -> Result<FrameBuffer, AllocError>
    ensures { IfOk result (λ buffer. buffer ≡ record { limit = longest_payload; done = 0; bytes = stream.now }) }
{
    let mut buffer = FrameBuffer::new(alloc, LONGEST_PAYLOAD);
    match buffer.push(stream) {
        Ok(()) => Ok(buffer),
        Err(_) => Err(AllocError),
    }
}

/// The listing of a stream.
fn list_stream(alloc: Global, stream: &[u8]) -> Result<Listing, AllocError>
    ensures { IfOk result (λ listing. listing_text listing ≡ show_of stream.now) }
{
    let mut buffer = buffer_of(alloc, stream)?;
    let mut text = String::new(alloc);
    let mut frame = 1u64;
    while let Some(payload) = buffer.next() {
        if !put_payload(frame, payload, &mut text)? {
            let is_good = false;
            return Ok(Listing { text, is_good });
        }
        buffer.done();
        frame += 1;
    }
    let is_good = put_rest(frame, &buffer, &mut text)?;
    Ok(Listing { text, is_good })
}

/// Shows the stream of an input. Ok says whether nothing is wrong in it.
fn show<R: Read + Drop, W: Write>(
    alloc: Global,
    input: R,
    output: &mut W,
) -> Result<bool, CommandFault> {
    let text = read_input(alloc, input)?;
    let Some(stream) = read_stream(alloc, text)? else {
        return Err(CommandFault::InputUnreadable);
    };
    let listing = list_stream(alloc, &stream)?;
    output
        .write_all(listing.text.as_bytes())
        .map_err(|_| CommandFault::OutputFailed)?;
    output.flush().map_err(|_| CommandFault::OutputFailed)?;
    Ok(listing.is_good)
}

/// Lists the requests of a client's stream, and gives the exit status.
///
/// The input is the stream in hex, in either case; white space is passed over. `output` gets a line
/// `F.R NAME mid=M` for the R-th request of the F-th frame, with ` unreadable` behind it where its body cannot
/// be read, or `1 smb1 negotiate`. The first fault is the last line, and so is `rest N` where N bytes are
/// behind the last frame. `errors` gets what is wrong with the input as a text, and then `output` gets nothing.
/// The status is 0 where every byte belongs to a frame without a fault, 3 for want of memory, and else 1.
pub fn show_text<R: Read + Drop, W: Write, E: Write>(
    alloc: Global,
    input: R,
    output: &mut W,
    errors: &mut E,
) -> u8 {
    match show(alloc, input, output) {
        Ok(is_good) => u8::from(!is_good),
        Err(fault) => fault.report(alloc, Detail::Brief, errors),
    }
}
