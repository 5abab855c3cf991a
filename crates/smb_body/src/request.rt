//! Requests of all commands.

ghost use Rattle.std.specs.Prelude.{◌≡◌, ◌++◌, length, take, Some, None, IfSome, IfNone, OnOk, OnErr, IfOk, IfErr, false};
ghost use Rattle.smb_body.specs.LockLists.{EachElementIsRead};
ghost use Rattle.smb_body.specs.Refusals.{body_refusal};
ghost use Rattle.smb_body.specs.Requests.{request_value, request_of, request_spelling, FitsRequest, is_too_long, IsReadBack, RequestsAreTold, LaidIsTheSame};

use super::close::{CloseRequest, put_close, read_close};
use super::create::{CreateRequest, put_create, read_create};
use super::fault::BodyFault;
use super::flush::{FlushRequest, put_flush, read_flush};
use super::lock::{LockRequest, put_lock, read_lock};
use super::negotiate::{NegotiateRequest, put_negotiate, read_negotiate};
use super::query_directory::{QueryDirectoryRequest, put_query_directory, read_query_directory};
use super::query_info::{QueryInfoRequest, put_query_info, read_query_info};
use super::read::{ReadRequest, put_read, read_read};
use super::reserved::{ReservedRequest, put_reserved, read_reserved};
use super::session_setup::{SessionSetupRequest, put_session_setup, read_session_setup};
use super::set_info::{SetInfoRequest, put_set_info, read_set_info};
use super::tree_connect::{TreeConnectRequest, put_tree_connect, read_tree_connect};
use super::write::{WriteRequest, put_write, read_write};

/// A request of a command ([MS-SMB2] 2.2).
#[derive(Clone, Copy)]
pub enum Request<'a> {
    Negotiate(NegotiateRequest<'a>),
    SessionSetup(SessionSetupRequest<'a>),
    Logoff(ReservedRequest),
    TreeConnect(TreeConnectRequest<'a>),
    TreeDisconnect(ReservedRequest),
    Create(CreateRequest<'a>),
    Close(CloseRequest),
    Flush(FlushRequest),
    Read(ReadRequest),
    Write(WriteRequest<'a>),
    Lock(LockRequest<'a>),
    Cancel(ReservedRequest),
    Echo(ReservedRequest),
    QueryDirectory(QueryDirectoryRequest<'a>),
    QueryInfo(QueryInfoRequest),
    SetInfo(SetInfoRequest<'a>),
}

/// What a request of a command says, or None where it says nothing.
#[tactic(auto, unfolding(crate::specs::Requests::request_of))]
fn read_request(command: u16, request: &[u8]) -> Option<Request<'_>>
    ensures some { IfSome result (λ r. request_of command request.now ≡ Some (request_value r)) }
    ensures none { IfNone result (request_of command request.now ≡ None) }
{
    match command {
        0 => Some(Request::Negotiate(read_negotiate(request)?)),
        1 => Some(Request::SessionSetup(read_session_setup(request)?)),
        2 => Some(Request::Logoff(read_reserved(request)?)),
        3 => Some(Request::TreeConnect(read_tree_connect(request)?)),
        4 => Some(Request::TreeDisconnect(read_reserved(request)?)),
        5 => Some(Request::Create(read_create(request)?)),
        6 => Some(Request::Close(read_close(request)?)),
        7 => Some(Request::Flush(read_flush(request)?)),
        8 => Some(Request::Read(read_read(request)?)),
        9 => Some(Request::Write(read_write(request)?)),
        0xa => Some(Request::Lock(read_lock(request)?)),
        0xc => Some(Request::Cancel(read_reserved(request)?)),
        0xd => Some(Request::Echo(read_reserved(request)?)),
        0xe => Some(Request::QueryDirectory(read_query_directory(request)?)),
        0x10 => Some(Request::QueryInfo(read_query_info(request)?)),
        0x11 => Some(Request::SetInfo(read_set_info(request)?)),
        _ => None,
    }
}

/// What a request says in its body. `command` is its header's, and `request` the whole request, from its
/// header's first byte on, since the offsets of buffers count from there. Nothing is copied.
///
/// [`BodyFault::Unreadable`], the only refusal, comes exactly where the bytes say nothing in this command:
/// a wrong StructureSize, a body shorter than its fixed part, a buffer with bytes that begins before the
/// end of the fixed part or passes the request's end, a text of an odd length, dialects or elements of a
/// LOCK that pass the end or are none, and each command that has no body here.
pub fn read_body(command: u16, request: &[u8]) -> Result<Request<'_>, BodyFault>
    ensures ok { IfOk result (λ r. request_of command request.now ≡ Some (request_value r)) }
    ensures none { OnErr result (request_of command request.now ≡ None) }
    ensures err { IfErr result (λ fault. fault ≡ BodyFault.Unreadable) }
{
    read_request(command, request).ok_or(BodyFault::Unreadable)
}

/// Adds the body. After an error some of it stands there.
fn put_request(request: &Request<'_>, out: &mut Vec<u8>) -> Result<(), BodyFault>
    ensures ok { OnOk result (out.new.items ≡
        out.old.items ++ request_spelling (request_value request.now)) }
    ensures fits { OnOk result (FitsRequest (request_value request.now)) }
    ensures short { OnOk result (is_too_long (request_value request.now) ≡ false) }
    ensures fault { IfErr result (λ fault. fault ≡
        body_refusal (is_too_long (request_value request.now))) }
    ensures kept { take (length out.old.items) out.new.items ≡ out.old.items }
{
    match request {
        Request::Negotiate(r) => put_negotiate(*r, out)?,
        Request::SessionSetup(r) => put_session_setup(*r, out)?,
        Request::Logoff(r) => put_reserved(*r, out)?,
        Request::TreeConnect(r) => put_tree_connect(*r, out)?,
        Request::TreeDisconnect(r) => put_reserved(*r, out)?,
        Request::Create(r) => put_create(*r, out)?,
        Request::Close(r) => put_close(*r, out)?,
        Request::Flush(r) => put_flush(*r, out)?,
        Request::Read(r) => put_read(*r, out)?,
        Request::Write(r) => put_write(*r, out)?,
        Request::Lock(r) => put_lock(*r, out)?,
        Request::Cancel(r) => put_reserved(*r, out)?,
        Request::Echo(r) => put_reserved(*r, out)?,
        Request::QueryDirectory(r) => put_query_directory(*r, out)?,
        Request::QueryInfo(r) => put_query_info(*r, out)?,
        Request::SetInfo(r) => put_set_info(*r, out)?,
    }
    Ok(())
}

/// Adds the body of a request at the end of `out`, each buffer straight behind the fixed part, and create contexts at
/// the next multiple of 8 behind the name. The offsets of checked buffers are those of that layout, whatever the
/// request has in their fields. What was added is read again behind any header of 64 bytes, the same but for these
/// offsets, unless it is a NEGOTIATE without dialects or a LOCK without elements.
///
/// [`BodyFault::TooLong`] comes exactly where a length or a count passes its field, whatever memory there
/// is. After it and after [`BodyFault::NoMemory`] `out` is as it was.
pub fn write_request(request: &Request<'_>, out: &mut Vec<u8>) -> Result<(), BodyFault>
    ensures ok { OnOk result (out.new.items ≡
        out.old.items ++ request_spelling (request_value request.now)) }
    ensures read { OnOk result (IsReadBack (request_value request.now)) }
    ensures short { OnOk result (is_too_long (request_value request.now) ≡ false) }
    ensures fault { IfErr result (λ fault. fault ≡
        body_refusal (is_too_long (request_value request.now))) }
    ensures kept { OnErr result (out.new.items ≡ out.old.items) }
{
    let before = out.len();
    match put_request(request, out) {
        Ok(()) => Ok(()),
        Err(fault) => {
            out.truncate(before);
            Err(fault)
        }
    }
}

/// The laws of requests: the contract is the statement, and the body does nothing.
pub fn laws_of_requests()
    ensures told { RequestsAreTold }
    ensures laid { LaidIsTheSame }
    ensures element { EachElementIsRead }
{}
