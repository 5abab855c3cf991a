//! Replies of all commands.

ghost use Rattle.std.specs.Prelude.{◌≡◌, ◌++◌, ◌+◌, length, take, OnOk, OnErr, IfErr, false};
ghost use Rattle.smb_wire.specs.Fields.{AllFit, AllStand};
ghost use Rattle.smb_body.specs.Refusals.{body_refusal};
ghost use Rattle.smb_body.specs.Replies.{reply_value, reply_fields, reply_spelling, reply_length, is_reply_too_long, HasBufferAtItsOffset};

use super::close::{CloseResponse, put_close_response};
use super::create::{CreateResponse, put_create_response};
use super::error::put_error_response;
use super::fault::BodyFault;
use super::negotiate::{NegotiateResponse, put_negotiate_response};
use super::query::{QueryResponse, put_query_response};
use super::read::{ReadResponse, put_read_response};
use super::reserved::put_reserved_response;
use super::session_setup::{SessionSetupResponse, put_session_setup_response};
use super::set_info::put_set_info_response;
use super::tree_connect::{TreeConnectResponse, put_tree_connect_response};
use super::write::{WriteResponse, put_write_response};

/// A reply of a command, or the error response of any ([MS-SMB2] 2.2).
#[derive(Clone, Copy)]
pub enum Reply<'a> {
    Error,
    Negotiate(NegotiateResponse<'a>),
    SessionSetup(SessionSetupResponse<'a>),
    Logoff,
    TreeConnect(TreeConnectResponse),
    TreeDisconnect,
    Create(CreateResponse),
    Close(CloseResponse),
    Flush,
    Read(ReadResponse<'a>),
    Write(WriteResponse),
    Lock,
    Echo,
    QueryDirectory(QueryResponse<'a>),
    QueryInfo(QueryResponse<'a>),
    SetInfo,
}

/// Adds the body. After an error some of it stands there.
fn put_reply(reply: &Reply<'_>, out: &mut Vec<u8>) -> Result<(), BodyFault>
    ensures ok { OnOk result (out.new.items ≡
        out.old.items ++ reply_spelling (reply_value reply.now)) }
    ensures fits { OnOk result (AllFit (reply_fields (reply_value reply.now))) }
    ensures short { OnOk result (is_reply_too_long (reply_value reply.now) ≡ false) }
    ensures fault { IfErr result (λ fault. fault ≡
        body_refusal (is_reply_too_long (reply_value reply.now))) }
    ensures kept { take (length out.old.items) out.new.items ≡ out.old.items }
{
    match reply {
        Reply::Error => put_error_response(out)?,
        Reply::Negotiate(r) => put_negotiate_response(*r, out)?,
        Reply::SessionSetup(r) => put_session_setup_response(*r, out)?,
        Reply::Logoff => put_reserved_response(out)?,
        Reply::TreeConnect(r) => put_tree_connect_response(*r, out)?,
        Reply::TreeDisconnect => put_reserved_response(out)?,
        Reply::Create(r) => put_create_response(*r, out)?,
        Reply::Close(r) => put_close_response(*r, out)?,
        Reply::Flush => put_reserved_response(out)?,
        Reply::Read(r) => put_read_response(*r, out)?,
        Reply::Write(r) => put_write_response(*r, out)?,
        Reply::Lock => put_reserved_response(out)?,
        Reply::Echo => put_reserved_response(out)?,
        Reply::QueryDirectory(r) => put_query_response(*r, out)?,
        Reply::QueryInfo(r) => put_query_response(*r, out)?,
        Reply::SetInfo => put_set_info_response(out)?,
    }
    Ok(())
}

/// Adds the body of a reply at the end of `out`, its buffer straight behind the fixed part.
///
/// [`BodyFault::TooLong`] comes exactly where the buffer's length passes its field, whatever memory there
/// is. After it and after [`BodyFault::NoMemory`] `out` is as it was.
pub fn write_reply(reply: &Reply<'_>, out: &mut Vec<u8>) -> Result<(), BodyFault>
    ensures ok { OnOk result (out.new.items ≡
        out.old.items ++ reply_spelling (reply_value reply.now)) }
    ensures stand { OnOk result
        (AllStand (reply_spelling (reply_value reply.now)) (reply_fields (reply_value reply.now))) }
    ensures buffer { OnOk result (HasBufferAtItsOffset (reply_value reply.now)) }
    ensures len { OnOk result
        (length out.new.items ≡ length out.old.items + reply_length (reply_value reply.now)) }
    ensures short { OnOk result (is_reply_too_long (reply_value reply.now) ≡ false) }
    ensures fault { IfErr result (λ fault. fault ≡
        body_refusal (is_reply_too_long (reply_value reply.now))) }
    ensures kept { OnErr result (out.new.items ≡ out.old.items) }
{
    let before = out.len();
    match put_reply(reply, out) {
        Ok(()) => Ok(()),
        Err(fault) => {
            out.truncate(before);
            Err(fault)
        }
    }
}
