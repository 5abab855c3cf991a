//! The response to a request, before and behind the writing of its body.

ghost use Rattle.std.specs.Prelude.{◌≡◌, ◌≤◌, ◌+◌, ◌++◌, None, Some, OnOk, OnErr, IfOk, IfErr, length, take};
ghost use Rattle.smb_wire.specs.Limits.{longest_body};
ghost use Rattle.smb_request.specs.Bodies.{response_step, CanBePut, no_reply_of};
ghost use Rattle.smb_refusals.specs.Refusals.{refusal_status};
ghost use Rattle.smb_request.specs.InPlace.{answer_held, answer_behind};

use super::call::Call;
use super::context::HeaderIds;
use super::server::Server;
use smb_body::{
    BodyFault, QueryDirectoryRequest, QueryResponse, Reply, SessionFlags, SessionSetupResponse,
    write_reply,
};
use smb_opens::{FilePart, Opens};
use smb_refusals::Refusal;
use smb_session::Authenticator;
use smb_tree::Tree;
use smb_wire::{Dialect, NtStatus};
use thiserror::Error;

/// A response but for its body, which is where it is sent from: its status, and the ids of its header.
#[derive(Clone, Copy)]
pub struct Answered {
    pub status: NtStatus,
    /// By which row its request was refused.
    pub refusal: Option<Refusal>,
    pub ids: HeaderIds,
}

/// Where memory ran out in a request.
#[derive(Clone, Copy, Debug, PartialEq, Eq, Error)]
pub enum NoReply {
    /// Before it was performed: all is as it was.
    #[error("no memory, before the request was performed")]
    NotPerformed,
    /// As its response was written: what it does is done.
    #[error("no memory for the response to a request that was performed")]
    Performed,
}

impl From<BodyFault> for NoReply {
    ghost use Rattle.smb_request.specs.declared.response.NoReply.TheVariants.{Performed};

    ghost from_gives = { λ _ no_reply. no_reply ≡ Performed };

    fn from(_fault: BodyFault) -> NoReply {
        NoReply::Performed
    }
}

/// The response to a request, whose body is still to be written.
#[derive(Drop)]
pub(crate) enum Response<'a> {
    /// A status and ids, with a body that borrows nothing of the server.
    Ready(Answered, Reply<'a>),
    /// Success with a dialect that was negotiated, and the authenticator's hello.
    Dialects(Dialect),
    /// The response to a SESSION_SETUP that is no failure, with a token of the authenticator.
    Token(Answered, SessionFlags, Vec<u8>),
    /// As many bytes of an information class as there is room for.
    Information(Answered, Vec<u8>),
    /// Success with bytes of a file, which go from the file tree straight into the response.
    Bytes(FilePart),
    /// A query of a directory, which is performed where its listing is written.
    Listing(QueryDirectoryRequest<'a>),
}

impl<'a> Response<'a> {
    /// A refusal by a row, under these ids.
    pub(crate) fn refused(ids: HeaderIds, refusal: Refusal) -> Response<'a>
        ensures { result ≡ Response.Ready (record { status = refusal_status refusal; refusal = Some refusal; ids = ids }) Reply.Error }
    {
        Response::Ready(failure(ids, refusal), Reply::Error)
    }

    /// A success under these ids.
    pub(crate) fn success(ids: HeaderIds, reply: Reply<'a>) -> Response<'a>
        ensures { result ≡ Response.Ready (record { status = NtStatus.Success; refusal = None; ids = ids }) reply.entry }
    {
        Response::Ready(success(ids), reply)
    }
}

/// A response to a request that succeeds, but for its body.
pub(crate) fn success(ids: HeaderIds) -> Answered
    ensures { result ≡ record { status = NtStatus.Success; refusal = None; ids = ids } }
{
    Answered {
        status: NtStatus::Success,
        refusal: None,
        ids,
    }
}

/// A response to a request that is refused by a row, but for its body.
pub(crate) fn failure(ids: HeaderIds, refusal: Refusal) -> Answered
    ensures { result ≡ record { status = refusal_status refusal; refusal = Some refusal; ids = ids } }
{
    Answered {
        status: refusal.status(),
        refusal: Some(refusal),
        ids,
    }
}

impl<A: Authenticator + Drop, T: Tree + Drop, O: Opens + Drop> Server<A, T, O> {
    /// Adds the body of a response to `out`. After an error `out` is as it was, and so is the server.
    pub(crate) fn put(
        &mut self,
        call: Call,
        response: &Response<'_>,
        out: &mut Vec<u8>,
    ) -> Result<Answered, NoReply>
        requires { CanBePut self.old call response.now }
        ensures server { OnOk result (self.new ≡ (response_step A.meaning self.old call response.now).server) }
        ensures ok { IfOk result (λ r. answer_held r out.new.items
            ≡ answer_behind out.old.items (response_step A.meaning self.old call response.now).response) }
        ensures len { OnOk result (length out.new.items ≤ length out.old.items + longest_body) }
        ensures err { IfErr result (λ no_reply. no_reply ≡ no_reply_of response.now) }
        ensures state { OnErr result (self.new ≡ self.old) }
        ensures out { OnErr result (out.new.items ≡ out.old.items) }
        ensures kept { take (length out.old.items) out.new.items ≡ out.old.items }
        ensures known { self.new.sessions.table.connections ≡ self.old.sessions.table.connections }
    {
        let answered = match response {
            Response::Ready(answered, reply) => {
                write_reply(reply, out)?;
                *answered
            }
            Response::Dialects(dialect) => {
                let (dialect, revision) = (*dialect, dialect.revision());
                let reply = self.negotiate_response(call.moment, Some(dialect), revision);
                write_reply(&reply, out)?;
                success(call.ids)
            }
            Response::Token(answered, session_flags, token) => {
                let response = SessionSetupResponse {
                    session_flags: *session_flags,
                    security_buffer: token,
                };
                write_reply(&Reply::SessionSetup(response), out)?;
                *answered
            }
            Response::Information(answered, bytes) => {
                let response = QueryResponse {
                    output_buffer: bytes,
                };
                write_reply(&Reply::QueryInfo(response), out)?;
                *answered
            }
            Response::Bytes(part) => self.put_bytes(call, part, out).or(Err(NoReply::Performed))?,
            Response::Listing(asked) => self
                .query_directory(call, asked, out)
                .or(Err(NoReply::NotPerformed))?,
        };
        Ok(answered)
    }
}
