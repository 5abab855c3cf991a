//! READ and WRITE ([MS-SMB2] 3.3.5.12, 3.3.5.13).

ghost use Rattle.std.specs.Prelude.{◌≡◌, ◌≤◌, ◌+◌, ◌++◌, IfOk, IfErr, IfSome, IsSome, OnOk, OnErr, length, take};
ghost use Rattle.smb_wire.specs.Limits.{longest_body};
ghost use Rattle.smb_access.specs.Opens.{open_of};
ghost use Rattle.smb_body.specs.Replies.{answers_read};
ghost use Rattle.smb_body.specs.Write.{write_asked};
ghost use Rattle.smb_opens.specs.Bytes.{part_bytes};
ghost use Rattle.smb_request.specs.Bodies.{result_step, IsReadable, IsReadyAfter};
ghost use Rattle.smb_request.specs.Bytes.{file_read, file_written};
ghost use Rattle.smb_request.specs.InPlace.{answer_held, answer_behind};
ghost use Rattle.smb_request.specs.Parts.{success};

use super::call::Call;
use super::response::{Answered, Response, success};
use super::server::Server;
use smb_body::{ReadRequest, Reply, WriteRequest, WriteResponse, put_read_head};
use smb_opens::{FilePart, Opens};
use smb_refusals::{Refusal, RefusedBy};
use smb_session::Authenticator;
use smb_tree::Tree;
use std::alloc::AllocError;

impl<A: Authenticator + Drop, T: Tree + Drop, O: Opens + Drop> Server<A, T, O> {
    /// READ ([MS-SMB2] 3.3.5.12). Its bytes are read by [`put_bytes`](Self::put_bytes), where they are sent from.
    #[tactic(auto, unfolding(crate::specs::Bytes::file_read))]
    pub(crate) fn read_file<'a>(
        &self,
        call: Call,
        request: &ReadRequest,
    ) -> Result<Response<'a>, RefusedBy<Refusal>>
        requires { IsSome (open_of self.now.store.opens call.open_number) }
        ensures ok { IfSome (result_step A.meaning self.now call result) (λ step. step ≡ file_read self.now call request.now) }
        ensures put { IfOk result (IsReadyAfter self.now self.now call) }
    {
        let (offset, length, minimum_count) = (
            request.offset,
            request.length,
            request.minimum_count,
        );
        let most = call.most_at_once();
        let part = self
            .store
            .find_bytes_by_row(most, call.open_number, offset, length, minimum_count)?;
        Ok(Response::Bytes(part))
    }

    /// WRITE ([MS-SMB2] 3.3.5.13). The bytes go from the request straight into the file.
    #[tactic(auto, unfolding(crate::specs::Bytes::file_written))]
    pub(crate) fn write_file<'a>(
        &mut self,
        call: Call,
        request: &WriteRequest<'_>,
    ) -> Result<Response<'a>, RefusedBy<Refusal>>
        requires { IsSome (open_of self.old.store.opens call.open_number) }
        ensures ok { IfSome (result_step A.meaning self.new call result) (λ step. step ≡ file_written self.old call (write_asked request.now)) }
        ensures put { IfOk result (IsReadyAfter self.old self.new call) }
        ensures err { IfErr result (λ refusal. self.new ≡ self.old) }
        ensures known { self.new.sessions.table.connections ≡ self.old.sessions.table.connections }
    {
        let (offset, buffer) = (request.offset, request.buffer);
        self.store.write_by_row(
            call.most_at_once(),
            call.open_number,
            offset,
            buffer,
            call.moment,
        )?;
        let count = buffer.len() as u32;
        Ok(Response::success(call.ids, Reply::Write(WriteResponse { count })))
    }

    /// Adds the body of a READ response to `out`: its fixed part, and behind it the bytes of the file, which are copied
    /// once. After an error `out` is as it was.
    pub(crate) fn put_bytes(
        &self,
        call: Call,
        part: &FilePart,
        out: &mut Vec<u8>,
    ) -> Result<Answered, AllocError>
        requires { IsReadable self.now part.now }
        ensures ok { IfOk result (λ r. answer_held r out.new.items ≡ answer_behind out.old.items
            (success call.ids (answers_read (part_bytes self.now.store part.now)))) }
        ensures len { OnOk result (length out.new.items ≤ length out.old.items + longest_body) }
        ensures err { OnErr result (out.new.items ≡ out.old.items) }
        ensures kept { take (length out.old.items) out.new.items ≡ out.old.items }
    {
        let start = out.len();
        put_read_head(part.length, out)?;
        match self.store.add_part(part, out) {
            Ok(()) => Ok(success(call.ids)),
            Err(AllocError) => {
                out.truncate(start);
                Err(AllocError)
            }
        }
    }
}
