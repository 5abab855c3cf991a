//! CREATE and CLOSE ([MS-SMB2] 3.3.5.9, 3.3.5.10).

ghost use Rattle.std.specs.Prelude.{◌≡◌, true, IsSome, IfOk, IfErr, IfSome};
ghost use Rattle.smb_access.specs.Opens.{open_of};
ghost use Rattle.smb_body.specs.Create.{create_asked};
ghost use Rattle.smb_access.specs.Asked.{asked};
ghost use Rattle.smb_session.specs.Table.{knows_session, knows_tree};
ghost use Rattle.smb_request.specs.Files.{file_created, file_closed};
ghost use Rattle.smb_request.specs.Parts.{file_asked, create_response, names_open, close_response};
ghost use Rattle.smb_request.specs.Bodies.{response_step, result_step, IsReadyAfter};

use super::call::Call;
use super::context::HeaderIds;
use super::response::Response;
use super::server::Server;
use smb_body::{CloseFlags, CloseResponse, CreateRequest, CreateResponse, OplockLevel, Reply};
use smb_opens::{CreateAsk, Created, Opens, Owner, View};
use smb_refusals::{Refusal, RefusedBy};
use smb_session::Authenticator;
use smb_tree::Tree;
use smb_wire::{FileAttributes, FileId};

/// What a CREATE asks of the files, under a session, which may only read or write too, and a tree.
fn file_asked<'a>(ids: HeaderIds, request: &CreateRequest<'a>, read_only: bool) -> CreateAsk<'a>
    ensures { asked result ≡ file_asked ids (create_asked request.now) read_only }
{
    CreateAsk {
        name: request.name,
        access: request.desired_access,
        attributes: request.file_attributes,
        share: request.share_access,
        disposition: request.create_disposition,
        options: request.create_options,
        session: ids.session_id,
        tree: ids.tree_id,
        read_only,
    }
}

/// The response to a CREATE that succeeded ([MS-SMB2] 2.2.14).
fn create_response(done: &Created) -> CreateResponse
    ensures { result ≡ create_response done.now }
{
    CreateResponse {
        oplock_level: OplockLevel(0),
        create_action: done.action,
        creation_time: done.view.creation_time,
        last_access_time: done.view.last_access_time,
        last_write_time: done.view.last_write_time,
        change_time: done.view.change_time,
        allocation_size: done.view.allocation_size,
        end_of_file: done.view.size,
        file_attributes: done.view.attributes,
        file_id: FileId {
            persistent: done.number,
            volatile: done.number,
        },
    }
}

/// A response that shows nothing.
const CLOSE_SHOWS_NOTHING: CloseResponse = CloseResponse {
    flags: CloseFlags(0),
    creation_time: 0,
    last_access_time: 0,
    last_write_time: 0,
    change_time: 0,
    allocation_size: 0,
    end_of_file: 0,
    file_attributes: FileAttributes(0),
};

/// The response to a CLOSE of an open that showed this ([MS-SMB2] 2.2.16).
fn close_response(flags: CloseFlags, view: &View) -> CloseResponse
    ensures { result ≡ close_response flags view.now }
{
    if flags.0 & CloseFlags::POSTQUERY_ATTRIB.0 == 0 {
        return CLOSE_SHOWS_NOTHING;
    }
    CloseResponse {
        flags: CloseFlags::POSTQUERY_ATTRIB,
        creation_time: view.creation_time,
        last_access_time: view.last_access_time,
        last_write_time: view.last_write_time,
        change_time: view.change_time,
        allocation_size: view.allocation_size,
        end_of_file: view.size,
        file_attributes: view.attributes,
    }
}

impl<A: Authenticator + Drop, T: Tree + Drop, O: Opens + Drop> Server<A, T, O> {
    /// Whether a FileId names an open of this session and tree connect.
    pub(crate) fn names_open(&self, ids: HeaderIds, id: FileId) -> bool
        ensures { result ≡ names_open self.now.store.opens ids id }
    {
        if id.persistent != id.volatile {
            return false;
        }
        match self.store.opens().get(id.persistent) {
            Some(row) => Owner::Tree(ids.session_id, ids.tree_id).holds(row),
            None => false,
        }
    }

    /// CREATE ([MS-SMB2] 3.3.5.9), under a session and a tree connect that exist.
    #[tactic(auto, unfolding(crate::specs::Files::file_created))]
    pub(crate) fn create_file<'a>(
        &mut self,
        call: Call,
        request: &CreateRequest<'_>,
    ) -> Result<Response<'a>, RefusedBy<Refusal>>
        requires session { knows_session self.old.sessions.table call.connection call.ids.session_id ≡ true }
        requires tree { knows_tree self.old.sessions.table call.ids.session_id call.ids.tree_id ≡ true }
        ensures ok { IfSome (result_step A.meaning self.new call result) (λ step. step ≡ file_created self.old call (create_asked request.now)) }
        ensures put { IfOk result (IsReadyAfter self.old self.new call) }
        ensures err { IfErr result (λ refusal. self.new ≡ self.old) }
        ensures known { self.new.sessions.table.connections ≡ self.old.sessions.table.connections }
    {
        let read_only = self.may_only_read(call);
        let ask = file_asked(call.ids, request, read_only);
        let done = self.store.create_by_row(&ask, call.moment)?;
        Ok(Response::success(call.ids, Reply::Create(create_response(&done))))
    }

    /// CLOSE ([MS-SMB2] 3.3.5.10).
    #[tactic(auto, unfolding(crate::specs::Files::file_closed))]
    pub(crate) fn close_file<'a>(&mut self, call: Call, flags: CloseFlags) -> Response<'a>
        requires { IsSome (open_of self.old.store.opens call.open_number) }
        ensures closed { response_step A.meaning self.new call result ≡ file_closed self.old call flags }
        ensures put { IsReadyAfter self.old self.new call result }
        ensures known { self.new.sessions.table.connections ≡ self.old.sessions.table.connections }
    {
        let closed = self.store.close(call.open_number);
        let response = close_response(flags, &closed.view);
        Response::success(call.ids, Reply::Close(response))
    }
}
