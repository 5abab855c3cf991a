//! SESSION_SETUP, LOGOFF, TREE_CONNECT and TREE_DISCONNECT ([MS-SMB2] 3.3.5.5 to 3.3.5.8).
//!
//! Where a session or a tree ends, the opens beneath are closed; that takes no memory.

ghost use Rattle.std.specs.Prelude.{◌≡◌, ◌==◌, bit_and, IfOk, IfErr, IfSome};
ghost use Rattle.smb_wire.specs.Units.{units_of};
ghost use Rattle.smb_body.specs.SessionSetup.{session_setup_asked};
ghost use Rattle.smb_request.specs.Session.{session_set_up, session_logged_off, may_only_read, tree_joined, tree_left};
ghost use Rattle.smb_request.specs.Parts.{closed_for, tree_response};
ghost use Rattle.smb_request.specs.Held.{opens_left, setup_response_of};
ghost use Rattle.smb_request.specs.Bodies.{result_step, IsReadyAfter};
ghost use Rattle.smb_refusals.specs.declared.refused_by.RefusedBy.TheVariants.{NoMemory};

use super::call::Call;
use super::context::HeaderIds;
use super::response::{Answered, Response};
use super::server::Server;
use smb_access::most_allowed;
use smb_body::{
    Capabilities, Reply, SessionFlags, SessionSecurityMode, SessionSetupRequest, ShareFlags,
    ShareType, TreeConnectResponse,
};
use smb_opens::{Opens, Owner, Store};
use smb_refusals::{Refusal, RefusedBy, SetupRefusal};
use smb_session::{Authenticator, SetupAsk, SetupDone, SetupStatus};
use smb_tree::Tree;
use smb_wire::{NtStatus, Units};
use std::alloc::AllocError;

/// SMB2_NEGOTIATE_SIGNING_REQUIRED ([MS-SMB2] 2.2.5).
const SIGNING_REQUIRED: u8 = 2;

/// Whether the client asks that each request of the session is signed.
fn asks_to_sign(mode: SessionSecurityMode) -> bool
    ensures { result ≡ (bit_and mode.0 2 == 2) }
{
    mode.0 & SIGNING_REQUIRED == SIGNING_REQUIRED
}

/// What a tree is: a disk, without flags and capabilities, and with all access that a session can be granted
/// ([MS-SMB2] 2.2.10).
fn tree_response(read_only: bool) -> TreeConnectResponse
    ensures { result ≡ tree_response read_only }
{
    TreeConnectResponse {
        share_type: ShareType(1),
        share_flags: ShareFlags(0),
        capabilities: Capabilities(0),
        maximal_access: most_allowed(read_only, false),
    }
}

/// The response to a SESSION_SETUP that was not refused ([MS-SMB2] 2.2.6).
fn setup_response_of<'a>(ids: HeaderIds, done: SetupDone) -> Response<'a>
    ensures { result ≡ setup_response_of ids done }
{
    let ids = HeaderIds {
        session_id: done.session,
        ..ids
    };
    let status = match done.status {
        SetupStatus::LogonFailure => {
            return Response::refused(ids, Refusal::SessionSetup(SetupRefusal::Denied));
        }
        SetupStatus::Success => NtStatus::Success,
        SetupStatus::MoreProcessingRequired => NtStatus::MoreProcessingRequired,
    };
    let answered = Answered {
        status,
        refusal: None,
        ids,
    };
    Response::Token(answered, SessionFlags(done.flags), done.token)
}

/// Closes the opens of a session that ended, where one did.
fn close_ended<T: Tree + Drop, O: Opens + Drop>(store: &mut Store<T, O>, ended: Option<u64>)
    ensures store { store.new ≡ closed_for store.old ended }
    ensures left { store.new.opens ≡ opens_left ended store.old.opens }
{
    if let Some(session) = ended {
        store.close_all(Owner::Session(session));
    }
}

impl<A: Authenticator + Drop, T: Tree + Drop, O: Opens + Drop> Server<A, T, O> {
    /// SESSION_SETUP ([MS-SMB2] 3.3.5.5).
    #[tactic(auto, unfolding(crate::specs::Session::session_set_up), using(crate::proofs::Refused::failed, crate::proofs::Refused::named_refused))]
    pub(crate) fn set_up<'a>(
        &mut self,
        call: Call,
        asked: &SessionSetupRequest<'_>,
    ) -> Result<Response<'a>, RefusedBy<Refusal>>
        ensures ok { IfSome (result_step A.meaning self.new call result) (λ step. step
            ≡ session_set_up A.meaning self.old call (session_setup_asked asked.now)) }
        ensures put { IfOk result (IsReadyAfter self.old self.new call) }
        ensures err { IfErr result (λ refusal. self.new ≡ self.old) }
        ensures known { self.new.sessions.table.connections ≡ self.old.sessions.table.connections }
    {
        self.sessions.good();
        let signing_required = asks_to_sign(asked.security_mode);
        let ask = SetupAsk {
            flags: asked.flags.0,
            previous_session: asked.previous_session_id,
            signing_required,
            token: asked.security_buffer,
        };
        let done = self
            .sessions
            .setup_by_row(call.connection, call.ids.session_id, &ask)?;
        close_ended(&mut self.store, done.ended);
        Ok(setup_response_of(call.ids, done))
    }

    /// LOGOFF ([MS-SMB2] 3.3.5.6).
    #[tactic(auto, unfolding(crate::specs::Session::session_logged_off), using(crate::proofs::Refused::failed, crate::proofs::Refused::named_row))]
    pub(crate) fn log_off<'a>(&mut self, call: Call) -> Result<Response<'a>, RefusedBy<Refusal>>
        ensures ok { IfSome (result_step A.meaning self.new call result) (λ step. step ≡ session_logged_off self.old call) }
        ensures put { IfOk result (IsReadyAfter self.old self.new call) }
        ensures err { IfErr result (λ refusal. self.new ≡ self.old) }
        ensures known { self.new.sessions.table.connections ≡ self.old.sessions.table.connections }
    {
        self.sessions
            .logoff_by_row(call.connection, call.ids.session_id)?;
        self.store.close_all(Owner::Session(call.ids.session_id));
        Ok(Response::success(call.ids, Reply::Logoff))
    }

    /// Whether the session that a request acts under may only read.
    pub(crate) fn may_only_read(&self, call: Call) -> bool
        ensures { result ≡ may_only_read self.now call }
    {
        self.sessions
            .read_only(call.connection, call.ids.session_id)
            .unwrap_or(false)
    }

    /// TREE_CONNECT ([MS-SMB2] 3.3.5.7).
    #[tactic(auto, unfolding(crate::specs::Session::tree_joined), using(crate::proofs::Refused::failed, crate::proofs::Refused::named_row))]
    pub(crate) fn connect_tree<'a>(
        &mut self,
        call: Call,
        path: Units<'_>,
    ) -> Result<Response<'a>, RefusedBy<Refusal>>
        ensures ok { IfSome (result_step A.meaning self.new call result) (λ step. step ≡ tree_joined self.old call (units_of path.entry)) }
        ensures put { IfOk result (IsReadyAfter self.old self.new call) }
        ensures err { IfErr result (λ refusal. self.new ≡ self.old) }
        ensures known { self.new.sessions.table.connections ≡ self.old.sessions.table.connections }
    {
        let response = tree_response(self.may_only_read(call));
        let session_id = call.ids.session_id;
        let tree_id = self
            .sessions
            .tree_connect_by_row(call.connection, session_id, path)?;
        let ids = HeaderIds {
            session_id,
            tree_id,
        };
        Ok(Response::success(ids, Reply::TreeConnect(response)))
    }

    /// TREE_DISCONNECT ([MS-SMB2] 3.3.5.8).
    #[tactic(auto, unfolding(crate::specs::Session::tree_left), using(crate::proofs::Refused::failed, crate::proofs::Refused::named_row))]
    pub(crate) fn disconnect_tree<'a>(
        &mut self,
        call: Call,
    ) -> Result<Response<'a>, RefusedBy<Refusal>>
        ensures ok { IfSome (result_step A.meaning self.new call result) (λ step. step ≡ tree_left self.old call) }
        ensures put { IfOk result (IsReadyAfter self.old self.new call) }
        ensures err { IfErr result (λ refusal. self.new ≡ self.old) }
        ensures known { self.new.sessions.table.connections ≡ self.old.sessions.table.connections }
    {
        let HeaderIds {
            session_id,
            tree_id,
        } = call.ids;
        self.sessions
            .tree_disconnect_by_row(call.connection, session_id, tree_id)?;
        self.store.close_all(Owner::Tree(session_id, tree_id));
        Ok(Response::success(call.ids, Reply::TreeDisconnect))
    }
}
