//! One request: the checks in their order, and the table of commands ([MS-SMB2] 3.3.5.2).

ghost use Rattle.std.specs.Prelude.{ℕ, Option, ◌≡◌, ◌≤◌, ◌+◌, true, false, IfOk, IfErr, IfSome, IfNone, IsSome, is_some, Some, None, OnOk, OnErr, length, take, if◌then◌else◌};
ghost use Rattle.std.specs.Option.{is_none, option_map, option_map_or};
ghost use Rattle.smb_refusals.specs.declared.request.RequestRefusal.TheVariants.{UnknownCommand, CommandNotPerformed, BodyUnreadable, UnknownSession, UnknownTreeConnect};
ghost use Rattle.smb_wire.specs.Commands.{known_command};
ghost use Rattle.smb_wire.specs.Limits.{longest_body};
ghost use Rattle.smb_head.specs.Headers.{header_of};
ghost use Rattle.smb_body.specs.Dialects.{dialects_of};
ghost use Rattle.smb_body.specs.Requests.{request_value, file_id_of};
ghost use Rattle.smb_session.specs.Negotiate.{best_of};
ghost use Rattle.smb_session.specs.Table.{knows_session, knows_tree, signing_of};
ghost use Rattle.smb_signing.specs.Signature.{signature};
ghost use Rattle.smb_access.specs.Opens.{open_of};
ghost use Rattle.smb_request.specs.Bodies.{result_step, is_listing, IsReadyAfter};
ghost use Rattle.smb_request.specs.Held.{is_performed, IsCallOf, asked_value};
ghost use Rattle.smb_request.specs.InPlace.{answer_held, answer_behind, performed_behind};
ghost use Rattle.smb_body.specs.Needs.{needs_of};
ghost use Rattle.smb_request.specs.Parts.{is_unsupported, is_cancel_command, needs_session, needs_tree, dialect_after, open_refusal, performed_by, negotiated};
ghost use Rattle.smb_request.specs.Call.{call_of, request_ids};
ghost use Rattle.smb_request.specs.Request.{acted, check_request, verified, performed, refused_by_signature};
ghost use Rattle.smb_refusals.specs.declared.refused_by.RefusedBy.TheVariants.{NoMemory};

use super::asked::Asked;
use super::call::{Call, body_of};
use super::context::{Context, ContextOpen, HeaderIds, open_named};
use super::response::{Answered, NoReply, Response, failure};
use super::server::Server;
use super::signature::signature_refusal;
use smb_body::{Dialects, Needs, Reply, Request, write_reply};
use smb_head::Header;
use smb_opens::Opens;
use smb_refusals::{NegotiateRefusal, Refusal, RefusedBy, RequestRefusal};
use smb_session::{Authenticator, Signing};
use smb_signing::KnownSignature;
use smb_tree::Tree;
use smb_wire::{Command, Dialect};

/// Whether a request is a CANCEL.
fn is_cancel(header: &Header) -> bool
    ensures { result ≡ is_cancel_command (known_command header.now.command.0) }
{
    matches!(header.command.known(), Some(Command::Cancel))
}

/// Why a request is refused whose body says nothing: its command is never performed, there is no such command, or the body
/// cannot be read.
fn unread_refusal(call: Call) -> RequestRefusal
    ensures { result ≡ (if option_map_or is_unsupported call.command false then CommandNotPerformed else
        if is_none call.command then UnknownCommand else BodyUnreadable) }
{
    match call.command {
        Some(Command::Ioctl | Command::ChangeNotify | Command::OplockBreak) => {
            RequestRefusal::CommandNotPerformed
        }
        Some(_) => RequestRefusal::BodyUnreadable,
        None => RequestRefusal::UnknownCommand,
    }
}

impl<A: Authenticator + Drop, T: Tree + Drop, O: Opens + Drop> Server<A, T, O> {
    /// Checks that a request which names this open may act on it.
    fn check_open(&self, ids: HeaderIds, named: ContextOpen) -> Result<(), RequestRefusal>
        ensures ok { OnOk result (open_refusal self.now.store.opens ids named ≡ None) }
        ensures err { IfErr result (λ refusal. open_refusal self.now.store.opens ids named ≡ Some refusal) }
    {
        match named {
            ContextOpen::Nothing => Err(RequestRefusal::NoOpenHandedOn),
            ContextOpen::Refused(status) => Err(RequestRefusal::CreateBeforeRefused(status)),
            ContextOpen::Named(id) if self.names_open(ids, id) => Ok(()),
            ContextOpen::Named(_) => Err(RequestRefusal::UnknownOpen),
        }
    }

    /// Why a request is refused that needs a tree connect which does not exist.
    fn absent_tree(&self, connection: u64, session_id: u64) -> RequestRefusal
        ensures { result ≡ (if knows_session self.now.sessions.table connection session_id then UnknownTreeConnect else UnknownSession) }
    {
        if self.sessions.knows(connection, session_id, None) {
            RequestRefusal::UnknownTreeConnect
        } else {
            RequestRefusal::UnknownSession
        }
    }

    /// Checks that a request takes as many MessageIds as it has to, 1 and 1 more for each further 65,536 bytes, and that the
    /// session, the tree connect and the open exist that it needs.
    fn check_request(&self, call: Call, asked: &Asked<'_>) -> Result<(), RequestRefusal>
        ensures ok { OnOk result (check_request self.now call (asked_value asked.now) ≡ None) }
        ensures err { IfErr result (λ refusal. check_request self.now call (asked_value asked.now) ≡ Some refusal) }
    {
        let (connection, ids) = (call.connection, call.ids);
        if u32::from(call.charge) <= asked.facts.payload.saturating_sub(1) / 65_536 {
            return Err(RequestRefusal::ChargeTooSmall);
        }
        match asked.facts.needs {
            Needs::Nothing => {}
            Needs::Session => {
                if !self.sessions.knows(connection, ids.session_id, None) {
                    return Err(RequestRefusal::UnknownSession);
                }
            }
            // A tree connect that exists has its session, which needs no look-up of its own.
            Needs::Tree | Needs::Open => {
                if !self
                    .sessions
                    .knows(connection, ids.session_id, Some(ids.tree_id))
                {
                    return Err(self.absent_tree(connection, ids.session_id));
                }
            }
        }
        match call.file_id {
            Some(id) => self.check_open(ids, open_named(call.inherited, id)),
            None => Ok(()),
        }
    }

    /// The greatest dialect of the server that a list has.
    fn best_dialect(&self, connection: u64, dialects: Dialects<'_>) -> Option<Dialect>
        ensures { result ≡ best_of (dialects_of dialects.entry) }
    {
        match self.sessions.negotiate(connection, dialects.bytes()) {
            Ok(best) => Some(best),
            Err(_) => None,
        }
    }

    /// NEGOTIATE ([MS-SMB2] 3.3.5.4).
    fn negotiate<'a>(
        &self,
        call: Call,
        dialect: &mut Option<Dialect>,
        dialects: Dialects<'_>,
    ) -> Result<Response<'a>, RefusedBy<Refusal>>
        ensures ok { IfSome (result_step A.meaning self.now call result) (λ step. step ≡ negotiated A.meaning self.now call (dialects_of dialects.entry)) }
        ensures dialect { dialect.new ≡ option_map_or (λ best. Some best) (best_of (dialects_of dialects.entry)) dialect.old }
        ensures put { IfOk result (IsReadyAfter self.now self.now call) }
        ensures memory { IfErr result (λ refusal. refusal ≡ NoMemory → dialect.new ≡ dialect.old) }
        ensures listing { IfOk result (λ response. is_listing response ≡ true → dialect.new ≡ dialect.old) }
    {
        let Some(best) = self.best_dialect(call.connection, dialects) else {
            return Err(RefusedBy::from(NegotiateRefusal::NoDialect));
        };
        *dialect = Some(best);
        Ok(Response::Dialects(best))
    }

    /// Performs a request that passed its checks.
    fn act<'a>(
        &mut self,
        call: Call,
        dialect: &mut Option<Dialect>,
        request: &Request<'a>,
    ) -> Result<Response<'a>, RefusedBy<Refusal>>
        requires session { needs_session (needs_of (request_value request.now)) ≡ true → knows_session self.old.sessions.table call.connection call.ids.session_id ≡ true }
        requires tree { needs_tree (needs_of (request_value request.now)) ≡ true → knows_tree self.old.sessions.table call.ids.session_id call.ids.tree_id ≡ true }
        requires open { is_some (file_id_of (request_value request.now)) ≡ true → IsSome (open_of self.old.store.opens call.open_number) }
        ensures ok { IfSome (result_step A.meaning self.new call result) (λ step. step ≡ acted A.meaning self.old call (request_value request.now)) }
        ensures dialect { dialect.new ≡ dialect_after dialect.old (request_value request.now) }
        ensures put { IfOk result (IsReadyAfter self.old self.new call) }
        ensures err { IfErr result (λ refusal. refusal ≡ NoMemory → self.new ≡ self.old) }
        ensures memory { IfErr result (λ refusal. refusal ≡ NoMemory → dialect.new ≡ dialect.old) }
        ensures listing { IfOk result (λ response. is_listing response ≡ true → dialect.new ≡ dialect.old) }
        ensures known { self.new.sessions.table.connections ≡ self.old.sessions.table.connections }
    {
        match request {
            Request::Negotiate(asked) => self.negotiate(call, dialect, asked.dialects),
            Request::SessionSetup(asked) => self.set_up(call, asked),
            Request::Logoff(_) => self.log_off(call),
            Request::TreeConnect(asked) => self.connect_tree(call, asked.path),
            Request::TreeDisconnect(_) => self.disconnect_tree(call),
            Request::Create(asked) => self.create_file(call, asked),
            Request::Close(asked) => Ok(self.close_file(call, asked.flags)),
            Request::Flush(_) => {
                self.store.flush(call.open_number);
                Ok(Response::success(call.ids, Reply::Flush))
            }
            Request::Read(asked) => self.read_file(call, asked),
            Request::Write(asked) => self.write_file(call, asked),
            Request::Lock(asked) => self.change_locks(call, asked),
            Request::Echo(_) => Ok(Response::success(call.ids, Reply::Echo)),
            Request::QueryDirectory(asked) => Ok(Response::Listing(*asked)),
            Request::QueryInfo(asked) => self.query_info(call, asked),
            Request::SetInfo(asked) => self.set_info(call, asked),
            Request::Cancel(_) => Err(RefusedBy::from(RequestRefusal::CommandNotPerformed)),
        }
    }

    /// Checks a request other than CANCEL, and performs it.
    fn respond<'a>(
        &mut self,
        call: Call,
        dialect: &mut Option<Dialect>,
        body: &Option<Asked<'a>>,
    ) -> Result<Response<'a>, RefusedBy<Refusal>>
        requires { IsCallOf call (option_map asked_value body.now) }
        ensures ok { IfSome (result_step A.meaning self.new call result) (λ step. step ≡ performed_by A.meaning self.old call (option_map asked_value body.now)) }
        ensures dialect { dialect.new ≡ option_map_or (dialect_after dialect.old) (option_map asked_value body.now) dialect.old }
        ensures put { IfOk result (IsReadyAfter self.old self.new call) }
        ensures err { IfErr result (λ refusal. refusal ≡ NoMemory → self.new ≡ self.old) }
        ensures memory { IfErr result (λ refusal. refusal ≡ NoMemory → dialect.new ≡ dialect.old) }
        ensures listing { IfOk result (λ response. is_listing response ≡ true → dialect.new ≡ dialect.old) }
        ensures known { self.new.sessions.table.connections ≡ self.old.sessions.table.connections }
    {
        let _ = &self.sessions;
        let Some(asked) = body else {
            return Err(RefusedBy::from(unread_refusal(call)));
        };
        self.check_request(call, asked)?;
        self.act(call, dialect, &asked.request)
    }

    /// Performs one request whose signature does not refuse it, and adds the body of its response to `out`. CANCEL has no response: None,
    /// and `out` is as it was.
    ///
    /// An error says that an allocation was refused, and whether the request was performed, which then changed the server's state
    /// and the dialect. `context` is as it was, and what was in `out` is kept.
    #[tactic(auto, unfolding(crate::specs::Request::verified))]
    fn perform_verified(
        &mut self,
        connection: u64,
        moment: u64,
        dialect: &mut Option<Dialect>,
        context: &mut Context,
        header: &Header,
        request: &[u8],
        out: &mut Vec<u8>,
    ) -> Result<Option<Answered>, NoReply>
        requires { header.now ≡ header_of request.now }
        ensures ok { IfOk result (λ r. record { server = self.new; dialect = dialect.new; context = context.new; response = option_map (λ a. answer_held a out.new.items) r }
            ≡ performed_behind out.old.items (verified A.meaning connection moment self.old dialect.old context.old request.now)) }
        ensures none { IfOk result (λ r. IfNone r (out.new.items ≡ out.old.items)) }
        ensures len { OnOk result (length out.new.items ≤ length out.old.items + longest_body) }
        ensures err { IfErr result (λ no_reply. self.new
            ≡ (if is_performed no_reply then (verified A.meaning connection moment self.old dialect.old context.old request.now).server else self.old)) }
        ensures dialect { IfErr result (λ no_reply. dialect.new
            ≡ (if is_performed no_reply then (verified A.meaning connection moment self.old dialect.old context.old request.now).dialect else dialect.old)) }
        ensures context { OnErr result (context.new ≡ context.old) }
        ensures kept { take (length out.old.items) out.new.items ≡ out.old.items }
        ensures known { self.new.sessions.table.connections ≡ self.old.sessions.table.connections }
    {
        let command = header.command.known();
        let body = body_of(header.command, request);
        let call = Call::of(
            connection, moment, *dialect, *context, header, command, &body,
        );
        if matches!(command, Some(Command::Cancel)) {
            *context = call.context_without_response();
            return Ok(None);
        }
        let next = self.store.next_number();
        let response = match self.respond(call, dialect, &body) {
            Ok(response) => response,
            Err(RefusedBy::Row(refusal)) => Response::refused(call.ids, refusal),
            Err(RefusedBy::NoMemory) => return Err(NoReply::NotPerformed),
        };
        match self.put(call, &response, out) {
            Ok(answered) => {
                *context = call.context_behind(answered.ids, answered.status, next);
                Ok(Some(answered))
            }
            Err(no_reply) => Err(no_reply),
        }
    }

    /// Refuses a request by its signature, and adds the body of its response to `out`: what it hands on, and its response.
    /// After an error `out` is as it was.
    fn refuse_signature(
        &self,
        context: Context,
        header: &Header,
        request: &[u8],
        refusal: RequestRefusal,
        out: &mut Vec<u8>,
    ) -> Result<(Context, Answered), NoReply>
        requires { header.now ≡ header_of request.now }
        ensures ok { (connection moment : ℕ) (dialect : Option Dialect) → IfOk result (λ r.
            (r.0 ≡ (refused_by_signature self.now (call_of connection moment dialect context request.now) dialect refusal).context)
            × (Some (answer_held r.1 out.new.items) ≡ option_map (answer_behind out.old.items) (refused_by_signature self.now (call_of connection moment dialect context request.now) dialect refusal).response)) }
        ensures len { OnOk result (length out.new.items ≤ length out.old.items + longest_body) }
        ensures err { IfErr result (λ no_reply. is_performed no_reply ≡ false) }
        ensures out { OnErr result (out.new.items ≡ out.old.items) }
        ensures kept { take (length out.old.items) out.new.items ≡ out.old.items }
    {
        let command = header.command.known();
        let body = body_of(header.command, request);
        let call = Call::of(0, 0, None, context, header, command, &body);
        write_reply(&Reply::Error, out).or(Err(NoReply::NotPerformed))?;
        let answered = failure(call.ids, Refusal::Request(refusal));
        let next = self.store.next_number();
        Ok((
            call.context_behind(answered.ids, answered.status, next),
            answered,
        ))
    }

    /// Performs one request of this header, and adds the body of its response to `out`. CANCEL has no response: None,
    /// and `out` is as it was. How the messages of its session are signed is what [`signing`](Self::signing) says; its own
    /// signature may be known already by some key.
    ///
    /// An error says that an allocation was refused, and whether the request was performed, which then changed the server's state
    /// and the dialect. `context` is as it was, and what was in `out` is kept.
    #[tactic(auto, unfolding(crate::specs::Request::performed))]
    pub fn perform(
        &mut self,
        connection: u64,
        moment: u64,
        dialect: &mut Option<Dialect>,
        context: &mut Context,
        signing: Option<Signing>,
        known: Option<KnownSignature>,
        header: &Header,
        request: &[u8],
        out: &mut Vec<u8>,
    ) -> Result<Option<Answered>, NoReply>
        requires header { header.now ≡ header_of request.now }
        requires signing { signing ≡ signing_of self.old.sessions.table connection (request_ids context.old request.now).session_id }
        requires known { IfSome known (λ k. k.own ≡ signature k.key.bytes request.now) }
        ensures ok { IfOk result (λ r. record { server = self.new; dialect = dialect.new; context = context.new; response = option_map (λ a. answer_held a out.new.items) r }
            ≡ performed_behind out.old.items (performed A.meaning connection moment self.old dialect.old context.old request.now)) }
        ensures none { IfOk result (λ r. IfNone r (out.new.items ≡ out.old.items)) }
        ensures len { OnOk result (length out.new.items ≤ length out.old.items + longest_body) }
        ensures err { IfErr result (λ no_reply. self.new
            ≡ (if is_performed no_reply then (performed A.meaning connection moment self.old dialect.old context.old request.now).server else self.old)) }
        ensures dialect { IfErr result (λ no_reply. dialect.new
            ≡ (if is_performed no_reply then (performed A.meaning connection moment self.old dialect.old context.old request.now).dialect else dialect.old)) }
        ensures context { OnErr result (context.new ≡ context.old) }
        ensures kept { take (length out.old.items) out.new.items ≡ out.old.items }
        ensures known { self.new.sessions.table.connections ≡ self.old.sessions.table.connections }
    {
        match signature_refusal(signing, header, request, known) {
            Some(refusal) if !is_cancel(header) => {
                let answered = self.refuse_signature(*context, header, request, refusal, out)?;
                *context = answered.0;
                Ok(Some(answered.1))
            }
            _ => self.perform_verified(connection, moment, dialect, context, header, request, out),
        }
    }
}
