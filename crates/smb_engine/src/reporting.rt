//! What an observer hears of requests: that one is performed, and how it is responded to.

ghost use Rattle.std.specs.Prelude.{ℕ, List, Option, ◌≡◌, ◌++◌, Some, true, IfSome, IfNone};
ghost use Rattle.smb_head.specs.Headers.{header_of};
ghost use Rattle.smb_engine.specs.Held.{report_observed};
ghost use Rattle.smb_engine.specs.Observed.{acting_on, response_observed, smb1_observed};
ghost use Rattle.smb_peers.specs.Record.{Keeping};
ghost use Rattle.smb_wire.specs.declared.dialect.Dialect.{Dialect};

use super::arrival::Arrival;
use smb_head::Header;
use smb_opens::Opens;
use smb_peers::{Acting, Observer, Responded};
use smb_request::{Answered, Context, Server, acting_on};
use smb_session::Authenticator;
use smb_tree::Tree;
use smb_wire::{Command, NtStatus};

/// What a request acts on that is performed next, for an observer that listens, which notes its user and its file; None for one
/// that does not.
pub(crate) fn note_subject<A: Authenticator + Drop, T: Tree + Drop, O: Opens + Drop, W: Observer>(
    server: &Server<A, T, O>,
    arrival: Arrival,
    context: Context,
    header: &Header,
    request: &[u8],
    observer: &mut W,
) -> Option<Acting>
    requires { header.now ≡ header_of request.now }
    ensures acting { (dialect : Option Dialect) → IfSome result (λ acting. acting ≡ acting_on arrival dialect context request.now) }
    ensures deaf { IfNone result (W.keeps observer.new ≡ true → ⊥) }
    ensures observed { Keeping (W.keeps observer.old) (W.keeps observer.new) (W.observed observer.new ≡ W.observed observer.old) }
{
    if !observer.listens() {
        return None;
    }
    let (ids, open_number) = acting_on(context, header, request);
    match server.user(arrival.connection_id, ids.session_id) {
        Some(user) => match server.file_name(ids, open_number) {
            Some(name) => observer.note_subject(user, Some(&name)),
            None => observer.note_subject(user, None),
        },
        None => observer.note_subject(&[], None),
    }
    Some(Acting {
        session_id: ids.session_id,
        tree_id: ids.tree_id,
        open_number,
    })
}

/// Reports who was let in by a SESSION_SETUP, or why nobody was, where the authenticator keeps that.
fn report_login<A: Authenticator + Drop, T: Tree + Drop, O: Opens + Drop, W: Observer>(
    server: &Server<A, T, O>,
    arrival: Arrival,
    answered: Answered,
    observer: &mut W,
)
    ensures observed { Keeping (W.keeps observer.old) (W.keeps observer.new) (W.observed observer.new ≡ W.observed observer.old) }
{
    let (connection, session_id) = (arrival.connection_id, answered.ids.session_id);
    match answered.status {
        NtStatus::Success => {
            if let Some(user) = server.user(connection, session_id) {
                observer.let_in(connection, session_id, user);
            }
        }
        NtStatus::LogonFailure => {
            if let Some(denial) = server.denial() {
                observer.denied(connection, denial.reason, denial.name);
            }
        }
        _ => {}
    }
}

/// Reports how a request is responded to.
fn report_response<A: Authenticator + Drop, T: Tree + Drop, O: Opens + Drop, W: Observer>(
    server: &Server<A, T, O>,
    arrival: Arrival,
    header: &Header,
    answered: Answered,
    credits: u16,
    observer: &mut W,
)
    ensures observed { (request body : List ℕ) → header.now ≡ header_of request → Keeping (W.keeps observer.old) (W.keeps observer.new)
        (W.observed observer.new ≡ W.observed observer.old ++ response_observed arrival.connection_id request credits (Some (record { status = answered.status; refusal = answered.refusal; ids = answered.ids; body = body }))) }
{
    if header.command == Command::SessionSetup.code() {
        report_login(server, arrival, answered, observer);
    }
    let response = Responded {
        message_id: header.message_id,
        command: header.command,
        status: answered.status,
        refusal: answered.refusal,
        credits,
    };
    observer.responded(arrival.connection_id, response);
}

/// Reports a request that was performed, and how it is responded to and with how many credits, where it is; to an observer
/// that listens, for which it was noted what the request acts on.
pub(crate) fn report<A: Authenticator + Drop, T: Tree + Drop, O: Opens + Drop, W: Observer>(
    server: &Server<A, T, O>,
    arrival: Arrival,
    header: &Header,
    request: &[u8],
    acting: Option<Acting>,
    answered: Option<(Answered, u16)>,
    observer: &mut W,
)
    requires { header.now ≡ header_of request.now }
    ensures observed { IfSome acting (λ acting. Keeping (W.keeps observer.old) (W.keeps observer.new)
        (W.observed observer.new ≡ W.observed observer.old ++ report_observed arrival.connection_id request.now acting answered)) }
    ensures deaf { IfNone acting (W.keeps observer.new ≡ true → W.keeps observer.old ≡ true) }
{
    let Some(acting) = acting else {
        return;
    };
    observer.performed(arrival.connection_id, arrival.moment, request, acting);
    if let Some((answered, credits)) = answered {
        report_response(server, arrival, header, answered, credits, observer);
    }
}

/// What an SMB_COM_NEGOTIATE acts on: nothing.
const ON_NOTHING: Acting = Acting {
    session_id: 0,
    tree_id: 0,
    open_number: 0,
};

/// Reports an SMB_COM_NEGOTIATE that is answered.
pub(crate) fn report_smb1<W: Observer>(arrival: Arrival, payload: &[u8], observer: &mut W)
    ensures observed { Keeping (W.keeps observer.old) (W.keeps observer.new)
        (W.observed observer.new ≡ W.observed observer.old ++ smb1_observed arrival.connection_id payload.now 1) }
{
    if !observer.listens() {
        return;
    }
    observer.performed(arrival.connection_id, arrival.moment, payload, ON_NOTHING);
    let response = Responded {
        message_id: 0,
        command: Command::Negotiate.code(),
        status: NtStatus::Success,
        refusal: None,
        credits: 1,
    };
    observer.responded(arrival.connection_id, response);
}
