//! A request as it was read: what its header, the requests before it in its chain and its body say ([MS-SMB2] 3.3.5.2).

ghost use Rattle.std.specs.Prelude.{ℕ, List, Option, ◌≡◌, ◌≤◌};
ghost use Rattle.smb_wire.specs.declared.dialect.Dialect.{Dialect};
ghost use Rattle.std.specs.Option.{option_map};
ghost use Rattle.smb_wire.specs.Limits.{most_at_once, most_in_any_dialect};
ghost use Rattle.smb_head.specs.Headers.{header_of};
ghost use Rattle.smb_wire.specs.Commands.{known_command};
ghost use Rattle.smb_request.specs.Held.{asked_value};
ghost use Rattle.smb_request.specs.Call.{body_of, call_of, request_ids};
ghost use Rattle.smb_request.specs.Parts.{inherited_open};
ghost use Rattle.smb_request.specs.Context.{named_on, open_for_next_related};

use super::asked::Asked;
use super::charge::charge_of;
use super::context::{Context, ContextOpen, HeaderIds, created_open, named_on, open_number};
use bitflags::Flags;
use smb_body::read_body;
use smb_head::{Header, HeaderFlags};
use smb_wire::{Command, CommandCode, Dialect, FileId, NtStatus, limits};

/// A request, but for its body.
#[derive(Clone, Copy)]
pub(crate) struct Call {
    pub(crate) connection: u64,
    /// When it came, in units of 100 ns since 1601.
    pub(crate) moment: u64,
    /// That of its connection as it came; None where none is established.
    pub(crate) dialect: Option<Dialect>,
    /// How many MessageIds it takes.
    pub(crate) charge: u16,
    /// None where there is no such command.
    pub(crate) command: Option<Command>,
    /// The session and the tree connect that it acts under.
    pub(crate) ids: HeaderIds,
    /// The open that it inherits; None where it is not related.
    pub(crate) inherited: Option<ContextOpen>,
    /// The FileId in its body, where it has one.
    pub(crate) file_id: Option<FileId>,
    /// The number of the open that it names; 0, which no open has, where it names none.
    pub(crate) open_number: u64,
}

/// The session and the tree connect that a request acts under, its own, or of a related one the context's; and the open that
/// it inherits, none where it is not related.
fn inherited_by(context: Context, header: &Header) -> (HeaderIds, Option<ContextOpen>)
    ensures ids { (request : List ℕ) → header.now ≡ header_of request → result.0 ≡ request_ids context request }
    ensures inherited { (request : List ℕ) → header.now ≡ header_of request → result.1 ≡ inherited_open context request }
{
    if header.flags.contains(HeaderFlags::RELATED) {
        (context.ids, Some(context.last_open))
    } else {
        let ids = HeaderIds {
            session_id: header.session_id,
            tree_id: header.tree_id,
        };
        (ids, None)
    }
}

/// The session and the tree connect that a request acts under.
pub(crate) fn ids_under(context: Context, header: &Header) -> HeaderIds
    ensures { (request : List ℕ) → header.now ≡ header_of request → result ≡ request_ids context request }
{
    inherited_by(context, header).0
}

/// What the body of a request of a code says; None where it says nothing, or the code is that of no command.
pub(crate) fn body_of(code: CommandCode, request: &[u8]) -> Option<Asked<'_>>
    ensures { option_map asked_value result ≡ body_of (known_command code.0) request.now }
{
    match read_body(code.0, request) {
        Ok(request) => {
            let facts = request.facts();
            Some(Asked { request, facts })
        }
        Err(_) => None,
    }
}

/// What a request acts on that comes behind the requests of a context: the session and the tree connect, and the number of the
/// open that it names, 0 where it names none.
pub fn acting_on(context: Context, header: &Header, request: &[u8]) -> (HeaderIds, u64)
    requires { header.now ≡ header_of request.now }
    ensures { (connection moment : ℕ) (dialect : Option Dialect) →
        (result.0 ≡ (call_of connection moment dialect context request.now).ids)
        × (result.1 ≡ (call_of connection moment dialect context request.now).open_number) }
{
    let command = header.command.known();
    let body = body_of(header.command, request);
    let call = Call::of(0, 0, None, context, header, command, &body);
    (call.ids, call.open_number)
}

impl Call {
    /// A request of a header and a body, on a connection of a dialect at a moment, behind the requests of a context.
    pub(crate) fn of(
        connection: u64,
        moment: u64,
        dialect: Option<Dialect>,
        context: Context,
        header: &Header,
        command: Option<Command>,
        body: &Option<Asked<'_>>,
    ) -> Call
        ensures { (request : List ℕ) → header.now ≡ header_of request →
            command ≡ known_command header.now.command.0 →
            option_map asked_value body.now ≡ body_of command request →
            result ≡ call_of connection moment dialect context request }
    {
        let (ids, inherited) = inherited_by(context, header);
        let file_id = match body {
            Some(asked) => asked.facts.file_id,
            None => None,
        };
        let open_number = match file_id {
            Some(id) => open_number(inherited, id),
            None => 0,
        };
        Call {
            connection,
            moment,
            dialect,
            charge: charge_of(dialect, header.credit_charge),
            command,
            ids,
            inherited,
            file_id,
            open_number,
        }
    }

    /// How many bytes it may ask for, or bring.
    pub(crate) fn most_at_once(self) -> u32
        ensures value { result ≡ most_at_once self.dialect }
        ensures most { result ≤ most_in_any_dialect }
    {
        limits::most_at_once(self.dialect)
    }

    /// What it hands on where it has no response.
    pub(crate) fn context_without_response(self) -> Context
        ensures { result ≡ record { ids = self.ids; last_open = named_on self.inherited self.file_id } }
    {
        Context {
            ids: self.ids,
            last_open: named_on(self.inherited, self.file_id),
        }
    }

    /// What it hands on behind a response with these ids and this status, by the number that the next open was to have.
    pub(crate) fn context_behind(self, ids: HeaderIds, status: NtStatus, next: u64) -> Context
        ensures { result ≡ record { ids = ids; last_open = open_for_next_related self.inherited next self.command self.file_id status } }
    {
        let last_open = match self.command {
            Some(Command::Create) => created_open(next, status),
            _ => named_on(self.inherited, self.file_id),
        };
        Context { ids, last_open }
    }
}
