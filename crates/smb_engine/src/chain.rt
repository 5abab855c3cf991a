//! A payload: its requests in order, and the replies in one payload ([MS-SMB2] 3.3.5.2).

ghost use Rattle.std.specs.Prelude.{ℕ, List, ◌≡◌, ◌≤◌, ◌<◌, ◌+◌, ◌-◌, ◌^◌, [], ◌∷◌, ◌++◌, Some, Option, true, is_some, OnOk, OnErr, IfOk, IfErr, IfSome, IfNone, length, take, replicate, if◌then◌else◌};
ghost use Rattle.std.specs.List.{flat_map};
ghost use Rattle.smb_signing.specs.declared.key.Key.{Key};
ghost use Rattle.smb_head.specs.Headers.{header_of};
ghost use Rattle.smb_head.specs.Replies.{Reply, rounded_up};
ghost use Rattle.smb_head.specs.Placed.{placed, replies_written};
ghost use Rattle.smb_head.specs.Sealed.{AreApart, sealed};
ghost use Rattle.smb_request.specs.Request.{performed};
ghost use Rattle.std.specs.Bool.{OnTrue, OnFalse};
ghost use Rattle.smb_wire.specs.Limits.{longest_response};
ghost use Rattle.smb_head.specs.Replies.{joined_replies};
ghost use Rattle.smb_request.specs.Negotiate.{negotiate_answer};
ghost use Rattle.smb_request.specs.Smb1.{reply_to_smb1};
ghost use Rattle.smb_engine.specs.Run.{one_performed, smb1_step, chain_step, payload_step, ending_of};
ghost use Rattle.smb_engine.specs.Parts.{longest_reply, reply_to};
ghost use Rattle.smb_engine.specs.Ahead.{IsKnownOf};
ghost use Rattle.smb_engine.specs.Held.{StoppedAfter};
ghost use Rattle.smb_request.specs.Held.{is_performed};
ghost use Rattle.smb_engine.specs.Output.{output_bytes, reply_frame};
ghost use Rattle.smb_engine.specs.InPlace.{chain_state_behind, step_behind};
ghost use Rattle.smb_peers.specs.Record.{Keeping};
ghost use Rattle.smb_engine.specs.Observed.{request_observed, requests_observed, ending_observed, smb1_ending, payload_observed};
ghost use Rattle.smb_session.specs.Window.{credits_granted};

use super::admission::{admit, request_at};
use super::arrival::Arrival;
use super::connection::Connection;
use super::ending::fault_ending;
use super::fault::CutShort;
use super::reporting::{note_subject, report, report_smb1};
use super::unsealed::Unsealed;
use bitflags::Flags;
use smb_body::{Smb1Dialects, read_smb1_negotiate};
use smb_frame::{close_frame, open_frame};
use smb_head::{Header, HeaderFlags, ReplyWriter, Unsigned, read_chain};
use smb_opens::Opens;
use smb_peers::{Ending, Observer};
use smb_request::smb1::Smb1Answer;
use smb_request::{Answered, Context, NoReply, Server, smb1};
use smb_session::{Authenticator, Window};
use smb_signing::KnownSignature;
use smb_tree::Tree;
use smb_wire::limits::MOST_REQUESTS;

/// The flags of a response: RELATED_OPERATIONS where its request had it, and SIGNED where it is signed.
fn response_flags(related: bool, signed: bool) -> HeaderFlags
    ensures { result ≡ record { 0 = (if related then 5 else 1) + (if signed then 8 else 0) } }
{
    let answers = HeaderFlags::SERVER_TO_REDIR;
    let answers_related = HeaderFlags(answers.0 | HeaderFlags::RELATED.0);
    match (related, signed) {
        (false, false) => answers,
        (true, false) => answers_related,
        (false, true) => HeaderFlags(answers.0 | HeaderFlags::SIGNED.0),
        (true, true) => HeaderFlags(answers_related.0 | HeaderFlags::SIGNED.0),
    }
}

/// The header of the reply to a request of this header, which is signed or is not.
fn reply_header(header: &Header, answered: Answered, signed: bool, credits: u16) -> Header
    requires { credits < 2 ^ 16 }
    ensures { (request body : List ℕ) (key : Option Key) → header.now ≡ header_of request → signed ≡ is_some key →
        result ≡ (reply_to request (record { status = answered.status; refusal = answered.refusal; ids = answered.ids; body = body }) key credits).header }
{
    let related = header.flags.contains(HeaderFlags::RELATED);
    Header {
        credit_charge: header.credit_charge,
        status: answered.status.code(),
        command: header.command,
        credits,
        flags: response_flags(related, signed),
        next_command: 0,
        message_id: header.message_id,
        reserved: header.reserved,
        tree_id: answered.ids.tree_id,
        session_id: answered.ids.session_id,
        signature: [0; 16],
    }
}

/// A chain in progress: what its next related request acts under, and the writer of its replies.
#[derive(Drop)]
struct ChainProgress {
    context: Context,
    writer: ReplyWriter,
}

/// Performs one request of a chain, its reply written once, behind the others. An error says whether the
/// request was performed.
#[tactic(auto, unfolding(crate::specs::Run::one_performed))]
fn perform_one<A: Authenticator + Drop, T: Tree + Drop, O: Opens + Drop, W: Observer>(
    server: &mut Server<A, T, O>,
    arrival: Arrival,
    connection: &mut Connection,
    progress: &mut ChainProgress,
    known: Option<KnownSignature>,
    header: &Header,
    request: &[u8],
    out: &mut Vec<u8>,
    observer: &mut W,
) -> Result<(), NoReply>
    requires header { header.now ≡ header_of request.now }
    requires known { IsKnownOf request.now known }
    requires order { progress.old.writer.base ≤ progress.old.writer.last }
    requires within { progress.old.writer.last ≤ length out.old.items }
    requires room { rounded_up (length out.old.items - progress.old.writer.base) + longest_response < 2 ^ 24 }
    requires few { length progress.old.writer.keys < MOST_REQUESTS }
    ensures ok { (front : List ℕ) (before : List Reply) →
        progress.old.writer ≡ placed front before → out.old.items ≡ replies_written front before →
        OnOk result (record {
          server = server.new;
          connection = connection.new;
          context = progress.new.context;
          writer = progress.new.writer;
          out = out.new.items;
        }
        ≡ chain_state_behind front (one_performed A.meaning arrival
        (record { server = server.old; connection = connection.old; context = progress.old.context; replies = before })
        request.now)) }
    ensures order { progress.new.writer.base ≤ progress.new.writer.last }
    ensures base { progress.new.writer.base ≡ progress.old.writer.base }
    ensures within { OnOk result (progress.new.writer.last ≤ length out.new.items) }
    ensures len { OnOk result (rounded_up (length out.new.items - progress.old.writer.base)
        ≤ rounded_up (length out.old.items - progress.old.writer.base) + longest_response) }
    ensures kept { take progress.old.writer.base out.new.items ≡ take progress.old.writer.base out.old.items }
    ensures few { length progress.new.writer.keys ≤ length progress.old.writer.keys + 1 }
    ensures known { server.new.sessions.table.connections ≡ server.old.sessions.table.connections }
    ensures err { IfErr result (λ no_reply. server.new ≡ (if is_performed no_reply
        then (performed A.meaning arrival.connection_id arrival.moment server.old connection.old.dialect
        progress.old.context request.now).server
        else server.old)) }
    ensures observed { OnOk result (Keeping (W.keeps observer.old) (W.keeps observer.new)
        (W.observed observer.new ≡ W.observed observer.old ++ request_observed arrival connection.old.dialect progress.old.context request.now
        (credits_granted connection.old.window (header_of request.now).credits)
        (performed A.meaning arrival.connection_id arrival.moment server.old connection.old.dialect progress.old.context request.now).response)) }
{
    let Ok(reply) = progress.writer.open_reply(out) else {
        return Err(NoReply::NotPerformed);
    };
    let acting = note_subject(server, arrival, progress.context, header, request, observer);
    let signing = server.signing(arrival.connection_id, progress.context, header);
    let answered = server.perform(
        arrival.connection_id,
        arrival.moment,
        &mut connection.dialect,
        &mut progress.context,
        signing,
        known,
        header,
        request,
        out,
    )?;
    let Some(answered) = answered else {
        report(server, arrival, header, request, acting, None, observer);
        progress.writer.drop_reply(reply, out);
        return Ok(());
    };
    let credits = connection.window.grant(header.credits);
    report(
        server,
        arrival,
        header,
        request,
        acting,
        Some((answered, credits)),
        observer,
    );
    let own = server.response_key(arrival.connection_id, signing, header, &answered);
    let key = connection.keys.own_or_kept(own, header, answered.ids);
    connection.keys.keep_of(key, header, &answered);
    let header = reply_header(header, answered, key.is_some(), credits);
    progress.writer.close_reply(reply, &header, key, out);
    Ok(())
}

/// How many requests of a chain were performed, where memory ran out in the one behind so many others.
fn done_behind(others: usize, no_reply: NoReply) -> usize
    requires { others < MOST_REQUESTS }
    ensures { result ≡ (if is_performed no_reply then others + 1 else others) }
{
    match no_reply {
        NoReply::NotPerformed => others,
        NoReply::Performed => others + 1,
    }
}

/// Ends the frame that begins at `start`: closes it, or takes it off where its payload is empty.
fn end_frame(start: usize, out: &mut Vec<u8>)
    requires within { start + 4 ≤ length out.old.items }
    requires fits { length out.old.items < start + 4 + 2 ^ 24 }
    ensures framed { (connection : ℕ) (before payload : List ℕ) →
        start ≡ length before → out.old.items ≡ (before ++ replicate 4 0) ++ payload →
        out.new.items ≡ before ++ flat_map output_bytes (reply_frame connection payload) }
    ensures len { length out.new.items ≤ length out.old.items }
{
    if out.len() == start + 4 {
        out.truncate(start);
    } else {
        close_frame(start, out);
    }
}

/// Ends the frame that begins at `start`, of the replies of a writer: closes it, and has those that have a key signed
/// later; or takes it off where there are none.
fn end_chain(start: usize, writer: &ReplyWriter, unsigned: &mut Unsigned, out: &mut Vec<u8>)
    requires within { start + 4 ≤ length out.old.items }
    requires fits { length out.old.items < start + 4 + 2 ^ 24 }
    requires last { writer.now.last ≤ length out.old.items }
    requires base { writer.now.base ≡ start + 4 }
    requires apart { AreApart 0 unsigned.old start }
    ensures framed { (connection : ℕ) (before : List ℕ) (replies : List Reply) → start ≡ length before →
        writer.now ≡ placed (before ++ replicate 4 0) replies → out.old.items ≡ replies_written (before ++ replicate 4 0) replies →
        sealed unsigned.new out.new.items ≡ sealed unsigned.old before ++ flat_map output_bytes (reply_frame connection (joined_replies replies)) }
    ensures len { length out.new.items ≤ length out.old.items }
    ensures apart { AreApart 0 unsigned.new (length out.new.items) }
{
    if out.len() == start + 4 {
        out.truncate(start);
    } else {
        close_frame(start, out);
        writer.put_off(unsigned, out);
    }
}

/// Performs a payload that is a chain, adds the frame of its replies to `out`, where there are any, and tells the
/// number of its requests; None where it ends the connection. At most so many requests are performed; an error says how
/// many. Where the payload is not performed whole `out` is as it was.
#[tactic(auto, unfolding(crate::specs::Run::chain_step))]
fn chain_payload<A: Authenticator + Drop, T: Tree + Drop, O: Opens + Drop, W: Observer>(
    server: &mut Server<A, T, O>,
    arrival: Arrival,
    connection: &mut Connection,
    payload: &[u8],
    known: Option<KnownSignature>,
    most: usize,
    unsigned: &mut Unsigned,
    out: &mut Vec<u8>,
    observer: &mut W,
) -> Result<Option<usize>, CutShort>
    requires apart { AreApart 0 unsigned.old (length out.old.items) }
    requires known { IsKnownOf payload.now known }
    ensures ok { IfOk result (λ count.
        record { server = server.new; connection = connection.new; stays_open = is_some count; out = sealed unsigned.new out.new.items }
        ≡ step_behind output_bytes (sealed unsigned.old out.old.items) (chain_step A.meaning arrival server.old connection.old payload.now)) }
    ensures count { IfOk result (λ count. IfSome count (λ n. n ≡ length
        (chain_step A.meaning arrival server.old connection.old payload.now).requests)) }
    ensures len { OnOk result (length out.new.items ≤ length out.old.items + (4 + longest_reply)) }
    ensures apart { AreApart 0 unsigned.new (length out.new.items) }
    ensures kept { OnErr result (out.new.items ≡ out.old.items) }
    ensures put_off { OnErr result (unsigned.new ≡ unsigned.old) }
    ensures err { IfErr result (λ ran_out. StoppedAfter server.old
        (chain_step A.meaning arrival server.old connection.old payload.now) ran_out.done server.new) }
    ensures observed { OnOk result (Keeping (W.keeps observer.old) (W.keeps observer.new)
        (W.observed observer.new ≡ W.observed observer.old ++ (requests_observed arrival payload.now (chain_step A.meaning arrival server.old connection.old payload.now).requests
        ++ ending_observed arrival.connection_id (ending_of connection.old payload.now)))) }
    ensures known { server.new.sessions.table.connections ≡ server.old.sessions.table.connections }
{
    let chain = match read_chain(payload) {
        Ok(chain) => chain,
        Err(fault) => {
            let ending = fault_ending(connection, payload, fault);
            observer.ended(arrival.connection_id, ending);
            return Ok(None);
        }
    };
    if let Err(ending) = admit(connection, &chain) {
        observer.ended(arrival.connection_id, ending);
        return Ok(None);
    }
    let Ok(start) = open_frame(out) else {
        return Err(CutShort { done: 0 });
    };
    let known = if chain.len() == 1 { known } else { None };
    let mut progress = ChainProgress {
        context: Context::first(),
        writer: ReplyWriter::begin(out),
    };
    for i in 0..chain.len() {
        if i >= most {
            out.truncate(start);
            return Err(CutShort { done: i });
        }
        let (header, request) = request_at(&chain, i);
        match perform_one(
            server,
            arrival,
            connection,
            &mut progress,
            known,
            &header,
            request,
            out,
            observer,
        ) {
            Ok(()) => {}
            Err(no_reply) => {
                out.truncate(start);
                let done = done_behind(i, no_reply);
                return Err(CutShort { done });
            }
        }
    }
    end_chain(start, &progress.writer, unsigned, out);
    let count = chain.len();
    Ok(Some(count))
}

/// Adds the frame of the response to an SMB_COM_NEGOTIATE to `out`. False says that memory was wanting; `out` is as it
/// was then.
fn frame_smb1<A: Authenticator + Drop, T: Tree + Drop, O: Opens + Drop>(
    server: &Server<A, T, O>,
    arrival: Arrival,
    answer: Smb1Answer,
    out: &mut Vec<u8>,
) -> bool
    ensures ok { OnTrue result (out.new.items ≡ out.old.items
        ++ flat_map output_bytes (reply_frame arrival.connection_id (joined_replies (reply_to_smb1
        (negotiate_answer (A.meaning.requires_signing server.now.sessions.authenticator) server.now.settings.guid (A.meaning.hello server.now.sessions.authenticator) arrival.moment answer.dialect answer.dialect_revision) ∷ [])))) }
    ensures len { OnTrue result (length out.new.items ≤ length out.old.items + (4 + longest_reply)) }
    ensures kept { OnFalse result (out.new.items ≡ out.old.items) }
{
    let Ok(start) = open_frame(out) else {
        return false;
    };
    let mut writer = ReplyWriter::begin(out);
    let Ok(reply) = writer.open_reply(out) else {
        out.truncate(start);
        return false;
    };
    let Ok(()) = server.put_smb1_body(arrival.moment, answer, out) else {
        out.truncate(start);
        return false;
    };
    writer.close_reply(reply, &smb1::reply_header(), None, out);
    end_frame(start, out);
    true
}

/// Answers an SMB_COM_NEGOTIATE that lists these dialects, and returns how many requests it is; None where it ends the
/// connection. Where it is not answered `out` is as it was.
#[tactic(auto, unfolding(crate::specs::Run::smb1_step))]
fn first_payload<A: Authenticator + Drop, T: Tree + Drop, O: Opens + Drop, W: Observer>(
    server: &Server<A, T, O>,
    arrival: Arrival,
    connection: &mut Connection,
    payload: &[u8],
    dialects: Smb1Dialects,
    out: &mut Vec<u8>,
    observer: &mut W,
) -> Result<Option<usize>, CutShort>
    ensures ok { IfOk result (λ count.
        record { server = server.now; connection = connection.new; stays_open = is_some count; out = out.new.items }
        ≡ step_behind output_bytes out.old.items (smb1_step A.meaning arrival server.now connection.old dialects)) }
    ensures count { IfOk result (λ count. IfSome count (λ n. n ≡ length
        (smb1_step A.meaning arrival server.now connection.old dialects).requests)) }
    ensures len { OnOk result (length out.new.items ≤ length out.old.items + (4 + longest_reply)) }
    ensures err { IfErr result (λ ran_out. ran_out.done ≡ 0) }
    ensures kept { OnErr result (out.new.items ≡ out.old.items) }
    ensures observed { OnOk result (Keeping (W.keeps observer.old) (W.keeps observer.new)
        (W.observed observer.new ≡ W.observed observer.old ++ (requests_observed arrival payload.now (smb1_step A.meaning arrival server.now connection.old dialects).requests
        ++ ending_observed arrival.connection_id (smb1_ending dialects)))) }
{
    let Some(answer) = smb1::answer(dialects) else {
        observer.ended(arrival.connection_id, Ending::Smb1NoDialect);
        return Ok(None);
    };
    if !frame_smb1(server, arrival, answer, out) {
        return Err(CutShort { done: 0 });
    }
    connection.payload_came = true;
    connection.dialect = answer.dialect;
    connection.window = Window::new(1);
    report_smb1(arrival, payload, observer);
    Ok(Some(1))
}

/// Performs a payload as [`add_payload`] does: its replies are not signed yet.
#[tactic(auto, unfolding(crate::specs::Run::payload_step))]
fn perform_payload<A: Authenticator + Drop, T: Tree + Drop, O: Opens + Drop, W: Observer>(
    server: &mut Server<A, T, O>,
    arrival: Arrival,
    connection: &mut Connection,
    payload: &[u8],
    known: Option<KnownSignature>,
    most: usize,
    unsigned: &mut Unsigned,
    out: &mut Vec<u8>,
    observer: &mut W,
) -> Result<Option<usize>, CutShort>
    requires apart { AreApart 0 unsigned.old (length out.old.items) }
    requires known { IsKnownOf payload.now known }
    ensures ok { IfOk result (λ count.
        record { server = server.new; connection = connection.new; stays_open = is_some count; out = sealed unsigned.new out.new.items }
        ≡ step_behind output_bytes (sealed unsigned.old out.old.items)
        (payload_step A.meaning arrival server.old connection.old payload.now)) }
    ensures count { IfOk result (λ count. IfSome count (λ n. n ≡ length
        (payload_step A.meaning arrival server.old connection.old payload.now).requests)) }
    ensures len { OnOk result (length out.new.items ≤ length out.old.items + (4 + longest_reply)) }
    ensures apart { AreApart 0 unsigned.new (length out.new.items) }
    ensures kept { OnErr result (out.new.items ≡ out.old.items) }
    ensures put_off { OnErr result (unsigned.new ≡ unsigned.old) }
    ensures err { IfErr result (λ ran_out. StoppedAfter server.old
        (payload_step A.meaning arrival server.old connection.old payload.now) ran_out.done server.new) }
    ensures observed { OnOk result (Keeping (W.keeps observer.old) (W.keeps observer.new)
        (W.observed observer.new ≡ W.observed observer.old ++ payload_observed A.meaning arrival server.old connection.old payload.now)) }
    ensures known { server.new.sessions.table.connections ≡ server.old.sessions.table.connections }
{
    let listed = if connection.payload_came {
        None
    } else {
        read_smb1_negotiate(payload)
    };
    match listed {
        None => {
            chain_payload(
                server, arrival, connection, payload, known, most, unsigned, out, observer,
            )
        }
        Some(dialects) => {
            first_payload(
                server, arrival, connection, payload, dialects, out, observer,
            )
        }
    }
}

/// Performs a payload, adds the frame of its replies to `out`, where there are any, and returns the number of its
/// requests; None where it ends the connection. Of a chain at most so many requests are performed; an error says how
/// many. Where the payload is not performed whole `out` is as it was.
pub(crate) fn add_payload<A: Authenticator + Drop, T: Tree + Drop, O: Opens + Drop, W: Observer>(
    server: &mut Server<A, T, O>,
    arrival: Arrival,
    connection: &mut Connection,
    payload: &[u8],
    known: Option<KnownSignature>,
    most: usize,
    out: &mut Unsealed,
    observer: &mut W,
) -> Result<Option<usize>, CutShort>
    requires { IsKnownOf payload.now known }
    ensures ok { IfOk result (λ count.
        record { server = server.new; connection = connection.new; stays_open = is_some count; out = out.new }
        ≡ step_behind output_bytes out.old (payload_step A.meaning arrival server.old connection.old payload.now)) }
    ensures count { IfOk result (λ count. IfSome count (λ n. n ≡ length
        (payload_step A.meaning arrival server.old connection.old payload.now).requests)) }
    ensures len { OnOk result (length out.new ≤ length out.old + (4 + longest_reply)) }
    ensures kept { OnErr result (out.new ≡ out.old) }
    ensures err { IfErr result (λ ran_out. StoppedAfter server.old
        (payload_step A.meaning arrival server.old connection.old payload.now) ran_out.done server.new) }
    ensures observed { OnOk result (Keeping (W.keeps observer.old) (W.keeps observer.new)
        (W.observed observer.new ≡ W.observed observer.old ++ payload_observed A.meaning arrival server.old connection.old payload.now)) }
    ensures known { server.new.sessions.table.connections ≡ server.old.sessions.table.connections }
{
    perform_payload(
        server,
        arrival,
        connection,
        payload,
        known,
        most,
        &mut out.unsigned,
        &mut out.bytes,
        observer,
    )
}
