//! A piece of a connection's stream, payload by payload.

ghost use Rattle.std.specs.Prelude.{◌≡◌, ◌≤◌, ◌++◌, ◌&&◌, [], None, OnOk, OnErr, IfOk, IfErr, IfSome, is_none, is_some, length, take, drop, if◌then◌else◌};
ghost use Rattle.std.specs.Option.{option_map};
ghost use Rattle.std.specs.List.{flat_map};
ghost use Rattle.smb_wire.specs.Limits.{longest_payload};
ghost use Rattle.smb_frame.specs.Reading.{first, fault_of, payloads};
ghost use Rattle.smb_engine.specs.Run.{payload_step, payload_steps, piece_step};
ghost use Rattle.smb_engine.specs.Held.{Waits, IsPieceHeld, StoppedAfter};
ghost use Rattle.smb_engine.specs.InPlace.{step_behind};
ghost use Rattle.smb_engine.specs.Ahead.{IsKnownOf};
ghost use Rattle.smb_engine.specs.SoFar.{AreTaken};
ghost use Rattle.smb_engine.specs.Output.{AreShort};
ghost use Rattle.smb_peers.specs.Record.{Keeping};
ghost use Rattle.smb_peers.specs.declared.ending.Ending.TheVariants.{Frame};
ghost use Rattle.smb_engine.specs.Observed.{ending_observed, payload_observed, payloads_observed, piece_observed};

use super::ahead::Ahead;
use super::arrival::Arrival;
use super::chain::add_payload;
use super::connection::{Connection, ConnectionStream};
use super::fault::CutShort;
use super::output::Sink;
use smb_frame::{FrameBuffer, first_payload};
use smb_opens::Opens;
use smb_peers::{Ending, Observer};
use smb_request::Server;
use smb_session::Authenticator;
use smb_signing::KnownSignature;
use smb_tree::Tree;
use smb_wire::limits::LONGEST_PAYLOAD;

/// Performs a payload, puts out the frame of its replies, where there are any, and returns the number of its requests;
/// None where it ends the connection. Of a chain at most so many requests are performed; an error says how many, and
/// puts nothing out.
fn put_payload<A: Authenticator + Drop, T: Tree + Drop, O: Opens + Drop, K: Sink, W: Observer>(
    server: &mut Server<A, T, O>,
    arrival: Arrival,
    connection: &mut Connection,
    payload: &[u8],
    known: Option<KnownSignature>,
    most: usize,
    out: &mut K,
    observer: &mut W,
) -> Result<Option<usize>, CutShort>
    requires { IsKnownOf payload.now known }
    ensures ok { IfOk result (λ count.
        record { server = server.new; connection = connection.new; stays_open = is_some count; out = K.content out.new }
        ≡ step_behind K.hears (K.content out.old)
        (payload_step A.meaning arrival server.old connection.old payload.now)) }
    ensures count { IfOk result (λ count. IfSome count (λ n. n ≡ length
        (payload_step A.meaning arrival server.old connection.old payload.now).requests)) }
    ensures short { OnOk result (AreShort (payload_step A.meaning arrival server.old connection.old payload.now).outputs) }
    ensures err { IfErr result (λ ran_out. StoppedAfter server.old
        (payload_step A.meaning arrival server.old connection.old payload.now) ran_out.done server.new) }
    ensures kept { OnErr result (K.content out.new ≡ K.content out.old) }
    ensures observed { OnOk result (Keeping (W.keeps observer.old) (W.keeps observer.new)
        (W.observed observer.new ≡ W.observed observer.old ++ payload_observed A.meaning arrival server.old connection.old payload.now)) }
    ensures known { server.new.sessions.table.connections ≡ server.old.sessions.table.connections }
{
    let mut bytes = out.take_bytes(server.allocator());
    match add_payload(
        server, arrival, connection, payload, known, most, &mut bytes, observer,
    ) {
        Ok(Some(count)) => {
            let Ok(()) = out.give_frame(arrival.connection_id, bytes) else {
                return Err(CutShort { done: count });
            };
            Ok(Some(count))
        }
        Ok(None) => {
            out.give_back(bytes);
            Ok(None)
        }
        Err(ran_out) => {
            out.give_back(bytes);
            Err(ran_out)
        }
    }
}

/// Performs the payloads of the whole frames that are held, in order, and puts out their replies, where these are fewer
/// requests than `most`; else the first `most` of them. Ok says whether the connection stays open and how many requests
/// were performed; an error, the latter.
fn take_payloads<A: Authenticator + Drop, T: Tree + Drop, O: Opens + Drop, K: Sink, W: Observer>(
    server: &mut Server<A, T, O>,
    arrival: Arrival,
    buffer: &mut FrameBuffer,
    connection: &mut Connection,
    most: usize,
    out: &mut K,
    observer: &mut W,
) -> Result<(bool, usize), CutShort>
    requires { buffer.old.limit ≡ longest_payload }
    ensures taken { IfOk result (λ r. AreTaken A.meaning K.hears arrival
        server.old connection.old (K.content out.old) buffer.old.bytes
        server.new connection.new (K.content out.new) buffer.new.bytes r.0 r.1) }
    ensures observed { OnOk result (Keeping (W.keeps observer.old) (W.keeps observer.new)
        (W.observed observer.new ≡ W.observed observer.old ++ payloads_observed A.meaning arrival server.old connection.old (payloads longest_payload buffer.old.bytes))) }
    ensures err { IfErr result (λ ran_out. StoppedAfter server.old
        (payload_steps A.meaning arrival server.old connection.old (payloads longest_payload buffer.old.bytes))
        ran_out.done server.new) }
    ensures few { IfErr result (λ ran_out. ran_out.done ≤ length buffer.old.bytes) }
    ensures kept { take (length (K.content out.old)) (K.content out.new) ≡ K.content out.old }
    ensures limit { buffer.new.limit ≡ longest_payload }
    ensures known { server.new.sessions.table.connections ≡ server.old.sessions.table.connections }
{
    let _length = buffer.len();
    let mut done = 0;
    while let Some(payload) = buffer.next() {
        if done >= most {
            return Err(CutShort { done });
        }
        match put_payload(
            server,
            arrival,
            connection,
            payload,
            None,
            most - done,
            out,
            observer,
        ) {
            Err(ran_out) => {
                let done = done + ran_out.done;
                return Err(CutShort { done });
            }
            Ok(None) => return Ok((false, done)),
            Ok(Some(count)) => {
                done += count;
                buffer.done();
            }
        }
    }
    if done >= most {
        return Err(CutShort { done });
    }
    Ok((true, done))
}

/// Performs the payloads of the whole frames in some bytes of a stream, in order, each from where it is, and puts out their
/// replies, as [`take_payloads`] does. Ok says how many bytes the frames have, besides.
fn take_frames<A: Authenticator + Drop, T: Tree + Drop, O: Opens + Drop, K: Sink, W: Observer>(
    server: &mut Server<A, T, O>,
    arrival: Arrival,
    bytes: &[u8],
    connection: &mut Connection,
    most: usize,
    out: &mut K,
    observer: &mut W,
) -> Result<(bool, usize, usize), CutShort>
    ensures taken { IfOk result (λ r. AreTaken A.meaning K.hears arrival
        server.old connection.old (K.content out.old) bytes.now
        server.new connection.new (K.content out.new) (drop r.2 bytes.now) r.0 r.1) }
    ensures used { IfOk result (λ r. r.2 ≤ length bytes.now) }
    ensures observed { OnOk result (Keeping (W.keeps observer.old) (W.keeps observer.new)
        (W.observed observer.new ≡ W.observed observer.old ++ payloads_observed A.meaning arrival server.old connection.old (payloads longest_payload bytes.now))) }
    ensures err { IfErr result (λ ran_out. StoppedAfter server.old
        (payload_steps A.meaning arrival server.old connection.old (payloads longest_payload bytes.now))
        ran_out.done server.new) }
    ensures few { IfErr result (λ ran_out. ran_out.done ≤ length bytes.now) }
    ensures kept { take (length (K.content out.old)) (K.content out.new) ≡ K.content out.old }
    ensures known { server.new.sessions.table.connections ≡ server.old.sessions.table.connections }
{
    let mut done = 0;
    let mut used = 0;
    let mut ahead = Ahead::none();
    while let Some(payload) = first_payload(LONGEST_PAYLOAD, &bytes[used..]) {
        if done >= most {
            return Err(CutShort { done });
        }
        let known = ahead.take_of(server, connection, arrival.connection_id, &bytes[used..]);
        match put_payload(
            server,
            arrival,
            connection,
            payload,
            known,
            most - done,
            out,
            observer,
        ) {
            Err(ran_out) => {
                let done = done + ran_out.done;
                return Err(CutShort { done });
            }
            Ok(None) => return Ok((false, done, used)),
            Ok(Some(count)) => {
                done += count;
                used += payload.len() + 4;
            }
        }
    }
    if done >= most {
        return Err(CutShort { done });
    }
    Ok((true, done, used))
}

/// Holds more bytes of a stream, behind those that are held, and takes the whole frames, as [`take_payloads`] does.
fn take_held<A: Authenticator + Drop, T: Tree + Drop, O: Opens + Drop, K: Sink, W: Observer>(
    server: &mut Server<A, T, O>,
    arrival: Arrival,
    buffer: &mut FrameBuffer,
    connection: &mut Connection,
    bytes: &[u8],
    most: usize,
    out: &mut K,
    observer: &mut W,
) -> Result<(bool, usize), CutShort>
    requires limit { buffer.old.limit ≡ longest_payload }
    requires sound { fault_of longest_payload buffer.old.bytes ≡ None }
    ensures taken { IfOk result (λ r. AreTaken A.meaning K.hears arrival
        server.old connection.old (K.content out.old) (buffer.old.bytes ++ bytes.now)
        server.new connection.new (K.content out.new) buffer.new.bytes r.0 r.1) }
    ensures observed { OnOk result (Keeping (W.keeps observer.old) (W.keeps observer.new)
        (W.observed observer.new ≡ W.observed observer.old ++ payloads_observed A.meaning arrival server.old connection.old (payloads longest_payload (buffer.old.bytes ++ bytes.now)))) }
    ensures err { IfErr result (λ ran_out. StoppedAfter server.old
        (payload_steps A.meaning arrival server.old connection.old (payloads longest_payload (buffer.old.bytes ++ bytes.now)))
        ran_out.done server.new) }
    ensures few { IfErr result (λ ran_out. ran_out.done ≤ length (buffer.old.bytes ++ bytes.now)) }
    ensures kept { take (length (K.content out.old)) (K.content out.new) ≡ K.content out.old }
    ensures limit { buffer.new.limit ≡ longest_payload }
    ensures known { server.new.sessions.table.connections ≡ server.old.sessions.table.connections }
{
    match buffer.push(bytes) {
        Ok(()) => take_payloads(server, arrival, buffer, connection, most, out, observer),
        Err(_) => Err(CutShort { done: 0 }),
    }
}

/// Takes the bytes of a piece behind the end of the frame that was held. Where no byte is held, whole frames are performed
/// from where they are, and what is behind them is held.
fn take_back<A: Authenticator + Drop, T: Tree + Drop, O: Opens + Drop, K: Sink, W: Observer>(
    server: &mut Server<A, T, O>,
    arrival: Arrival,
    buffer: &mut FrameBuffer,
    connection: &mut Connection,
    back: &[u8],
    most: usize,
    out: &mut K,
    observer: &mut W,
) -> Result<(bool, usize), CutShort>
    requires limit { buffer.old.limit ≡ longest_payload }
    requires sound { fault_of longest_payload buffer.old.bytes ≡ None }
    ensures taken { IfOk result (λ r. AreTaken A.meaning K.hears arrival
        server.old connection.old (K.content out.old) (buffer.old.bytes ++ back.now)
        server.new connection.new (K.content out.new) buffer.new.bytes r.0 r.1) }
    ensures observed { OnOk result (Keeping (W.keeps observer.old) (W.keeps observer.new)
        (W.observed observer.new ≡ W.observed observer.old ++ payloads_observed A.meaning arrival server.old connection.old (payloads longest_payload (buffer.old.bytes ++ back.now)))) }
    ensures err { IfErr result (λ ran_out. StoppedAfter server.old
        (payload_steps A.meaning arrival server.old connection.old (payloads longest_payload (buffer.old.bytes ++ back.now)))
        ran_out.done server.new) }
    ensures few { IfErr result (λ ran_out. ran_out.done ≤ length (buffer.old.bytes ++ back.now)) }
    ensures kept { take (length (K.content out.old)) (K.content out.new) ≡ K.content out.old }
    ensures limit { buffer.new.limit ≡ longest_payload }
    ensures known { server.new.sessions.table.connections ≡ server.old.sessions.table.connections }
{
    if !buffer.is_empty() {
        return take_held(
            server, arrival, buffer, connection, back, most, out, observer,
        );
    }
    let (open_still, done, used) = take_frames(
        server, arrival, back, connection, most, out, observer,
    )?;
    if !open_still {
        return Ok((false, done));
    }
    if used == back.len() {
        return Ok((true, done));
    }
    let most = most.saturating_sub(done);
    match take_held(
        server,
        arrival,
        buffer,
        connection,
        &back[used..],
        most,
        out,
        observer,
    ) {
        Ok((open_still, more)) => Ok((open_still, done + more)),
        Err(ran_out) => {
            let done = done + ran_out.done;
            Err(CutShort { done })
        }
    }
}

/// Takes a piece in two parts: what the frame that is held lacks, and what is behind it. So the bytes of a frame whose
/// length has come are never moved.
fn take_parts<A: Authenticator + Drop, T: Tree + Drop, O: Opens + Drop, K: Sink, W: Observer>(
    server: &mut Server<A, T, O>,
    arrival: Arrival,
    buffer: &mut FrameBuffer,
    connection: &mut Connection,
    piece: &[u8],
    most: usize,
    out: &mut K,
    observer: &mut W,
) -> Result<(bool, usize), CutShort>
    requires limit { buffer.old.limit ≡ longest_payload }
    requires partial { first longest_payload buffer.old.bytes ≡ None }
    requires sound { fault_of longest_payload buffer.old.bytes ≡ None }
    ensures taken { IfOk result (λ r. AreTaken A.meaning K.hears arrival
        server.old connection.old (K.content out.old) (buffer.old.bytes ++ piece.now)
        server.new connection.new (K.content out.new) buffer.new.bytes r.0 r.1) }
    ensures observed { OnOk result (Keeping (W.keeps observer.old) (W.keeps observer.new)
        (W.observed observer.new ≡ W.observed observer.old ++ payloads_observed A.meaning arrival server.old connection.old (payloads longest_payload (buffer.old.bytes ++ piece.now)))) }
    ensures err { IfErr result (λ ran_out. StoppedAfter server.old
        (payload_steps A.meaning arrival server.old connection.old (payloads longest_payload (buffer.old.bytes ++ piece.now)))
        ran_out.done server.new) }
    ensures few { IfErr result (λ ran_out. ran_out.done ≤ length (buffer.old.bytes ++ piece.now)) }
    ensures kept { take (length (K.content out.old)) (K.content out.new) ≡ K.content out.old }
    ensures limit { buffer.new.limit ≡ longest_payload }
    ensures known { server.new.sessions.table.connections ≡ server.old.sessions.table.connections }
{
    if buffer.is_empty() {
        return take_back(
            server, arrival, buffer, connection, piece, most, out, observer,
        );
    }
    let count = buffer.lacking().min(piece.len());
    let front = &piece[..count];
    let back = &piece[count..];
    let (open_still, done) = take_held(
        server, arrival, buffer, connection, front, most, out, observer,
    )?;
    if !open_still {
        return Ok((false, done));
    }
    let most = most.saturating_sub(done);
    match take_back(
        server, arrival, buffer, connection, back, most, out, observer,
    ) {
        Ok((open_still, more)) => Ok((open_still, done + more)),
        Err(ran_out) => {
            let done = done + ran_out.done;
            Err(CutShort { done })
        }
    }
}

/// Whether a connection stays open: no payload ended it, and nothing is wrong with what is unread. Reports what is.
fn stays_open<W: Observer>(
    open_still: bool,
    buffer: &FrameBuffer,
    connection_id: u64,
    observer: &mut W,
) -> bool
    requires { buffer.now.limit ≡ longest_payload }
    ensures open { result ≡ (open_still && is_none (fault_of longest_payload buffer.now.bytes)) }
    ensures observed { Keeping (W.keeps observer.old) (W.keeps observer.new)
        (W.observed observer.new ≡ W.observed observer.old ++ (if open_still then ending_observed connection_id (option_map Frame (fault_of longest_payload buffer.now.bytes)) else [])) }
{
    if !open_still {
        return false;
    }
    match buffer.fault() {
        Some(fault) => {
            observer.ended(connection_id, Ending::Frame(fault));
            false
        }
        None => true,
    }
}

/// Takes a piece of a connection's stream, and puts out what answers it, where it has fewer requests than `most`; else the
/// first `most` of them are performed. Ok says whether the connection stays open; an error, how many requests were performed.
///
/// After an error nothing was put out. The connection is to be given up then, and where it doesn't stay open.
pub(crate) fn take_piece<
    A: Authenticator + Drop,
    T: Tree + Drop,
    O: Opens + Drop,
    K: Sink,
    W: Observer,
>(
    server: &mut Server<A, T, O>,
    arrival: Arrival,
    stream: &mut ConnectionStream,
    piece: &[u8],
    most: usize,
    out: &mut K,
    observer: &mut W,
) -> Result<bool, CutShort>
    requires { Waits stream.old }
    ensures ok { IfOk result (λ stays_open. IsPieceHeld stream.old.received piece.now
        (piece_step A.meaning arrival server.old stream.old piece.now) server.new stream.new stays_open) }
    ensures outputs { OnOk result (K.content out.new ≡ K.content out.old ++ flat_map K.hears
        (piece_step A.meaning arrival server.old stream.old piece.now).outputs) }
    ensures short { OnOk result (AreShort (piece_step A.meaning arrival server.old stream.old piece.now).outputs) }
    ensures observed { OnOk result (Keeping (W.keeps observer.old) (W.keeps observer.new)
        (W.observed observer.new ≡ W.observed observer.old ++ piece_observed A.meaning arrival server.old stream.old piece.now)) }
    ensures err { IfErr result (λ ran_out. StoppedAfter server.old
        (piece_step A.meaning arrival server.old stream.old piece.now) ran_out.done server.new) }
    ensures kept { OnErr result (K.content out.new ≡ K.content out.old) }
    ensures known { server.new.sessions.table.connections ≡ server.old.sessions.table.connections }
{
    let before = out.mark();
    let (open_still, done) = match take_parts(
        server,
        arrival,
        &mut stream.buffer,
        &mut stream.connection,
        piece,
        most,
        out,
        observer,
    ) {
        Ok(taken) => taken,
        Err(ran_out) => {
            out.cut_back(before);
            return Err(ran_out);
        }
    };
    if stays_open(open_still, &stream.buffer, arrival.connection_id, observer) {
        stream.connection.window.good();
        return Ok(true);
    }
    let Ok(()) = out.put_end(arrival.connection_id) else {
        out.cut_back(before);
        return Err(CutShort { done });
    };
    Ok(false)
}
