//! The signatures of the next requests of a stream, computed side by side before they are asked for
//! ([MS-SMB2] 3.3.5.2.4).

ghost use Rattle.std.specs.Prelude.{ℕ, List, ◌≡◌, ◌∷◌, [], None, IfSome};
ghost use Rattle.std.specs.Option.{option_map};
ghost use Rattle.smb_signing.specs.Signature.{signature};
ghost use Rattle.smb_wire.specs.Limits.{longest_payload};
ghost use Rattle.smb_frame.specs.Reading.{payloads};
ghost use Rattle.smb_engine.specs.Ahead.{AreKnownOf, IsKnownOf, followed};

use super::connection::Connection;
use bitflags::Flags;
use smb_frame::first_payload;
use smb_head::{HeaderFlags, read_header};
use smb_opens::Opens;
use smb_request::{Context, Server};
use smb_session::Authenticator;
use smb_signing::{KnownSignature, Message, signatures_of_four};
use smb_tree::Tree;
use smb_wire::limits::LONGEST_PAYLOAD;
use std::marker::Model;

/// What is known of the signatures of the next four payloads.
#[derive(Drop)]
pub(crate) struct Ahead {
    first: Option<KnownSignature>,
    second: Option<KnownSignature>,
    third: Option<KnownSignature>,
    fourth: Option<KnownSignature>,
    // How many of them were not taken yet.
    left: usize,
}

impl Model for Ahead {
    ghost use Rattle.std.specs.Prelude.{List, Option, ◌∷◌, []};
    ghost use Rattle.smb_signing.specs.declared.known.KnownSignature.{KnownSignature};

    ghost Value = { List (Option KnownSignature) };

    ghost view = { λ ahead. ahead.first ∷ ahead.second ∷ ahead.third ∷ ahead.fourth ∷ [] };
}

/// The first payload of some bytes, where it is whole, and the bytes behind its frame.
fn split_payload(bytes: &[u8]) -> (Option<&[u8]>, &[u8])
    ensures { payloads longest_payload bytes.now ≡ followed (option_map (λ payload. payload.now) result.0) (payloads longest_payload result.1.now) }
{
    match first_payload(LONGEST_PAYLOAD, bytes) {
        Some(payload) => (Some(payload), &bytes[payload.len() + 4..]),
        None => (None, &[]),
    }
}

/// A payload as a message that may be signed, by its session's key: one request that bears a signature.
fn message_of<'a, A: Authenticator + Drop, T: Tree + Drop, O: Opens + Drop>(
    server: &Server<A, T, O>,
    connection_id: u64,
    payload: &'a [u8],
) -> Option<Message<'a>>
    ensures { IfSome result (λ message. message.bytes.now ≡ payload.now) }
{
    let Ok(header) = read_header(payload) else {
        return None;
    };
    if header.next_command != 0 || !header.flags.contains(HeaderFlags::SIGNED) {
        return None;
    }
    let signing = server.signing(connection_id, Context::first(), &header)?;
    Some(Message {
        key: signing.key,
        bytes: payload,
    })
}

/// The same of a payload that may be missing.
fn message_in<'a, A: Authenticator + Drop, T: Tree + Drop, O: Opens + Drop>(
    server: &Server<A, T, O>,
    connection_id: u64,
    payload: Option<&'a [u8]>,
) -> Option<Message<'a>>
    ensures { IfSome result (λ message. IfSome payload.entry (λ payload. message.bytes.now ≡ payload.now)) }
{
    match payload {
        Some(payload) => message_of(server, connection_id, payload),
        None => None,
    }
}

/// A message's signature as one that is known.
fn known_of(message: Option<Message>, own: [u8; 16]) -> Option<KnownSignature>
    requires { IfSome message (λ message. own ≡ signature message.key.bytes message.bytes.now) }
    ensures own { IfSome message.entry (λ message. IsKnownOf message.bytes.now result) }
    ensures none { message.entry ≡ None → result ≡ None }
{
    match message {
        Some(message) => Some(KnownSignature {
            key: message.key,
            own,
        }),
        None => None,
    }
}

impl Ahead {
    /// Nothing is known.
    pub(crate) fn none() -> Ahead
        ensures { (payloads : List (List ℕ)) → AreKnownOf payloads result }
    {
        Ahead {
            first: None,
            second: None,
            third: None,
            fourth: None,
            left: 0,
        }
    }

    /// The signatures of the next four payloads of a stream, as far as these are whole and are one signed request each.
    /// Where there are fewer than three nothing is computed: two together take as long as one after the other.
    fn of<A: Authenticator + Drop, T: Tree + Drop, O: Opens + Drop>(
        server: &Server<A, T, O>,
        connection_id: u64,
        bytes: &[u8],
    ) -> Ahead
        ensures { AreKnownOf (payloads longest_payload bytes.now) result }
    {
        let (first, rest) = split_payload(bytes);
        let (second, rest) = split_payload(rest);
        let (third, rest) = split_payload(rest);
        if third.is_none() {
            return Ahead::none();
        }
        let (fourth, _) = split_payload(rest);
        let a = message_in(server, connection_id, first);
        let b = message_in(server, connection_id, second);
        let c = message_in(server, connection_id, third);
        let d = message_in(server, connection_id, fourth);
        let (w, x, y, z) = signatures_of_four(a, b, c, d);
        Ahead {
            first: known_of(a, w),
            second: known_of(b, x),
            third: known_of(c, y),
            fourth: known_of(d, z),
            left: 4,
        }
    }

    /// Takes what is known of the next payload's signature.
    fn take_next(&mut self) -> Option<KnownSignature>
        ensures next { (payload : List ℕ) (others : List (List ℕ)) → AreKnownOf (payload ∷ others) self.old → IsKnownOf payload result }
        ensures others { (payload : List ℕ) (others : List (List ℕ)) → AreKnownOf (payload ∷ others) self.old → AreKnownOf others self.new }
    {
        let next = self.first;
        self.first = self.second;
        self.second = self.third;
        self.third = self.fourth;
        self.fourth = None;
        self.left = self.left.saturating_sub(1);
        next
    }

    /// Looks ahead in some bytes of a connection's stream where nothing more is known, if its messages may be signed.
    fn look<A: Authenticator + Drop, T: Tree + Drop, O: Opens + Drop>(
        &mut self,
        server: &Server<A, T, O>,
        connection: &Connection,
        connection_id: u64,
        bytes: &[u8],
    )
        requires { AreKnownOf (payloads longest_payload bytes.now) self.old }
        ensures { AreKnownOf (payloads longest_payload bytes.now) self.new }
    {
        if self.left == 0 && connection.keys.are_there() {
            *self = Ahead::of(server, connection_id, bytes);
        }
    }

    /// Takes what is known of the signature of the first payload in some bytes of a connection's stream.
    pub(crate) fn take_of<A: Authenticator + Drop, T: Tree + Drop, O: Opens + Drop>(
        &mut self,
        server: &Server<A, T, O>,
        connection: &Connection,
        connection_id: u64,
        bytes: &[u8],
    ) -> Option<KnownSignature>
        requires { AreKnownOf (payloads longest_payload bytes.now) self.old }
        ensures next { (payload : List ℕ) (others : List (List ℕ)) → payloads longest_payload bytes.now ≡ payload ∷ others → IsKnownOf payload result }
        ensures others { (payload : List ℕ) (others : List (List ℕ)) → payloads longest_payload bytes.now ≡ payload ∷ others → AreKnownOf others self.new }
    {
        self.look(server, connection, connection_id, bytes);
        self.take_next()
    }
}
