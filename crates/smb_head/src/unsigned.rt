//! Messages whose signatures are still to come, where they are sent from ([MS-SMB2] 3.3.4.1.1).

ghost use Rattle.std.specs.Prelude.{◌≡◌, ◌≤◌, ◌-◌, ◌++◌, [], IfSome, true, is_some, length, take, drop, slice_get};
ghost use Rattle.smb_signing.specs.Signature.{signature};
ghost use Rattle.smb_head.specs.Replies.{signed_if};
ghost use Rattle.smb_head.specs.Sealed.{AreApart, AreSignaturesOf, message_of, sealed, signed_at};

use super::writer::set_bytes;
use arrayvec::ArrayVec;
use smb_signing::{Key, Message, signatures_of_four};
use std::marker::Model;

/// How many messages are signed side by side.
const TOGETHER: usize = 4;

/// A message, from one place of some bytes up to another, and the key that it is signed by.
#[derive(Clone, Copy)]
pub struct UnsignedMessage {
    begin: usize,
    end: usize,
    key: Key,
}

/// Of no bytes: blank places of a list have it.
impl Default for UnsignedMessage {
    fn default() -> Self {
        UnsignedMessage {
            begin: 0,
            end: 0,
            key: Key::new([0; 16]),
        }
    }
}

/// The messages of some bytes that are still to be signed: at most as many as are signed side by side.
#[derive(Drop)]
pub struct Unsigned {
    messages: ArrayVec<UnsignedMessage, TOGETHER>,
}

impl Model for Unsigned {
    ghost use Rattle.std.specs.Prelude.{List};
    ghost use Rattle.smb_head.specs.declared.unsigned.UnsignedMessage.{UnsignedMessage};

    ghost Value = { List UnsignedMessage };

    ghost view = { λ unsigned. unsigned.messages.items };
}

/// A message, with the bytes that it is of.
fn message_in(message: UnsignedMessage, out: &[u8]) -> Message<'_>
    requires order { message.begin ≤ message.end }
    requires within { message.end ≤ length out.now }
    ensures key { result.key ≡ message.key }
    ensures bytes { result.bytes.now ≡ message_of message out.now }
{
    Message {
        key: message.key,
        bytes: &out[message.begin..message.end],
    }
}

/// One of some messages, where there are as many.
fn message_at<'a>(messages: &[UnsignedMessage], place: usize, out: &'a [u8]) -> Option<Message<'a>>
    requires { AreApart 0 messages.now (length out.now) }
    ensures own { IfSome (slice_get messages.now place) (λ message. IfSome result (λ found.
        signature found.key.bytes found.bytes.now ≡ signature message.key.bytes (message_of message out.now))) }
    ensures some { IfSome (slice_get messages.now place) (λ message. is_some result ≡ true) }
{
    if place < messages.len() {
        Some(message_in(messages[place], out))
    } else {
        None
    }
}

/// The signatures of some messages, at most four.
fn signatures_of(messages: &[UnsignedMessage], out: &[u8]) -> [[u8; 16]; 4]
    requires few { length messages.now ≤ 4 }
    requires apart { AreApart 0 messages.now (length out.now) }
    ensures { AreSignaturesOf messages.now result out.now }
{
    let (first, second, third, fourth) = signatures_of_four(
        message_at(messages, 0, out),
        message_at(messages, 1, out),
        message_at(messages, 2, out),
        message_at(messages, 3, out),
    );
    [first, second, third, fourth]
}

/// Writes a message's signature into its header. What is shorter than a header stays as it is.
fn put_signature(message: UnsignedMessage, own: &[u8; 16], out: &mut Vec<u8>)
    requires order { message.begin ≤ message.end }
    requires within { message.end ≤ length out.old.items }
    ensures signed { own.now ≡ signature message.key.bytes (message_of message out.old.items) → out.new.items ≡ signed_at message out.old.items }
    ensures len { length out.new.items ≡ length out.old.items }
{
    if message.end - message.begin >= 64 {
        set_bytes(own, message.begin + 48, out);
    }
}

/// Writes the signatures of some messages into their headers.
fn put_signatures(messages: &[UnsignedMessage], signatures: &[[u8; 16]], out: &mut Vec<u8>)
    requires { AreApart 0 messages.now (length out.old.items) }
    ensures signed { AreSignaturesOf messages.now signatures.now out.old.items → out.new.items ≡ sealed messages.now out.old.items }
    ensures len { length out.new.items ≡ length out.old.items }
{
    let mut messages = messages;
    let mut signatures = signatures;
    while let Some((message, others)) = messages.split_first() {
        let Some((own, more)) = signatures.split_first() else {
            return;
        };
        put_signature(*message, own, out);
        messages = others;
        signatures = more;
    }
}

impl Unsigned {
    /// None.
    pub fn new() -> Unsigned
        ensures { result ≡ [] }
    {
        Unsigned {
            messages: ArrayVec::new(),
        }
    }

    /// Signs them where they lie in `out`, side by side where that is faster. It takes no memory.
    pub fn sign(&mut self, out: &mut Vec<u8>)
        requires { AreApart 0 self.old (length out.old.items) }
        ensures signed { out.new.items ≡ sealed self.old out.old.items }
        ensures none { self.new ≡ [] }
        ensures len { length out.new.items ≡ length out.old.items }
    {
        if self.messages.is_empty() {
            return;
        }
        let messages = self.messages.as_slice();
        let signatures = signatures_of(messages, out);
        put_signatures(messages, &signatures, out);
        self.messages.clear();
    }

    /// Takes one more message in, behind the others; where there is no room for it these are signed first.
    fn add(&mut self, message: UnsignedMessage, out: &mut Vec<u8>)
        requires order { message.begin ≤ message.end }
        requires within { message.end ≤ length out.old.items }
        requires apart { AreApart 0 self.old message.begin }
        ensures sealed { sealed self.new out.new.items ≡ signed_at message (sealed self.old out.old.items) }
        ensures apart { AreApart 0 self.new message.end }
        ensures len { length out.new.items ≡ length out.old.items }
    {
        if self.messages.is_full() {
            self.sign(out);
        }
        self.messages.push(message);
    }

    /// Has the reply from `place` up to `end` signed later, where it has a key.
    pub(crate) fn put_off(&mut self, key: Option<Key>, place: usize, end: usize, out: &mut Vec<u8>)
        requires order { place ≤ end }
        requires within { end ≤ length out.old.items }
        requires apart { AreApart 0 self.old place }
        ensures signed { sealed self.new out.new.items ≡ take place (sealed self.old out.old.items)
            ++ (signed_if key (take (end - place) (drop place (sealed self.old out.old.items))) ++ drop end (sealed self.old out.old.items)) }
        ensures apart { AreApart 0 self.new end }
        ensures len { length out.new.items ≡ length out.old.items }
    {
        if let Some(key) = key {
            self.add(
                UnsignedMessage {
                    begin: place,
                    end,
                    key,
                },
                out,
            );
        }
    }
}
