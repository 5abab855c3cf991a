//! Replies joined where they are sent from: each is written once, behind what stands there
//! ([MS-SMB2] 3.3.4.1.3), and those that have a key are signed there, once all are joined (3.3.4.1.1).

ghost use Rattle.std.specs.Prelude.{ℕ, ◌≡◌, ◌↔◌, ◌==◌, ◌<◌, ◌≤◌, ◌+◌, ◌-◌, ◌^◌, List, [], ◌∷◌, ◌++◌, IsTrue, OnOk, OnErr, IfOk, IfErr, length, take, drop, replicate};
ghost use Rattle.smb_wire.specs.Number.{spelling};
ghost use Rattle.smb_wire.specs.Fields.{joined};
ghost use Rattle.smb_head.specs.Headers.{fields, protocol_id};
ghost use Rattle.smb_head.specs.Replies.{Reply, joined_replies, reply_bytes, rounded_up, signed_if, unsigned_replies};
ghost use Rattle.smb_head.specs.Placed.{keys_from, placed, replies_written, with_open_reply, open_place};
ghost use Rattle.smb_head.specs.Parts.{AreRising, end_before};
ghost use Rattle.smb_head.specs.Sealed.{AreApart, sealed};

use super::fault::HeadFault;
use super::header::Header;
use super::reply::{rounded_up, set_next};
use super::unsigned::Unsigned;
use arrayvec::ArrayVec;
use smb_signing::Key;
use smb_wire::limits::MOST_REQUESTS;
use smb_wire::put_bytes;
use std::marker::Model;

/// Where a reply begins, and the key that it is signed by, if it is.
#[derive(Clone, Copy, Default)]
struct KeyedReply {
    place: usize,
    key: Option<Key>,
}

/// Where replies stand in a vector, behind other bytes, and by which keys they are signed.
#[derive(Drop)]
pub struct ReplyWriter {
    base: usize,
    last: usize,
    keys: ArrayVec<KeyedReply, MOST_REQUESTS>,
    // Whether any of them has a key.
    has_keys: bool,
}

impl Model for ReplyWriter {
    ghost use Rattle.smb_head.specs.Placed.{ReplyPlaces};
    ghost use Rattle.smb_head.specs.Parts.{KeepsPlaces};

    ghost Value = { ReplyPlaces };

    ghost view = { λ writer. record { base = writer.base; last = writer.last; keys = writer.keys.items } };

    ghost invariant = { λ writer. KeepsPlaces writer.base writer.last writer.keys.items writer.has_keys };
}

/// A reply whose header is still to come: where the vector ended before it, and where its header goes.
#[derive(Debug, Drop)]
pub struct OpenReply {
    end: usize,
    place: usize,
}

/// Zeros, as many as a padding and a header may need.
const ROOM: [u8; 72] = [0; 72];

/// How many bytes a header has.
const HEADER_SIZE: usize = 64;

/// The first 48 bytes of the header of a last reply: all but the signature.
#[tactic(auto, unfolding(smb_wire::specs::Number::spelling))]
fn header_front(header: &Header) -> [u8; 48]
    ensures { result ++ header.now.signature ≡ joined (fields (record header.now { next_command = 0 })) }
{
    let [charge0, charge1] = header.credit_charge.to_le_bytes();
    let [status0, status1, status2, status3] = header.status.to_le_bytes();
    let [command0, command1] = header.command.0.to_le_bytes();
    let [credits0, credits1] = header.credits.to_le_bytes();
    let [flags0, flags1, flags2, flags3] = header.flags.0.to_le_bytes();
    let [id0, id1, id2, id3, id4, id5, id6, id7] = header.message_id.to_le_bytes();
    let [reserved0, reserved1, reserved2, reserved3] = header.reserved.to_le_bytes();
    let [tree0, tree1, tree2, tree3] = header.tree_id.to_le_bytes();
    let [
        session0,
        session1,
        session2,
        session3,
        session4,
        session5,
        session6,
        session7,
    ] = header.session_id.to_le_bytes();
    [
        0xfe, 0x53, 0x4d, 0x42, 64, 0, charge0, charge1, status0, status1, status2, status3,
        command0, command1, credits0, credits1, flags0, flags1, flags2, flags3, 0, 0, 0, 0, id0,
        id1, id2, id3, id4, id5, id6, id7, reserved0, reserved1, reserved2, reserved3, tree0,
        tree1, tree2, tree3, session0, session1, session2, session3, session4, session5, session6,
        session7,
    ]
}

/// Writes bytes over those from `place` on.
pub(crate) fn set_bytes(bytes: &[u8], place: usize, out: &mut Vec<u8>)
    requires { place + length bytes.now ≤ length out.old.items }
    ensures bytes { out.new.items ≡ take place out.old.items ++ (bytes.now ++ drop (place + length bytes.now) out.old.items) }
    ensures len { length out.new.items ≡ length out.old.items }
{
    out[place..place + bytes.len()].copy_from_slice(bytes);
}

/// Writes the header of a last reply over the 64 bytes from `place` on.
fn set_header(header: &Header, place: usize, out: &mut Vec<u8>)
    requires { place + 64 ≤ length out.old.items }
    ensures header { out.new.items ≡ take place out.old.items ++ (joined (fields (record header.now { next_command = 0 })) ++ drop (place + 64) out.old.items) }
    ensures len { length out.new.items ≡ length out.old.items }
{
    set_bytes(&header_front(header), place, out);
    set_bytes(&header.signature, place + 48, out);
}

/// Adds at most 72 zeros, or nothing.
fn put_room(count: usize, out: &mut Vec<u8>) -> Result<(), HeadFault>
    requires { count ≤ 72 }
    ensures ok { OnOk result (out.new.items ≡ out.old.items ++ replicate count 0) }
    ensures len { OnOk result (length out.new.items ≡ length out.old.items + count) }
    ensures memory { IfErr result (λ fault. fault ≡ HeadFault.NoMemory) }
    ensures err { OnErr result (out.new.items ≡ out.old.items) }
{
    put_bytes(out, &ROOM[..count])?;
    Ok(())
}

/// Where a reply ends that these others follow: where the first of them begins, or where `out` ends.
fn end_before(others: &[KeyedReply], out: &Vec<u8>) -> usize
    ensures { result ≡ end_before others.now (length out.now.items) }
{
    match others.first() {
        Some(next) => next.place,
        None => out.len(),
    }
}

/// Has each of some replies that has a key signed later: one ends where the next begins, and the last where `out` does.
fn put_off_replies(replies: &[KeyedReply], unsigned: &mut Unsigned, out: &mut Vec<u8>)
    requires rising { AreRising 0 replies.now (length out.old.items) }
    requires apart { AreApart 0 unsigned.old (end_before replies.now (length out.old.items)) }
    ensures signed { (before : List ℕ) (others : List Reply) → replies.now ≡ keys_from (length before) others →
        sealed unsigned.old out.old.items ≡ before ++ unsigned_replies others →
        sealed unsigned.new out.new.items ≡ before ++ joined_replies others }
    ensures apart { AreApart 0 unsigned.new (length out.new.items) }
    ensures len { length out.new.items ≡ length out.old.items }
{
    let mut replies = replies;
    while let Some((reply, others)) = replies.split_first() {
        let end = end_before(others, out);
        unsigned.put_off(reply.key, reply.place, end, out);
        replies = others;
    }
}

impl ReplyWriter {
    /// No replies yet, behind all that stands in `out`. Nothing is written.
    #[tactic(auto, unfolding(crate::specs::Replies::last_place, crate::specs::Placed::keys_from))]
    pub fn begin(out: &Vec<u8>) -> ReplyWriter
        ensures placed { result ≡ placed out.now.items [] }
        ensures base { result.base ≡ length out.now.items }
        ensures last { result.last ≡ length out.now.items }
        ensures count { length result.keys ≡ 0 }
    {
        let end = out.len();
        ReplyWriter {
            base: end,
            last: end,
            keys: ArrayVec::new(),
            has_keys: false,
        }
    }

    /// Whether there is no reply.
    pub fn is_empty(&self, out: &Vec<u8>) -> bool
        ensures { (before : List ℕ) (replies : List Reply) → self.now ≡ placed before replies → out.now.items ≡ replies_written before replies →
            IsTrue result ↔ (replies ≡ []) }
    {
        out.len() == self.base
    }

    /// How many bytes the replies take, the last one unpadded.
    pub fn len(&self, out: &Vec<u8>) -> usize
        requires { self.now.base ≤ length out.now.items }
        ensures { result ≡ length out.now.items - self.now.base }
    {
        out.len() - self.base
    }

    /// Opens a reply behind the others: pads them to a multiple of 8, and reserves 64 bytes for the header. The
    /// body goes behind these, straight at the end of `out`.
    ///
    /// After [`HeadFault::NoMemory`], the only refusal, `out` is as it was.
    pub fn open_reply(&self, out: &mut Vec<u8>) -> Result<OpenReply, HeadFault>
        requires within { self.now.base ≤ length out.old.items }
        requires room { length out.old.items < self.now.base + 2 ^ 24 }
        ensures opened { (before : List ℕ) (replies : List Reply) → self.now ≡ placed before replies → out.old.items ≡ replies_written before replies →
            OnOk result (out.new.items ≡ with_open_reply before replies) }
        ensures place { (before : List ℕ) (replies : List Reply) → self.now ≡ placed before replies → out.old.items ≡ replies_written before replies →
            IfOk result (λ reply. reply ≡ open_place before replies) }
        ensures behind { IfOk result (λ reply. reply.place ≡ self.now.base + rounded_up (length out.old.items - self.now.base)) }
        ensures end { IfOk result (λ reply. reply.end ≡ length out.old.items) }
        ensures len { IfOk result (λ reply. length out.new.items ≡ reply.place + 64) }
        ensures memory { IfErr result (λ fault. fault ≡ HeadFault.NoMemory) }
        ensures kept { take (length out.old.items) out.new.items ≡ out.old.items }
        ensures err { OnErr result (out.new.items ≡ out.old.items) }
    {
        let end = out.len();
        let place = self.base + rounded_up(end - self.base);
        put_room(place - end + HEADER_SIZE, out)?;
        Ok(OpenReply { end, place })
    }

    /// Closes an open reply, whose body is what stands behind the bytes for its header: writes the header, and the
    /// NextCommand of the reply before it. What `header` says as NextCommand is not used: it is 0, until the
    /// next reply is closed. Where there is a key the reply is signed by it, once `sign` is called. It takes no memory.
    pub fn close_reply(
        &mut self,
        reply: OpenReply,
        header: &Header,
        key: Option<Key>,
        out: &mut Vec<u8>,
    )
        requires few { length self.old.keys < MOST_REQUESTS }
        requires order { self.old.base ≤ self.old.last }
        requires behind { self.old.last ≤ reply.place }
        requires room { reply.place < self.old.last + 2 ^ 32 }
        requires within { reply.place + 64 ≤ length out.old.items }
        ensures closed { (before : List ℕ) (replies : List Reply) (body : List ℕ) → self.old ≡ placed before replies →
            reply ≡ open_place before replies → out.old.items ≡ with_open_reply before replies ++ body →
            out.new.items ≡ replies_written before (replies ++ record { header = header.now; body = body; key = key } ∷ []) }
        ensures placed { (before : List ℕ) (replies : List Reply) (body : List ℕ) → self.old ≡ placed before replies →
            reply ≡ open_place before replies →
            self.new ≡ placed before (replies ++ record { header = header.now; body = body; key = key } ∷ []) }
        ensures base { self.new.base ≡ self.old.base }
        ensures last { self.new.last ≡ reply.place }
        ensures count { length self.new.keys ≡ length self.old.keys + 1 }
        ensures len { length out.new.items ≡ length out.old.items }
        ensures kept { take self.old.base out.new.items ≡ take self.old.base out.old.items }
    {
        set_header(header, reply.place, out);
        if reply.place > self.base {
            set_next(out, self.last, (reply.place - self.last) as u32);
        }
        self.last = reply.place;
        self.keys.push(KeyedReply {
            place: reply.place,
            key,
        });
        self.has_keys |= key.is_some();
    }

    /// Has each reply of `out` that has a key signed later, by [`Unsigned::sign`]: its header, its body and its padding.
    /// It is called once, when all replies are closed. It takes no memory.
    pub fn put_off(&self, unsigned: &mut Unsigned, out: &mut Vec<u8>)
        requires within { self.now.last ≤ length out.old.items }
        requires apart { AreApart 0 unsigned.old self.now.base }
        ensures signed { (before : List ℕ) (replies : List Reply) → self.now ≡ placed before replies →
            sealed unsigned.old out.old.items ≡ before ++ unsigned_replies replies →
            sealed unsigned.new out.new.items ≡ before ++ joined_replies replies }
        ensures apart { self.now.base ≤ length out.old.items → AreApart 0 unsigned.new (length out.new.items) }
        ensures len { length out.new.items ≡ length out.old.items }
    {
        if self.has_keys {
            put_off_replies(self.keys.as_slice(), unsigned, out);
        }
    }

    /// Cuts off an open reply, its padding too.
    pub fn drop_reply(&self, reply: OpenReply, out: &mut Vec<u8>)
        ensures cut { out.new.items ≡ take reply.end out.old.items }
        ensures len { reply.end ≤ length out.old.items → length out.new.items ≡ reply.end }
        ensures dropped { (before : List ℕ) (replies : List Reply) (body : List ℕ) → reply ≡ open_place before replies →
            out.old.items ≡ with_open_reply before replies ++ body → out.new.items ≡ replies_written before replies }
    {
        out.truncate(reply.end);
    }

    /// Cuts off all replies.
    pub fn cut_back(self, out: &mut Vec<u8>)
        ensures cut { out.new.items ≡ take self.base out.old.items }
    {
        out.truncate(self.base);
    }
}
