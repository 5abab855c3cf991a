//! Replies joined in one payload ([MS-SMB2] 3.3.4.1.3).

ghost use Rattle.std.specs.Prelude.{◌≡◌, ◌↔◌, ◌==◌, ◌<◌, ◌≤◌, ◌+◌, ◌^◌, List, [], ◌∷◌, ◌++◌, None, IsTrue, OnOk, OnErr, IfErr, length, take, drop, replicate};
ghost use Rattle.smb_wire.specs.Number.{spelling};
ghost use Rattle.std.specs.List.{AllByRecursion};
ghost use Rattle.smb_head.specs.Replies.{Reply, joined_replies, length_with, reply_bytes, rounded_up, so_far, HasNoKey, WithoutKeysRepliesAreUnsigned, EachReplyBearsItsSignature};

use super::fault::HeadFault;
use super::header::{Header, write_header};
use smb_wire::{WireFault, put_bytes};
use std::alloc::Global;
use std::marker::Model;

/// Replies one after the other in one payload, none of them signed. Each is written once, and none is moved.
#[derive(Drop)]
pub struct ReplyChain {
    bytes: Vec<u8>,
    last: usize,
}

impl Model for ReplyChain {
    ghost use Rattle.std.specs.Prelude.{◌≡◌, ◌+◌, ◌%◌, ◌<◌, ◌≤◌, length};
    ghost use Rattle.smb_head.specs.Replies.{Held};

    ghost Value = { Held };

    ghost view = { λ chain. record { bytes = chain.bytes.items; last = chain.last } };

    ghost invariant = { λ chain. (chain.last % 8 ≡ 0) × (0 < length chain.bytes.items → chain.last + 64 ≤ length chain.bytes.items) };
}

/// Zeros, as many as a padding may need and one more.
const ZEROS: [u8; 8] = [0; 8];

/// The next multiple of 8, or the number itself where it is one.
pub(crate) fn rounded_up(n: usize) -> usize
    requires { n < 2 ^ 32 }
    ensures { result ≡ rounded_up n }
{
    (n + 7) / 8 * 8
}

/// Where NextCommand stands in a header ([MS-SMB2] 2.2.1.2).
const NEXT_COMMAND: usize = 20;

/// Writes a NextCommand into the header that begins at `place`.
#[tactic(auto, unfolding(smb_wire::specs::Number::spelling))]
pub(crate) fn set_next(out: &mut Vec<u8>, place: usize, next: u32)
    requires { place + 24 ≤ length out.old.items }
    ensures next { out.new.items ≡ take (place + 20) out.old.items ++ (spelling 4 next ++ drop (place + 24) out.old.items) }
    ensures len { length out.new.items ≡ length out.old.items }
{
    let at = place + NEXT_COMMAND;
    out[at..at + 4].copy_from_slice(&next.to_le_bytes());
}

/// Adds fewer than 8 zeros, or nothing.
fn put_zeros(count: usize, out: &mut Vec<u8>) -> Result<(), WireFault>
    requires { count < 8 }
    ensures ok { OnOk result (out.new.items ≡ out.old.items ++ replicate count 0) }
    ensures len { OnOk result (length out.new.items ≡ length out.old.items + count) }
    ensures err { OnErr result (out.new.items ≡ out.old.items) }
{
    put_bytes(out, &ZEROS[..count])?;
    Ok(())
}

/// Adds a reply as the last one. After a refusal its header may stand there.
fn put_last(header: &Header, body: &[u8], out: &mut Vec<u8>) -> Result<(), HeadFault>
    ensures ok { OnOk result (out.new.items ≡ out.old.items ++ reply_bytes 0 (record { header = header.now; body = body.now; key = None })) }
    ensures len { OnOk result (length out.new.items ≡ length out.old.items + 64 + length body.now) }
    ensures kept { take (length out.old.items) out.new.items ≡ out.old.items }
    ensures memory { IfErr result (λ fault. fault ≡ HeadFault.NoMemory) }
{
    let last = Header {
        next_command: 0,
        ..*header
    };
    write_header(&last, out)?;
    put_bytes(out, body)?;
    Ok(())
}

/// Adds zeros and then a reply, the last one. After a refusal some of them may stand there.
#[tactic(auto, using(std::proofs::Common::append_assoc))]
fn put_all(padding: usize, header: &Header, body: &[u8], out: &mut Vec<u8>) -> Result<(), HeadFault>
    requires { padding < 8 }
    ensures ok { OnOk result (out.new.items ≡ out.old.items ++ (replicate padding 0 ++ reply_bytes 0 (record { header = header.now; body = body.now; key = None }))) }
    ensures len { OnOk result (length out.new.items ≡ length out.old.items + padding + 64 + length body.now) }
    ensures kept { take (length out.old.items) out.new.items ≡ out.old.items }
    ensures memory { IfErr result (λ fault. fault ≡ HeadFault.NoMemory) }
{
    put_zeros(padding, out)?;
    put_last(header, body, out)?;
    Ok(())
}

/// Adds zeros and then a reply, the last one, or nothing.
fn put_reply(
    padding: usize,
    header: &Header,
    body: &[u8],
    out: &mut Vec<u8>,
) -> Result<(), HeadFault>
    requires { padding < 8 }
    ensures ok { OnOk result (out.new.items ≡ out.old.items ++ (replicate padding 0 ++ reply_bytes 0 (record { header = header.now; body = body.now; key = None }))) }
    ensures len { OnOk result (length out.new.items ≡ length out.old.items + padding + 64 + length body.now) }
    ensures memory { IfErr result (λ fault. fault ≡ HeadFault.NoMemory) }
    ensures err { OnErr result (out.new.items ≡ out.old.items) }
{
    let before = out.len();
    match put_all(padding, header, body, out) {
        Ok(()) => Ok(()),
        Err(fault) => {
            out.truncate(before);
            Err(fault)
        }
    }
}

impl ReplyChain {
    /// A chain of no replies. It takes no memory yet.
    #[tactic(auto, unfolding(crate::specs::Replies::unsigned_replies, crate::specs::Replies::last_place))]
    pub fn begin(alloc: Global) -> ReplyChain
        ensures joined { result ≡ so_far [] }
        ensures empty { length result.bytes ≡ 0 }
    {
        ReplyChain {
            bytes: Vec::new(alloc),
            last: 0,
        }
    }

    /// Whether there is no reply.
    pub fn is_empty(&self) -> bool
        ensures bytes { result ≡ (length self.now.bytes == 0) }
        ensures replies { (replies : List Reply) → self.now ≡ so_far replies → IsTrue result ↔ (replies ≡ []) }
    {
        self.bytes.is_empty()
    }

    /// How many bytes the replies take, the last one unpadded.
    pub fn len(&self) -> usize
        ensures { result ≡ length self.now.bytes }
    {
        self.bytes.len()
    }

    /// Adds a reply behind the others, which are padded to a multiple of 8. What `header` says as NextCommand
    /// is not used: it is 0, until the next reply comes.
    ///
    /// With this reply, padded, the chain stays below 2^24 bytes. After [`HeadFault::NoMemory`], the only
    /// refusal, the chain is as it was.
    pub fn push(&mut self, header: &Header, body: &[u8]) -> Result<(), HeadFault>
        requires { length_with self.old body.now < 2 ^ 24 }
        ensures joined { (replies : List Reply) → self.old ≡ so_far replies →
            OnOk result (self.new ≡ so_far (replies ++ record { header = header.now; body = body.now; key = None } ∷ [])) }
        ensures len { OnOk result (length self.new.bytes ≡ rounded_up (length self.old.bytes) + 64 + length body.now) }
        ensures memory { IfErr result (λ fault. fault ≡ HeadFault.NoMemory) }
        ensures err { OnErr result (self.new ≡ self.old) }
    {
        let end = self.bytes.len();
        let place = rounded_up(end);
        put_reply(place - end, header, body, &mut self.bytes)?;
        if end > 0 {
            set_next(&mut self.bytes, self.last, (place - self.last) as u32);
        }
        self.last = place;
        Ok(())
    }

    /// The payload: the replies that were pushed, joined.
    pub fn finish(self) -> Vec<u8>
        ensures bytes { result.items ≡ self.bytes }
        ensures joined { (replies : List Reply) → self ≡ so_far replies → AllByRecursion HasNoKey replies → result.items ≡ joined_replies replies }
    {
        let ReplyChain { bytes, last: _ } = self;
        bytes
    }
}

/// The laws of joined replies: the contract is the statement, and the body does nothing.
pub fn laws_of_replies()
    ensures unsigned { WithoutKeysRepliesAreUnsigned }
    ensures signed { EachReplyBearsItsSignature }
{}
