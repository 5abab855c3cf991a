//! Signatures of up to four messages at a time, with their hashes side by side.

ghost use Rattle.std.specs.Prelude.{◌≡◌, ℕ, ◌<◌, ◌≤◌, ◌++◌, IfSome, length, take, replicate};
ghost use Rattle.smb_lanes.specs.Lanes.{nth};
ghost use Rattle.smb_signing.specs.Pieces.{ArePiecesOf, IsSignatureOf, of_pieces};
ghost use Rattle.smb_signing.specs.Signature.{signature};

use crate::hmac::{IPAD, OPAD, padded_key};
use crate::key::{Key, parts};
use smb_lanes::FourHashes;

/// A message, and the key by which it is signed.
#[derive(Clone, Copy)]
pub struct Message<'a> {
    pub key: Key,
    /// From the message's header up to its end, with whatever it has in the place of its signature.
    pub bytes: &'a [u8],
}

/// A key, and what is signed by it: a first block, and the bytes behind it.
#[derive(Drop)]
struct Pieces<'a> {
    key: [u8; 16],
    first: [u8; 64],
    rest: &'a [u8],
}

/// The first block of what is signed of a message: the bytes before its signature, and zeros in its place.
fn first_block(front: &[u8]) -> [u8; 64]
    requires { length front.now ≡ 48 }
    ensures { result ≡ front.now ++ replicate 16 0 }
{
    let mut block = [0; 64];
    block[..48].copy_from_slice(front);
    block
}

/// The pieces of a message with a whole header.
fn split<'a>(message: &Message<'a>) -> Pieces<'a>
    requires { 64 ≤ length message.now.bytes.now }
    ensures { ArePiecesOf message.now result }
{
    let (front, _, rest) = parts(message.bytes);
    Pieces {
        key: message.key.bytes(),
        first: first_block(front),
        rest,
    }
}

/// The pieces of a message with a whole header, and others for what is shorter, or missing.
fn split_any<'a>(message: &Option<Message<'a>>) -> Pieces<'a>
    ensures { IfSome message.now (λ m. 64 ≤ length m.bytes.now → ArePiecesOf m result) }
{
    match message {
        Some(m) if m.bytes.len() >= 64 => split(m),
        _ => Pieces {
            key: [0; 16],
            first: [0; 64],
            rest: &[],
        },
    }
}

/// The HMAC-SHA256 of four messages by their pieces.
fn hmacs(a: &Pieces, b: &Pieces, c: &Pieces, d: &Pieces) -> ([u8; 32], [u8; 32], [u8; 32], [u8; 32])
    ensures { (j : ℕ) → j < 4
        → nth result.0 result.1 result.2 result.3 j ≡ of_pieces (nth a.now b.now c.now d.now j) }
{
    let mut inner = FourHashes::new();
    inner.add_blocks(
        &padded_key(&a.key, IPAD),
        &padded_key(&b.key, IPAD),
        &padded_key(&c.key, IPAD),
        &padded_key(&d.key, IPAD),
    );
    inner.add_blocks(&a.first, &b.first, &c.first, &d.first);
    let (w, x, y, z) = inner.finish(a.rest, b.rest, c.rest, d.rest);
    let mut outer = FourHashes::new();
    outer.add_blocks(
        &padded_key(&a.key, OPAD),
        &padded_key(&b.key, OPAD),
        &padded_key(&c.key, OPAD),
        &padded_key(&d.key, OPAD),
    );
    outer.finish(&w, &x, &y, &z)
}

/// The first 16 bytes of a digest.
fn shortened(digest: &[u8; 32]) -> [u8; 16]
    ensures { result ≡ take 16 digest.now }
{
    let mut signature = [0; 16];
    signature.copy_from_slice(&digest[..16]);
    signature
}

/// The signatures of four messages with whole headers, whose hashes go side by side. Any may be missing.
fn signatures_beside(
    first: &Option<Message>,
    second: &Option<Message>,
    third: &Option<Message>,
    fourth: &Option<Message>,
) -> ([u8; 16], [u8; 16], [u8; 16], [u8; 16])
    ensures { (j : ℕ) → j < 4 → IfSome (nth first.now second.now third.now fourth.now j) (λ m. 64 ≤ length m.bytes.now
        → IsSignatureOf (nth result.0 result.1 result.2 result.3 j) m) }
{
    let (w, x, y, z) = hmacs(
        &split_any(first),
        &split_any(second),
        &split_any(third),
        &split_any(fourth),
    );
    (shortened(&w), shortened(&x), shortened(&y), shortened(&z))
}

/// About how many blocks are hashed for a message's signature: four more than its own. None for what is missing, or
/// shorter than a header.
fn blocks(message: &Option<Message>) -> usize {
    match message {
        Some(m) if m.bytes.len() >= 64 => m.bytes.len() / 64 + 4,
        _ => 0,
    }
}

/// The number of blocks up to which messages go side by side: where twice as many are no more than those of all these
/// messages together, since four blocks side by side take about as long as two alone. It is only a matter of time.
fn limit(blocks: [usize; 4]) -> usize {
    let mut limit = 0;
    for longest in blocks {
        let mut sum = 0usize;
        for count in blocks {
            if count <= longest {
                sum = sum.saturating_add(count);
            }
        }
        if longest > limit && longest <= sum / 2 {
            limit = longest;
        }
    }
    limit
}

/// A message that goes beside others: it has a whole header, and is within the limit.
fn beside<'a>(message: Option<Message<'a>>, limit: usize) -> Option<Message<'a>>
    ensures { IfSome result (λ m. (message.entry ≡ Some m) × (64 ≤ length m.bytes.now)) }
{
    if blocks(&message) > limit {
        return None;
    }
    match message {
        Some(m) if m.bytes.len() >= 64 => message,
        _ => None,
    }
}

/// The signature of one message, and zeros for a missing one.
fn alone(message: Option<Message>) -> [u8; 16]
    ensures { IfSome message.entry (λ m. IsSignatureOf result m) }
{
    match message {
        Some(m) => m.key.signature(m.bytes),
        None => [0; 16],
    }
}

/// A message's signature: what was found where it went beside others, and else computed alone.
fn own(message: Option<Message>, beside: &Option<Message>, found: [u8; 16]) -> [u8; 16]
    requires same { IfSome beside.now (λ m. (message ≡ Some m) × (64 ≤ length m.bytes.now)) }
    requires right { IfSome beside.now (λ m. 64 ≤ length m.bytes.now → IsSignatureOf found m) }
    ensures { IfSome message.entry (λ m. IsSignatureOf result m) }
{
    if beside.is_some() {
        found
    } else {
        alone(message)
    }
}

/// The signatures of up to four messages, each by its own key, and sixteen zeros in the place of a missing one.
/// Messages of like lengths are hashed side by side, and one that is longer than the others together alone.
pub fn signatures_of_four(
    first: Option<Message>,
    second: Option<Message>,
    third: Option<Message>,
    fourth: Option<Message>,
) -> ([u8; 16], [u8; 16], [u8; 16], [u8; 16])
    ensures first { IfSome first.entry (λ m. result.0 ≡ signature m.key.bytes m.bytes.now) }
    ensures second { IfSome second.entry (λ m. result.1 ≡ signature m.key.bytes m.bytes.now) }
    ensures third { IfSome third.entry (λ m. result.2 ≡ signature m.key.bytes m.bytes.now) }
    ensures fourth { IfSome fourth.entry (λ m. result.3 ≡ signature m.key.bytes m.bytes.now) }
{
    let limit = limit([
        blocks(&first),
        blocks(&second),
        blocks(&third),
        blocks(&fourth),
    ]);
    if limit == 0 {
        return (alone(first), alone(second), alone(third), alone(fourth));
    }
    let a = beside(first, limit);
    let b = beside(second, limit);
    let c = beside(third, limit);
    let d = beside(fourth, limit);
    let (w, x, y, z) = signatures_beside(&a, &b, &c, &d);
    (
        own(first, &a, w),
        own(second, &b, x),
        own(third, &c, y),
        own(fourth, &d, z),
    )
}
