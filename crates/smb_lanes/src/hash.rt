//! The hash values of four messages, and their digests.

ghost use Rattle.std.specs.Prelude.{◌≡◌, ℕ, List, [], ◌+◌, ◌/◌, ◌<◌, ◌++◌, length};
ghost use Rattle.sha2.specs.Sha256.{digest_bytes, hash_after, sha256};
ghost use Rattle.smb_lanes.specs.Hashes.{Holds, words_of};
ghost use Rattle.smb_lanes.specs.Lanes.{nth, state_lane};
ghost use Rattle.smb_lanes.specs.Sources.{Supplies};

use crate::constants::INITIAL;
use crate::rounds::compress;
use crate::source::Source;
use std::simd::u32x4;

/// The hash values of four messages, of which as many blocks each were taken in.
#[derive(Drop)]
pub struct FourHashes {
    // The eight words.
    a: u32x4,
    b: u32x4,
    c: u32x4,
    d: u32x4,
    e: u32x4,
    f: u32x4,
    g: u32x4,
    h: u32x4,
    // How many bytes of each were taken in, modulo 2 ^ 64.
    before: u64,
}

/// One lane's hash value.
fn lane(state: &[u32x4; 8], j: usize) -> [u32; 8]
    requires { j < 4 }
    ensures { result ≡ state_lane j state.now }
{
    [
        state[0].to_array()[j],
        state[1].to_array()[j],
        state[2].to_array()[j],
        state[3].to_array()[j],
        state[4].to_array()[j],
        state[5].to_array()[j],
        state[6].to_array()[j],
        state[7].to_array()[j],
    ]
}

/// Keeps the hash value of lane `j` once all blocks of its message are taken in. What the lane has later is of no use.
fn keep(kept: &mut [u32; 8], state: &[u32x4; 8], j: usize, done: usize, count: usize)
    requires { j < 4 }
    ensures taken { done ≡ count → kept.new ≡ state_lane j state.now }
    ensures left { (done ≡ count → ⊥) → kept.new ≡ kept.old }
{
    if done == count {
        let words = lane(state, j);
        *kept = words;
    }
}

/// The hash values after all blocks of four sources, which go side by side until the longest is done.
fn run(
    start: [u32x4; 8],
    a: &Source,
    b: &Source,
    c: &Source,
    d: &Source,
) -> ([u32; 8], [u32; 8], [u32; 8], [u32; 8])
    ensures { (j : ℕ) → j < 4 → (q : List ℕ) → Supplies (nth a.now b.now c.now d.now j) q
        → nth result.0 result.1 result.2 result.3 j ≡ hash_after (state_lane j start) q (length q / 64) }
{
    let mut state = start;
    let mut first = [0u32; 8];
    let mut second = [0u32; 8];
    let mut third = [0u32; 8];
    let mut fourth = [0u32; 8];
    let longest = a.count.max(b.count).max(c.count.max(d.count));
    'turns: for t in 0..longest {
        compress(&mut state, a.block(t), b.block(t), c.block(t), d.block(t));
        keep(&mut first, &state, 0, t + 1, a.count);
        keep(&mut second, &state, 1, t + 1, b.count);
        keep(&mut third, &state, 2, t + 1, c.count);
        keep(&mut fourth, &state, 3, t + 1, d.count);
    }
    (first, second, third, fourth)
}

/// The words of a hash value, each with its high byte first.
fn digest(h: &[u32; 8]) -> [u8; 32]
    ensures { result ≡ digest_bytes h.now 8 }
{
    let mut bytes = [0u8; 32];
    'words: for i in 0..8 {
        bytes[4 * i..4 * i + 4].copy_from_slice(&h[i].to_be_bytes());
    }
    bytes
}

impl FourHashes {
    /// Of four messages nothing of which was taken in.
    pub fn new() -> FourHashes
        ensures { (j : ℕ) → j < 4 → Holds result j [] }
    {
        FourHashes {
            a: u32x4::splat(INITIAL[0]),
            b: u32x4::splat(INITIAL[1]),
            c: u32x4::splat(INITIAL[2]),
            d: u32x4::splat(INITIAL[3]),
            e: u32x4::splat(INITIAL[4]),
            f: u32x4::splat(INITIAL[5]),
            g: u32x4::splat(INITIAL[6]),
            h: u32x4::splat(INITIAL[7]),
            before: 0,
        }
    }

    /// The eight words.
    #[inline(always)]
    fn words(&self) -> [u32x4; 8]
        ensures { result ≡ words_of self.now }
    {
        [
            self.a, self.b, self.c, self.d, self.e, self.f, self.g, self.h,
        ]
    }

    /// Takes in the next 64 bytes of each message.
    pub fn add_blocks(&mut self, a: &[u8; 64], b: &[u8; 64], c: &[u8; 64], d: &[u8; 64])
        ensures { (j : ℕ) → j < 4 → (p : List ℕ) → Holds self.old j p
            → Holds self.new j (p ++ nth a.now b.now c.now d.now j) }
    {
        let mut words = self.words();
        compress(&mut words, a, b, c, d);
        *self = FourHashes {
            a: words[0],
            b: words[1],
            c: words[2],
            d: words[3],
            e: words[4],
            f: words[5],
            g: words[6],
            h: words[7],
            before: self.before.wrapping_add(64),
        };
    }

    /// The digests of the four messages, once all that is left of them is taken in: of any lengths, which may differ.
    pub fn finish(
        self,
        a: &[u8],
        b: &[u8],
        c: &[u8],
        d: &[u8],
    ) -> ([u8; 32], [u8; 32], [u8; 32], [u8; 32])
        ensures { (j : ℕ) → j < 4 → (p : List ℕ) → Holds self j p
            → nth result.0 result.1 result.2 result.3 j ≡ sha256 (p ++ nth a.now b.now c.now d.now j) }
    {
        let first = Source::new(a, self.before);
        let second = Source::new(b, self.before);
        let third = Source::new(c, self.before);
        let fourth = Source::new(d, self.before);
        let (w, x, y, z) = run(self.words(), &first, &second, &third, &fourth);
        (digest(&w), digest(&x), digest(&y), digest(&z))
    }
}
