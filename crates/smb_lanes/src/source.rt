//! What is left of a message behind some whole blocks, and its padding (FIPS 180-4, 5.1.1), block by block.

ghost use Rattle.std.specs.Prelude.{◌≡◌, ℕ, ◌∷◌, ◌+◌, ◌-◌, ◌*◌, ◌/◌, ◌%◌, ◌^◌, ◌<◌, ◌++◌, List, length, take, drop, replicate};
ghost use Rattle.std.specs.Int.{w64, to_be_bytes};
ghost use Rattle.sha2.specs.Sha256.{padding};
ghost use Rattle.smb_lanes.specs.Sources.{Supplies};

/// The bytes behind the last whole block of a message of `total` bytes, and the padding: one block or two.
fn last_blocks(left: &[u8], total: u64) -> [u8; 128]
    requires { length left.now < 64 }
    ensures { take ((length left.now + 72) / 64 * 64) result
        ≡ left.now ++ (0x80 ∷ replicate ((119 - length left.now) % 64) 0 ++ to_be_bytes w64 (total * 8 % 2 ^ 64)) }
{
    let used = left.len();
    let mut tail = [0u8; 128];
    tail[..used].copy_from_slice(left);
    tail[used] = 0x80;
    let end = (used + 72) / 64 * 64;
    tail[end - 8..end].copy_from_slice(&total.wrapping_mul(8).to_be_bytes());
    tail
}

/// What is left of a message, in blocks: the whole ones lie where the message does, and behind them is the tail of one
/// block or two, with the padding.
#[derive(Drop)]
pub(crate) struct Source<'a> {
    whole: &'a [u8],
    tail: [u8; 128],
    /// How many blocks there are.
    pub(crate) count: usize,
}

impl<'a> Source<'a> {
    /// What is left of a message of which `before` bytes, modulo 2 ^ 64, were taken already.
    pub(crate) fn new(rest: &'a [u8], before: u64) -> Source<'a>
        ensures { (n : ℕ) → n % 64 ≡ 0 → before ≡ n % 2 ^ 64
            → Supplies result (rest.now ++ padding (n + length rest.now)) }
    {
        let used = rest.len() % 64;
        let (whole, left) = rest.split_at(rest.len() - used);
        let total = before.wrapping_add(rest.len() as u64);
        Source {
            whole,
            tail: last_blocks(left, total),
            count: whole.len() / 64 + (used + 72) / 64,
        }
    }

    /// Block `at`, where there is one, and else any block.
    #[inline(always)]
    pub(crate) fn block(&self, at: usize) -> &[u8]
        ensures len { length result.now ≡ 64 }
        ensures value { (q : List ℕ) → Supplies self.now q → at < self.now.count
            → result.now ≡ take 64 (drop (at * 64) q) }
    {
        let full = self.whole.len() / 64;
        if at < full {
            &self.whole[64 * at..64 * at + 64]
        } else if at == full {
            &self.tail[..64]
        } else {
            &self.tail[64..]
        }
    }
}
