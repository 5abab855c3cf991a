//! For each byte, some rests of a pattern.

ghost use Rattle.std.specs.Prelude.{◌≡◌, ℕ, ◌+◌, ◌*◌, ◌<◌, false, ◌==◌, ◌||◌, ◌&&◌};
ghost use Rattle.smb_patterns.specs.Bits.{bit, has_for};

use super::bits::set_bit;

/// For each byte, some rests of a pattern, of at most 255 units.
#[derive(Clone, Copy)]
pub struct ByteTable {
    // The rest of `n` units is bit `n` of the 256 bits of its byte.
    words: [u64; 1024],
}

impl ByteTable {
    /// No rest for any byte.
    pub fn none() -> ByteTable
        ensures { (byte n : ℕ) → has_for result byte n ≡ false }
    {
        ByteTable { words: [0; 1024] }
    }

    /// Adds the rest of `n` units for a byte.
    pub fn add(&mut self, byte: usize, n: usize)
        requires byte { byte < 256 }
        requires few { n < 256 }
        ensures { (b m : ℕ) → m < 256 → has_for self.new b m ≡ (((m == n) && (byte == b)) || has_for self.old b m) }
    {
        set_bit(&mut self.words, 256 * byte + n);
    }

    /// The 64 rests for a byte from that of `64 * at` units on, each a bit, the shortest the lowest.
    pub fn word(&self, byte: usize, at: usize) -> u64
        requires byte { byte < 256 }
        requires at { at < 4 }
        ensures { (i : ℕ) → i < 64 → bit result i ≡ has_for self.now byte (64 * at + i) }
    {
        self.words[4 * byte + at]
    }
}
