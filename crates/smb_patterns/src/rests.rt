//! Sets of the rests of a pattern.

ghost use Rattle.std.specs.Prelude.{◌≡◌, ℕ, ◌+◌, ◌*◌, ◌<◌, ◌≤◌, false, ◌==◌, ◌||◌};
ghost use Rattle.smb_patterns.specs.Bits.{bit, has};

use super::bits::set_bit;

/// Some rests of a pattern, each known by how many units it has, at most 255.
#[derive(Clone, Copy)]
pub struct Rests {
    // The rest of `n` units is bit `n % 64` of word `n / 64`.
    words: [u64; 4],
}

impl Rests {
    /// No rest.
    pub fn none() -> Rests
        ensures { (n : ℕ) → has result n ≡ false }
    {
        Rests { words: [0; 4] }
    }

    /// Adds the rest of `n` units.
    pub fn add(&mut self, n: usize)
        requires { n < 256 }
        ensures { (m : ℕ) → has self.new m ≡ ((m == n) || has self.old m) }
    {
        set_bit(&mut self.words, n);
    }

    /// Whether the rest of `n` units is one of them.
    pub fn has(&self, n: usize) -> bool
        requires { n < 256 }
        ensures { result ≡ has self.now n }
    {
        (self.words[n / 64] >> (n % 64)) & 1 == 1
    }

    /// The 64 rests from that of `64 * at` units on, each a bit, the shortest the lowest.
    pub fn word(&self, at: usize) -> u64
        requires { at < 4 }
        ensures { (i : ℕ) → i < 64 → bit result i ≡ has self.now (64 * at + i) }
    {
        self.words[at]
    }

    /// Writes the 64 rests from that of `64 * at` units on.
    pub fn set_word(&mut self, at: usize, word: u64)
        requires { at < 4 }
        ensures here { (i : ℕ) → i < 64 → has self.new (64 * at + i) ≡ bit word i }
        ensures shorter { (n : ℕ) → n < 64 * at → has self.new n ≡ has self.old n }
        ensures longer { (n : ℕ) → 64 * at + 64 ≤ n → has self.new n ≡ has self.old n }
    {
        self.words[at] = word;
    }

    /// Takes out the rests in front of word `at`.
    pub fn clear_front(&mut self, at: usize)
        requires { at ≤ 4 }
        ensures shorter { (n : ℕ) → n < 64 * at → has self.new n ≡ false }
        ensures longer { (n : ℕ) → 64 * at ≤ n → has self.new n ≡ has self.old n }
    {
        for i in 0..at {
            self.set_word(i, 0);
        }
    }
}
