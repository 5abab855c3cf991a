//! Bits of words.

ghost use Rattle.std.specs.Prelude.{◌≡◌, ℕ, ◌+◌, ◌*◌, ◌<◌, ◌==◌, ◌||◌, length};
ghost use Rattle.smb_patterns.specs.Bits.{bit, has_bit};

// A word with one bit more.
fn with_bit(word: u64, at: usize) -> u64
    requires { at < 64 }
    ensures { (i : ℕ) → i < 64 → bit result i ≡ ((i == at) || bit word i) }
{
    word | (1u64 << at)
}

/// Sets bit `n` of a row of words.
pub fn set_bit(words: &mut [u64], n: usize)
    requires { n < 64 * length words.old }
    ensures len { length words.new ≡ length words.old }
    ensures bits { (m : ℕ) → has_bit words.new m ≡ ((m == n) || has_bit words.old m) }
{
    words[n / 64] = with_bit(words[n / 64], n % 64);
}
