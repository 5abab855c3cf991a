//! 64 answers at a time.

ghost use Rattle.std.specs.Prelude.{◌≡◌, ℕ, ◌<◌, ◌&&◌, ◌||◌};
ghost use Rattle.smb_patterns.specs.Bits.{bit, below, answer_by};

/// What the first symbols of 64 rests may do at a unit of a name, a bit for each rest, the shortest the lowest.
#[derive(Clone, Copy)]
pub struct Step {
    /// Take the unit, and no more.
    pub takes: u64,
    /// Take the unit, and maybe more.
    pub stays: u64,
    /// Take nothing before the unit.
    pub skips: u64,
}

/// The top bit of a word.
pub fn top_bit(word: u64) -> bool
    ensures { result ≡ bit word 63 }
{
    word >> 63 == 1
}

// A word with each bit moved up, and this one below them.
fn moved_up(word: u64, first: bool) -> u64
    ensures { (i : ℕ) → i < 64 → bit result i ≡ below first (bit word) i }
{
    (word << 1) | u64::from(first)
}

// These bits, and those of `skips` that are right above one that is set, the new ones too; right below the word this one is.
// In the sum a carry goes up from each bit that is entered, through all of `skips` that is right above it.
fn filled(word: u64, skips: u64, first: bool) -> u64
    ensures { (i : ℕ) → i < 64 → bit result i ≡ (bit word i || (bit skips i && below first (bit result) i)) }
{
    let entered = moved_up(word, first) & skips;
    word | entered | (skips & !skips.wrapping_add(entered))
}

impl Step {
    /// The answers from a unit on, by those behind it; `old` and `new` are the answers for the rest one shorter than all 64,
    /// behind the unit and from it on.
    pub fn carried(self, word: u64, old: bool, new: bool) -> u64
        ensures { (i : ℕ) → i < 64 → bit result i ≡ answer_by (bit self.takes i) (bit self.stays i) (bit self.skips i)
            (record { moves = below old (bit word) i; stays = bit word i; skips = below new (bit result) i }) }
    {
        let taken = (moved_up(word, old) & self.takes) | (word & self.stays);
        filled(taken, self.skips, new)
    }
}
