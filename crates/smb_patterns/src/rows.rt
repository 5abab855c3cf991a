//! Rows of answers: which rests of a pattern match a name from one place on.

ghost use Rattle.std.specs.Prelude.{◌≡◌, ℕ, ◌*◌, ◌<◌, ◌≤◌, [], false, not, ◌==◌, ◌&&◌, bit_or, if◌then◌else◌};
ghost use Rattle.smb_patterns.specs.PatternRows.{IsRow};
ghost use Rattle.smb_patterns.specs.Bits.{has, IsStep, IsCarried, carried_at, HasAsterisk, IsNarrowed};

use super::pattern::Pattern;
use super::rests::Rests;
use super::step::{Step, top_bit};
use super::symbols::{Symbols, folded_bytes};

// A dot.
const DOT: u16 = 0x2e;

/// A unit of a name.
#[derive(Clone, Copy)]
pub struct Place {
    pub unit: u16,
    /// It is a dot, and no dot is behind it.
    pub is_last_dot: bool,
}

/// A unit of a name, given whether a dot is behind it.
pub fn place_of(unit: u16, has_dot: bool) -> Place
    ensures unit { result.unit ≡ unit }
    ensures last { result.is_last_dot ≡ ((unit == 46) && not has_dot) }
{
    Place {
        unit,
        is_last_dot: unit == DOT && !has_dot,
    }
}

/// The rests that match the empty name.
pub fn end_row(pattern: &Pattern) -> Rests
    ensures { IsRow pattern.now [] (has result) }
{
    let count = pattern.len();
    let mut row = Rests::none();
    row.add(0);
    for n in 0..count {
        let takes_nothing = pattern.symbol(count - n - 1).takes_nothing_at_the_end();
        if takes_nothing && row.has(n) {
            row.add(n + 1);
        }
    }
    row
}

// What the first symbols of 64 rests may do at a unit, from the rest of `64 * at` units on.
fn step_at(symbols: &Symbols, place: Place, at: usize) -> Step
    requires { at < 4 }
    ensures { IsStep symbols.now place at result }
{
    let (low, high) = folded_bytes(place.unit);
    let literals = symbols.lows.word(low, at) & symbols.highs.word(high, at);
    let asterisk = symbols.asterisk.word(at);
    let dos_star = symbols.dos_star.word(at);
    let dos_qm = symbols.dos_qm.word(at);
    let is_dot = place.unit == DOT;
    Step {
        takes: symbols.question_mark.word(at)
            | literals
            | taking(is_dot, symbols.dos_dot.word(at), dos_qm),
        stays: asterisk | going_on(place.is_last_dot, dos_star),
        skips: skipping(is_dot, asterisk, dos_star, dos_qm),
    }
}

// Of `"` and `>` those that take a unit, and no more.
fn taking(is_dot: bool, dos_dot: u64, dos_qm: u64) -> u64
    ensures { result ≡ (if is_dot then dos_dot else dos_qm) }
{
    if is_dot { dos_dot } else { dos_qm }
}

// Of `<` those that take a unit and may go on.
fn going_on(is_last_dot: bool, dos_star: u64) -> u64
    ensures { result ≡ (if is_last_dot then 0 else dos_star) }
{
    if is_last_dot { 0 } else { dos_star }
}

// Of `*`, `<` and `>` those that take nothing before a unit.
fn skipping(is_dot: bool, asterisk: u64, dos_star: u64, dos_qm: u64) -> u64
    ensures { result ≡ bit_or (bit_or asterisk dos_star) (if is_dot then dos_qm else 0) }
{
    asterisk | dos_star | if is_dot { dos_qm } else { 0 }
}

// The answers for 64 rests from a unit on, from the rest of `64 * at` units on, by those behind it; `old` and `new` are the
// answers for the rest one shorter than all 64, behind the unit and from it on. Where nothing is set, nothing is looked up.
fn carried_word(symbols: &Symbols, place: Place, at: usize, word: u64, old: bool, new: bool) -> u64
    requires { at < 4 }
    ensures { IsCarried symbols.now place at word old new result }
{
    if word == 0 && !old && !new {
        0
    } else {
        step_at(symbols, place, at).carried(word, old, new)
    }
}

/// Carries a row over the unit in front of its place, of the rests in the first `words` words, and tells whether
/// any of them is left.
pub fn carry(symbols: &Symbols, words: usize, place: Place, row: &mut Rests) -> bool
    requires { words ≤ 4 }
    ensures row { (n : ℕ) → n < 64 * words → has row.new n ≡ carried_at symbols.now place (has row.old) (has row.new) n }
    ensures none { result ≡ false → (n : ℕ) → n < 64 * words → has row.new n ≡ false }
{
    let mut old = false;
    let mut new = false;
    let mut left = 0u64;
    for at in 0..words {
        let word = row.word(at);
        let carried = carried_word(symbols, place, at, word, old, new);
        row.set_word(at, carried);
        old = top_bit(word);
        new = top_bit(carried);
        left |= carried;
    }
    left != 0
}

// The last of the first `words` words in which a rest is set that begins with `*`, or 0 where there is none.
fn last_asterisk(symbols: &Symbols, words: usize, row: &Rests) -> usize
    requires { words ≤ 4 }
    ensures few { result < 4 }
    ensures set { HasAsterisk symbols.now (has row.now) result }
{
    for at in (1..words).rev() {
        if row.word(at) & symbols.asterisk.word(at) != 0 {
            return at;
        }
    }
    0
}

/// Takes rests out of a row that no longer matter, at every 16th place of a name. A rest that begins with `*` and matches
/// what is behind a place matches whatever else is put in front of that, so that no shorter rest can change an answer.
pub fn narrow(symbols: &Symbols, words: usize, at: usize, row: &mut Rests)
    requires { words ≤ 4 }
    ensures { IsNarrowed symbols.now (has row.old) (has row.new) }
{
    if at % 16 == 0 {
        row.clear_front(last_asterisk(symbols, words, row));
    }
}
