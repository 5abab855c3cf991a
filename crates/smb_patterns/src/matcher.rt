//! A pattern made ready to be matched with many names.

ghost use Rattle.std.specs.Prelude.{◌≡◌, ◌≢◌, ◌↔◌, IsTrue, IfSome};
ghost use Rattle.std.specs.declared.cmp.Ordering.TheVariants.{Less, Equal};
ghost use Rattle.smb_wire.specs.Units.{units_of};
ghost use Rattle.smb_patterns.specs.Patterns.{Matches};
ghost use Rattle.smb_patterns.specs.PatternOrders.{HasOrder};

use super::pattern::Pattern;
use super::rests::Rests;
use super::rows::{carry, end_row, narrow, place_of};
use super::symbols::Symbols;
use smb_wire::{FoldedName, Units};
use std::cmp::Ordering;
use std::marker::Model;

/// A pattern made ready to be matched with many names.
#[derive(Drop)]
pub struct Matcher {
    pattern: Pattern,
    symbols: Symbols,
    // The row at the end of a name.
    end: Rests,
}

impl Model for Matcher {
    ghost use Rattle.std.specs.Prelude.{ℕ, List, [], length};
    ghost use Rattle.smb_patterns.specs.Bits.{has, AreShown};
    ghost use Rattle.smb_patterns.specs.PatternRows.{IsRow};

    ghost Value = { List ℕ };

    ghost view = { λ matcher. matcher.pattern };

    ghost invariant = { λ matcher. AreShown matcher.pattern (length matcher.pattern) matcher.symbols × IsRow matcher.pattern [] (has matcher.end) };
}

impl Matcher {
    /// A pattern made ready to be matched with many names.
    pub fn of(pattern: &Pattern) -> Matcher
        ensures { result ≡ pattern.now }
    {
        Matcher {
            pattern: *pattern,
            symbols: Symbols::of(pattern),
            end: end_row(pattern),
        }
    }

    /// Whether the pattern matches a name. The name is read from its end to its front. At each place a row of answers is
    /// held: which rests of the pattern match the name from there on, in a word for each 64 units of the pattern. The row at
    /// a place follows from the one behind it, in some steps for each word in which a rest is left that matters. It ends
    /// where no rest is left, or where the whole pattern begins with `*` and is left, and allocates nothing.
    pub fn matches(&self, name: Units<'_>) -> bool
        ensures { IsTrue result ↔ Matches self.now (units_of name.entry) }
    {
        let count = self.pattern.len();
        let words = count / 64 + 1;
        let asterisk_first = self.symbols.asterisk.has(count);
        let mut row = self.end;
        let mut has_dot = false;
        for at in (0..name.len()).rev() {
            if asterisk_first && row.has(count) {
                return true;
            }
            narrow(&self.symbols, words, at, &mut row);
            let place = place_of(name.unit(at), has_dot);
            if !carry(&self.symbols, words, place, &mut row) {
                return false;
            }
            has_dot = has_dot || place.is_last_dot;
        }
        row.has(count)
    }

    /// The order of a folded name and every name that the pattern matches, where the pattern's units before its first
    /// wildcard show it; else Equal.
    pub fn order(&self, name: &FoldedName) -> Ordering
        ensures { result ≢ Equal → HasOrder self.now name.now result }
    {
        self.pattern.order(name)
    }

    /// A folded name before every name that the pattern matches, with few names between; None where the pattern begins
    /// with a wildcard.
    pub fn before(&self) -> Option<FoldedName>
        ensures { IfSome result (λ name. HasOrder self.now name Less) }
    {
        self.pattern.before()
    }
}
