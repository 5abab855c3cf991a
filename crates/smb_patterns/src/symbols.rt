//! By which symbol each rest of a pattern begins.

ghost use Rattle.std.specs.Prelude.{◌≡◌, ◌<◌, ◌/◌, ◌%◌, ℕ, List, length};
ghost use Rattle.smb_wire.specs.Names.{folded_unit};
ghost use Rattle.smb_patterns.specs.Bits.{IsAdded, AreShown};

use super::byte_table::ByteTable;
use super::pattern::Pattern;
use super::rests::Rests;
use super::symbol::Symbol;
use smb_wire::fold_unit;

/// The low and the high byte of a unit, folded.
pub fn folded_bytes(unit: u16) -> (usize, usize)
    ensures low { result.0 ≡ folded_unit unit % 256 }
    ensures high { result.1 ≡ folded_unit unit / 256 }
    ensures low_few { result.0 < 256 }
    ensures high_few { result.1 < 256 }
{
    let folded = usize::from(fold_unit(unit));
    (folded % 256, folded / 256)
}

/// The rests of a pattern, by the symbol that each begins with.
#[derive(Clone, Copy)]
pub struct Symbols {
    pub asterisk: Rests,
    pub question_mark: Rests,
    pub dos_star: Rests,
    pub dos_qm: Rests,
    pub dos_dot: Rests,
    /// Those that begin with a unit that stands for itself, by its low byte, folded.
    pub lows: ByteTable,
    /// The same by its high byte.
    pub highs: ByteTable,
}

impl Symbols {
    /// The rests of a pattern, by the symbol that each begins with.
    pub fn of(pattern: &Pattern) -> Symbols
        ensures { AreShown pattern.now (length pattern.now) result }
    {
        let count = pattern.len();
        let mut symbols = Symbols::none();
        for n in 0..count {
            symbols.add(pattern.symbol(count - n - 1), n + 1);
        }
        symbols
    }

    // No rest.
    fn none() -> Symbols
        ensures { (pattern : List ℕ) → AreShown pattern 0 result }
    {
        Symbols {
            asterisk: Rests::none(),
            question_mark: Rests::none(),
            dos_star: Rests::none(),
            dos_qm: Rests::none(),
            dos_dot: Rests::none(),
            lows: ByteTable::none(),
            highs: ByteTable::none(),
        }
    }

    // Adds the rest of `n` units, which begins with a symbol.
    fn add(&mut self, symbol: Symbol, n: usize)
        requires { n < 256 }
        ensures { IsAdded symbol n self.old self.new }
    {
        match symbol {
            Symbol::Asterisk => self.asterisk.add(n),
            Symbol::QuestionMark => self.question_mark.add(n),
            Symbol::DosStar => self.dos_star.add(n),
            Symbol::DosQm => self.dos_qm.add(n),
            Symbol::DosDot => self.dos_dot.add(n),
            Symbol::Literal(unit) => {
                let (low, high) = folded_bytes(unit);
                self.lows.add(low, n);
                self.highs.add(high, n);
            }
        }
    }
}
