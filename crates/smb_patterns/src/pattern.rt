//! Patterns of file names ([MS-FSA] 2.1.4.4).

ghost use Rattle.std.specs.Prelude.{◌≡◌, ◌≢◌, ◌<◌, ◌≤◌, IfSome, is_some, nat_le, length, slice_index};
ghost use Rattle.std.specs.declared.cmp.Ordering.TheVariants.{Less, Equal};
ghost use Rattle.smb_wire.specs.Names.{folded};
ghost use Rattle.smb_wire.specs.Units.{units_of};
ghost use Rattle.smb_patterns.specs.Patterns.{symbol_of};
ghost use Rattle.smb_patterns.specs.PatternOrders.{HasOrder};

use super::symbol::Symbol;
use smb_wire::{FoldedName, Units, fold_unit};
use std::cmp::Ordering;
use std::marker::Model;

// How many bytes a name of 255 units has.
const NAME_BYTES: usize = 510;

/// A pattern of file names: at most 255 units, each folded. In a directory query it says which entries are
/// wanted ([MS-SMB2] 2.2.33).
#[derive(Clone, Copy)]
pub struct Pattern {
    units: FoldedName,
}

impl Model for Pattern {
    ghost use Rattle.std.specs.Prelude.{ℕ, List};

    ghost Value = { List ℕ };

    ghost view = { λ pattern. pattern.units };

    ghost inverse = { λ units. record { units = units } };
}

impl Pattern {
    /// The pattern that the units fold to, or None over 255 units. Its cost grows with the number of units,
    /// and it allocates nothing.
    pub fn of(text: Units<'_>) -> Option<Pattern>
        ensures some { is_some result ≡ nat_le (length (units_of text.entry)) 255 }
        ensures units { IfSome result (λ pattern. pattern ≡ folded (units_of text.entry)) }
    {
        let units = FoldedName::of(text)?;
        Some(Pattern { units })
    }

    /// The pattern of the units of a name.
    pub fn of_name(units: FoldedName) -> Pattern
        ensures { result ≡ units }
    {
        Pattern { units }
    }

    // How many units it has, at most 255.
    pub(crate) fn len(&self) -> usize
        ensures len { result ≡ length self.now }
        ensures few { result < 256 }
    {
        self.units.len()
    }

    // What the unit at `i` stands for.
    pub(crate) fn symbol(&self, i: usize) -> Symbol
        requires { i < length self.now }
        ensures { result ≡ symbol_of (slice_index self.now i) }
    {
        Symbol::of(self.units.unit(i))
    }

    // How many of its units stand before the first wildcard; of over 254 as many are counted.
    fn plain_len(&self) -> usize
        ensures within { result ≤ length self.now }
        ensures few { result < 255 }
    {
        let count = self.len().min(254);
        for i in 0..count {
            let Symbol::Literal(_) = self.symbol(i) else {
                return i;
            };
        }
        count
    }

    // The order of a folded name and every name that it matches, where its units before the first wildcard show it; else
    // Equal.
    pub(crate) fn order(&self, name: &FoldedName) -> Ordering
        ensures { result ≢ Equal → HasOrder self.now name.now result }
    {
        let both = self.len().min(name.len());
        for i in 0..both {
            let Symbol::Literal(unit) = self.symbol(i) else {
                return Ordering::Equal;
            };
            match name.unit(i).cmp(&fold_unit(unit)) {
                Ordering::Equal => {}
                order => return order,
            }
        }
        if both < name.len() {
            Ordering::Greater
        } else {
            Ordering::Equal
        }
    }

    // The units before the first wildcard, with the last of them one lower and the greatest unit behind it.
    fn lowered(&self) -> Option<FoldedName> {
        let last = self.plain_len().checked_sub(1)?;
        let lower = self.units.unit(last).checked_sub(1)?;
        let mut bytes = [0xffu8; NAME_BYTES];
        for i in 0..last {
            put_unit(&mut bytes, i, self.units.unit(i));
        }
        put_unit(&mut bytes, last, lower);
        FoldedName::of(Units::of(&bytes[..2 * last + 4])?)
    }

    // A folded name shortly before every name that it matches, where it has units before the first wildcard.
    pub(crate) fn before(&self) -> Option<FoldedName>
        ensures { IfSome result (λ name. HasOrder self.now name Less) }
    {
        let name = self.lowered()?;
        if self.order(&name) == Ordering::Less {
            Some(name)
        } else {
            None
        }
    }
}

// Puts a unit at its place among bytes.
fn put_unit(bytes: &mut [u8; NAME_BYTES], i: usize, unit: u16)
    requires { i < 255 }
{
    let [low, high] = unit.to_le_bytes();
    bytes[2 * i] = low;
    bytes[2 * i + 1] = high;
}
