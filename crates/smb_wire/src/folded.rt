//! A folded name of its own, as a key.

ghost use Rattle.std.specs.Prelude.{◌≡◌, ◌<◌, IfSome, is_some, nat_le, nat_eq, length, slice_index};
ghost use Rattle.std.specs.Cmp.Lexicographic.{pointwise, slice_cmp, texts_po};
ghost use Rattle.std.specs.Cmp.Rules.{comparing};
ghost use Rattle.std.specs.Cmp.{partial_order_from_own_ties};
ghost use Rattle.std.specs.Ordering.{nat_cmp, as_partial_cmp};
ghost use Rattle.std.proofs.Common.{rules};
ghost use Rattle.std.proofs.lemmas.Cmp.{nat_list_cmp_total};
ghost use Rattle.smb_wire.specs.Names.{folded};
ghost use Rattle.smb_wire.specs.Units.{units_of};

use super::names::fold_unit;
use super::units::Units;
use std::cmp::Ordering;
use std::marker::Model;

/// A name of at most 255 units, each folded. Names are compared unit by unit; of two where one begins the
/// other the shorter is first.
#[derive(Clone, Copy)]
pub struct FoldedName {
    units: [u16; 255],
    len: u8,
}

impl Model for FoldedName {
    ghost use Rattle.std.specs.Prelude.{ℕ, List};

    ghost Value = { List ℕ };

    ghost use Rattle.smb_wire.specs.Folded.{units_kept, IsPadded, kept, kept-units_kept};

    ghost view = { units_kept };

    ghost invariant = { IsPadded };

    ghost inverse = { kept };

    ghost inverse_ok = { kept-units_kept };
}

impl FoldedName {
    /// The name that the units fold to, or None over 255 units.
    pub fn of(text: Units<'_>) -> Option<FoldedName>
        ensures some { is_some result ≡ nat_le (length (units_of text.entry)) 255 }
        ensures units { IfSome result (λ name. name ≡ folded (units_of text.entry)) }
    {
        let count = text.len();
        if count > 255 {
            return None;
        }
        let mut units = [0u16; 255];
        for i in 0..count {
            units[i] = fold_unit(text.unit(i));
        }
        Some(FoldedName {
            units,
            len: count as u8,
        })
    }

    /// How many units it has, at most 255.
    pub fn len(&self) -> usize
        ensures len { result ≡ length self.now }
        ensures few { result < 256 }
    {
        usize::from(self.len)
    }

    /// The unit at `i`, which is below [`len`](FoldedName::len).
    pub fn unit(&self, i: usize) -> u16
        requires { i < length self.now }
        ensures { result ≡ slice_index self.now i }
    {
        self.units()[i]
    }

    /// Its units, by which a key of a directory is looked up.
    pub fn units(&self) -> &[u16]
        ensures { result.now ≡ self.now }
    {
        &self.units[..self.len as usize]
    }
}

impl PartialEq for FoldedName {
    ghost eq = { pointwise nat_eq };

    ghost laws = { Prim.search (comparing, rules) };

    fn eq(&self, other: &FoldedName) -> bool {
        self.units() == other.units()
    }
}

impl Eq for FoldedName {
    ghost laws = { Prim.search (comparing, rules) };
}

impl Ord for FoldedName {
    ghost cmp = { slice_cmp nat_cmp };

    ghost total = { nat_list_cmp_total };

    ghost matches_partial_cmp = { Prim.search (comparing, rules) };

    ghost matches_eq = { Prim.search (comparing, rules) };

    fn cmp(&self, other: &FoldedName) -> Ordering {
        self.units().cmp(other.units())
    }
}

impl PartialOrd for FoldedName {
    ghost partial_cmp = { as_partial_cmp (slice_cmp nat_cmp) };

    ghost laws = { partial_order_from_own_ties (Prim.search (comparing, rules)) (Prim.search (comparing, rules)) };

    fn partial_cmp(&self, other: &FoldedName) -> Option<Ordering> {
        Some(self.cmp(other))
    }
}
