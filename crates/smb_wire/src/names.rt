//! Names, compared by their folded units.

ghost use Rattle.std.specs.Prelude.{◌≡◌};
ghost use Rattle.smb_wire.specs.Names.{folded_unit, folded_order, is_same_name};
ghost use Rattle.smb_wire.specs.Units.{units_of};

use super::units::Units;
use std::cmp::Ordering;

/// The unit as names are compared: a to z become A to Z, every other unit stays.
pub fn fold_unit(unit: u16) -> u16
    ensures { result ≡ folded_unit unit }
{
    if unit >= 97 && unit <= 122 {
        unit - 32
    } else {
        unit
    }
}

/// The order of two texts, each unit folded; where one begins the other, the shorter is first.
pub fn compare_folded(left: Units<'_>, right: Units<'_>) -> Ordering
    ensures { result ≡ folded_order (units_of left.entry) (units_of right.entry) }
{
    let shorter = left.len().min(right.len());
    for i in 0..shorter {
        match fold_unit(left.unit(i)).cmp(&fold_unit(right.unit(i))) {
            Ordering::Equal => {}
            order => return order,
        }
    }
    left.len().cmp(&right.len())
}

/// Whether two texts are the same name: as many units, and folded the same ones.
pub fn same_name(left: Units<'_>, right: Units<'_>) -> bool
    ensures { result ≡ is_same_name (units_of left.entry) (units_of right.entry) }
{
    compare_folded(left, right).is_eq()
}
