//! Names into paths.

ghost use Rattle.std.specs.Prelude.{◌≡◌, None, Some, IfOk, OnOk, IfErr};
ghost use Rattle.smb_wire.specs.Paths.{path_spelled, path_fault, ATextIsItsComponents, ComponentsAreReadAgain};
ghost use Rattle.smb_wire.specs.PathViews.{parts_of};
ghost use Rattle.smb_wire.specs.Units.{units_of};

use super::fault::PathFault;
use super::parts::{are_lawful, begins_with_separator, ends_of, without_trailing};
use super::paths::PathView;
use super::units::Units;

/// The path that a name spells. One trailing separator is dropped, and the empty name is the root.
///
/// The first of these that holds is the fault: [`LeadingSeparator`](PathFault::LeadingSeparator) where the
/// name begins with a separator, [`TooDeep`](PathFault::TooDeep) where it has more than 32 components,
/// [`BadName`](PathFault::BadName) where a component isn't lawful.
pub fn split_path(name: Units<'_>) -> Result<PathView<'_>, PathFault>
    ensures ok { IfOk result (λ path. parts_of path ≡ path_spelled (units_of name.entry)) }
    ensures lawful { OnOk result (path_fault (units_of name.entry) ≡ None) }
    ensures err { IfErr result (λ fault. path_fault (units_of name.entry) ≡ Some fault) }
{
    if begins_with_separator(name) {
        return Err(PathFault::LeadingSeparator);
    }
    let text = without_trailing(name);
    let Some(ends) = ends_of(text) else {
        return Err(PathFault::TooDeep);
    };
    if !are_lawful(text, &ends) {
        return Err(PathFault::BadName);
    }
    Ok(PathView { text, ends })
}

/// The laws of components: the contract is the statement, and the body does nothing.
pub fn laws_of_components()
    ensures joined { ATextIsItsComponents }
    ensures read { ComponentsAreReadAgain }
{}
