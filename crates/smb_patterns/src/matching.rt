//! Which names a pattern matches ([MS-FSA] 2.1.4.4).

ghost use Rattle.std.specs.Prelude.{◌↔◌, IsTrue};
ghost use Rattle.smb_wire.specs.Units.{units_of};
ghost use Rattle.smb_patterns.specs.Patterns.{Matches};

use super::matcher::Matcher;
use super::pattern::Pattern;
use smb_wire::Units;

/// Whether a pattern matches a name, as [`Matcher::matches`] says of a pattern made ready.
pub fn matches(pattern: &Pattern, name: Units<'_>) -> bool
    ensures { IsTrue result ↔ Matches pattern.now (units_of name.entry) }
{
    Matcher::of(pattern).matches(name)
}
