//! The texts of stored paths.

ghost use Rattle.std.specs.Prelude.{◌≡◌, ◌≤◌, ◌-◌, length, take, drop, true};
ghost use Rattle.std.specs.List.{list_all};
ghost use Rattle.smb_wire.specs.Pairs.{units_in};
ghost use Rattle.smb_wire.specs.Paths.{components, is_lawful_component};
ghost use Rattle.smb_wire.specs.Units.{units_of};
ghost use Rattle.smb_tree.specs.Content.{parent};
ghost use Rattle.smb_tree.specs.Entries.{last_part};

use super::stored::Stored;
use smb_wire::Units;

// A backslash.
const SEPARATOR: u16 = 0x5c;

// The path at which an entry is stored, as it is spelled.
pub fn text_of(stored: &Stored) -> Units<'_>
    ensures units { units_of result ≡ units_in stored.now.text.items }
    ensures lawful { list_all is_lawful_component (components (units_of result)) ≡ true }
{
    Units::of(&stored.text).unwrap()
}

// Where the last component of a path's text begins.
pub fn last_begin(text: Units<'_>) -> usize
    requires { list_all is_lawful_component (components (units_of text)) ≡ true }
    ensures within { result ≤ length (units_of text.entry) }
    ensures last { drop result (units_of text.entry) ≡ last_part (components (units_of text.entry)) }
    ensures parent { components (take (result - 1) (units_of text.entry)) ≡ parent (components (units_of text.entry)) }
{
    let mut begin = text.len();
    while begin > 0 {
        if text.unit(begin - 1) == SEPARATOR {
            return begin;
        }
        begin -= 1;
    }
    0
}
