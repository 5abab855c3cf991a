//! The components of a text: where they end, and which are lawful.

ghost use Rattle.std.specs.Prelude.{◌≡◌, ◌<◌, ◌≤◌, length, is_some, nat_le, IfSome, slice_index, slice_index_or, [], List, ℕ};
ghost use Rattle.std.specs.List.{list_all};
ghost use Rattle.smb_wire.specs.Limits.{most_components};
ghost use Rattle.smb_wire.specs.Paths.{is_separator, components, without_trailing, is_lawful_unit, is_dots, is_lawful_component};
ghost use Rattle.smb_wire.specs.PathEnds.{HasEnds, front_end_in};
ghost use Rattle.smb_wire.specs.Units.{units_of};

use super::limits::MOST_COMPONENTS;
use super::units::Units;

// A backslash.
const SEPARATOR: u16 = 0x5c;

// Where the components of a text end: the first `count` places.
#[derive(Clone, Copy, Debug)]
pub struct Ends {
    pub places: [usize; MOST_COMPONENTS],
    pub count: usize,
}

// Whether a text begins with a separator.
pub fn begins_with_separator(text: Units<'_>) -> bool
    ensures { result ≡ is_separator (slice_index (units_of text.entry) 0) }
{
    text.len() > 0 && text.unit(0) == SEPARATOR
}

// A text without one separator at its end.
pub fn without_trailing(text: Units<'_>) -> Units<'_>
    ensures { units_of result ≡ without_trailing (units_of text.entry) }
{
    let len = text.len();
    if len > 0 && text.unit(len - 1) == SEPARATOR {
        text.range(0, len - 1)
    } else {
        text
    }
}

// Where the components of a text end, or None where there are more than 32.
pub fn ends_of(text: Units<'_>) -> Option<Ends>
    ensures some { is_some result ≡ nat_le (length (components (units_of text.entry))) most_components }
    ensures ends { IfSome result (λ ends. HasEnds (units_of text.entry) ends.places ends.count) }
{
    let mut places = [0usize; MOST_COMPONENTS];
    let mut count = 0;
    let len = text.len();
    if len == 0 {
        return Some(Ends { places, count });
    }
    for i in 0..len {
        if text.unit(i) == SEPARATOR {
            if count == MOST_COMPONENTS {
                return None;
            }
            places[count] = i;
            count += 1;
        }
    }
    if count == MOST_COMPONENTS {
        return None;
    }
    places[count] = len;
    Some(Ends {
        places,
        count: count + 1,
    })
}

// The component at `i` of a text, by where its components end.
pub fn component<'a>(text: Units<'a>, ends: &Ends, i: usize) -> Units<'a>
    requires ends { HasEnds (units_of text) ends.now.places ends.now.count }
    requires within { i < ends.now.count }
    ensures { units_of result ≡ slice_index_or (components (units_of text.entry)) i [] }
{
    let to = ends.places[i];
    if i == 0 {
        return text.range(0, to);
    }
    text.range(ends.places[i - 1] + 1, to)
}

// Where the first `n` components end, by where each ends.
pub fn front_end(ends: &Ends, n: usize) -> usize
    requires { n ≤ most_components }
    ensures { result ≡ front_end_in ends.now.places n }
{
    if n == 0 {
        return 0;
    }
    ends.places[n - 1]
}

// Whether each component of a text is lawful, by where its components end.
pub fn are_lawful(text: Units<'_>, ends: &Ends) -> bool
    requires { HasEnds (units_of text) ends.now.places ends.now.count }
    ensures { result ≡ list_all is_lawful_component (components (units_of text.entry)) }
{
    for i in 0..ends.count {
        if !is_lawful_component(component(text, ends, i)) {
            return false;
        }
    }
    true
}

// Whether a component is lawful.
fn is_lawful_component(part: Units<'_>) -> bool
    ensures { result ≡ is_lawful_component (units_of part.entry) }
{
    let len = part.len();
    if len == 0 || len > 255 || is_dots(part) {
        return false;
    }
    for i in 0..len {
        if !is_lawful_unit(part.unit(i)) {
            return false;
        }
    }
    true
}

// Whether a component may have the unit.
fn is_lawful_unit(unit: u16) -> bool
    ensures { result ≡ is_lawful_unit unit }
{
    unit >= 0x20 && !matches!(unit, 0x22 | 0x2a | 0x2f | 0x3a | 0x3c | 0x3e | 0x3f | 0x7c)
}

// Whether a text is `.` or `..`.
fn is_dots(part: Units<'_>) -> bool
    ensures { result ≡ is_dots (units_of part.entry) }
{
    match part.len() {
        1 => part.unit(0) == 0x2e,
        2 => part.unit(0) == 0x2e && part.unit(1) == 0x2e,
        _ => false,
    }
}
