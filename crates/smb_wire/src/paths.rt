//! Borrowed paths.

ghost use Rattle.smb_wire.specs.PathEnds.{KeepsPath};
ghost use Rattle.smb_wire.specs.Units.{units_of};

use super::parts::{Ends, component, front_end};
use super::units::Units;

/// A path: at most 32 lawful components over the borrowed units of a name. With none it is the root.
#[derive(Clone, Copy, Debug)]
pub struct PathView<'a> {
    pub(super) text: Units<'a>,
    pub(super) ends: Ends,
    ghost kept: { KeepsPath (units_of text) ends.places ends.count },
}

impl<'a> PathView<'a> {
    ghost use Rattle.std.specs.Prelude.{◌≡◌, ◌<◌, ◌≤◌, length, take, true, slice_index_or, []};
    ghost use Rattle.std.specs.List.{list_all};
    ghost use Rattle.smb_wire.specs.Paths.{components, joined_by_separators, is_lawful_component};
    ghost use Rattle.smb_wire.specs.Limits.{most_components};
    ghost use Rattle.smb_wire.specs.PathViews.{parts_of};

    /// How many components there are, at most 32.
    pub fn len(&self) -> usize
        ensures len { result ≡ length (parts_of self.now) }
        ensures few { result ≤ most_components }
    {
        self.ends.count
    }

    /// The component at `i`, which is below [`len`](PathView::len), as it is spelled.
    pub fn part(&self, i: usize) -> Units<'a>
        requires { i < length (parts_of self.now) }
        ensures { units_of result ≡ slice_index_or (parts_of self.now) i [] }
    {
        component(self.text, &self.ends, i)
    }

    /// The path of the first `n` components, at most [`len`](PathView::len).
    pub fn front(&self, n: usize) -> PathView<'a>
        requires { n ≤ length (parts_of self.now) }
        ensures { parts_of result ≡ take n (parts_of self.now) }
    {
        let text = self.text.range(0, front_end(&self.ends, n));
        let places = self.ends.places;
        PathView {
            text,
            ends: Ends { places, count: n },
        }
    }

    /// The components as they are spelled, with a separator between each two.
    pub fn text(&self) -> Units<'a>
        ensures joined { units_of result ≡ joined_by_separators (parts_of self.now) }
        ensures parts { components (units_of result) ≡ parts_of self.now }
        ensures lawful { list_all is_lawful_component (parts_of self.now) ≡ true }
    {
        self.text
    }
}
