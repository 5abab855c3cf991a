//! What lies beneath what in a tree.

ghost use Rattle.std.specs.Prelude.{◌≡◌, true, is_some};
ghost use Rattle.smb_wire.specs.Paths.{folded_path};
ghost use Rattle.smb_wire.specs.PathViews.{parts_of};
ghost use Rattle.smb_tree.specs.Content.{numbered};
ghost use Rattle.smb_tree.specs.Good.{GoodContent};
ghost use Rattle.smb_access.specs.Parts.{ArePresent};
ghost use Rattle.smb_access.specs.Numbers.{AreRising};
ghost use Rattle.smb_access.specs.Opens.{open_numbers};
ghost use Rattle.smb_entry.specs.Parts.{has_open_beneath, is_beneath, path_numbered};

use smb_access::Opens;
use smb_tree::{EntryNo, Tree};
use smb_wire::PathView;

/// Whether a path lies beneath the entry of a number, which exists. It looks up the folder around the path and, where
/// that is not there, each one further up until one is, at most 32; of that one it asks the tree once.
pub fn is_path_beneath<T: Tree>(tree: &T, entry: EntryNo, path: &PathView<'_>) -> bool
    requires good { GoodContent (T.content tree.now) }
    requires there { is_some (numbered (T.content tree.now).rows entry) ≡ true }
    ensures { result ≡ is_beneath (path_numbered (T.content tree.now).rows entry) (folded_path (parts_of path.now)) }
{
    let mut depth = path.len();
    while depth > 0 {
        if let Some(nearest) = tree.find(&path.front(depth - 1)) {
            return tree.is_within(entry, nearest);
        }
        depth -= 1;
    }
    false
}

/// Whether an entry lies beneath another one; both exist. It asks the tree once, and not at all where both are the same.
fn is_entry_beneath<T: Tree>(tree: &T, above: EntryNo, entry: EntryNo) -> bool
    requires good { GoodContent (T.content tree.now) }
    requires above { is_some (numbered (T.content tree.now).rows above) ≡ true }
    requires there { is_some (numbered (T.content tree.now).rows entry) ≡ true }
    ensures { result ≡ is_beneath (path_numbered (T.content tree.now).rows above) (path_numbered (T.content tree.now).rows entry) }
{
    entry != above && tree.is_within(above, entry)
}

/// Whether some open's entry lies beneath the entry of a number, which exists. It goes through all opens.
pub fn has_open_beneath<T: Tree, O: Opens>(tree: &T, opens: &O, above: EntryNo) -> bool
    requires good { GoodContent (T.content tree.now) }
    requires above { is_some (numbered (T.content tree.now).rows above) ≡ true }
    requires present { ArePresent (T.content tree.now).rows (O.content opens.now) }
    requires rising { AreRising (open_numbers (O.content opens.now)) }
    ensures { result ≡ has_open_beneath (T.content tree.now).rows (O.content opens.now) (path_numbered (T.content tree.now).rows above) }
{
    let mut next = opens.after(None);
    while let Some(number) = next {
        let Some(row) = opens.get(number) else {
            unreachable!();
        };
        if is_entry_beneath(tree, above, row.entry) {
            return true;
        }
        next = opens.after(Some(number));
    }
    false
}
