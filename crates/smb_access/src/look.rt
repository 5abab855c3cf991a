//! What stands in a tree.

ghost use Rattle.std.specs.Prelude.{◌≡◌, ◌≤◌, length};
ghost use Rattle.std.specs.Option.{option_map};
ghost use Rattle.smb_wire.specs.Greatest.{greatest_file_bytes};
ghost use Rattle.smb_wire.specs.Paths.{folded_path};
ghost use Rattle.smb_wire.specs.PathViews.{parts_of};
ghost use Rattle.smb_tree.specs.Content.{entry_at, numbered, parent};
ghost use Rattle.smb_tree.specs.Views.{shown};
ghost use Rattle.smb_access.specs.Found.{is_reached};
ghost use Rattle.smb_access.specs.Looked.{target_of, is_folder_target};
ghost use Rattle.smb_tree.specs.Good.{GoodContent};
ghost use Rattle.smb_access.specs.Views.{view_shown};
ghost use Rattle.smb_access.specs.Parts.{view_at};

use super::found::Target;
use super::view::View;
use smb_tree::{EntryNo, EntryView, Kind, Tree, allocation_size};
use smb_wire::{Access, PathView};

// Of an entry, what decides.
fn target_of(entry: &EntryView<'_>) -> Target
    ensures { result ≡ record { number = entry.now.number; kind = entry.now.kind; basic = entry.now.basic; mark = entry.now.mark } }
{
    Target {
        number: entry.number,
        kind: entry.kind,
        basic: entry.basic,
        mark: entry.mark,
    }
}

// Of the entry of a number, what decides, or None.
fn numbered_target<T: Tree>(tree: &T, number: EntryNo) -> Option<Target>
    ensures { result ≡ option_map (λ row. target_of row.1) (numbered (T.content tree.now).rows number) }
{
    let entry = tree.entry(number)?;
    Some(target_of(&entry))
}

/// Of the entry at a path, what decides, or None.
pub fn find_target<T: Tree>(tree: &T, path: &PathView<'_>) -> Option<Target>
    requires { GoodContent (T.content tree.now) }
    ensures { result ≡ option_map target_of (entry_at (T.content tree.now).rows (folded_path (parts_of path.now))) }
{
    let number = tree.find(path)?;
    numbered_target(tree, number)
}

/// Of the folder that the entry at a path is in, what decides, or None where none stands; the root is in itself. In a good
/// tree each entry above the path is a folder where this one is.
pub fn find_above<T: Tree>(tree: &T, path: &PathView<'_>) -> Option<Target>
    requires { GoodContent (T.content tree.now) }
    ensures above { result ≡ option_map target_of (entry_at (T.content tree.now).rows (parent (folded_path (parts_of path.now)))) }
    ensures reached { is_folder_target result ≡ is_reached (T.content tree.now).rows (folded_path (parts_of path.now)) }
{
    let depth = path.len();
    if depth == 0 {
        return find_target(tree, path);
    }
    find_target(tree, &path.front(depth - 1))
}

/// Of the entry at a path, and of the folder that it is in, what decides, as [`find_target`] and [`find_above`] give them. Where
/// an entry is at the path, it is one walk along it.
pub fn find_with_above<T: Tree>(tree: &T, path: &PathView<'_>) -> (Option<Target>, Option<Target>)
    requires { GoodContent (T.content tree.now) }
    ensures target { result.0 ≡ option_map target_of (entry_at (T.content tree.now).rows (folded_path (parts_of path.now))) }
    ensures above { result.1 ≡ option_map target_of (entry_at (T.content tree.now).rows (parent (folded_path (parts_of path.now)))) }
    ensures reached { is_folder_target result.1 ≡ is_reached (T.content tree.now).rows (folded_path (parts_of path.now)) }
{
    let Some(number) = tree.find(path) else {
        return (None, find_above(tree, path));
    };
    let Some(entry) = tree.entry(number) else {
        unreachable!();
    };
    let above = numbered_target(tree, entry.parent);
    (Some(target_of(&entry)), above)
}

// An entry through an open with this access.
fn view_of(entry: &EntryView<'_>, access: Access) -> View
    requires { entry.now.size ≤ greatest_file_bytes }
    ensures { result ≡ view_shown access (shown entry.now) }
{
    View {
        entry: entry.number,
        kind: entry.kind,
        creation_time: entry.basic.creation_time,
        last_access_time: entry.basic.last_access_time,
        last_write_time: entry.basic.last_write_time,
        change_time: entry.basic.change_time,
        size: entry.size,
        allocation_size: allocation_size(entry.size),
        attributes: entry.kind.shown_attributes(entry.basic.attributes),
        mark: entry.mark,
        access,
    }
}

/// The entry of a number through an open with this access, or None.
pub fn entry_view<T: Tree>(tree: &T, number: EntryNo, access: Access) -> Option<View>
    requires { GoodContent (T.content tree.now) }
    ensures { result ≡ view_at (T.content tree.now).rows number access }
{
    let entry = tree.entry(number)?;
    Some(view_of(&entry, access))
}

/// How many entries there are.
pub fn count_entries<T: Tree>(tree: &T) -> usize
    requires { GoodContent (T.content tree.now) }
    ensures { result ≡ length (T.content tree.now).rows }
{
    let end = match tree.next_no() {
        Some(number) => number,
        None => EntryNo::MAX,
    };
    let mut count = 0;
    for number in 0..end {
        if tree.entry(number).is_some() {
            count += 1;
        }
    }
    count
}
