//! Why a change of a tree would be refused, before it is made.

ghost use Rattle.std.specs.Prelude.{◌≡◌, ◌≤◌, ◌||◌, nat_lt, if◌then◌else◌, None, Some, length, unwrap_or};
ghost use Rattle.smb_wire.specs.Paths.{folded_path};
ghost use Rattle.smb_wire.specs.PathViews.{parts_of};
ghost use Rattle.smb_wire.specs.Units.{units_of};
ghost use Rattle.smb_tree.specs.Content.{entry_at, number_at, parent};
ghost use Rattle.smb_tree.specs.Faults.{add_fault, size_fault, write_fault};
ghost use Rattle.smb_tree.specs.Entries.{allocation_size, is_folder, last_part};
ghost use Rattle.smb_tree.specs.Good.{GoodContent};
ghost use Rattle.smb_tree.specs.declared.fault.TreeFault.TheVariants.{Absent, Full};
ghost use Rattle.smb_wire.specs.Greatest.{greatest_file_bytes};

use smb_tree::{EntryNo, Tree, TreeFault, allocation_size};
use smb_wire::{PathView, Units};

// The fault of a size that a file would get, by the most bytes of a file and the space that is left for it.
fn fault_of(is_folder: bool, most: u64, size: u64, room: u64) -> Option<TreeFault>
    requires { most ≤ greatest_file_bytes }
    ensures { result ≡ (if is_folder then Some Absent else if nat_lt most size || nat_lt room (allocation_size size) then Some Full else None) }
{
    if is_folder {
        Some(TreeFault::Absent)
    } else if size > most || allocation_size(size) > room {
        Some(TreeFault::Full)
    } else {
        None
    }
}

/// Why a write would be refused, but for want of memory.
pub fn write_fault<T: Tree>(
    tree: &T,
    number: EntryNo,
    offset: u64,
    count: usize,
) -> Option<TreeFault>
    requires { GoodContent (T.content tree.now) }
    ensures { result ≡ write_fault (T.content tree.now) number offset count }
{
    match tree.entry(number) {
        None => Some(TreeFault::Absent),
        Some(view) => {
            let others = tree.used() - allocation_size(view.size);
            let size = view.size.max(offset.saturating_add(count as u64));
            let limits = tree.limits();
            fault_of(
                view.kind.is_folder(),
                limits.file_bytes,
                size,
                tree.capacity() - others,
            )
        }
    }
}

/// Why another size would be refused, but for want of memory.
pub fn size_fault<T: Tree>(tree: &T, number: EntryNo, size: u64) -> Option<TreeFault>
    requires { GoodContent (T.content tree.now) }
    ensures { result ≡ size_fault (T.content tree.now) number size }
{
    match tree.entry(number) {
        None => Some(TreeFault::Absent),
        Some(view) => {
            let others = tree.used() - allocation_size(view.size);
            let limits = tree.limits();
            fault_of(
                view.kind.is_folder(),
                limits.file_bytes,
                size,
                tree.capacity() - others,
            )
        }
    }
}

// Whether a folder is at a path.
fn is_folder_at<T: Tree>(tree: &T, path: &PathView<'_>) -> bool
    requires { GoodContent (T.content tree.now) }
    ensures { result ≡ is_folder (entry_at (T.content tree.now).rows (folded_path (parts_of path.now))) }
{
    match tree.find(path) {
        None => false,
        Some(number) => match tree.entry(number) {
            None => false,
            Some(view) => view.kind.is_folder(),
        },
    }
}

// Whether a folder is around a path.
fn is_in_folder<T: Tree>(tree: &T, path: &PathView<'_>) -> bool
    requires { GoodContent (T.content tree.now) }
    ensures { result ≡ is_folder (entry_at (T.content tree.now).rows (parent (folded_path (parts_of path.now)))) }
{
    let around = path.front(path.len().saturating_sub(1));
    is_folder_at(tree, &around)
}

/// Why an addition would be refused, but for want of memory.
pub fn add_fault<T: Tree>(tree: &T, entries: usize, path: &PathView<'_>) -> Option<TreeFault>
    requires good { GoodContent (T.content tree.now) }
    requires counted { entries ≡ length (T.content tree.now).rows }
    ensures { result ≡ add_fault (T.content tree.now) (folded_path (parts_of path.now)) }
{
    if !is_in_folder(tree, path) {
        return Some(TreeFault::ParentAbsent);
    }
    if tree.find(path).is_some() {
        return Some(TreeFault::Exists);
    }
    if entries.saturating_sub(1) >= tree.limits().entries || tree.next_no().is_none() {
        return Some(TreeFault::Full);
    }
    None
}

/// The last component of a path.
pub fn name_of<'a>(path: &PathView<'a>) -> Units<'a>
    ensures { units_of result ≡ last_part (parts_of path.now) }
{
    let count = path.len();
    if count == 0 {
        return path.text();
    }
    path.part(count - 1)
}

/// The number of the folder around a path, or 0.
pub fn parent_of<T: Tree>(tree: &T, path: &PathView<'_>) -> EntryNo
    ensures { result ≡ unwrap_or (number_at (T.content tree.now).rows (parent (folded_path (parts_of path.now)))) 0 }
{
    let around = path.front(path.len().saturating_sub(1));
    tree.find(&around).unwrap_or(0)
}
