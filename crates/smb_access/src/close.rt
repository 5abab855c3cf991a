//! What a CLOSE does to a tree ([MS-SMB2] 3.3.5.10, [MS-FSA] 2.1.5.4).

ghost use Rattle.std.specs.Prelude.{◌≡◌, true, is_some};
ghost use Rattle.smb_tree.specs.Content.{numbered};
ghost use Rattle.smb_access.specs.Close.{is_deletable, has_mark};
ghost use Rattle.smb_access.specs.Parts.{tree_marked, tree_cleared, is_due};

use super::found::ROOT;
use super::open_row::OpenRow;
use super::opens::Opens;
use smb_tree::{EntryNo, Tree};

// Whether an entry that stands can be deleted: it is not the root, and no entry is in it.
fn is_deletable<T: Tree>(tree: &T, number: EntryNo) -> bool
    requires { is_some (numbered (T.content tree.now).rows number) ≡ true }
    ensures { result ≡ is_deletable (T.content tree.now).rows number }
{
    if number == ROOT {
        return false;
    }
    tree.child_after(number, None).is_none()
}

// Whether the entry of a number is marked.
fn has_mark<T: Tree>(tree: &T, number: EntryNo) -> bool
    ensures { result ≡ has_mark (T.content tree.now).rows number }
{
    match tree.entry(number) {
        Some(entry) => entry.mark,
        None => false,
    }
}

/// Marks the entry of an open that was closed, where the open was to delete it and it can be deleted.
pub fn mark_closed<T: Tree>(tree: &mut T, row: &OpenRow)
    requires { is_some (numbered (T.content tree.old).rows row.now.entry) ≡ true }
    ensures { T.content tree.new ≡ tree_marked (T.content tree.old) row.now }
{
    if !row.delete_on_close {
        return;
    }
    if !is_deletable(tree, row.entry) {
        return;
    }
    match tree.set_mark(row.entry, true) {
        Ok(()) => {}
        Err(_) => unreachable!(),
    }
}

/// Removes an entry that is marked and has no open, and tells whether it did.
pub fn remove_if_delete_pending<T: Tree, O: Opens>(tree: &mut T, opens: &O, number: EntryNo) -> bool
    requires { has_mark (T.content tree.old).rows number ≡ true → is_deletable (T.content tree.old).rows number ≡ true }
    ensures tree { T.content tree.new ≡ tree_cleared (T.content tree.old) (O.content opens.now) number }
    ensures removed { result ≡ is_due (T.content tree.old) (O.content opens.now) number }
{
    if !has_mark(tree, number) {
        return false;
    }
    if opens.on_entry(number, 0).is_some() {
        return false;
    }
    match tree.remove(number) {
        Ok(()) => true,
        Err(_) => unreachable!(),
    }
}
