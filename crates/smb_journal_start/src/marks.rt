//! Marked entries go at a start.

ghost use Rattle.std.specs.Prelude.{◌≡◌, ◌==◌, ℕ, true, false};
ghost use Rattle.std.specs.List.{list_any};
ghost use Rattle.smb_tree.specs.Content.{Content};
ghost use Rattle.smb_tree.specs.Good.{GoodContent};
ghost use Rattle.smb_access.specs.Close.{has_mark};
ghost use Rattle.smb_journal_start.specs.Left.{IsLeft};

use smb_tree::{EntryNo, Tree};

/// The number of the root.
const ROOT: EntryNo = 1;

// Whether the entry of a number is marked.
fn has_mark<T: Tree>(tree: &T, number: EntryNo) -> bool
    ensures { result ≡ has_mark (T.content tree.now).rows number }
{
    match tree.entry(number) {
        Some(view) => view.mark,
        None => false,
    }
}

// Removes the entry of a number, where it is marked and nothing is in it. The root stays.
fn remove_marked<T: Tree>(tree: &mut T, number: EntryNo)
    ensures { (before : Content) → IsLeft before (T.content tree.old) → IsLeft before (T.content tree.new) }
{
    if number == ROOT || !has_mark(tree, number) {
        return;
    }
    // One that has something in it stays.
    let _ = tree.remove(number);
}

/// Removes those of some entries that are marked and have nothing in them.
pub fn remove_all_marked<T: Tree>(tree: &mut T, numbers: &[EntryNo])
    requires { GoodContent (T.content tree.old) }
    ensures { IsLeft (T.content tree.old) (T.content tree.new) }
{
    for number in numbers {
        remove_marked(tree, *number);
    }
}

/// Whether none of some entries is marked.
pub fn is_none_marked<T: Tree>(tree: &T, numbers: &[EntryNo]) -> bool
    ensures { result ≡ true → (q : ℕ) → list_any (λ other. q == other) numbers.now ≡ true →
        has_mark (T.content tree.now).rows q ≡ false }
{
    for number in numbers {
        if has_mark(tree, *number) {
            return false;
        }
    }
    true
}
