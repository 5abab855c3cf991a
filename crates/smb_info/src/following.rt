//! The entry of a listing that follows another one ([MS-SMB2] 3.3.5.18).

ghost use Rattle.std.specs.Prelude.{◌≡◌, ◌∷◌, ◌≤◌, [], true, is_some, IfSome, IfNone, OnSome};
ghost use Rattle.smb_wire.specs.Units.{units_of};
ghost use Rattle.smb_tree.specs.Content.{numbered};
ghost use Rattle.smb_tree.specs.Good.{GoodContent};
ghost use Rattle.smb_tree.specs.Parts.{AreLawful};
ghost use Rattle.smb_info.specs.CandidateViews.{candidate};
ghost use Rattle.smb_info.specs.Cursors.{to_come, Stands};
ghost use Rattle.smb_info.specs.Parts.{entry_length, sought};
ghost use Rattle.smb_info.specs.Rests.{rest_of, one_by_one};

use super::candidate::CandidateView;
use super::cursor::Cursor;
use super::directory_class::DirectoryInformationClass;
use super::directory_entry::length_within;
use super::scan::Search;
use smb_tree::Tree;

/// The entry that comes next, where it fits: where one alone is wanted, none.
#[tactic(none)]
pub(crate) fn following<'a, T: Tree>(
    tree: &'a T,
    search: &Search<'_>,
    class: DirectoryInformationClass,
    cursor: &mut Cursor,
    room: usize,
) -> Option<CandidateView<'a>>
    requires good { GoodContent (T.content tree.now) }
    requires lawful { AreLawful (T.content tree.now).rows }
    requires folder { is_some (numbered (T.content tree.now).rows search.now.folder) ≡ true }
    requires stands { Stands (T.content tree.now).rows search.now.folder cursor.old }
    ensures none { IfNone result (one_by_one class room
        (rest_of (sought search.now) (to_come (T.content tree.now).rows search.now.folder cursor.old)) ≡ []) }
    ensures some { IfSome result (λ c. rest_of (sought search.now) (to_come (T.content tree.now).rows search.now.folder cursor.old) ≡
        candidate c ∷ rest_of (sought search.now) (to_come (T.content tree.now).rows search.now.folder cursor.new)) }
    ensures fits { IfSome result (λ c. entry_length class (units_of c.name) ≤ room) }
    ensures stands { OnSome result (Stands (T.content tree.now).rows search.now.folder cursor.new) }
{
    if search.single {
        return None;
    }
    let Some(next) = cursor.next_match(tree, search.folder, search.pattern) else {
        return None;
    };
    if length_within(class, next.name, room).is_none() {
        return None;
    }
    Some(next)
}
