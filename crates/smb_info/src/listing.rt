//! Listings of a directory ([MS-SMB2] 3.3.5.18, [MS-FSA] 2.1.5.6.3).

ghost use Rattle.std.specs.Prelude.{◌≡◌, ◌++◌, ◌∷◌, ◌≤◌, length, take, true, is_some, OnOk, IfOk};
ghost use Rattle.smb_wire.specs.Units.{units_of};
ghost use Rattle.smb_tree.specs.Content.{numbered};
ghost use Rattle.smb_tree.specs.Good.{GoodContent};
ghost use Rattle.smb_tree.specs.Parts.{AreLawful};
ghost use Rattle.smb_info.specs.CandidateViews.{candidate};
ghost use Rattle.smb_info.specs.Cursors.{to_come, Stands};
ghost use Rattle.smb_info.specs.DirectoryInformation.{laid};
ghost use Rattle.smb_info.specs.Parts.{entry_length, reached, sought};
ghost use Rattle.smb_info.specs.Rests.{rest_of, one_by_one};

use super::candidate::CandidateView;
use super::cursor::Cursor;
use super::directory_class::DirectoryInformationClass;
use super::directory_entry::{put_followed, put_last, room_behind};
use super::following::following;
use super::scan::Search;
use smb_access::ScanLast;
use smb_tree::Tree;
use smb_wire::WireFault;

// Adds an entry and those that come behind it, as many as there is room for, and tells how far the scan is then. After an
// error some of them stand there.
pub(crate) fn put_listing<'a, T: Tree>(
    tree: &'a T,
    search: &Search<'_>,
    class: DirectoryInformationClass,
    first: &CandidateView<'a>,
    cursor: &mut Cursor,
    out: &mut Vec<u8>,
) -> Result<ScanLast, WireFault>
    requires good { GoodContent (T.content tree.now) }
    requires lawful { AreLawful (T.content tree.now).rows }
    requires folder { is_some (numbered (T.content tree.now).rows search.now.folder) ≡ true }
    requires stands { Stands (T.content tree.now).rows search.now.folder cursor.old }
    requires fits { entry_length class (units_of first.now.name) ≤ search.now.room }
    ensures ok { OnOk result (out.new.items ≡ out.old.items ++ laid class (one_by_one class search.now.room
        (candidate first.now ∷ rest_of (sought search.now) (to_come (T.content tree.now).rows search.now.folder cursor.old)))) }
    ensures last { IfOk result (λ last. last ≡ reached search.now.last (one_by_one class search.now.room
        (candidate first.now ∷ rest_of (sought search.now) (to_come (T.content tree.now).rows search.now.folder cursor.old)))) }
    ensures kept { take (length out.old.items) out.new.items ≡ out.old.items }
{
    // A copy: `*first` is beyond what the checker covers.
    let mut at = CandidateView {
        listed: first.listed,
        name: first.name,
        entry: first.entry,
    };
    let mut left = room_behind(class, &at, search.room as usize);
    while let Some(next) = following(tree, search, class, cursor, left) {
        put_followed(class, &at, out)?;
        left = room_behind(class, &next, left);
        at = next;
    }
    put_last(class, &at, out)?;
    Ok(at.behind())
}
