//! Queries of a directory ([MS-SMB2] 3.3.5.18, [MS-FSA] 2.1.5.6.3).

ghost use Rattle.std.specs.Prelude.{◌≡◌, ◌++◌, ◌∷◌, ◌≤◌, None, Some, true, false, if◌then◌else◌, is_some, OnOk, OnErr, IfOk, IfErr};
ghost use Rattle.smb_wire.specs.Units.{units_of};
ghost use Rattle.smb_tree.specs.Content.{numbered};
ghost use Rattle.smb_tree.specs.Good.{GoodContent};
ghost use Rattle.smb_tree.specs.Parts.{AreLawful};
ghost use Rattle.smb_access.specs.Opens.{open_of};
ghost use Rattle.smb_info.specs.Asks.{list_asked};
ghost use Rattle.smb_info.specs.CandidateViews.{candidate};
ghost use Rattle.smb_info.specs.Cursors.{to_come, Stands, matched};
ghost use Rattle.smb_info.specs.DirectoryInformation.{laid};
ghost use Rattle.smb_info.specs.Listing.{matching};
ghost use Rattle.smb_info.specs.Parts.{is_too_long, entry_length, given, reached, sought};
ghost use Rattle.smb_info.specs.Queries.{bytes_listed, scan_after, list_fault};
ghost use Rattle.smb_info.specs.OpenQueries.{open_bytes_listed, open_scan_after, open_list_fault, IsListRefusal};
ghost use Rattle.smb_info.specs.declared.fault.InfoFault.TheVariants.{NoMemory, TooSmall};

use super::candidate::CandidateView;
use super::cursor::Cursor;
use super::directory_class::DirectoryInformationClass;
use super::directory_entry::length_within;
use super::fault::InfoFault;
use super::listing::put_listing;
use super::query::{pattern_by, scan_by, unmatched, wants_one};
use super::scan::{ListAsk, Search};
use smb_access::{OpenNo, Opens, Scan, ScanLast};
use smb_opens::Store;
use smb_patterns::{Matcher, Pattern};
use smb_tree::{EntryNo, Tree};
use smb_wire::FoldedName;

// Adds the entries that are given, of which this is the first, and tells how far the scan is then. After an error `out` is
// as it was.
#[tactic(none)]
fn put_or_undo<'a, T: Tree>(
    tree: &'a T,
    search: &Search<'_>,
    class: DirectoryInformationClass,
    first: &CandidateView<'a>,
    cursor: &mut Cursor,
    out: &mut Vec<u8>,
) -> Result<ScanLast, InfoFault>
    requires good { GoodContent (T.content tree.now) }
    requires lawful { AreLawful (T.content tree.now).rows }
    requires folder { is_some (numbered (T.content tree.now).rows search.now.folder) ≡ true }
    requires stands { Stands (T.content tree.now).rows search.now.folder cursor.old }
    requires first { matching (T.content tree.now).rows search.now.folder search.now.pattern.now search.now.last ≡
        candidate first.now ∷ matched search.now.pattern.now (to_come (T.content tree.now).rows search.now.folder cursor.old) }
    requires fits { entry_length class (units_of first.now.name) ≤ search.now.room }
    ensures ok { OnOk result (out.new.items ≡ out.old.items ++ laid class (given (T.content tree.now).rows class (sought search.now))) }
    ensures last { IfOk result (λ last. last ≡ reached search.now.last (given (T.content tree.now).rows class (sought search.now))) }
    ensures err { OnErr result (out.new.items ≡ out.old.items) }
    ensures why { IfErr result (λ fault. fault ≡ NoMemory) }
{
    let before = out.len();
    match put_listing(tree, search, class, first, cursor, out) {
        Ok(last) => Ok(last),
        Err(fault) => {
            out.truncate(before);
            Err(InfoFault::from(fault))
        }
    }
}

// Adds the entries that are given where the first one fits, and tells how far the scan is then.
fn list_from<'a, T: Tree>(
    tree: &'a T,
    search: &Search<'_>,
    class: DirectoryInformationClass,
    first: &CandidateView<'a>,
    cursor: &mut Cursor,
    out: &mut Vec<u8>,
) -> Result<ScanLast, InfoFault>
    requires good { GoodContent (T.content tree.now) }
    requires lawful { AreLawful (T.content tree.now).rows }
    requires folder { is_some (numbered (T.content tree.now).rows search.now.folder) ≡ true }
    requires stands { Stands (T.content tree.now).rows search.now.folder cursor.old }
    requires first { matching (T.content tree.now).rows search.now.folder search.now.pattern.now search.now.last ≡
        candidate first.now ∷ matched search.now.pattern.now (to_come (T.content tree.now).rows search.now.folder cursor.old) }
    ensures ok { OnOk result (out.new.items ≡ out.old.items ++ laid class (given (T.content tree.now).rows class (sought search.now))) }
    ensures last { IfOk result (λ last. last ≡ reached search.now.last (given (T.content tree.now).rows class (sought search.now))) }
    ensures lawful { OnOk result (is_too_long class search.now.room (candidate first.now) ≡ false) }
    ensures err { OnErr result (out.new.items ≡ out.old.items) }
    ensures why { IfErr result (IsListRefusal
        (if is_too_long class search.now.room (candidate first.now) then Some TooSmall else None)) }
{
    if length_within(class, first.name, search.room as usize).is_none() {
        return Err(InfoFault::TooSmall);
    }
    put_or_undo(tree, search, class, first, cursor, out)
}

// Adds the entries of a directory that are asked for, by the scan of an open, and tells the scan as it is then.
#[tactic(none)]
fn list_of<T: Tree>(
    tree: &T,
    folder: EntryNo,
    scan: &Scan,
    ask: &ListAsk<'_>,
    out: &mut Vec<u8>,
) -> Result<Scan, InfoFault>
    requires good { GoodContent (T.content tree.now) }
    requires lawful { AreLawful (T.content tree.now).rows }
    requires folder { is_some (numbered (T.content tree.now).rows folder) ≡ true }
    ensures ok { OnOk result (out.new.items ≡
        out.old.items ++ bytes_listed (T.content tree.now).rows folder scan.now (list_asked ask.now)) }
    ensures scan { IfOk result (λ after. after ≡ scan_after (T.content tree.now).rows folder scan.now (list_asked ask.now)) }
    ensures lawful { OnOk result (list_fault (T.content tree.now).rows folder scan.now (list_asked ask.now) ≡ None) }
    ensures err { OnErr result (out.new.items ≡ out.old.items) }
    ensures why { IfErr result (IsListRefusal (list_fault (T.content tree.now).rows folder scan.now (list_asked ask.now))) }
{
    let Some(class) = DirectoryInformationClass::of(ask.class) else {
        return Err(InfoFault::BadClass);
    };
    let Some(own) = FoldedName::of(ask.pattern) else {
        return Err(InfoFault::BadPattern);
    };
    if (ask.room as usize) < class.fixed_length() {
        return Err(InfoFault::TooSmall);
    }
    let name = pattern_by(scan, ask, &own);
    let next = scan_by(scan, ask, &name);
    let pattern = Matcher::of(&Pattern::of_name(name));
    let search = Search {
        folder,
        pattern: &pattern,
        last: next.last,
        single: wants_one(ask),
        room: ask.room,
    };
    let mut cursor = Cursor::behind(tree, folder, &next.last);
    let Some(first) = cursor.next_match(tree, folder, &pattern) else {
        return Err(unmatched(scan, ask, &next));
    };
    let last = list_from(tree, &search, class, &first, &mut cursor, out)?;
    let pattern = next.pattern;
    Ok(Scan { pattern, last })
}

/// Adds the entries of a directory that are asked for through the open of a number, one behind the other, as many as there
/// is room for, and tells the scan as it is then, which the caller keeps ([`Store::set_scan`]). The children are
/// looked up 16 at a time, by the name of the last one before them. Its cost grows with the number of entries that are passed, each times the length of its
/// name, with at most four steps for each unit; the pattern is made ready once. It takes no memory beside `out`.
///
/// [`BadClass`](InfoFault::BadClass) where no class that is told has the number, [`BadPattern`](InfoFault::BadPattern)
/// where the pattern has over 255 units, [`TooSmall`](InfoFault::TooSmall) where there is no room for the fixed part, or for
/// the first entry with its name, [`NoMatch`](InfoFault::NoMatch) where no name is matched in a scan that this query
/// started, and [`NoMore`](InfoFault::NoMore) where in another one no further name is;
/// [`NoMemory`](InfoFault::NoMemory) where none of these holds and `out` could not grow. After each of them `out` is as it
/// was.
#[tactic(none)]
pub fn list<T: Tree + Drop, O: Opens + Drop>(
    store: &Store<T, O>,
    number: OpenNo,
    ask: &ListAsk<'_>,
    out: &mut Vec<u8>,
) -> Result<Scan, InfoFault>
    requires { is_some (open_of store.now.opens number) ≡ true }
    ensures ok { OnOk result (out.new.items ≡ out.old.items ++ open_bytes_listed store.now number (list_asked ask.now)) }
    ensures scan { IfOk result (λ scan. scan ≡ open_scan_after store.now number (list_asked ask.now)) }
    ensures lawful { OnOk result (open_list_fault store.now number (list_asked ask.now) ≡ None) }
    ensures err { OnErr result (out.new.items ≡ out.old.items) }
    ensures why { IfErr result (IsListRefusal (open_list_fault store.now number (list_asked ask.now))) }
{
    store.good();
    let Some(row) = store.opens().get(number) else {
        unreachable!();
    };
    list_of(store.tree(), row.entry, &row.scan, ask, out)
}
