//! A table of opens, and the plain list, call by call, with answers set by hand. Stores over either are for rows.

ghost use Rattle.std.specs.Prelude.{◌≡◌};

use smb_handles::HandleTable;
use smb_opens::{OpenNo, OpenRow, Opens, Owner, PlainOpens, Scan, ScanLast, laws_of_stores};
use smb_wire::{Access, ShareAccess};
use std::alloc::Global;

/// An open of an entry, of a session's first tree connect.
fn row(number: OpenNo, entry: u64, session: u64) -> OpenRow
    ensures { result.number ≡ number }
{
    OpenRow {
        number,
        entry,
        session,
        tree: 1,
        access: Access(1),
        share: ShareAccess(7),
        delete_on_close: false,
        scan: Scan::none(),
    }
}

/// Whether each of the three is found.
fn finds_three<O: Opens>(opens: &O) -> bool {
    opens.get(2).map(|row| row.number) == Some(2)
        && opens.on_entry(5, 0) == Some(1)
        && opens.on_entry(5, 1) == Some(3)
        && opens.on_entry(5, 2).is_none()
        && opens.of_owner(Owner::Session(2)) == Some(2)
}

/// A scan whose last entry was `..`.
const BEHIND_DOT_DOT: Scan = Scan {
    pattern: None,
    last: ScanLast::DotDot,
};

/// Whether the last entry of an open's scan was `..`.
fn is_behind_dot_dot<O: Opens>(opens: &O, number: OpenNo) -> bool {
    match opens.get(number) {
        Some(row) => matches!(row.scan.last, ScanLast::DotDot),
        None => false,
    }
}

/// Whether the scan of the second is set alone.
fn scans_one<O: Opens>(opens: &mut O) -> bool {
    opens.set_scan(2, BEHIND_DOT_DOT);
    is_behind_dot_dot(opens, 2) && !is_behind_dot_dot(opens, 3)
}

/// Whether the second is taken away alone.
fn removes_one<O: Opens>(opens: &mut O) -> bool {
    opens.remove(2);
    opens.get(2).is_none()
        && opens.of_owner(Owner::Tree(2, 1)) == Some(3)
        && opens.of_owner(Owner::Tree(2, 2)).is_none()
}

/// Whether the three are found, one is scanned, and one taken away.
fn are_opens<O: Opens>(opens: &mut O) -> bool {
    finds_three(opens) && scans_one(opens) && removes_one(opens)
}

/// Whether a table of the opens 1 and 3 of entry 5, and 2 of entry 6, is so; the last two are session 2's.
fn is_a_table(alloc: Global) -> bool {
    let mut opens = HandleTable::new(alloc);
    opens.add(row(1, 5, 1)).is_ok()
        && opens.add(row(2, 6, 2)).is_ok()
        && opens.add(row(3, 5, 2)).is_ok()
        && are_opens(&mut opens)
}

/// The same of a plain list.
fn is_a_list(alloc: Global) -> bool {
    let mut opens = PlainOpens::new(alloc);
    opens.add(row(1, 5, 1)).is_ok()
        && opens.add(row(2, 6, 2)).is_ok()
        && opens.add(row(3, 5, 2)).is_ok()
        && are_opens(&mut opens)
}

#[test]
fn opens_by_number_entry_and_owner(rt: HostRuntime) {
    assert!(rt; is_a_table(rt.alloc()));
    laws_of_stores();
}

#[test]
fn plain_opens_by_number_entry_and_owner(rt: HostRuntime) {
    assert!(rt; is_a_list(rt.alloc()));
}
