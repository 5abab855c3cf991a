//! The opens as a map in the order of their numbers.

ghost use Rattle.std.specs.Prelude.{ℕ, ◌≡◌, ◌&&◌, nat_lt, [], Some, option_copied, slice_get, drop, filter};
ghost use Rattle.indexmap.specs.IndexMap.{values};
ghost use Rattle.smb_access.specs.Opens.{is_above, open_on_entry_after, open_after};
ghost use Rattle.smb_access.specs.Parts.{is_on_entry};
ghost use Rattle.smb_access.specs.Plain.{AreKeyed};
ghost use Rattle.smb_access.specs.Sharing.{uses};

use super::open_row::{OpenNo, OpenRow, Owner};
use super::opens::Opens;
use super::scan::Scan;
use super::use_kind::SharingUse;
use indexmap::IndexMap;
use smb_tree::EntryNo;
use smb_wire::FoldedName;
use std::alloc::{AllocError, Global};
use std::fmt;
use std::marker::Model;

/// The opens under their numbers. A look-up by number takes constant time, one by entry, owner or use goes through
/// all of them; one for the next open of an entry goes on from the place of the last, so that to go through the k opens of an
/// entry takes one pass over all opens and k look-ups.
#[derive(Drop)]
pub struct PlainOpens {
    rows: IndexMap<OpenNo, OpenRow>,
}

impl fmt::Debug for PlainOpens {
    fn fmt<W: fmt::Write>(&self, f: &mut fmt::Formatter<W>) -> fmt::Result {
        write!(f, "PlainOpens {{ opens: {}, .. }}", self.rows.len())
    }
}

impl Model for PlainOpens {
    ghost use Rattle.std.specs.Prelude.{List};
    ghost use Rattle.smb_access.specs.declared.open_row.OpenRow.{OpenRow};

    ghost Value = { List OpenRow };

    ghost use Rattle.indexmap.specs.IndexMap.{values};
    ghost use Rattle.smb_access.specs.Plain.{AreKeyed};

    ghost view = { λ opens. values opens.rows };

    ghost invariant = { λ opens. AreKeyed opens.rows.entries };
}

impl PlainOpens {
    /// No opens.
    pub fn new(alloc: Global) -> PlainOpens
        ensures { result ≡ [] }
    {
        PlainOpens {
            rows: IndexMap::new(alloc),
        }
    }
}

// The i-th open of an entry.
fn row_on_entry(rows: &IndexMap<OpenNo, OpenRow>, entry: EntryNo, i: usize) -> Option<&OpenRow>
    ensures { option_copied result ≡ slice_get (filter (is_on_entry entry) (values rows.now)) i }
{
    let mut left = i;
    for row in rows.values() {
        if row.entry == entry {
            if left == 0 {
                return Some(row);
            }
            left -= 1;
        }
    }
    None
}

// Whether an open is one of an entry, and uses it so.
fn is_use(row: &OpenRow, entry: EntryNo, kind: SharingUse) -> bool
    ensures { result ≡ (is_on_entry entry row.now && uses kind row.now) }
{
    row.entry == entry && kind.is_of(row)
}

// A place from which on all opens are that have a number above this one.
fn place_after(rows: &IndexMap<OpenNo, OpenRow>, number: OpenNo) -> usize
    requires { AreKeyed rows.now.entries }
    ensures entry { (entry : ℕ) → open_on_entry_after (drop result (values rows.now)) entry number ≡ open_on_entry_after (values rows.now) entry number }
    ensures all { open_after (drop result (values rows.now)) (Some number) ≡ open_after (values rows.now) (Some number) }
{
    match rows.get_index_of(&number) {
        Some(place) => place,
        None => 0,
    }
}

// Whether an open is one of an entry, with a number above another one.
fn is_after(row: &OpenRow, entry: EntryNo, number: OpenNo) -> bool
    ensures { result ≡ (is_on_entry entry row.now && nat_lt number row.now.number) }
{
    row.entry == entry && row.number > number
}

// The first number above another one among an entry's opens from a place on.
fn number_from(
    rows: &IndexMap<OpenNo, OpenRow>,
    begin: usize,
    entry: EntryNo,
    number: OpenNo,
) -> Option<OpenNo>
    ensures { result ≡ open_on_entry_after (drop begin (values rows.now)) entry number }
{
    for place in begin..rows.len() {
        let Some((_, row)) = rows.get_index(place) else {
            unreachable!();
        };
        if is_after(row, entry, number) {
            return Some(row.number);
        }
    }
    None
}

// Whether an open has a number above another one, if one is given.
fn is_above(after: Option<OpenNo>, row: &OpenRow) -> bool
    ensures { result ≡ is_above after row.now.number }
{
    match after {
        Some(number) => row.number > number,
        None => true,
    }
}

// The first number above another one, if one is given, among the opens from a place on.
fn number_above(
    rows: &IndexMap<OpenNo, OpenRow>,
    begin: usize,
    after: Option<OpenNo>,
) -> Option<OpenNo>
    ensures { result ≡ open_after (drop begin (values rows.now)) after }
{
    for place in begin..rows.len() {
        let Some((_, row)) = rows.get_index(place) else {
            unreachable!();
        };
        if is_above(after, row) {
            return Some(row.number);
        }
    }
    None
}

impl Opens for PlainOpens {
    ghost content = { λ opens. opens };

    fn get(&self, number: OpenNo) -> Option<&OpenRow> {
        self.rows.get(&number)
    }

    fn add(&mut self, row: OpenRow) -> Result<(), AllocError> {
        // Does nothing: the checker's plan for `insert` lacks this type unless it is named.
        let _: &Option<FoldedName> = &row.scan.pattern;
        self.rows.insert(row.number, row)?;
        Ok(())
    }

    fn remove(&mut self, number: OpenNo) {
        let _ = self.rows.shift_remove(&number);
    }

    fn set_scan(&mut self, number: OpenNo, scan: Scan) {
        let Some(row) = self.rows.get_mut(&number) else {
            return;
        };
        row.scan = scan;
    }

    fn on_entry(&self, entry: EntryNo, i: usize) -> Option<OpenNo> {
        let row = row_on_entry(&self.rows, entry, i)?;
        Some(row.number)
    }

    fn on_entry_after(&self, entry: EntryNo, number: OpenNo) -> Option<OpenNo> {
        let begin = place_after(&self.rows, number);
        number_from(&self.rows, begin, entry, number)
    }

    fn has_use(&self, entry: EntryNo, kind: SharingUse) -> bool {
        self.rows.values().any(|row| is_use(row, entry, kind))
    }

    fn after(&self, number: Option<OpenNo>) -> Option<OpenNo> {
        let begin = match number {
            Some(number) => place_after(&self.rows, number),
            None => 0,
        };
        number_above(&self.rows, begin, number)
    }

    fn of_owner(&self, owner: Owner) -> Option<OpenNo> {
        self.rows
            .values()
            .find(|row| owner.holds(row))
            .map(|row| row.number)
    }
}
