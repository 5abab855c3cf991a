//! The opens that every layer above speaks to.

ghost use Rattle.std.specs.Prelude.{◌≡◌, ◌++◌, ◌∷◌, [], OnOk, OnErr, option_copied};
ghost use Rattle.smb_access.specs.Opens.{open_of, without_open, with_scan, open_on_entry, open_on_entry_after, open_after, first_held_by, AreAllBelow};
ghost use Rattle.smb_access.specs.Sharing.{has_use};

use super::open_row::{OpenNo, OpenRow, Owner};
use super::scan::Scan;
use super::use_kind::SharingUse;
use smb_tree::EntryNo;
use std::alloc::AllocError;

/// The opens that stand. Their content is a list of them, in rising number.
pub trait Opens {
    ghost use Rattle.std.specs.Prelude.{List};
    ghost use Rattle.smb_access.specs.declared.open_row.OpenRow.{OpenRow};

    ghost content: { Self → List OpenRow };

    /// The open of a number, or None.
    fn get(&self, number: OpenNo) -> Option<&OpenRow>
        ensures { option_copied result ≡ open_of (content self.now) number };

    /// Adds an open, whose number is above those that stand. An allocation that is refused changes nothing.
    fn add(&mut self, row: OpenRow) -> Result<(), AllocError>
        requires { AreAllBelow row.number (content self.old) }
        ensures ok { OnOk result (content self.new ≡ content self.old ++ row ∷ []) }
        ensures err { OnErr result (content self.new ≡ content self.old) };

    /// Takes the open of a number away; where none has it, nothing changes.
    fn remove(&mut self, number: OpenNo)
        ensures { content self.new ≡ without_open number (content self.old) };

    /// Sets the scan of the open of a number; where none has it, nothing changes.
    fn set_scan(&mut self, number: OpenNo, scan: Scan)
        ensures { content self.new ≡ with_scan number scan (content self.old) };

    /// The number of the `i`-th open of an entry, counted from 0 in rising number, or None.
    fn on_entry(&self, entry: EntryNo, i: usize) -> Option<OpenNo>
        ensures { result ≡ open_on_entry (content self.now) entry i };

    /// The least number of an entry's opens above a number, or None.
    fn on_entry_after(&self, entry: EntryNo, number: OpenNo) -> Option<OpenNo>
        ensures { result ≡ open_on_entry_after (content self.now) entry number };

    /// Whether an open of an entry uses it so.
    fn has_use(&self, entry: EntryNo, kind: SharingUse) -> bool
        ensures { result ≡ has_use (content self.now) entry kind };

    /// The least number of the opens, or of those above a number where one is given, or None.
    fn after(&self, number: Option<OpenNo>) -> Option<OpenNo>
        ensures { result ≡ open_after (content self.now) number };

    /// The least number of an owner's opens, or None.
    fn of_owner(&self, owner: Owner) -> Option<OpenNo>
        ensures { result ≡ first_held_by owner (content self.now) };
}
