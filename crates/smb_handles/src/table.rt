//! The table of opens.

ghost use Rattle.std.specs.Prelude.{ℕ, ◌≡◌, ◌≢◌, ◌<◌, ◌≤◌, length, ◌++◌, ◌∷◌, [], OnOk, OnErr, find, nat_lt, slice_get};
ghost use Rattle.std.specs.List.{AllByRecursion};
ghost use Rattle.std.specs.Option.{option_map};
ghost use Rattle.smb_access.specs.Parts.{AreNumbersBelow};
ghost use Rattle.slab.specs.Slab.{get};
ghost use Rattle.smb_handles.specs.Groups.{members, noted};
ghost use Rattle.smb_handles.specs.Uses.{counted, more};
ghost use Rattle.smb_handles.specs.Table.{scanned};
ghost use Rattle.smb_handles.specs.declared.key.GroupKey.{GroupKey};
ghost use Rattle.smb_access.specs.declared.use_kind.SharingUse.{SharingUse};

use super::groups::Groups;
use super::key::GroupKey;
use super::uses::Uses;
use slab::Slab;
use smb_access::{OpenNo, OpenRow, Opens, Owner, Scan, SharingUse};
use smb_tree::EntryNo;
use smb_wire::FoldedName;
use std::alloc::{AllocError, Global};
use std::collections::BTreeMap;
use std::fmt;
use std::marker::Model;
use std::ops::Bound;

/// The opens, each in a slot, with an index of their numbers, their groups, and how many use an entry in each way.
///
/// Its value is the list of the opens in rising number, as [`Opens`] says of each call. Of time and memory:
///
/// - `get`, `after`, `of_owner`, `on_entry_after`, `has_use`, `set_scan` and `remove` take time logarithmic in the number of opens, and no memory;
/// - `on_entry` looks up an entry's opens in logarithmic time, and then goes over the first `i` of them;
/// - `add` takes logarithmic time too, and at times the slots have to move to a larger array. Only it takes memory, and all of it
///   before the open is in a slot: after a refusal nothing of the open is left;
/// - as many slots are in use as there are opens: `remove` gives the slot of its open back, and a later `add` uses it
///   again.
///
/// No call goes through all opens.
#[derive(Drop)]
pub struct HandleTable {
    rows: Slab<OpenRow>,
    index: BTreeMap<OpenNo, usize>,
    groups: Groups,
    uses: Uses,
}

impl fmt::Debug for HandleTable {
    fn fmt<W: fmt::Write>(&self, f: &mut fmt::Formatter<W>) -> fmt::Result {
        write!(f, "HandleTable {{ opens: {}, .. }}", self.slots_in_use())
    }
}

impl Model for HandleTable {
    ghost use Rattle.std.specs.Prelude.{List};
    ghost use Rattle.smb_access.specs.declared.open_row.OpenRow.{OpenRow};

    ghost Value = { List OpenRow };

    ghost use Rattle.slab.specs.Slab.{get};
    ghost use Rattle.smb_handles.specs.Groups.{members};
    ghost use Rattle.smb_handles.specs.Uses.{counted};
    ghost use Rattle.smb_handles.specs.Table.{rows_of, IsTable};

    ghost view = { λ table. rows_of (get table.rows) table.index.entries };

    ghost invariant = { λ table. IsTable (get table.rows) table.index.entries (members table.groups.numbers) (counted table.uses.counts) };
}

impl HandleTable {
    /// No opens. It takes no memory.
    pub fn new(alloc: Global) -> HandleTable
        ensures { result ≡ [] }
    {
        HandleTable {
            rows: Slab::new(alloc),
            index: BTreeMap::new(alloc),
            groups: Groups::new(alloc),
            uses: Uses::new(alloc),
        }
    }

    // How many slots are in use: as many as there are opens. A slot is given back when its open is removed.
    fn slots_in_use(&self) -> usize
        ensures { result ≡ length self.now }
    {
        self.rows.len()
    }
}

// Enters the number of an open, which is above all others, in the index and in its groups. A refusal changes nothing.
#[tactic(auto, using(crate::proofs::Sets::insert_entry_last, crate::proofs::Sets::remove_entry_last))]
fn enter_number(
    index: &mut BTreeMap<OpenNo, usize>,
    groups: &mut Groups,
    row: &OpenRow,
    slot: usize,
) -> Result<(), AllocError>
    requires above { AllByRecursion (λ (entry : ℕ × ℕ). entry.0 < row.now.number) index.old.entries }
    requires below { (key : GroupKey) → AreNumbersBelow row.now.number (members groups.old.numbers key) }
    ensures index { OnOk result (index.new.entries ≡ index.old.entries ++ (row.now.number, slot) ∷ []) }
    ensures groups { OnOk result ((key : GroupKey) → members groups.new.numbers key ≡ noted (members groups.old.numbers) row.now key) }
    ensures err_index { OnErr result (index.new.entries ≡ index.old.entries) }
    ensures err_groups { OnErr result ((key : GroupKey) → members groups.new.numbers key ≡ members groups.old.numbers key) }
{
    index.insert(row.number, slot)?;
    let noted = groups.note_row(row);
    if noted.is_err() {
        index.remove(&row.number);
    }
    noted
}

// Counts an open, and enters its number, which is above all others, in the index and in its groups. A refusal changes nothing.
fn enter(
    index: &mut BTreeMap<OpenNo, usize>,
    groups: &mut Groups,
    uses: &mut Uses,
    row: &OpenRow,
    slot: usize,
) -> Result<(), AllocError>
    requires above { AllByRecursion (λ (entry : ℕ × ℕ). entry.0 < row.now.number) index.old.entries }
    requires below { (key : GroupKey) → AreNumbersBelow row.now.number (members groups.old.numbers key) }
    requires few { (kind : SharingUse) → counted uses.old.counts row.now.entry kind ≤ length index.old.entries }
    ensures index { OnOk result (index.new.entries ≡ index.old.entries ++ (row.now.number, slot) ∷ []) }
    ensures groups { OnOk result ((key : GroupKey) → members groups.new.numbers key ≡ noted (members groups.old.numbers) row.now key) }
    ensures uses { OnOk result ((entry : ℕ) (kind : SharingUse) → counted uses.new.counts entry kind ≡ more (counted uses.old.counts) row.now entry kind) }
    ensures err_index { OnErr result (index.new.entries ≡ index.old.entries) }
    ensures err_groups { OnErr result ((key : GroupKey) → members groups.new.numbers key ≡ members groups.old.numbers key) }
    ensures err_uses { OnErr result ((entry : ℕ) (kind : SharingUse) → counted uses.new.counts entry kind ≡ counted uses.old.counts entry kind) }
{
    // So no count of opens overflows.
    let can_count = index.len() < usize::MAX;
    prove!(can_count);
    uses.note(row)?;
    let entered = enter_number(index, groups, row, slot);
    if entered.is_err() {
        uses.forget(row);
    }
    entered
}

// The least number of the index that is above another one.
fn next_number(index: &BTreeMap<OpenNo, usize>, number: OpenNo) -> Option<OpenNo>
    ensures { result ≡ option_map (λ (entry : ℕ × ℕ). entry.0) (find (λ (entry : ℕ × ℕ). nat_lt number entry.0) index.now.entries) }
{
    let (next, _) = index
        .range((Bound::Excluded(number), Bound::Unbounded))
        .next()?;
    Some(*next)
}

// The least number of the index.
fn first_number(index: &BTreeMap<OpenNo, usize>) -> Option<OpenNo>
    ensures { result ≡ option_map (λ (entry : ℕ × ℕ). entry.0) (slice_get index.now.entries 0) }
{
    let (first, _) = index.first_key_value()?;
    Some(*first)
}

// Sets the scan of the open in a slot.
fn scan_slot(rows: &mut Slab<OpenRow>, slot: usize, scan: Scan)
    ensures scan { get rows.new slot ≡ option_map (scanned scan) (get rows.old slot) }
    ensures others { (other : ℕ) → other ≢ slot → get rows.new other ≡ get rows.old other }
{
    let Some(row) = rows.get_mut(slot) else {
        return;
    };
    row.scan = scan;
}

impl Opens for HandleTable {
    ghost content = { λ table. table };

    fn get(&self, number: OpenNo) -> Option<&OpenRow> {
        let slot = *self.index.get(&number)?;
        self.rows.get(slot)
    }

    fn add(&mut self, row: OpenRow) -> Result<(), AllocError> {
        // Does nothing: the checker's plan for `insert_reserved` lacks this type unless it is named.
        let _: &Option<FoldedName> = &row.scan.pattern;
        self.rows.reserve(1)?;
        let slot = self.rows.vacant_key();
        enter(
            &mut self.index,
            &mut self.groups,
            &mut self.uses,
            &row,
            slot,
        )?;
        let _ = self.rows.insert_reserved(row);
        Ok(())
    }

    fn remove(&mut self, number: OpenNo) {
        let Some(slot) = self.index.remove(&number) else {
            return;
        };
        let row = &self.rows[slot];
        self.groups.forget_row(row);
        self.uses.forget(row);
        let _ = self.rows.remove(slot);
    }

    fn set_scan(&mut self, number: OpenNo, scan: Scan) {
        let Some(slot) = self.index.get(&number) else {
            return;
        };
        scan_slot(&mut self.rows, *slot, scan);
    }

    fn on_entry(&self, entry: EntryNo, i: usize) -> Option<OpenNo> {
        self.groups.nth(GroupKey::Entry(entry), i)
    }

    fn on_entry_after(&self, entry: EntryNo, number: OpenNo) -> Option<OpenNo> {
        self.groups.after(GroupKey::Entry(entry), number)
    }

    fn has_use(&self, entry: EntryNo, kind: SharingUse) -> bool {
        self.uses.has(entry, kind)
    }

    fn after(&self, number: Option<OpenNo>) -> Option<OpenNo> {
        let Some(limit) = number else {
            return first_number(&self.index);
        };
        next_number(&self.index, limit)
    }

    fn of_owner(&self, owner: Owner) -> Option<OpenNo> {
        self.groups.nth(GroupKey::of_owner(owner), 0)
    }
}
