//! For each group of opens their numbers, in order.

ghost use Rattle.std.specs.Prelude.{◌≡◌, ◌≢◌, ◌++◌, ◌∷◌, [], OnOk, OnErr, slice_get, find, nat_lt};
ghost use Rattle.smb_access.specs.Parts.{AreNumbersBelow};
ghost use Rattle.smb_handles.specs.Groups.{KeepsNumbers, members, without_number, noted, forgotten};
ghost use Rattle.smb_handles.specs.declared.key.GroupKey.{GroupKey};

use super::key::GroupKey;
use smb_access::{OpenNo, OpenRow};
use std::alloc::{AllocError, Global};
use std::collections::BTreeSet;
use std::ops::Bound;

/// For each group of opens their numbers, in order: one ordered set, in which the numbers of a group are one behind the
/// other, each with the group's name. A group without opens takes no memory.
///
/// A call looks a group's number up, in time logarithmic in how many numbers all groups have; `nth` then goes over the first
/// `i` of the group as well. Only `note` and `note_row` take memory.
#[derive(Drop)]
pub struct Groups {
    numbers: BTreeSet<(GroupKey, OpenNo)>,
    ghost fit: { KeepsNumbers numbers },
}

impl Groups {
    /// No groups. It takes no memory.
    pub fn new(alloc: Global) -> Groups
        ensures { (key : GroupKey) → members result.numbers key ≡ [] }
    {
        Groups {
            numbers: BTreeSet::new(alloc),
        }
    }

    /// Adds a number to a group, above all that are in it. An allocation that is refused changes nothing.
    pub fn note(&mut self, key: GroupKey, number: OpenNo) -> Result<(), AllocError>
        requires { AreNumbersBelow number (members self.old.numbers key) }
        ensures here { OnOk result (members self.new.numbers key ≡ members self.old.numbers key ++ number ∷ []) }
        ensures others { OnOk result ((other : GroupKey) → other ≢ key → members self.new.numbers other ≡ members self.old.numbers other) }
        ensures err { OnErr result ((other : GroupKey) → members self.new.numbers other ≡ members self.old.numbers other) }
    {
        self.numbers.insert((key, number))?;
        Ok(())
    }

    /// Takes a number out of a group.
    pub fn forget(&mut self, key: GroupKey, number: OpenNo)
        ensures here { members self.new.numbers key ≡ without_number number (members self.old.numbers key) }
        ensures others { (other : GroupKey) → other ≢ key → members self.new.numbers other ≡ members self.old.numbers other }
    {
        self.numbers.remove(&(key, number));
    }

    // Notes an open's number in each of its groups, in turn. After a refusal it is in some of them.
    fn note_in_turn(&mut self, row: &OpenRow) -> Result<(), AllocError>
        requires { (key : GroupKey) → AreNumbersBelow row.now.number (members self.old.numbers key) }
        ensures ok { OnOk result ((key : GroupKey) → members self.new.numbers key ≡ noted (members self.old.numbers) row.now key) }
        ensures err { OnErr result ((key : GroupKey) → forgotten (members self.new.numbers) row.now key ≡ members self.old.numbers key) }
    {
        self.note(GroupKey::Entry(row.entry), row.number)?;
        self.note(GroupKey::Session(row.session), row.number)?;
        self.note(GroupKey::Tree(row.session, row.tree), row.number)?;
        Ok(())
    }

    /// Notes an open's number, which is above all others, in each of its groups. An allocation that is refused changes nothing.
    pub fn note_row(&mut self, row: &OpenRow) -> Result<(), AllocError>
        requires { (key : GroupKey) → AreNumbersBelow row.now.number (members self.old.numbers key) }
        ensures ok { OnOk result ((key : GroupKey) → members self.new.numbers key ≡ noted (members self.old.numbers) row.now key) }
        ensures err { OnErr result ((key : GroupKey) → members self.new.numbers key ≡ members self.old.numbers key) }
    {
        let noted = self.note_in_turn(row);
        if noted.is_err() {
            self.forget_row(row);
        }
        noted
    }

    /// Takes an open's number out of each of its groups.
    pub fn forget_row(&mut self, row: &OpenRow)
        ensures { (key : GroupKey) → members self.new.numbers key ≡ forgotten (members self.old.numbers) row.now key }
    {
        self.forget(GroupKey::Entry(row.entry), row.number);
        self.forget(GroupKey::Session(row.session), row.number);
        self.forget(GroupKey::Tree(row.session, row.tree), row.number);
    }

    /// The `i`-th number of a group, from 0, or None.
    pub fn nth(&self, key: GroupKey, i: usize) -> Option<OpenNo>
        ensures { result ≡ slice_get (members self.now.numbers key) i }
    {
        let (first, last) = ((key, 0), (key, OpenNo::MAX));
        let mut group = self
            .numbers
            .range((Bound::Included(first), Bound::Included(last)));
        let (_, number) = group.nth(i).copied()?;
        Some(number)
    }

    /// The least number of a group that is above another one, or None.
    pub fn after(&self, key: GroupKey, number: OpenNo) -> Option<OpenNo>
        ensures { result ≡ find (nat_lt number) (members self.now.numbers key) }
    {
        let (below, last) = ((key, number), (key, OpenNo::MAX));
        let mut above = self
            .numbers
            .range((Bound::Excluded(below), Bound::Included(last)));
        let (_, next) = above.next().copied()?;
        Some(next)
    }
}
