//! Which entries are dirty: each is to be noted as it is when a batch is written.

ghost use Rattle.std.specs.Prelude.{◌≡◌, ◌≢◌, ℕ, ◌<◌, ◌==◌, List, [], ◌∷◌, true, false, Some, None, is_some, if◌then◌else◌, OnOk, OnErr, IfOk};
ghost use Rattle.smb_journaled_tree.specs.Slots.{slot_of, next_of, is_dirty, is_in, with_one, AreDirty, cleared, dirty_count};

use smb_tree::EntryNo;
use std::alloc::{AllocError, Global};
use std::collections::BTreeMap;

/// What is known of an entry: it is noted as it is, or dirty; the dirty ones are chained.
#[derive(Clone, Copy, Debug)]
pub enum Slot {
    Clean,
    Dirty { next: Option<EntryNo> },
}

/// A slot for each entry, and the first of the dirty ones.
#[derive(Drop)]
pub struct Slots {
    pub by_number: BTreeMap<EntryNo, Slot>,
    pub first: Option<EntryNo>,
}

impl Slots {
    /// No slots.
    pub fn new(alloc: Global) -> Slots
        ensures { AreDirty result [] }
    {
        Slots {
            by_number: BTreeMap::new(alloc),
            first: None,
        }
    }

    /// Adds a slot, for an entry that is not dirty.
    pub fn add(&mut self, number: EntryNo) -> Result<(), AllocError>
        ensures first { self.new.first ≡ self.old.first }
        ensures dirty { (dirty : List ℕ) → is_in number dirty ≡ false → AreDirty self.old dirty → AreDirty self.new dirty }
        ensures ok { OnOk result (is_some (slot_of self.new number) ≡ true) }
        ensures others { (q : ℕ) → is_some (slot_of self.old q) ≡ true → is_some (slot_of self.new q) ≡ true }
    {
        self.by_number.insert(number, Slot::Clean)?;
        Ok(())
    }

    /// Marks an entry that has a slot as dirty. It takes no memory.
    pub fn mark(&mut self, number: EntryNo)
        ensures dirty { (dirty : List ℕ) → is_some (slot_of self.old number) ≡ true → AreDirty self.old dirty → AreDirty self.new (with_one number dirty) }
        ensures others { (q : ℕ) → is_some (slot_of self.old q) ≡ true → is_some (slot_of self.new q) ≡ true }
    {
        let first = self.first;
        if let Some(slot) = self.by_number.get_mut(&number) {
            if let Slot::Clean = *slot {
                *slot = Slot::Dirty { next: first };
                self.first = Some(number);
            }
        }
    }

    // The dirty entry behind another one.
    fn next_of(&self, number: EntryNo) -> Option<EntryNo>
        ensures { result ≡ next_of (slot_of self.now number) }
    {
        match self.by_number.get(&number) {
            Some(Slot::Dirty { next }) => *next,
            _ => None,
        }
    }

    // Sets the slot of an entry to clean, or takes it away.
    fn clear(&mut self, number: EntryNo, stays: bool)
        ensures first { self.new.first ≡ self.old.first }
        ensures slots { (q : ℕ) → slot_of self.new q ≡ (if q == number then (if stays then cleared (slot_of self.old number) else None) else slot_of self.old q) }
        ensures fewer { is_dirty (slot_of self.old number) ≡ true → dirty_count self.new < dirty_count self.old }
    {
        if stays {
            if let Some(slot) = self.by_number.get_mut(&number) {
                *slot = Slot::Clean;
            }
        } else {
            let _ = self.by_number.remove(&number);
        }
    }

    /// The first dirty entry was noted: it is not dirty any more, and where it is gone so is its slot. It takes no memory.
    pub fn take_first(&mut self, number: EntryNo, stays: bool)
        ensures dirty { (dirty : List ℕ) → AreDirty self.old (number ∷ dirty) → AreDirty self.new dirty }
        ensures others { (q : ℕ) → (q ≡ number → stays ≡ true) → is_some (slot_of self.old q) ≡ true → is_some (slot_of self.new q) ≡ true }
        ensures fewer { is_dirty (slot_of self.old number) ≡ true → dirty_count self.new < dirty_count self.old }
    {
        self.first = self.next_of(number);
        self.clear(number, stays);
    }
}

/// A slot for each of these entries, of which none is dirty.
pub fn slots_of(alloc: Global, numbers: &[EntryNo]) -> Result<Slots, AllocError>
    ensures clean { IfOk result (λ slots. AreDirty slots []) }
    ensures all { IfOk result (λ slots. (q : ℕ) → is_in q numbers.now ≡ true → is_some (slot_of slots q) ≡ true) }
{
    let mut slots = Slots::new(alloc);
    for number in numbers {
        slots.add(*number)?;
    }
    Ok(slots)
}
