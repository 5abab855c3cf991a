//! The files by their numbers.

ghost use Rattle.std.specs.Prelude.{◌≡◌, ◌≢◌, ◌≤◌, ◌<◌, ◌+◌, ◌^◌, ℕ, true, None, Some, is_some};
ghost use Rattle.std.specs.Prelude.{OnOk, OnErr, IfErr, IfSome, IfNone};
ghost use Rattle.std.specs.Option.{option_map};
ghost use Rattle.std.specs.FinMap.{get, remove, len};
ghost use Rattle.smb_wire.specs.Units.{units_of};
ghost use Rattle.smb_files.specs.Files.{Files, no_files, changed_by, sets, writes, resizes};
ghost use Rattle.smb_changes.specs.Shown.{about_with, change_shown};
ghost use Rattle.smb_held_files.specs.Held.{file_shown, is_after};
ghost use Rattle.smb_held_files.specs.Faults.{change_fault};
ghost use Rattle.smb_held_files.specs.declared.fault.HoldFault.TheVariants.{NoMemory};

use super::fault::HoldFault;
use super::file::HeldFile;
use super::map;
use smb_changes::Change;
use smb_pages::Pages;
use smb_tree::{Basic, EntryNo, Kind};
use smb_wire::Units;
use std::alloc::Global;
use std::collections::BTreeMap;
use std::marker::Model;

// The most bytes that a file may ever have.
const GREATEST_FILE_BYTES: u64 = 8_796_093_022_208;

/// Entries by their numbers, and the next number, which is above all of them. An entry is found in logarithmic time.
///
/// The bytes of an entry are kept in pages of 4,096 bytes ([`Pages`]): what was never written takes no page.
#[derive(Drop)]
pub struct HeldFiles {
    by_number: BTreeMap<EntryNo, HeldFile>,
    next: EntryNo,
    alloc: Global,
}

impl Model for HeldFiles {
    ghost use Rattle.smb_files.specs.Files.{Files};
    ghost use Rattle.smb_held_files.specs.Codes.{files_code};

    ghost Value = { Files };

    ghost coded = { files_code };

    ghost use Rattle.smb_held_files.specs.Views.{files_shown, AreBelow};

    ghost view = { λ files. files_shown files.by_number.entries files.next };

    ghost invariant = { λ files. AreBelow files.by_number.entries files.next };
}

impl HeldFiles {
    /// No entry; the next number is 1. It takes no memory.
    pub fn new(alloc: Global) -> Self
        ensures { result ≡ no_files }
    {
        HeldFiles {
            by_number: BTreeMap::new(alloc),
            next: 1,
            alloc,
        }
    }

    /// Makes a change of the files: they become `changed_by` of smb_files.
    ///
    /// A change that says what an entry is keeps the bytes that the entry had, and makes the next number at least one
    /// more than its own. Bytes, a size or a removal of a number that has no entry change nothing.
    ///
    /// [`BadNumber`](HoldFault::BadNumber) where an entry would get the number 2^64 - 1,
    /// [`TooLong`](HoldFault::TooLong) where bytes would end, or a size is, past 8,796,093,022,208 bytes, also where no
    /// entry has the number; [`NoMemory`](HoldFault::NoMemory) where an allocation is refused, and neither of these
    /// holds. Then all is as it was. A size, a removal and a next number take no memory.
    pub fn apply(&mut self, change: Change<'_>) -> Result<(), HoldFault>
        ensures ok { OnOk result (self.new ≡ changed_by self.old (change_shown change.entry)) }
        ensures lawful { OnOk result (change_fault (change_shown change.entry) ≡ None) }
        ensures err { OnErr result (self.new ≡ self.old) }
        ensures why { IfErr result
            (λ fault. fault ≢ NoMemory → change_fault (change_shown change.entry) ≡ Some fault) }
        ensures memory { IfErr result
            (λ fault. fault ≡ NoMemory → change_fault (change_shown change.entry) ≡ None) }
    {
        match change {
            Change::Entry {
                number,
                parent,
                kind,
                mark,
                basic,
                spelling,
            } => self.set(number, parent, kind, mark, basic, spelling),
            Change::Bytes {
                number,
                offset,
                bytes,
            } => self.write(number, offset, bytes),
            Change::Size { number, size } => self.resize(number, size),
            Change::Gone { number } => {
                map::take(&mut self.by_number, number);
                Ok(())
            }
            Change::Next { next } => {
                self.next = self.next.max(next);
                Ok(())
            }
        }
    }

    // Says what an entry is.
    fn set(
        &mut self,
        number: EntryNo,
        parent: EntryNo,
        kind: Kind,
        mark: bool,
        basic: Basic,
        spelling: Units<'_>,
    ) -> Result<(), HoldFault>
        ensures ok { let change = sets number parent (about_with kind spelling.entry basic mark) in
            OnOk result (self.new ≡ changed_by self.old change) }
        ensures lawful { let change = sets number parent (about_with kind spelling.entry basic mark) in
            OnOk result (change_fault change ≡ None) }
        ensures err { OnErr result (self.new ≡ self.old) }
        ensures why { let change = sets number parent (about_with kind spelling.entry basic mark) in
            IfErr result (λ fault. fault ≢ NoMemory → change_fault change ≡ Some fault) }
        ensures memory { let change = sets number parent (about_with kind spelling.entry basic mark) in
            IfErr result (λ fault. fault ≡ NoMemory → change_fault change ≡ None) }
    {
        if number == EntryNo::MAX {
            return Err(HoldFault::BadNumber);
        }
        let file = HeldFile {
            parent,
            kind,
            mark,
            basic,
            spelling: Vec::from_slice(self.alloc, spelling.bytes())?,
            bytes: Pages::new(self.alloc),
        };
        map::put(&mut self.by_number, number, file)?;
        self.next = self.next.max(number + 1);
        Ok(())
    }

    // Puts bytes at an offset.
    fn write(&mut self, number: EntryNo, offset: u64, bytes: &[u8]) -> Result<(), HoldFault>
        ensures ok { OnOk result (self.new ≡ changed_by self.old (writes number offset bytes.now)) }
        ensures lawful { OnOk result (change_fault (writes number offset bytes.now) ≡ None) }
        ensures err { OnErr result (self.new ≡ self.old) }
        ensures why { IfErr result
            (λ fault. fault ≢ NoMemory → change_fault (writes number offset bytes.now) ≡ Some fault) }
        ensures memory { IfErr result
            (λ fault. fault ≡ NoMemory → change_fault (writes number offset bytes.now) ≡ None) }
    {
        let count = bytes.len() as u64;
        if count > GREATEST_FILE_BYTES || offset > GREATEST_FILE_BYTES - count {
            return Err(HoldFault::TooLong);
        }
        map::write(&mut self.by_number, number, offset, bytes)?;
        Ok(())
    }

    // Gives an entry a size.
    fn resize(&mut self, number: EntryNo, size: u64) -> Result<(), HoldFault>
        ensures ok { OnOk result (self.new ≡ changed_by self.old (resizes number size)) }
        ensures lawful { OnOk result (change_fault (resizes number size) ≡ None) }
        ensures err { OnErr result (self.new ≡ self.old) }
        ensures why { IfErr result (λ fault. change_fault (resizes number size) ≡ Some fault) }
    {
        if size > GREATEST_FILE_BYTES {
            return Err(HoldFault::TooLong);
        }
        map::resize(&mut self.by_number, number, size);
        Ok(())
    }

    /// The entry of a number, if there is one.
    pub fn get(&self, number: EntryNo) -> Option<&HeldFile>
        ensures { option_map (λ file. file_shown file.now) result ≡ get self.now.entries number }
    {
        self.by_number.get(&number)
    }

    /// The next number: it is above those of all entries.
    pub fn next(&self) -> EntryNo
        ensures next { result ≡ self.now.next }
        ensures below { (q : ℕ) → self.now.next ≤ q → get self.now.entries q ≡ None }
    {
        self.next
    }

    /// How many entries there are, fewer than 2^63.
    pub fn len(&self) -> usize
        ensures len { result ≡ len self.now.entries }
        ensures small { result < 2 ^ 63 }
    {
        self.by_number.len()
    }

    /// The least number that has an entry and comes after another one, or the least of all where none is given; None
    /// where there is no such number.
    pub fn number_after(&self, after: Option<EntryNo>) -> Option<EntryNo>
        ensures there { IfSome result (λ number. is_some (get self.now.entries number) ≡ true) }
        ensures below { IfSome result (λ number. number < self.now.next) }
        ensures after { IfSome result (λ number. is_after after number ≡ true) }
        ensures least { IfSome result
            (λ number. (q : ℕ) → is_after after q ≡ true → q < number → get self.now.entries q ≡ None) }
        ensures none { IfNone result ((q : ℕ) → is_after after q ≡ true → get self.now.entries q ≡ None) }
    {
        match after {
            Some(other) => map::number_above(&self.by_number, other),
            None => map::first_number(&self.by_number),
        }
    }

    /// Takes out the entry of the least number, if there is an entry. The next number stays.
    pub fn take_first(&mut self) -> Option<(EntryNo, HeldFile)>
        ensures taken { IfSome result (λ first. get self.old.entries first.0 ≡ Some (file_shown first.1)) }
        ensures below { IfSome result (λ first. first.0 < self.old.next) }
        ensures others { IfSome result
            (λ first. self.new ≡ record self.old { entries = remove self.old.entries first.0 }) }
        ensures fewer { IfSome result (λ _. len self.old.entries ≡ len self.new.entries + 1) }
        ensures least { IfSome result (λ first. (q : ℕ) → q < first.0 → get self.old.entries q ≡ None) }
        ensures none { IfNone result ((q : ℕ) → get self.old.entries q ≡ None) }
        ensures same { IfNone result (self.new ≡ self.old) }
    {
        map::take_first(&mut self.by_number)
    }
}
