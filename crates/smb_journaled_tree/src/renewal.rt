//! A journal that is written anew beside another one, while changes go on.

ghost use Rattle.std.specs.Prelude.{◌≡◌, ◌≤◌, ℕ, List, [], true, OnOk, IfOk};
ghost use Rattle.std.specs.List.{AllByRecursion};
ghost use Rattle.smb_tree.specs.Good.{GoodContent};
ghost use Rattle.smb_files.specs.Files.{Files, Change as FilesChange, replayed};
ghost use Rattle.smb_files.specs.Contents.{files_of};
ghost use Rattle.smb_changes.specs.Batches.{spelled};
ghost use Rattle.smb_changes.specs.Crash.{IsWritable};
ghost use Rattle.smb_changes.specs.Open.{changes_in_batch};
ghost use Rattle.smb_journaled_tree.specs.Written.{AreBatches};
ghost use Rattle.smb_journaled_tree.specs.Renewal.{IsRenewing};

use super::file::{JournalFault, JournalFile};
use super::journal::Chain;
use super::place::Place;
use super::slice::note_slice;
use smb_changes::{Change, OpenBatch};
use smb_tree::Tree;
use std::alloc::Global;
use std::marker::Model;

/// A journal that is written anew in a file beside another one: the entries in the order of their numbers, a slice at a
/// time, and between two slices each batch of changes that the other one gets. So once all entries are written, both
/// keep the same files.
#[derive(Drop)]
pub struct Renewal<J: JournalFile + Drop> {
    file: J,
    first: u64,
    number: u64,
    seed: u64,
    // The changes of a slice that is not written yet.
    batch: OpenBatch,
    // The bytes of a file that are read at a time.
    piece: Vec<u8>,
    place: Place,
}

impl<J: JournalFile + Drop> Model for Renewal<J> {
    ghost use Rattle.smb_changes.specs.Open.{changes_in_batch};
    ghost use Rattle.smb_journaled_tree.specs.Renewal.{RenewalState};

    ghost Value = { RenewalState };

    ghost view = { λ r. record { bytes = J.held r.file; first = r.first; number = r.number; seed = r.seed; noted = changes_in_batch r.batch; place = r.place } };
}

impl<J: JournalFile + Drop> Renewal<J> {
    /// Begins in an empty file, whose first batch is to have this seed. It takes no memory, and writes nothing.
    pub fn begin(alloc: Global, file: J, seed: u64) -> Renewal<J>
        requires { J.held file ≡ [] }
        ensures { (files : Files) → 1 ≤ files.next → IsRenewing files result }
    {
        Renewal {
            file,
            first: seed,
            number: 1,
            seed,
            batch: OpenBatch::new(alloc),
            piece: Vec::new(alloc),
            place: Place::before(0),
        }
    }

    /// Whether its next slice is to be written now.
    pub fn is_due(&self) -> bool {
        self.file.is_due()
    }

    /// Puts the changes of a batch, which the other file got, behind those that it has.
    pub fn follow(&mut self, batch: &mut OpenBatch) -> Result<(), JournalFault>
        ensures { (files : Files) (changes : List FilesChange) → AllByRecursion IsWritable changes →
            changes_in_batch batch.old ≡ spelled changes → IsRenewing files self.old →
            OnOk result (IsRenewing (replayed files changes) self.new) }
    {
        let Some(number) = self.number.checked_add(1) else {
            return Err(JournalFault::NoMemory);
        };
        let seed = batch.close(self.seed, self.number)?;
        self.file.append(batch.as_vec())?;
        self.number = number;
        self.seed = seed;
        Ok(())
    }

    // Writes the changes that are noted, where there are any, and waits until they last.
    fn write_noted(&mut self) -> Result<(), JournalFault>
        ensures written { (ours : Files) (changes : List FilesChange) → AllByRecursion IsWritable changes →
            self.old.noted ≡ spelled changes → AreBatches ours self.old.bytes self.old.first self.old.number self.old.seed →
            OnOk result (AreBatches (replayed ours changes) self.new.bytes self.new.first self.new.number self.new.seed) }
        ensures empty { OnOk result (self.new.noted ≡ []) }
        ensures place { self.new.place ≡ self.old.place }
    {
        if self.batch.is_empty() {
            return Ok(());
        }
        let Some(number) = self.number.checked_add(1) else {
            return Err(JournalFault::NoMemory);
        };
        let seed = self.batch.close(self.seed, self.number)?;
        self.file.append(self.batch.as_vec())?;
        self.file.sync()?;
        self.batch.clear();
        self.number = number;
        self.seed = seed;
        Ok(())
    }

    /// Writes the next entries of a tree, about 1 MiB of them, and returns whether all are written.
    pub fn go_on<T: Tree>(&mut self, tree: &T) -> Result<bool, JournalFault>
        requires { GoodContent (T.content tree.now) }
        ensures going { OnOk result (IsRenewing (files_of (T.content tree.now)) self.old → IsRenewing (files_of (T.content tree.now)) self.new) }
        ensures all { IfOk result (λ all. all ≡ true → IsRenewing (files_of (T.content tree.now)) self.old →
            AreBatches (files_of (T.content tree.now)) self.new.bytes self.new.first self.new.number self.new.seed) }
    {
        let Some(next) = tree.next_no() else {
            return Err(JournalFault::NoMemory);
        };
        note_slice(
            tree,
            next,
            &mut self.batch,
            &mut self.place,
            &mut self.piece,
        )?;
        let all = self.place.number >= next;
        if all {
            self.batch.note(Change::Next { next })?;
        }
        self.write_noted()?;
        Ok(all)
    }

    /// Its file, and where its batches go on.
    pub fn finish(self) -> (J, Chain)
        ensures { (J.held result.0 ≡ self.bytes) × (result.1.first ≡ self.first) × (result.1.number ≡ self.number) × (result.1.seed ≡ self.seed) }
    {
        let chain = Chain {
            first: self.first,
            number: self.number,
            seed: self.seed,
        };
        (self.file, chain)
    }
}
