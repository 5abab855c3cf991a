//! The tree around a tree.

ghost use Rattle.std.specs.Prelude.{◌≡◌, ◌==◌, ◌≤◌, ℕ, true, [], None, Some, OnOk, OnErr, IfOk, length};
ghost use Rattle.smb_journaled_tree.specs.Journal.{KeepsFiles, LeavesOneOf};

use super::faults::{add_fault, name_of, parent_of, size_fault, write_fault};
use super::file::{JournalFault, JournalFile};
use super::notes::{begin_file, note_dirty};
use super::renewal::Renewal;
use super::renewing::{begin_renewal, follow, go_on_renewal, replace_file};
use super::room::note_change;
use super::slots::{Slots, slots_of};
use super::torn::{append, mend};
use smb_changes::{Change, OpenBatch};
use smb_reason::Reason;
use smb_tree::{Basic, Children, EntryCopy, EntryNo, EntryView, Kind, Tree, TreeFault};
use smb_wire::limits::Limits;
use smb_wire::{FileAttributes, FoldedName, PathView};
use std::alloc::Global;
use std::marker::Model;
use std::snapshot::Snapshot;

/// Where the batches of a journal go on.
#[derive(Clone, Copy, Debug)]
pub struct Chain {
    /// The seed of the first batch.
    pub first: u64,
    /// The number and the seed of the next one.
    pub number: u64,
    pub seed: u64,
}

/// A tree whose changes are kept in a journal. It has the content of the tree that it holds, and every call of that one.
///
/// A call costs what it costs there; besides, [`add`](Tree::add), [`write`](Tree::write) and
/// [`set_size`](Tree::set_size) look up what they change once more and note it, a write with a copy of its bytes, and the
/// others find one slot, or two, in logarithmic time. [`settle`](JournaledTree::settle) goes through the entries that are
/// dirty, and hands what is noted to the file without a further copy.
#[derive(Drop)]
pub struct JournaledTree<T: Tree + Drop, J: JournalFile + Drop> {
    alloc: Global,
    tree: T,
    file: J,
    // How many bytes of the file are whole batches, where some of another one are behind these.
    torn: Option<u64>,
    // The seed of the first batch; the number and the seed of the next.
    first: u64,
    number: u64,
    seed: u64,
    // The changes that are noted since the last batch.
    pending: OpenBatch,
    slots: Slots,
    // How many entries there are, the root among them.
    entries: usize,
    // The tree as it was when it was settled last.
    settled: Snapshot<T>,
    // The journal that is written anew, where one is.
    renewal: Option<Renewal<J>>,
}

impl<T: Tree + Drop, J: JournalFile + Drop> Model for JournaledTree<T, J> {
    ghost use Rattle.smb_changes.specs.Open.{changes_in_batch};
    ghost use Rattle.smb_journaled_tree.specs.Journal.{JournalState};
    ghost use Rattle.smb_journaled_tree.specs.Kept.{whole_size, IsKept};

    ghost Value = { JournalState };

    ghost view = { λ j. record { content = T.content j.tree; settled = T.content j.settled.value; seed = j.first; whole = whole_size j.torn (J.held j.file); bytes = J.held j.file } };

    ghost invariant = { λ j. IsKept (T.content j.tree) (T.content j.settled.value) (J.held j.file) j.torn j.first j.number j.seed (changes_in_batch j.pending) j.slots j.entries j.renewal };
}

impl<T: Tree + Drop, J: JournalFile + Drop> JournaledTree<T, J> {
    ghost use Rattle.smb_tree.specs.Good.{GoodContent};
    ghost use Rattle.smb_tree.specs.Content.{Row, numbered};
    ghost use Rattle.std.specs.List.{list_any};
    ghost use Rattle.smb_journaled_tree.specs.Written.{IsWritten, IsNew};

    /// Goes on with a good tree whose files are what a file's whole batches make. Behind these the file has nothing.
    /// `numbers` are those of all entries, and `entries` is how many there are, the root among them.
    ///
    /// A slot for each entry takes memory: [`JournalFault::NoMemory`] is the only refusal.
    pub fn resume(
        alloc: Global,
        tree: T,
        file: J,
        chain: Chain,
        numbers: &[EntryNo],
        entries: usize,
    ) -> Result<Self, JournalFault>
        requires good { GoodContent (T.content tree) }
        requires written { IsWritten (T.content tree) (J.held file) chain.first chain.number chain.seed }
        requires all { (q : ℕ) (row : Row) → numbered (T.content tree).rows q ≡ Some row → list_any (λ other. q == other) numbers.now ≡ true }
        requires counted { entries ≡ length (T.content tree).rows }
        ensures ok { IfOk result (λ journal. journal ≡ record {
          content = T.content tree;
          settled = T.content tree;
          seed = chain.first;
          whole = length (J.held file);
          bytes = J.held file;
        }) }
    {
        let slots = slots_of(alloc, numbers)?;
        let settled = Snapshot::of(&tree);
        Ok(JournaledTree {
            alloc,
            tree,
            file,
            torn: None,
            first: chain.first,
            number: chain.number,
            seed: chain.seed,
            pending: OpenBatch::new(alloc),
            slots,
            entries,
            settled,
            renewal: None,
        })
    }

    /// Begins with a new tree and an empty file: the first batch, of this seed, has the root.
    pub fn begin(alloc: Global, tree: T, file: J, seed: u64) -> Result<Self, JournalFault>
        requires new { IsNew (T.content tree) }
        requires empty { J.held file ≡ [] }
        ensures ok { IfOk result (λ journal. (journal.content ≡ T.content tree) × (journal.settled ≡ T.content tree) × (journal.seed ≡ seed)) }
    {
        let mut file = file;
        let next = begin_file(alloc, &tree, &mut file, seed)?;
        let chain = Chain {
            first: seed,
            number: 2,
            seed: next,
        };
        JournaledTree::resume(alloc, tree, file, chain, &[1], 1)
    }

    /// The file's whole batches keep the files of the content that was settled last, whatever is lost behind them. The
    /// contract is the statement, and the body does nothing.
    pub fn kept(&self)
        ensures files { KeepsFiles self.now.settled self.now.seed self.now.whole self.now.bytes }
        ensures there { self.now.whole ≤ length self.now.bytes }
    {
        let _ = &self.file;
    }

    /// Writes what changed since the last time as one batch, which the file gets whole; nothing where nothing changed.
    ///
    /// The content stays, whatever is answered. What a crash then leaves of the file keeps the files as they were at the
    /// last time, or as they are now (`crash`), and is never taken for damage. After an error what changed is still to be
    /// written: the next call takes away what is behind the whole batches first.
    pub fn settle(&mut self) -> Result<(), JournalFault>
        ensures content { self.new.content ≡ self.old.content }
        ensures seed { self.new.seed ≡ self.old.seed }
        ensures settled { OnOk result (self.new.settled ≡ self.old.content) }
        ensures crash { LeavesOneOf self.old self.new.bytes }
        ensures err { OnErr result (self.new.settled ≡ self.old.settled) }
    {
        note_dirty(&self.tree, &mut self.slots, &mut self.pending)?;
        if self.pending.is_empty() {
            self.settled = Snapshot::of(&self.tree);
            return Ok(());
        }
        let length = self.pending.len();
        let seed = self.pending.close(self.seed, self.number)?;
        match mend(&mut self.file, &mut self.torn) {
            Ok(()) => {}
            Err(fault) => {
                self.pending.truncate(length);
                return Err(fault);
            }
        }
        match append(&mut self.file, &mut self.torn, self.pending.as_vec()) {
            Ok(()) => {}
            Err(fault) => {
                self.pending.truncate(length);
                return Err(fault);
            }
        }
        // For the proof alone: the number does not pass its type, since each batch has bytes.
        let _written = self.file.len();
        self.pending.truncate(length);
        follow(&mut self.file, &mut self.renewal, &mut self.pending);
        self.pending.clear();
        self.number += 1;
        self.seed = seed;
        self.settled = Snapshot::of(&self.tree);
        Ok(())
    }

    /// Writes the journal anew beside itself, where its file has many more bytes than its files need: each call writes a
    /// slice, of about 1 MiB, where one is due, and waits until that lasts, and each `settle` between two calls writes to
    /// both. Once all is
    /// written the new file takes the old one's place. Where it can't be written the old one stays.
    pub fn renew(&mut self)
        requires { self.old.settled ≡ self.old.content }
        ensures content { self.new.content ≡ self.old.content }
        ensures settled { self.new.settled ≡ self.old.settled }
    {
        let Some(renewal) = self.renewal.take() else {
            self.renewal = begin_renewal(
                self.alloc,
                &self.tree,
                &mut self.file,
                self.entries,
                self.seed,
            );
            return;
        };
        if !renewal.is_due() {
            self.renewal = Some(renewal);
            return;
        }
        let Some((renewal, all)) = go_on_renewal(&self.tree, &mut self.file, renewal, self.entries)
        else {
            return;
        };
        if !all {
            self.renewal = Some(renewal);
            return;
        }
        if let Some(chain) = replace_file(&mut self.file, renewal) {
            self.torn = None;
            self.first = chain.first;
            self.number = chain.number;
            self.seed = chain.seed;
        }
    }

    /// Takes a journal away that is written anew, where there is one.
    pub fn give_up_renewal(&mut self)
        ensures { self.new ≡ self.old }
    {
        if let Some(renewal) = self.renewal.take() {
            let (made, _) = renewal.finish();
            self.file.drop_next(made);
        }
    }

    /// The journal's file.
    pub fn file(&self) -> &J
        ensures { J.held result.now ≡ self.now.bytes }
    {
        &self.file
    }

    /// Waits until what was written lasts. It writes nothing.
    pub fn sync(&mut self) -> Result<(), JournalFault>
        ensures { self.new ≡ self.old }
    {
        self.file.sync()
    }
}

impl<T: Tree + Drop, J: JournalFile + Drop> Tree for JournaledTree<T, J> {
    ghost content = { λ j. j.content };

    ghost is_kept = { λ j. j.settled ≡ j.content };

    fn find(&self, path: &PathView<'_>) -> Option<EntryNo> {
        self.tree.find(path)
    }

    fn entry(&self, number: EntryNo) -> Option<EntryView<'_>> {
        self.tree.entry(number)
    }

    fn copy_entry(&self, alloc: Global, number: EntryNo) -> Result<EntryCopy, TreeFault> {
        self.tree.copy_entry(alloc, number)
    }

    fn child_after(&self, number: EntryNo, after: Option<&FoldedName>) -> Option<EntryNo> {
        self.tree.child_after(number, after)
    }

    fn children_after(&self, number: EntryNo, after: Option<&FoldedName>, children: &mut Children) {
        self.tree.children_after(number, after, children)
    }

    fn name(&self, number: EntryNo) -> Option<FoldedName> {
        self.tree.name(number)
    }

    fn is_within(&self, above: EntryNo, number: EntryNo) -> bool {
        self.tree.is_within(above, number)
    }

    fn next_no(&self) -> Option<EntryNo> {
        self.tree.next_no()
    }

    fn used(&self) -> u64 {
        self.tree.used()
    }

    fn capacity(&self) -> u64 {
        self.tree.capacity()
    }

    fn limits(&self) -> Limits {
        self.tree.limits()
    }

    fn read(
        &self,
        number: EntryNo,
        offset: u64,
        count: u64,
        bytes: &mut Vec<u8>,
    ) -> Result<(), TreeFault> {
        self.tree.read(number, offset, count, bytes)
    }

    fn write(&mut self, number: EntryNo, offset: u64, buffer: &[u8]) -> Result<(), TreeFault> {
        if let Some(fault) = write_fault(&self.tree, number, offset, buffer.len()) {
            return Err(fault);
        }
        let count = self.pending.len();
        let change = Change::Bytes {
            number,
            offset,
            bytes: buffer,
        };
        match note_change(&mut self.file, &mut self.pending, self.entries, change) {
            Ok(()) => {}
            Err(_) => return Err(TreeFault::NoMemory),
        }
        match self.tree.write(number, offset, buffer) {
            Ok(()) => Ok(()),
            Err(fault) => {
                self.pending.truncate(count);
                Err(fault)
            }
        }
    }

    fn add(
        &mut self,
        path: &PathView<'_>,
        kind: Kind,
        attributes: FileAttributes,
        moment: u64,
    ) -> Result<EntryNo, TreeFault> {
        let _few = path.len(); // For the proof alone: a path has few components.
        if let Some(fault) = add_fault(&self.tree, self.entries, path) {
            return Err(fault);
        }
        let count = self.pending.len();
        let next = self.tree.next_no().unwrap_or(0);
        let change = Change::Entry {
            number: next,
            parent: parent_of(&self.tree, path),
            kind,
            mark: false,
            basic: Basic::of(attributes, moment),
            spelling: name_of(path),
        };
        match self.slots.add(next) {
            Ok(()) => {}
            Err(_) => return Err(TreeFault::NoMemory),
        }
        match note_change(&mut self.file, &mut self.pending, self.entries, change) {
            Ok(()) => {}
            Err(_) => return Err(TreeFault::NoMemory),
        }
        match self.tree.add(path, kind, attributes, moment) {
            Ok(number) => {
                self.entries += 1;
                Ok(number)
            }
            Err(fault) => {
                self.pending.truncate(count);
                Err(fault)
            }
        }
    }

    fn set_size(&mut self, number: EntryNo, size: u64) -> Result<(), TreeFault> {
        if let Some(fault) = size_fault(&self.tree, number, size) {
            return Err(fault);
        }
        let count = self.pending.len();
        let change = Change::Size { number, size };
        match note_change(&mut self.file, &mut self.pending, self.entries, change) {
            Ok(()) => {}
            Err(_) => return Err(TreeFault::NoMemory),
        }
        match self.tree.set_size(number, size) {
            Ok(()) => Ok(()),
            Err(fault) => {
                self.pending.truncate(count);
                Err(fault)
            }
        }
    }

    fn set_basic(&mut self, number: EntryNo, basic: Basic) -> Result<(), TreeFault> {
        match self.tree.set_basic(number, basic) {
            Ok(()) => {}
            Err(fault) => return Err(fault),
        }
        self.slots.mark(number);
        Ok(())
    }

    fn set_mark(&mut self, number: EntryNo, mark: bool) -> Result<(), TreeFault> {
        match self.tree.set_mark(number, mark) {
            Ok(()) => {}
            Err(fault) => return Err(fault),
        }
        self.slots.mark(number);
        Ok(())
    }

    fn move_entry(&mut self, number: EntryNo, path: &PathView<'_>) -> Result<(), TreeFault> {
        let there = self.tree.find(path);
        match self.tree.move_entry(number, path) {
            Ok(()) => {}
            Err(fault) => return Err(fault),
        }
        self.slots.mark(number);
        match there {
            Some(other) if other != number => {
                self.entries -= 1;
                self.slots.mark(other);
                Ok(())
            }
            _ => Ok(()),
        }
    }

    fn remove(&mut self, number: EntryNo) -> Result<(), TreeFault> {
        match self.tree.remove(number) {
            Ok(()) => self.slots.mark(number),
            Err(fault) => return Err(fault),
        }
        self.entries -= 1;
        Ok(())
    }

    fn keep_changes(&mut self) -> Result<(), Reason> {
        match self.settle() {
            Ok(()) => {
                self.renew();
                Ok(())
            }
            Err(fault) => {
                self.give_up_renewal();
                Err(Reason::from(fault))
            }
        }
    }
}
