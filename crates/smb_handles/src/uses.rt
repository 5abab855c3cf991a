//! For each entry how many of its opens use it in each way.

ghost use Rattle.std.specs.Prelude.{◌≡◌, ◌+◌, ◌-◌, ◌^◌, ◌<◌, ◌≤◌, ℕ, OnOk, OnErr, nat_lt};
ghost use Rattle.smb_access.specs.declared.use_kind.SharingUse.{SharingUse};
ghost use Rattle.smb_handles.specs.Uses.{once, count_in, is_zero, KeepsNoZero, counted, more, less};

use smb_access::sharing::is_shared_access;
use smb_access::{OpenRow, SharingUse};
use smb_tree::EntryNo;
use std::alloc::{AllocError, Global};
use std::collections::BTreeMap;

/// How many of an entry's opens use it in each way.
#[derive(Clone, Copy)]
pub struct UseCounts {
    reads: u64,
    writes: u64,
    deletes: u64,
    shares_no_read: u64,
    shares_no_write: u64,
    shares_no_delete: u64,
}

// 1 where an open uses its entry so, else 0.
fn once(kind: SharingUse, row: &OpenRow) -> u64
    ensures { result ≡ once kind row.now }
{
    if kind.is_of(row) { 1 } else { 0 }
}

impl UseCounts {
    // Those of an entry without opens.
    fn zero() -> UseCounts
        ensures { (kind : SharingUse) → count_in result kind ≡ 0 }
    {
        UseCounts {
            reads: 0,
            writes: 0,
            deletes: 0,
            shares_no_read: 0,
            shares_no_write: 0,
            shares_no_delete: 0,
        }
    }

    // That of a way.
    fn of(self, kind: SharingUse) -> u64
        ensures { result ≡ count_in self kind }
    {
        match kind {
            SharingUse::Reads => self.reads,
            SharingUse::Writes => self.writes,
            SharingUse::Deletes => self.deletes,
            SharingUse::SharesNoRead => self.shares_no_read,
            SharingUse::SharesNoWrite => self.shares_no_write,
            SharingUse::SharesNoDelete => self.shares_no_delete,
        }
    }

    // Those with an open more.
    fn with(self, row: &OpenRow) -> UseCounts
        requires { (kind : SharingUse) → count_in self kind + 1 < 2 ^ 64 }
        ensures { (kind : SharingUse) → count_in result kind ≡ count_in self kind + once kind row.now }
    {
        UseCounts {
            reads: self.reads + once(SharingUse::Reads, row),
            writes: self.writes + once(SharingUse::Writes, row),
            deletes: self.deletes + once(SharingUse::Deletes, row),
            shares_no_read: self.shares_no_read + once(SharingUse::SharesNoRead, row),
            shares_no_write: self.shares_no_write + once(SharingUse::SharesNoWrite, row),
            shares_no_delete: self.shares_no_delete + once(SharingUse::SharesNoDelete, row),
        }
    }

    // Those with an open less, which was one of theirs.
    fn without(self, row: &OpenRow) -> UseCounts
        requires { (kind : SharingUse) → once kind row.now ≤ count_in self kind }
        ensures { (kind : SharingUse) → count_in result kind ≡ count_in self kind - once kind row.now }
    {
        UseCounts {
            reads: self.reads - once(SharingUse::Reads, row),
            writes: self.writes - once(SharingUse::Writes, row),
            deletes: self.deletes - once(SharingUse::Deletes, row),
            shares_no_read: self.shares_no_read - once(SharingUse::SharesNoRead, row),
            shares_no_write: self.shares_no_write - once(SharingUse::SharesNoWrite, row),
            shares_no_delete: self.shares_no_delete - once(SharingUse::SharesNoDelete, row),
        }
    }

    // Whether no open uses the entry in any way.
    fn is_zero(self) -> bool
        ensures { result ≡ is_zero self }
    {
        self.reads == 0
            && self.writes == 0
            && self.deletes == 0
            && self.shares_no_read == 0
            && self.shares_no_write == 0
            && self.shares_no_delete == 0
    }
}

/// For each entry how many of its opens use it in each way. An entry that none uses takes no memory.
///
/// A call looks the entry up once or twice, in time logarithmic in how many there are. Only `note` takes memory.
#[derive(Drop)]
pub struct Uses {
    counts: BTreeMap<EntryNo, UseCounts>,
    ghost lean: { KeepsNoZero counts },
}

impl Uses {
    /// No uses. It takes no memory.
    pub fn new(alloc: Global) -> Uses
        ensures { (entry : ℕ) (kind : SharingUse) → counted result.counts entry kind ≡ 0 }
    {
        Uses {
            counts: BTreeMap::new(alloc),
        }
    }

    /// Counts an open. An allocation that is refused changes nothing.
    pub fn note(&mut self, row: &OpenRow) -> Result<(), AllocError>
        requires { (kind : SharingUse) → counted self.old.counts row.now.entry kind + 1 < 2 ^ 64 }
        ensures ok { OnOk result ((entry : ℕ) (kind : SharingUse) → counted self.new.counts entry kind ≡ more (counted self.old.counts) row.now entry kind) }
        ensures err { OnErr result ((entry : ℕ) (kind : SharingUse) → counted self.new.counts entry kind ≡ counted self.old.counts entry kind) }
    {
        if let Some(counts) = self.counts.get_mut(&row.entry) {
            *counts = counts.with(row);
            return Ok(());
        }
        if is_shared_access(row.access) {
            self.counts.insert(row.entry, UseCounts::zero().with(row))?;
        }
        Ok(())
    }

    /// Counts an open no more that was counted.
    pub fn forget(&mut self, row: &OpenRow)
        requires { (kind : SharingUse) → once kind row.now ≤ counted self.old.counts row.now.entry kind }
        ensures { (entry : ℕ) (kind : SharingUse) → counted self.new.counts entry kind ≡ less (counted self.old.counts) row.now entry kind }
    {
        let Some(counts) = self.counts.get_mut(&row.entry) else {
            return;
        };
        *counts = counts.without(row);
        if counts.is_zero() {
            self.counts.remove(&row.entry);
        }
    }

    /// Whether an open of an entry uses it so.
    pub fn has(&self, entry: EntryNo, kind: SharingUse) -> bool
        ensures { result ≡ nat_lt 0 (counted self.now.counts entry kind) }
    {
        match self.counts.get(&entry) {
            Some(counts) => counts.of(kind) > 0,
            None => false,
        }
    }
}
