//! The locks of all files.

ghost use Rattle.std.specs.Prelude.{◌≡◌, ◌≢◌, [], None, Some, OnOk, OnErr, IfErr, length};
ghost use Rattle.std.specs.BTreeMap.{insert_entry, is_at};
ghost use Rattle.std.specs.Map.{remove_entry};
ghost use Rattle.std.specs.Ordering.{nat_cmp};
ghost use Rattle.smb_wire.specs.Limits.{default_limits};
ghost use Rattle.smb_locks.specs.Conflicts.{is_read_barred, is_write_barred};
ghost use Rattle.smb_locks.specs.Good.{GoodLockTable};
ghost use Rattle.smb_locks.specs.Locking.{lock_all_fault};
ghost use Rattle.smb_locks.specs.Table.{HoldsNoneElsewhere, locks_on, locked, unlocked, without_holder};
ghost use Rattle.smb_locks.specs.Unlocking.{unlock_all_error};
ghost use Rattle.smb_locks.specs.declared.fault.LockFault.TheVariants.{NoMemory};

use super::ask::{LockAsk, are_locks, are_unlocks};
use super::fault::{LockFault, UnlockError};
use super::file_locks::FileLocks;
use super::range::ByteRange;
use smb_wire::limits::Limits;
use std::alloc::{AllocError, Global};
use std::collections::BTreeMap;
use std::marker::Model;

/// The locks of all files: for each file that has some, in rising number, its locks, oldest first. A file is named by
/// its entry's number, and an open by its own.
///
/// A file's locks are found in logarithmic time, and a call goes through them.
#[derive(Drop)]
pub struct LockTable {
    files: BTreeMap<u64, FileLocks>,
    alloc: Global,
}

impl Model for LockTable {
    ghost use Rattle.smb_locks.specs.Table.{Table};
    ghost use Rattle.smb_locks.specs.Good.{GoodLockTable};

    ghost Value = { Table };

    ghost view = { λ t. t.files.entries };

    ghost invariant = { λ t. GoodLockTable t.files.entries };
}

// Adds the locks of a file that has none.
fn put(files: &mut BTreeMap<u64, FileLocks>, file: u64, locks: FileLocks) -> Result<(), AllocError>
    ensures ok { OnOk result (files.new.entries ≡ insert_entry nat_cmp files.old.entries file locks) }
    ensures err { OnErr result (files.new.entries ≡ files.old.entries) }
{
    files.insert(file, locks)?;
    Ok(())
}

// Takes a file out that has no locks left.
fn take_out(files: &mut BTreeMap<u64, FileLocks>, file: u64)
    ensures { files.new.entries ≡ remove_entry (is_at (nat_cmp file)) files.old.entries }
{
    files.remove(&file);
}

impl LockTable {
    /// No locks. It takes no memory.
    pub fn new(alloc: Global) -> LockTable
        ensures { result ≡ [] }
    {
        LockTable {
            files: BTreeMap::new(alloc),
            alloc,
        }
    }

    /// Locks ranges of a file for an open: all that the elements ask for, or after a refusal none ([MS-SMB2] 3.3.5.14.2).
    ///
    /// [`BadFlags`](LockFault::BadFlags) where some element's flags are not SHARED_LOCK or EXCLUSIVE_LOCK with
    /// FAIL_IMMEDIATELY, or in an only element without it. Then, at an element in its turn,
    /// [`BadRange`](LockFault::BadRange) where its range reaches past 2^64, [`Full`](LockFault::Full) where the file
    /// has as many locks as the default limits let it have, [`NotGranted`](LockFault::NotGranted) where one of them
    /// conflicts with it, those of the elements before it among them. [`NoMemory`](LockFault::NoMemory) where an
    /// allocation is refused, and none of these holds.
    ///
    /// Each element costs a pass over the file's locks.
    pub fn lock_all(&mut self, file: u64, holder: u64, asks: &[LockAsk]) -> Result<(), LockFault>
        ensures ok { OnOk result (self.new ≡ locked self.old file holder asks.now) }
        ensures lawful { OnOk result (lock_all_fault default_limits.locks (locks_on self.old file) holder asks.now ≡ None) }
        ensures err { OnErr result (self.new ≡ self.old) }
        ensures why { IfErr result (λ fault. fault ≢ NoMemory → lock_all_fault default_limits.locks (locks_on self.old file) holder asks.now ≡ Some fault) }
        ensures memory { IfErr result (λ fault. fault ≡ NoMemory → lock_all_fault default_limits.locks (locks_on self.old file) holder asks.now ≡ None) }
    {
        self.lock_all_within(Limits::profile().locks, file, holder, asks)
    }

    /// [`lock_all`](Self::lock_all) where a file may have so many locks.
    pub fn lock_all_within(
        &mut self,
        most: usize,
        file: u64,
        holder: u64,
        asks: &[LockAsk],
    ) -> Result<(), LockFault>
        ensures ok { OnOk result (self.new ≡ locked self.old file holder asks.now) }
        ensures lawful { OnOk result (lock_all_fault most (locks_on self.old file) holder asks.now ≡ None) }
        ensures err { OnErr result (self.new ≡ self.old) }
        ensures why { IfErr result (λ fault. fault ≢ NoMemory → lock_all_fault most (locks_on self.old file) holder asks.now ≡ Some fault) }
        ensures memory { IfErr result (λ fault. fault ≡ NoMemory → lock_all_fault most (locks_on self.old file) holder asks.now ≡ None) }
    {
        if !are_locks(asks) {
            return Err(LockFault::BadFlags);
        }
        if let Some(locks) = self.files.get_mut(&file) {
            return locks.lock_all(most, holder, asks);
        }
        let mut locks = FileLocks::new(self.alloc);
        locks.lock_all(most, holder, asks)?;
        if locks.is_empty() {
            return Ok(());
        }
        put(&mut self.files, file, locks)?;
        Ok(())
    }

    /// Unlocks ranges of a file for an open: each element takes out the oldest of the open's locks over its very range,
    /// in turn ([MS-SMB2] 3.3.5.14.1). It takes no memory.
    ///
    /// [`BadFlags`](LockFault::BadFlags) where some element's flags are not UNLOCK alone, and then no element is done.
    /// Then, at an element in its turn, [`BadRange`](LockFault::BadRange) where its range reaches past 2^64, and
    /// [`NotLocked`](LockFault::NotLocked) where the open holds no lock over it; the elements before it stay unlocked,
    /// and the error has their number.
    ///
    /// Each element costs a pass over the file's locks.
    pub fn unlock_all(
        &mut self,
        file: u64,
        holder: u64,
        asks: &[LockAsk],
    ) -> Result<(), UnlockError>
        ensures table { self.new ≡ unlocked self.old file holder asks.now }
        ensures lawful { OnOk result (unlock_all_error (locks_on self.old file) holder asks.now ≡ None) }
        ensures why { IfErr result (λ error. unlock_all_error (locks_on self.old file) holder asks.now ≡ Some error) }
    {
        if !are_unlocks(asks) {
            return Err(UnlockError {
                done: 0,
                fault: LockFault::BadFlags,
            });
        }
        let Some(locks) = self.files.get_mut(&file) else {
            return FileLocks::new(self.alloc).unlock_all(holder, asks);
        };
        let unlocked = locks.unlock_all(holder, asks);
        if locks.is_empty() {
            take_out(&mut self.files, file);
        }
        unlocked
    }

    /// Whether a lock of the file bars an open from reading a range ([MS-FSA] 2.1.4.10): another open's exclusive lock
    /// that overlaps it. A pass over the file's locks.
    pub fn bars_read(&self, file: u64, holder: u64, offset: u64, length: u64) -> bool
        ensures { result ≡ is_read_barred (locks_on self.now file) holder (record { offset = offset; length = length }) }
    {
        match self.files.get(&file) {
            Some(locks) => locks.bars_read(holder, ByteRange { offset, length }),
            None => false,
        }
    }

    /// Whether a lock of the file bars an open from writing a range ([MS-FSA] 2.1.4.10): another open's lock that
    /// overlaps it, or a shared one of its own. A pass over the file's locks.
    pub fn bars_write(&self, file: u64, holder: u64, offset: u64, length: u64) -> bool
        ensures { result ≡ is_write_barred (locks_on self.now file) holder (record { offset = offset; length = length }) }
    {
        match self.files.get(&file) {
            Some(locks) => locks.bars_write(holder, ByteRange { offset, length }),
            None => false,
        }
    }

    /// How many locks a file has.
    pub fn count_on(&self, file: u64) -> usize
        ensures { result ≡ length (locks_on self.now file) }
    {
        match self.files.get(&file) {
            Some(locks) => locks.len(),
            None => 0,
        }
    }

    /// Takes out all locks of an open, on whichever files it holds them. It takes no memory.
    ///
    /// A pass over the locks of all files that have some.
    pub fn drop_open(&mut self, holder: u64)
        ensures { self.new ≡ without_holder holder self.old }
    {
        self.files.retain(|_, locks| locks.release(holder));
    }

    /// Takes out all locks of an open that holds none on any file but this one. It takes no memory.
    ///
    /// The file is found in logarithmic time, and then its locks are gone through once.
    pub fn drop_open_on(&mut self, file: u64, holder: u64)
        requires { HoldsNoneElsewhere self.old file holder }
        ensures { self.new ≡ without_holder holder self.old }
    {
        let Some(locks) = self.files.get_mut(&file) else {
            return;
        };
        if !locks.release(holder) {
            take_out(&mut self.files, file);
        }
    }

    /// What holds of every table between calls: no two overlapping locks of different opens of a file have an exclusive
    /// one among them. (The body does nothing.)
    pub fn good(&self)
        ensures { GoodLockTable self.now }
    {
        let _ = &self.files;
    }
}
