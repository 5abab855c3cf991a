//! LOCK of a file through an open ([MS-SMB2] 3.3.5.14).

ghost use Rattle.std.specs.Prelude.{◌≡◌, ◌≢◌, None, Some, IsSome, OnOk, OnErr, IfErr, is_some, true};
ghost use Rattle.smb_access.specs.Faults.{IsRefusal};
ghost use Rattle.smb_access.specs.Opens.{open_of};
ghost use Rattle.smb_refusals.specs.Refused.{IsRefusedBy};
ghost use Rattle.smb_opens.specs.Locks.{lock_refusal, lock_status, unlock_refusal, unlock_status, locked_through, unlocked_through};
ghost use Rattle.smb_opens.specs.Views.{open_view};

use super::store::Store;
use smb_access::{OpenNo, Opens, StoreFault};
use smb_entry::locks::{lock_refusal_of, lock_refused_by};
use smb_locks::LockAsk;
use smb_refusals::{LockRefusal, Refusal, RefusedBy};
use smb_tree::Tree;
use smb_wire::NtStatus;

impl<T: Tree + Drop, O: Opens + Drop> Store<T, O> {
    /// Answers a LOCK through the open of a number, which exists, that locks ranges of its file ([MS-SMB2] 3.3.5.14.2):
    /// all that the elements ask for, or none. Each element costs a pass over the file's locks, of which there are at
    /// most as many as the limits let be.
    ///
    /// [`Row`](RefusedBy::Row) tells the first row of the table that holds, and [`NoMemory`](RefusedBy::NoMemory) that
    /// an allocation was refused where none does.
    pub fn lock_by_row(
        &mut self,
        number: OpenNo,
        asks: &[LockAsk],
    ) -> Result<(), RefusedBy<LockRefusal>>
        requires open { IsSome (open_of self.old.opens number) }
        ensures shown { is_some (open_view self.old number) ≡ true }
        ensures store { OnOk result (self.new ≡ locked_through self.old number asks.now) }
        ensures lawful { OnOk result (lock_refusal self.old number asks.now ≡ None) }
        ensures err { OnErr result (self.new ≡ self.old) }
        ensures why { IfErr result (λ refused. IsRefusedBy (lock_refusal self.old number asks.now) refused) }
    {
        let Some(view) = self.view(number) else {
            unreachable!();
        };
        if view.kind.is_folder() {
            return Err(RefusedBy::Row(LockRefusal::EntryIsDirectory));
        }
        let limits = self.tree.limits();
        match self
            .locks
            .lock_all_within(limits.locks, view.entry, number, asks)
        {
            Ok(()) => Ok(()),
            Err(fault) => Err(lock_refused_by(fault)),
        }
    }

    /// [`lock_by_row`](Self::lock_by_row), with a refusal's status in its place; FILE_CLOSED where no open has the
    /// number.
    pub fn lock(&mut self, number: OpenNo, asks: &[LockAsk]) -> Result<(), StoreFault>
        ensures store { OnOk result (self.new ≡ locked_through self.old number asks.now) }
        ensures lawful { OnOk result (lock_status self.old number asks.now ≡ NtStatus.Success) }
        ensures err { OnErr result (self.new ≡ self.old) }
        ensures why { IfErr result (λ fault. IsRefusal (lock_status self.old number asks.now) fault) }
    {
        let Some(_) = self.view(number) else {
            return Err(StoreFault::from(NtStatus::FileClosed));
        };
        match self.lock_by_row(number, asks) {
            Ok(()) => Ok(()),
            Err(refused) => Err(StoreFault::from(RefusedBy::<Refusal>::from(refused))),
        }
    }

    /// Answers a LOCK through the open of a number, which exists, that unlocks ranges of its file ([MS-SMB2]
    /// 3.3.5.14.1): each element takes out the oldest of the open's locks over its very range. It takes no memory. An
    /// element costs a pass over the file's locks, of which there are at most as many as the limits let be.
    ///
    /// An error is the first row of the table that holds of an element; those before it stay unlocked.
    pub fn unlock_by_row(&mut self, number: OpenNo, asks: &[LockAsk]) -> Result<(), LockRefusal>
        requires open { IsSome (open_of self.old.opens number) }
        ensures shown { is_some (open_view self.old number) ≡ true }
        ensures store { self.new ≡ unlocked_through self.old number asks.now }
        ensures lawful { OnOk result (unlock_refusal self.old number asks.now ≡ None) }
        ensures why { IfErr result (λ refusal. unlock_refusal self.old number asks.now ≡ Some refusal) }
    {
        let Some(view) = self.view(number) else {
            unreachable!();
        };
        if view.kind.is_folder() {
            return Err(LockRefusal::EntryIsDirectory);
        }
        match self.locks.unlock_all(view.entry, number, asks) {
            Ok(()) => Ok(()),
            Err(error) => {
                let Some(refusal) = lock_refusal_of(error.fault) else {
                    unreachable!();
                };
                Err(refusal)
            }
        }
    }

    /// [`unlock_by_row`](Self::unlock_by_row), with a refusal's status in its place; FILE_CLOSED where no open has the
    /// number.
    pub fn unlock(&mut self, number: OpenNo, asks: &[LockAsk]) -> Result<(), NtStatus>
        ensures store { self.new ≡ unlocked_through self.old number asks.now }
        ensures lawful { OnOk result (unlock_status self.old number asks.now ≡ NtStatus.Success) }
        ensures why { IfErr result (λ status. unlock_status self.old number asks.now ≡ status) }
        ensures refused { IfErr result (λ status. status ≢ NtStatus.Success) }
    {
        let Some(_) = self.view(number) else {
            return Err(NtStatus::FileClosed);
        };
        match self.unlock_by_row(number, asks) {
            Ok(()) => Ok(()),
            Err(refusal) => Err(refusal.status()),
        }
    }
}
