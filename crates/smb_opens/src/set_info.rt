//! SET_INFO of a file or a folder through an open ([MS-SMB2] 3.3.5.21.1, [MS-FSA] 2.1.5.15).

ghost use Rattle.std.specs.Prelude.{◌≡◌, ◌≢◌, None, Some, IsSome, IfErr, OnOk, OnErr, is_some, true};
ghost use Rattle.smb_access.specs.Faults.{IsRefusal};
ghost use Rattle.smb_access.specs.Opens.{open_of};
ghost use Rattle.smb_refusals.specs.Refused.{IsRefusedBy};
ghost use Rattle.smb_opens.specs.SetInfo.{delete_refusal, delete_status, delete_set_through, size_refusal, size_status, size_set_through, basic_refusal, basic_status, basic_set_through};
ghost use Rattle.smb_opens.specs.Views.{open_view};

use super::store::Store;
use smb_access::{OpenNo, Opens, StoreFault};
use smb_entry::BasicAsk;
use smb_entry::set_info::{
    has_entries, has_no_space, leaves_size, mark_entry, may_delete, may_set_basic, may_size,
    set_entry, size_file,
};
use smb_refusals::{Refusal, RefusedBy, SetBasicRefusal, SetDispositionRefusal, SetSizeRefusal};
use smb_tree::Tree;
use smb_wire::NtStatus;

impl<T: Tree + Drop, O: Opens + Drop> Store<T, O> {
    /// Answers a SET_INFO of class FileDispositionInformation through the open of a number, which exists ([MS-FSA]
    /// 2.1.5.15.3): marks its entry, which then goes with its last open, or takes the mark away. What the open itself
    /// is to delete when it is closed is left. The entry's children are looked up once. It takes no memory.
    ///
    /// An error is the first row of the table that holds; the store is then as it was.
    pub fn set_delete_by_row(
        &mut self,
        number: OpenNo,
        is_deleted: bool,
    ) -> Result<(), SetDispositionRefusal>
        requires open { IsSome (open_of self.old.opens number) }
        ensures shown { is_some (open_view self.old number) ≡ true }
        ensures store { OnOk result (self.new ≡ delete_set_through self.old number is_deleted) }
        ensures lawful { OnOk result (delete_refusal self.old number is_deleted ≡ None) }
        ensures err { OnErr result (self.new ≡ self.old) }
        ensures why { IfErr result (λ refusal. delete_refusal self.old number is_deleted ≡ Some refusal) }
    {
        let Some(view) = self.view(number) else {
            unreachable!();
        };
        let is_occupied = has_entries(&self.tree, view.entry);
        may_delete(&view, is_occupied, is_deleted)?;
        mark_entry(&mut self.tree, view.entry, is_deleted);
        Ok(())
    }

    /// [`set_delete_by_row`](Self::set_delete_by_row), with a refusal's status in its place; FILE_CLOSED where no open
    /// has the number.
    pub fn set_delete(&mut self, number: OpenNo, is_deleted: bool) -> Result<(), NtStatus>
        ensures store { OnOk result (self.new ≡ delete_set_through self.old number is_deleted) }
        ensures lawful { OnOk result (delete_status self.old number is_deleted ≡ NtStatus.Success) }
        ensures err { OnErr result (self.new ≡ self.old) }
        ensures why { IfErr result (λ status. delete_status self.old number is_deleted ≡ status) }
        ensures refused { IfErr result (λ status. status ≢ NtStatus.Success) }
    {
        let Some(_) = self.view(number) else {
            return Err(NtStatus::FileClosed);
        };
        match self.set_delete_by_row(number, is_deleted) {
            Ok(()) => Ok(()),
            Err(refusal) => Err(refusal.status()),
        }
    }

    /// Answers a SET_INFO of class FileEndOfFileInformation, or FileAllocationInformation, through the open of a
    /// number, which exists, at a moment, in units of 100 ns since 1601 ([MS-FSA] 2.1.5.15.4, 2.1.5.15.1): gives its
    /// file this size in bytes, and sets the file's times of the last write and change. An allocation size that is no
    /// less than the file's size changes nothing. Locks don't bar it, and stay.
    ///
    /// [`Row`](RefusedBy::Row) tells the first row of the table that holds, and [`NoMemory`](RefusedBy::NoMemory) that
    /// an allocation was refused where none does; the store is then as it was.
    pub fn set_size_by_row(
        &mut self,
        number: OpenNo,
        size: u64,
        is_allocation: bool,
        moment: u64,
    ) -> Result<(), RefusedBy<SetSizeRefusal>>
        requires open { IsSome (open_of self.old.opens number) }
        ensures shown { is_some (open_view self.old number) ≡ true }
        ensures store { OnOk result (self.new ≡ size_set_through self.old number size is_allocation moment) }
        ensures lawful { OnOk result (size_refusal self.old number size ≡ None) }
        ensures err { OnErr result (self.new ≡ self.old) }
        ensures why { IfErr result (λ refused. IsRefusedBy (size_refusal self.old number size) refused) }
    {
        let Some(view) = self.view(number) else {
            unreachable!();
        };
        let is_full = has_no_space(&self.tree, view.entry, size);
        may_size(&view, is_full)?;
        if leaves_size(view.size, size, is_allocation) {
            return Ok(());
        }
        size_file(&mut self.tree, view.entry, size, moment)
    }

    /// [`set_size_by_row`](Self::set_size_by_row), with a refusal's status in its place; FILE_CLOSED where no open has
    /// the number.
    pub fn set_size(
        &mut self,
        number: OpenNo,
        size: u64,
        is_allocation: bool,
        moment: u64,
    ) -> Result<(), StoreFault>
        ensures store { OnOk result (self.new ≡ size_set_through self.old number size is_allocation moment) }
        ensures lawful { OnOk result (size_status self.old number size ≡ NtStatus.Success) }
        ensures err { OnErr result (self.new ≡ self.old) }
        ensures why { IfErr result (λ fault. IsRefusal (size_status self.old number size) fault) }
    {
        let Some(_) = self.view(number) else {
            return Err(StoreFault::from(NtStatus::FileClosed));
        };
        match self.set_size_by_row(number, size, is_allocation, moment) {
            Ok(()) => Ok(()),
            Err(refused) => Err(StoreFault::from(RefusedBy::<Refusal>::from(refused))),
        }
    }

    /// Answers a SET_INFO of class FileBasicInformation through the open of a number, which exists, at a moment, in
    /// units of 100 ns since 1601 ([MS-FSA] 2.1.5.15.2): gives its entry the times and attributes that are asked for.
    /// It takes no memory.
    ///
    /// An error is the first row of the table that holds; the store is then as it was.
    pub fn set_basic_by_row(
        &mut self,
        number: OpenNo,
        ask: &BasicAsk,
        moment: u64,
    ) -> Result<(), SetBasicRefusal>
        requires open { IsSome (open_of self.old.opens number) }
        ensures shown { is_some (open_view self.old number) ≡ true }
        ensures store { OnOk result (self.new ≡ basic_set_through self.old number ask.now moment) }
        ensures lawful { OnOk result (basic_refusal self.old number ask.now ≡ None) }
        ensures err { OnErr result (self.new ≡ self.old) }
        ensures why { IfErr result (λ refusal. basic_refusal self.old number ask.now ≡ Some refusal) }
    {
        let Some(view) = self.view(number) else {
            unreachable!();
        };
        may_set_basic(&view, ask)?;
        set_entry(&mut self.tree, view.entry, ask, moment);
        Ok(())
    }

    /// [`set_basic_by_row`](Self::set_basic_by_row), with a refusal's status in its place; FILE_CLOSED where no open
    /// has the number.
    pub fn set_basic(&mut self, number: OpenNo, ask: &BasicAsk, moment: u64) -> Result<(), NtStatus>
        ensures store { OnOk result (self.new ≡ basic_set_through self.old number ask.now moment) }
        ensures lawful { OnOk result (basic_status self.old number ask.now ≡ NtStatus.Success) }
        ensures err { OnErr result (self.new ≡ self.old) }
        ensures why { IfErr result (λ status. basic_status self.old number ask.now ≡ status) }
        ensures refused { IfErr result (λ status. status ≢ NtStatus.Success) }
    {
        let Some(_) = self.view(number) else {
            return Err(NtStatus::FileClosed);
        };
        match self.set_basic_by_row(number, ask, moment) {
            Ok(()) => Ok(()),
            Err(refusal) => Err(refusal.status()),
        }
    }
}
