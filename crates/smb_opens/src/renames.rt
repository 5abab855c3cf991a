//! SET_INFO of class FileRenameInformation through an open ([MS-SMB2] 3.3.5.21.1, [MS-FSA] 2.1.5.15.11).

ghost use Rattle.std.specs.Prelude.{◌≡◌, None, IsSome, OnOk, OnErr, IfErr, is_some, true};
ghost use Rattle.smb_wire.specs.Units.{units_of};
ghost use Rattle.smb_access.specs.Faults.{IsRefusal};
ghost use Rattle.smb_access.specs.Opens.{open_of};
ghost use Rattle.smb_refusals.specs.Refused.{IsRefusedBy};
ghost use Rattle.smb_opens.specs.Renames.{rename_refusal, rename_status, renamed_through};
ghost use Rattle.smb_opens.specs.Views.{open_view};

use super::store::Store;
use smb_access::{OpenNo, Opens, StoreFault};
use smb_entry::rename::{check_way, count_replaced, look_up_rename, move_to, path_named};
use smb_refusals::{Refusal, RefusedBy, RenameRefusal};
use smb_tree::Tree;
use smb_wire::{NtStatus, Units};

impl<T: Tree + Drop, O: Opens + Drop> Store<T, O> {
    /// Answers a SET_INFO of class FileRenameInformation through the open of a number, which exists, at a moment, in
    /// units of 100 ns since 1601 ([MS-FSA] 2.1.5.15.11): moves its entry, with all that lies beneath it, to the path
    /// that a name spells from the root, and sets the entry's time of the last change. With `replace` a file that
    /// exists there is replaced. Opens and locks stay.
    ///
    /// [`Row`](RefusedBy::Row) tells the first row of the table that holds, and [`NoMemory`](RefusedBy::NoMemory) that
    /// an allocation was refused where none does; the store is then as it was.
    pub fn rename_by_row(
        &mut self,
        number: OpenNo,
        name: Units<'_>,
        replace: bool,
        moment: u64,
    ) -> Result<(), RefusedBy<RenameRefusal>>
        requires open { IsSome (open_of self.old.opens number) }
        ensures shown { is_some (open_view self.old number) ≡ true }
        ensures store { OnOk result (self.new ≡ renamed_through self.old number (units_of name.entry) moment) }
        ensures lawful { OnOk result (rename_refusal self.old number (units_of name.entry) replace ≡ None) }
        ensures err { OnErr result (self.new ≡ self.old) }
        ensures why { IfErr result (λ refused. IsRefusedBy (rename_refusal self.old number (units_of name.entry) replace) refused) }
    {
        let Some(view) = self.view(number) else {
            unreachable!();
        };
        let path = path_named(name)?;
        let way = look_up_rename(&self.tree, view.entry, &path);
        check_way(&self.tree, &self.opens, &view, &way, replace)?;
        move_to(&mut self.tree, view.entry, &path, moment)?;
        self.entries_count -= count_replaced(view.entry, &way.target);
        Ok(())
    }

    /// [`rename_by_row`](Self::rename_by_row), with a refusal's status in its place; FILE_CLOSED where no open has the
    /// number.
    pub fn rename(
        &mut self,
        number: OpenNo,
        name: Units<'_>,
        replace: bool,
        moment: u64,
    ) -> Result<(), StoreFault>
        ensures store { OnOk result (self.new ≡ renamed_through self.old number (units_of name.entry) moment) }
        ensures lawful { OnOk result (rename_status self.old number (units_of name.entry) replace ≡ NtStatus.Success) }
        ensures err { OnErr result (self.new ≡ self.old) }
        ensures why { IfErr result (λ fault. IsRefusal (rename_status self.old number (units_of name.entry) replace) fault) }
    {
        let Some(_) = self.view(number) else {
            return Err(StoreFault::from(NtStatus::FileClosed));
        };
        match self.rename_by_row(number, name, replace, moment) {
            Ok(()) => Ok(()),
            Err(refused) => Err(StoreFault::from(RefusedBy::<Refusal>::from(refused))),
        }
    }
}
