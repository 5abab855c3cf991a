//! READ, WRITE and FLUSH of a file through an open ([MS-SMB2] 3.3.5.11 to 3.3.5.13).

ghost use Rattle.std.specs.Prelude.{◌≡◌, ◌≢◌, ◌≤◌, ◌++◌, None, Some, IsSome, IfOk, IfErr, OnOk, OnErr, length, is_some, true};
ghost use Rattle.smb_entry.specs.Parts.{keeps_from_reading, keeps_from_writing};
ghost use Rattle.smb_opens.specs.Bytes.{read_refusal, read_status, part_bytes, file_bytes, write_refusal, write_status, written_to};
ghost use Rattle.smb_access.specs.Faults.{IsRefusal};
ghost use Rattle.smb_refusals.specs.Refused.{IsRefusedBy};
ghost use Rattle.smb_access.specs.Opens.{open_of};
ghost use Rattle.smb_opens.specs.Views.{open_view};

use super::store::Store;
use smb_access::{OpenNo, Opens, StoreFault, View};
use smb_entry::bytes::{bytes_there, may_read, may_write, write_file};
use smb_refusals::{ReadRefusal, Refusal, RefusedBy, WriteRefusal};
use smb_tree::{EntryNo, Tree};
use smb_wire::NtStatus;
use std::alloc::AllocError;

/// Bytes of a file by which a READ is answered: of those from `offset` on at most `count`.
#[derive(Clone, Copy, Debug)]
pub struct FilePart {
    /// The number of the file.
    pub entry: EntryNo,
    pub offset: u64,
    pub count: u32,
    /// How many bytes there are.
    pub length: u32,
}

impl<T: Tree + Drop, O: Opens + Drop> Store<T, O> {
    // Whether a lock bars the open of a number, which shows this, from reading a range: a pass over the locks of its file.
    fn is_kept_from_reading(&self, view: &View, number: OpenNo, offset: u64, count: u32) -> bool
        ensures { result ≡ keeps_from_reading self.now.locks number view.now offset count }
    {
        self.locks
            .bars_read(view.entry, number, offset, u64::from(count))
    }

    // Whether a lock bars the open of a number, which shows this, from writing a range: a pass over the locks of its file.
    fn is_kept_from_writing(&self, view: &View, number: OpenNo, offset: u64, count: usize) -> bool
        ensures { result ≡ keeps_from_writing self.now.locks number view.now offset count }
    {
        self.locks
            .bars_write(view.entry, number, offset, count as u64)
    }

    /// Finds the bytes that a READ through the open of a number, which exists, gives ([MS-SMB2] 3.3.5.12): of those
    /// from `offset` on at most `count`; or the first row of the table that holds. One request may ask for `most`
    /// bytes. The open and its entry are looked up once; [`add_part`](Self::add_part) adds the bytes.
    pub fn find_bytes_by_row(
        &self,
        most: u32,
        number: OpenNo,
        offset: u64,
        count: u32,
        minimum: u32,
    ) -> Result<FilePart, ReadRefusal>
        requires open { IsSome (open_of self.now.opens number) }
        ensures shown { is_some (open_view self.now number) ≡ true }
        ensures bytes { IfOk result (λ part. part_bytes self.now part ≡ file_bytes self.now number offset count) }
        ensures length { IfOk result (λ part. part.length ≡ length (file_bytes self.now number offset count)) }
        ensures few { IfOk result (λ part. part.length ≤ most) }
        ensures lawful { OnOk result (read_refusal self.now most number offset count minimum ≡ None) }
        ensures why { IfErr result (λ refusal. read_refusal self.now most number offset count minimum ≡ Some refusal) }
    {
        let Some(view) = self.view(number) else {
            unreachable!();
        };
        let is_barred = self.is_kept_from_reading(&view, number, offset, count);
        may_read(most, &view, is_barred, offset, count, minimum)?;
        Ok(FilePart {
            entry: view.entry,
            offset,
            count,
            length: bytes_there(view.size, offset, count),
        })
    }

    /// [`find_bytes_by_row`](Self::find_bytes_by_row), with a refusal's status in its place; FILE_CLOSED where no open
    /// has the number.
    pub fn find_bytes(
        &self,
        most: u32,
        number: OpenNo,
        offset: u64,
        count: u32,
        minimum: u32,
    ) -> Result<FilePart, NtStatus>
        ensures bytes { IfOk result (λ part. part_bytes self.now part ≡ file_bytes self.now number offset count) }
        ensures length { IfOk result (λ part. part.length ≡ length (file_bytes self.now number offset count)) }
        ensures few { IfOk result (λ part. part.length ≤ most) }
        ensures lawful { OnOk result (read_status self.now most number offset count minimum ≡ NtStatus.Success) }
        ensures why { IfErr result (λ status. read_status self.now most number offset count minimum ≡ status) }
        ensures refused { IfErr result (λ status. status ≢ NtStatus.Success) }
    {
        let Some(_) = self.view(number) else {
            return Err(NtStatus::FileClosed);
        };
        match self.find_bytes_by_row(most, number, offset, count, minimum) {
            Ok(part) => Ok(part),
            Err(refusal) => Err(refusal.status()),
        }
    }

    /// Adds a part of a file behind the bytes of a vector, as [`find_bytes`](Self::find_bytes) found it in the store as it is.
    /// They are copied once. After an error, where an allocation was refused or no file has the number, the vector holds
    /// what it held.
    pub fn add_part(&self, part: &FilePart, bytes: &mut Vec<u8>) -> Result<(), AllocError>
        ensures ok { OnOk result (bytes.new.items ≡ bytes.old.items ++ part_bytes self.now part.now) }
        ensures err { OnErr result (bytes.new.items ≡ bytes.old.items) }
    {
        let _ = &self.next;
        match self
            .tree
            .read(part.entry, part.offset, u64::from(part.count), bytes)
        {
            Ok(()) => Ok(()),
            Err(_) => Err(AllocError),
        }
    }

    /// Answers a READ through the open of a number ([MS-SMB2] 3.3.5.12): adds the bytes of its file from `offset` on, at
    /// most `count`, behind those of a vector. They are copied once. One request may ask for `most` bytes. After a refusal the
    /// vector holds what it held.
    ///
    /// [`Status`](StoreFault::Status) tells the first row of the table that holds, and
    /// [`NoMemory`](StoreFault::NoMemory) that an allocation was refused where none does.
    pub fn read(
        &self,
        most: u32,
        number: OpenNo,
        offset: u64,
        count: u32,
        minimum: u32,
        bytes: &mut Vec<u8>,
    ) -> Result<(), StoreFault>
        ensures ok { OnOk result (bytes.new.items ≡ bytes.old.items ++ file_bytes self.now number offset count) }
        ensures lawful { OnOk result (read_status self.now most number offset count minimum ≡ NtStatus.Success) }
        ensures err { OnErr result (bytes.new.items ≡ bytes.old.items) }
        ensures why { IfErr result (λ fault. IsRefusal (read_status self.now most number offset count minimum) fault) }
    {
        let part = self.find_bytes(most, number, offset, count, minimum)?;
        self.add_part(&part, bytes)?;
        Ok(())
    }

    /// Answers a WRITE through the open of a number, which exists, at a moment, in units of 100 ns since 1601
    /// ([MS-SMB2] 3.3.5.13): puts the bytes into its file from `offset` on, and sets the file's times of the last write
    /// and change. One request may bring `most` bytes. No bytes change nothing.
    ///
    /// [`Row`](RefusedBy::Row) tells the first row of the table that holds, and [`NoMemory`](RefusedBy::NoMemory) that
    /// an allocation was refused where none does.
    pub fn write_by_row(
        &mut self,
        most: u32,
        number: OpenNo,
        offset: u64,
        buffer: &[u8],
        moment: u64,
    ) -> Result<(), RefusedBy<WriteRefusal>>
        requires open { IsSome (open_of self.old.opens number) }
        ensures shown { is_some (open_view self.old number) ≡ true }
        ensures store { OnOk result (self.new ≡ written_to self.old number offset buffer.now moment) }
        ensures lawful { OnOk result (write_refusal self.old most number offset buffer.now ≡ None) }
        ensures err { OnErr result (self.new ≡ self.old) }
        ensures why { IfErr result (λ refused. IsRefusedBy (write_refusal self.old most number offset buffer.now) refused) }
    {
        let Some(view) = self.view(number) else {
            unreachable!();
        };
        let is_barred = self.is_kept_from_writing(&view, number, offset, buffer.len());
        may_write(most, &view, is_barred, offset, buffer.len())?;
        if buffer.is_empty() {
            return Ok(());
        }
        write_file(&mut self.tree, view.entry, offset, buffer, moment)
    }

    /// [`write_by_row`](Self::write_by_row), with a refusal's status in its place; FILE_CLOSED where no open has the
    /// number.
    pub fn write(
        &mut self,
        most: u32,
        number: OpenNo,
        offset: u64,
        buffer: &[u8],
        moment: u64,
    ) -> Result<(), StoreFault>
        ensures store { OnOk result (self.new ≡ written_to self.old number offset buffer.now moment) }
        ensures lawful { OnOk result (write_status self.old most number offset buffer.now ≡ NtStatus.Success) }
        ensures err { OnErr result (self.new ≡ self.old) }
        ensures why { IfErr result (λ fault. IsRefusal (write_status self.old most number offset buffer.now) fault) }
    {
        let Some(_) = self.view(number) else {
            return Err(StoreFault::from(NtStatus::FileClosed));
        };
        match self.write_by_row(most, number, offset, buffer, moment) {
            Ok(()) => Ok(()),
            Err(refused) => Err(StoreFault::from(RefusedBy::<Refusal>::from(refused))),
        }
    }

    /// Answers a FLUSH of the open of a number, which exists ([MS-SMB2] 3.3.5.11): what was written is in the store already,
    /// so nothing is left to do.
    pub fn flush(&self, number: OpenNo)
        requires { IsSome (open_of self.now.opens number) }
    {
        let _ = self.opens.get(number);
    }
}
