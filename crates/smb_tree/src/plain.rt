//! The plain tree: a list of entries.

ghost use Rattle.std.specs.Prelude.{◌≡◌, ◌<◌, ◌≤◌, ◌+◌, ◌-◌, ◌^◌, ◌++◌, ◌∷◌, [], ◌||◌, Bool, None, Some, IfOk, IfErr, OnOk, OnErr, if◌then◌else◌, nat_lt, max, min, length};
ghost use Rattle.std.specs.List.{remove};
ghost use Rattle.smb_wire.specs.Greatest.{greatest_file_bytes};
ghost use Rattle.smb_tree.specs.Content.{resized, written, new_content, new_content_within, used_space};
ghost use Rattle.smb_tree.specs.Entries.{allocation_size, kept_basic, is_folder_kind};
ghost use Rattle.smb_tree.specs.Plain.{row_of, rows_of};
ghost use Rattle.smb_tree.specs.declared.fault.TreeFault.TheVariants.{NoMemory, Absent, Full};

use super::bytes::{add_part, put_at};
use super::children::{has_children, name_of, next_child};
use super::entry::{Basic, EntryNo, EntryView, Kind, allocation_size};
use super::entry_copy::EntryCopy;
use super::fault::TreeFault;
use super::look::{add_fault, place_of, stored_at, view_of};
use super::moves::{move_fault, place_of_other, put_texts, texts_moved};
use super::paths::{is_within, path_of};
use super::stored::Stored;
use super::texts::text_of;
use super::tree::Tree;
use super::whole_names::whole_name;
use smb_reason::Reason;
use smb_wire::limits::Limits;
use smb_wire::{FileAttributes, FoldedName, PathView};
use std::alloc::{AllocError, Global};
use std::fmt;
use std::marker::Model;

/// A tree that is a list of entries, each with its whole path and its bytes. A look-up by path or number goes
/// through the list, [`child_after`](Tree::child_after), [`is_within`](Tree::is_within) and [`remove`](Tree::remove)
/// twice; none of these takes memory. [`copy_entry`](Tree::copy_entry) goes through the list once for each component of the path, and takes
/// memory for the name. [`move_entry`](Tree::move_entry) goes through the list eight times; before it changes
/// anything, it takes memory for the new path of each entry that is moved, and a few words for each other one. A
/// read copies the bytes that it gives once, in one block. A write copies its bytes once, in one block, over zeros
/// where the file gets longer; the whole file is moved where its vector has to grow.
#[derive(Drop)]
pub struct PlainTree {
    entries: Vec<Stored>,
    next: EntryNo,
    used: u64,
    capacity: u64,
    limits: Limits,
    alloc: Global,
}

impl fmt::Debug for PlainTree {
    fn fmt<W: fmt::Write>(&self, f: &mut fmt::Formatter<W>) -> fmt::Result {
        write!(
            f,
            "PlainTree {{ entries: {}, used: {}, .. }}",
            self.entries.len(),
            self.used
        )
    }
}

impl Model for PlainTree {
    ghost use Rattle.smb_tree.specs.Content.{Content};

    ghost Value = { Content };

    ghost use Rattle.smb_tree.specs.Tree.{content_kept, KeepsUsed};

    ghost view = { content_kept };

    ghost invariant = { KeepsUsed };
}

impl PlainTree {
    /// A tree that has the root alone, its four times `created` (in units of 100 ns since 1601), with so many
    /// bytes of space. [`NoMemory`](TreeFault::NoMemory) is the only refusal.
    pub fn new(alloc: Global, created: u64, capacity: u64) -> Result<PlainTree, TreeFault>
        ensures ok { IfOk result (λ tree. tree ≡ new_content created capacity) }
        ensures err { IfErr result (λ fault. fault ≡ NoMemory) }
    {
        PlainTree::within(alloc, Limits::profile(), created, capacity)
    }

    /// [`new`](Self::new) under these limits.
    pub fn within(
        alloc: Global,
        limits: Limits,
        created: u64,
        capacity: u64,
    ) -> Result<PlainTree, TreeFault>
        ensures ok { IfOk result (λ tree. tree ≡ new_content_within limits created capacity) }
        ensures err { IfErr result (λ fault. fault ≡ NoMemory) }
    {
        let mut entries = Vec::new(alloc);
        let root = Stored {
            text: Vec::new(alloc),
            bytes: Vec::new(alloc),
            number: 1,
            kind: Kind::Folder,
            basic: Basic::of(FileAttributes(0), created),
            mark: false,
        };
        put(&mut entries, root)?;
        Ok(PlainTree {
            entries,
            next: 2,
            used: 0,
            capacity,
            limits,
            alloc,
        })
    }
}

// Adds a stored entry at the end.
fn put(entries: &mut Vec<Stored>, stored: Stored) -> Result<(), AllocError>
    ensures ok { OnOk result (rows_of entries.new.items ≡ rows_of entries.old.items ++ row_of stored ∷ []) }
    ensures err { OnErr result (entries.new.items ≡ entries.old.items) }
{
    entries.push(stored)?;
    Ok(())
}

// The first fault of a size that a stored entry would get, where the other entries use so much space.
fn size_fault(
    stored: &Stored,
    most: u64,
    others: u64,
    capacity: u64,
    size: u64,
) -> Option<TreeFault>
    requires { most ≤ greatest_file_bytes }
    ensures { result ≡ (if is_folder_kind stored.now.kind then Some Absent else if nat_lt most size || nat_lt capacity (others + allocation_size size) then Some Full else None) }
{
    if stored.kind.is_folder() {
        return Some(TreeFault::Absent);
    }
    if size > most || capacity < others || capacity - others < allocation_size(size) {
        return Some(TreeFault::Full);
    }
    None
}

// Gives a stored entry another size.
fn resize(stored: &mut Stored, size: u64) -> Result<(), AllocError>
    requires { size ≤ greatest_file_bytes }
    ensures ok { OnOk result (row_of stored.new ≡ ((row_of stored.old).0, record (row_of stored.old).1 { bytes = resized size stored.old.bytes.items })) }
    ensures err { OnErr result (row_of stored.new ≡ row_of stored.old) }
{
    stored.bytes.resize(size as usize, 0)?;
    Ok(())
}

// Gives a stored entry other times and attributes.
fn rebase(stored: &mut Stored, basic: Basic)
    ensures { row_of stored.new ≡ ((row_of stored.old).0, record (row_of stored.old).1 { basic = kept_basic basic }) }
{
    stored.basic = basic.kept();
}

// Marks a stored entry, or takes its mark away.
fn put_mark(stored: &mut Stored, mark: bool)
    ensures { row_of stored.new ≡ ((row_of stored.old).0, record (row_of stored.old).1 { mark = mark }) }
{
    stored.mark = mark;
}

// The size that a stored file gets by a write; the greatest number where it is none of 64 bits.
fn size_written(stored: &Stored, offset: u64, buffer: &[u8]) -> u64
    ensures { result ≡ max (length stored.now.bytes.items) (min (offset + length buffer.now) (2 ^ 64 - 1)) }
{
    let end = offset.saturating_add(buffer.len() as u64);
    end.max(stored.bytes.len() as u64)
}

// Puts bytes into a stored file.
fn overwrite(stored: &mut Stored, offset: u64, buffer: &[u8]) -> Result<(), AllocError>
    requires { offset + length buffer.now ≤ greatest_file_bytes }
    ensures ok { OnOk result (row_of stored.new ≡ ((row_of stored.old).0, record (row_of stored.old).1 { bytes = written offset buffer.now stored.old.bytes.items })) }
    ensures err { OnErr result (row_of stored.new ≡ row_of stored.old) }
{
    put_at(&mut stored.bytes, offset as usize, buffer)
}

// Takes out a stored entry, and gives the space that it used.
fn take_out(entries: &mut Vec<Stored>, place: usize) -> u64
    requires { place < length entries.old.items }
    ensures items { entries.new.items ≡ remove entries.old.items place }
    ensures space { used_space (rows_of entries.new.items) + result ≡ used_space (rows_of entries.old.items) }
{
    let stored = entries.remove(place);
    allocation_size(stored.bytes.len() as u64)
}

impl Tree for PlainTree {
    ghost content = { λ content. content };

    ghost is_kept = { λ _. Unit {0} };

    fn find(&self, path: &PathView<'_>) -> Option<EntryNo> {
        let stored = stored_at(&self.entries, path.text())?;
        Some(stored.number)
    }

    fn entry(&self, number: EntryNo) -> Option<EntryView<'_>> {
        let i = place_of(&self.entries, number)?;
        Some(view_of(&self.entries, &self.entries[i]))
    }

    fn copy_entry(&self, alloc: Global, number: EntryNo) -> Result<EntryCopy, TreeFault> {
        let Some(i) = place_of(&self.entries, number) else {
            return Err(TreeFault::Absent);
        };
        let stored = &self.entries[i];
        let name = whole_name(alloc, &self.entries, &path_of(stored))?;
        Ok(EntryCopy {
            number,
            kind: stored.kind,
            basic: stored.basic,
            size: stored.bytes.len() as u64,
            mark: stored.mark,
            name,
        })
    }

    fn child_after(&self, number: EntryNo, after: Option<&FoldedName>) -> Option<EntryNo> {
        let i = place_of(&self.entries, number)?;
        next_child(&self.entries, text_of(&self.entries[i]), after)
    }

    fn name(&self, number: EntryNo) -> Option<FoldedName> {
        let i = place_of(&self.entries, number)?;
        Some(name_of(&self.entries[i]))
    }

    fn is_within(&self, above: EntryNo, number: EntryNo) -> bool {
        let Some(top) = place_of(&self.entries, above) else {
            return false;
        };
        let Some(i) = place_of(&self.entries, number) else {
            return false;
        };
        let head = path_of(&self.entries[top]);
        let path = path_of(&self.entries[i]);
        is_within(&head, &path)
    }

    fn next_no(&self) -> Option<EntryNo> {
        if self.next == EntryNo::MAX {
            None
        } else {
            Some(self.next)
        }
    }

    fn used(&self) -> u64 {
        self.used
    }

    fn capacity(&self) -> u64 {
        self.capacity
    }

    fn limits(&self) -> Limits {
        self.limits
    }

    fn add(
        &mut self,
        path: &PathView<'_>,
        kind: Kind,
        attributes: FileAttributes,
        moment: u64,
    ) -> Result<EntryNo, TreeFault> {
        if let Some(fault) = add_fault(&self.entries, self.limits.entries, self.next, path) {
            return Err(fault);
        }
        let number = self.next;
        let text = Vec::from_slice(self.alloc, path.text().bytes())?;
        let stored = Stored {
            text,
            bytes: Vec::new(self.alloc),
            number,
            kind,
            basic: Basic::of(attributes, moment),
            mark: false,
        };
        put(&mut self.entries, stored)?;
        self.next = number + 1;
        Ok(number)
    }

    fn set_size(&mut self, number: EntryNo, size: u64) -> Result<(), TreeFault> {
        let Some(i) = place_of(&self.entries, number) else {
            return Err(TreeFault::Absent);
        };
        let stored = &self.entries[i];
        let others = self.used - allocation_size(stored.bytes.len() as u64);
        if let Some(fault) = size_fault(
            stored,
            self.limits.file_bytes,
            others,
            self.capacity,
            size,
        ) {
            return Err(fault);
        }
        resize(&mut self.entries[i], size)?;
        self.used = others + allocation_size(size);
        Ok(())
    }

    fn set_basic(&mut self, number: EntryNo, basic: Basic) -> Result<(), TreeFault> {
        let Some(i) = place_of(&self.entries, number) else {
            return Err(TreeFault::Absent);
        };
        rebase(&mut self.entries[i], basic);
        Ok(())
    }

    fn set_mark(&mut self, number: EntryNo, mark: bool) -> Result<(), TreeFault> {
        let Some(i) = place_of(&self.entries, number) else {
            return Err(TreeFault::Absent);
        };
        put_mark(&mut self.entries[i], mark);
        Ok(())
    }

    fn remove(&mut self, number: EntryNo) -> Result<(), TreeFault> {
        let Some(i) = place_of(&self.entries, number) else {
            return Err(TreeFault::Absent);
        };
        let stored = &self.entries[i];
        if has_children(&self.entries, text_of(stored)) {
            return Err(TreeFault::NotEmpty);
        }
        let others = self.used - allocation_size(stored.bytes.len() as u64);
        let _ = self.entries.remove(i);
        self.used = others;
        Ok(())
    }

    fn move_entry(&mut self, number: EntryNo, path: &PathView<'_>) -> Result<(), TreeFault> {
        let Some(i) = place_of(&self.entries, number) else {
            return Err(TreeFault::Absent);
        };
        let from = path_of(&self.entries[i]);
        if let Some(fault) = move_fault(&self.entries, number, &from, path) {
            return Err(fault);
        }
        let mut texts = texts_moved(self.alloc, &self.entries, &from, path)?;
        let target = place_of_other(&self.entries, number, path);
        put_texts(&mut self.entries, &mut texts);
        if let Some(place) = target {
            self.used -= take_out(&mut self.entries, place);
        }
        Ok(())
    }

    fn read(
        &self,
        number: EntryNo,
        offset: u64,
        count: u64,
        bytes: &mut Vec<u8>,
    ) -> Result<(), TreeFault> {
        let Some(i) = place_of(&self.entries, number) else {
            return Err(TreeFault::Absent);
        };
        let stored = &self.entries[i];
        if stored.kind.is_folder() {
            return Err(TreeFault::Absent);
        }
        add_part(&stored.bytes, offset, count, bytes)?;
        Ok(())
    }

    fn write(&mut self, number: EntryNo, offset: u64, buffer: &[u8]) -> Result<(), TreeFault> {
        let Some(i) = place_of(&self.entries, number) else {
            return Err(TreeFault::Absent);
        };
        let stored = &self.entries[i];
        let others = self.used - allocation_size(stored.bytes.len() as u64);
        let new_size = size_written(stored, offset, buffer);
        if let Some(fault) = size_fault(
            stored,
            self.limits.file_bytes,
            others,
            self.capacity,
            new_size,
        ) {
            return Err(fault);
        }
        overwrite(&mut self.entries[i], offset, buffer)?;
        self.used = others + allocation_size(new_size);
        Ok(())
    }

    // It keeps nothing beside itself.
    fn keep_changes(&mut self) -> Result<(), Reason> {
        Ok(())
    }
}
