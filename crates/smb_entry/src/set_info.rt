//! SET_INFO of a file or a folder, by what an open shows ([MS-SMB2] 3.3.5.21.1, [MS-FSA] 2.1.5.15).

ghost use Rattle.std.specs.Prelude.{◌≡◌, ◌≤◌, ◌+◌, nat_lt, true, false, None, Some, IfErr, OnOk, OnErr, is_some};
ghost use Rattle.std.specs.Option.{option_map};
ghost use Rattle.smb_wire.specs.Greatest.{greatest_file_bytes};
ghost use Rattle.smb_tree.specs.Content.{numbered, changed_in};
ghost use Rattle.smb_tree.specs.Parts.{with_mark};
ghost use Rattle.smb_tree.specs.Entries.{is_folder_kind, allocation_size, kept_basic};
ghost use Rattle.smb_refusals.specs.Rows.{first_refusal};
ghost use Rattle.smb_tree.specs.Good.{GoodContent};
ghost use Rattle.smb_entry.specs.SetInfo.{is_bad_time, time_set};
ghost use Rattle.smb_entry.specs.Parts.{shows_read_only_file, has_entries, mark_rows, delete_rows, has_no_space, size_rows, resized_file, leaves_size, has_bad_time, basic_rows, change_time_set, attributes_set, basic_set, entry_set};
ghost use Rattle.smb_refusals.specs.declared.refused_by.RefusedBy.TheVariants.{NoMemory};

use super::ask::BasicAsk;
use super::bytes::written_basic;
use bitflags::Flags;
use smb_access::View;
use smb_access::access::{is_deleting, is_writing_attributes};
use smb_access::found::ROOT;
use smb_refusals::{RefusedBy, SetBasicRefusal, SetDispositionRefusal, SetSizeRefusal};
use smb_tree::{Basic, EntryNo, Tree, allocation_size};
use smb_wire::{Access, FileAttributes};

/// The greatest time, in units of 100 ns since 1601.
const LAST_TIME: u64 = 0x7FFF_FFFF_FFFF_FFFF;

/// Whether a file with FILE_ATTRIBUTE_READONLY is shown.
fn shows_read_only_file(view: &View) -> bool
    ensures { result ≡ shows_read_only_file view.now }
{
    !view.kind.is_folder() && view.attributes.intersects(FileAttributes::READONLY)
}

/// Whether entries are in the folder of a number.
pub fn has_entries<T: Tree>(tree: &T, number: EntryNo) -> bool
    ensures { result ≡ has_entries (T.content tree.now).rows number }
{
    tree.child_after(number, None).is_some()
}

/// Whether the entry that an open shows may be marked, or why it is refused. Entries are in it or not.
fn may_mark(view: &View, is_occupied: bool) -> Result<(), SetDispositionRefusal>
    ensures lawful { OnOk result (first_refusal (mark_rows view.now is_occupied) ≡ None) }
    ensures why { IfErr result (λ refusal. first_refusal (mark_rows view.now is_occupied) ≡ Some refusal) }
{
    if view.entry == ROOT || shows_read_only_file(view) {
        return Err(SetDispositionRefusal::EntryNotDeletable);
    }
    if is_occupied {
        return Err(SetDispositionRefusal::DirectoryNotEmpty);
    }
    Ok(())
}

/// Whether the entry may be marked, or its mark be taken away, through the open that shows it, or why it is refused.
pub fn may_delete(
    view: &View,
    is_occupied: bool,
    is_deleted: bool,
) -> Result<(), SetDispositionRefusal>
    ensures lawful { OnOk result (first_refusal (delete_rows view.now is_occupied is_deleted) ≡ None) }
    ensures why { IfErr result (λ refusal. first_refusal (delete_rows view.now is_occupied is_deleted) ≡ Some refusal) }
{
    if !is_deleting(view.access) {
        return Err(SetDispositionRefusal::DeleteNotGranted);
    }
    if !is_deleted {
        return Ok(());
    }
    may_mark(view, is_occupied)
}

/// Marks an entry that exists, or takes its mark away.
pub fn mark_entry<T: Tree>(tree: &mut T, entry: EntryNo, mark: bool)
    requires { is_some (numbered (T.content tree.old).rows entry) ≡ true }
    ensures { T.content tree.new ≡ with_mark (T.content tree.old) entry mark }
{
    match tree.set_mark(entry, mark) {
        Ok(()) => {}
        Err(_) => unreachable!(),
    }
}

/// Whether a file of this size passes the capacity beside the others.
fn passes_capacity(capacity: u64, others: u64, size: u64) -> bool
    requires others { others ≤ capacity }
    requires small { size ≤ greatest_file_bytes }
    ensures { result ≡ nat_lt capacity (others + allocation_size size) }
{
    capacity - others < allocation_size(size)
}

/// Whether there is no room for an entry that exists with this size.
pub fn has_no_space<T: Tree>(tree: &T, entry: EntryNo, size: u64) -> bool
    requires good { GoodContent (T.content tree.now) }
    requires there { is_some (numbered (T.content tree.now).rows entry) ≡ true }
    ensures { result ≡ has_no_space (T.content tree.now) entry size }
{
    let Some(seen) = tree.entry(entry) else {
        unreachable!();
    };
    let limits = tree.limits();
    if size > limits.file_bytes {
        return true;
    }
    let others = tree.used() - allocation_size(seen.size);
    passes_capacity(tree.capacity(), others, size)
}

/// Whether the entry that an open shows may have another size, or why it is refused. There is room or not.
pub fn may_size(view: &View, is_full: bool) -> Result<(), SetSizeRefusal>
    ensures lawful { OnOk result (first_refusal (size_rows view.now is_full) ≡ None) }
    ensures file { OnOk result (is_folder_kind view.now.kind ≡ false) }
    ensures room { OnOk result (is_full ≡ false) }
    ensures why { IfErr result (λ refusal. first_refusal (size_rows view.now is_full) ≡ Some refusal) }
{
    if view.kind.is_folder() {
        return Err(SetSizeRefusal::EntryIsDirectory);
    }
    if !view.access.intersects(Access::WRITE_DATA) {
        return Err(SetSizeRefusal::WriteNotGranted);
    }
    if is_full {
        return Err(SetSizeRefusal::NoSpaceLeft);
    }
    Ok(())
}

/// Whether nothing is set, by the size before.
pub fn leaves_size(before: u64, size: u64, is_allocation: bool) -> bool
    ensures { result ≡ leaves_size before size is_allocation }
{
    is_allocation && before <= size
}

/// Gives a file another size, for which there is room, and sets its times of the last write and change. Where memory is
/// refused nothing changes.
pub fn size_file<T: Tree>(
    tree: &mut T,
    entry: EntryNo,
    size: u64,
    moment: u64,
) -> Result<(), RefusedBy<SetSizeRefusal>>
    requires file { option_map (λ row. is_folder_kind row.1.kind) (numbered (T.content tree.old).rows entry) ≡ Some false }
    requires room { has_no_space (T.content tree.old) entry size ≡ false }
    ensures ok { OnOk result (T.content tree.new ≡ changed_in (resized_file size moment) (T.content tree.old) entry) }
    ensures err { OnErr result (T.content tree.new ≡ T.content tree.old) }
    ensures memory { IfErr result (λ refused. refused ≡ NoMemory) }
{
    let Some(seen) = tree.entry(entry) else {
        unreachable!();
    };
    let basic = written_basic(moment, seen.basic);
    if let Err(_) = tree.set_size(entry, size) {
        return Err(RefusedBy::NoMemory);
    }
    match tree.set_basic(entry, basic) {
        Ok(()) => Ok(()),
        Err(_) => unreachable!(),
    }
}

/// Whether what is asked for is no time.
fn is_bad_time(time: u64) -> bool
    ensures { result ≡ is_bad_time time }
{
    time > LAST_TIME && time != u64::MAX && time != u64::MAX - 1
}

/// Whether one of the four that are asked for is no time.
fn has_bad_time(ask: &BasicAsk) -> bool
    ensures { result ≡ has_bad_time ask.now }
{
    is_bad_time(ask.creation_time)
        || is_bad_time(ask.last_access_time)
        || is_bad_time(ask.last_write_time)
        || is_bad_time(ask.change_time)
}

/// Whether the entry that an open shows may have the times and attributes that are asked for, or why it is refused.
pub fn may_set_basic(view: &View, ask: &BasicAsk) -> Result<(), SetBasicRefusal>
    ensures lawful { OnOk result (first_refusal (basic_rows view.now ask.now) ≡ None) }
    ensures why { IfErr result (λ refusal. first_refusal (basic_rows view.now ask.now) ≡ Some refusal) }
{
    if has_bad_time(ask) {
        return Err(SetBasicRefusal::TimeOrAttributesInvalid);
    }
    if !view.kind.is_folder() && ask.attributes.intersects(FileAttributes::DIRECTORY) {
        return Err(SetBasicRefusal::TimeOrAttributesInvalid);
    }
    if !is_writing_attributes(view.access) {
        return Err(SetBasicRefusal::AttributesNotGranted);
    }
    Ok(())
}

/// A time as it is asked for, by what it was.
fn time_set(asked: u64, before: u64) -> u64
    ensures { result ≡ time_set asked before }
{
    if asked == 0 || asked == u64::MAX || asked == u64::MAX - 1 {
        before
    } else {
        asked
    }
}

/// The time of the last change as it is asked for at a moment, by what it was.
fn change_time_set(asked: u64, moment: u64, before: u64) -> u64
    ensures { result ≡ change_time_set asked moment before }
{
    if asked == 0 {
        moment
    } else {
        time_set(asked, before)
    }
}

/// Attributes as they are asked for, by what they were.
fn attributes_set(asked: FileAttributes, before: FileAttributes) -> FileAttributes
    ensures { result ≡ record { 0 = attributes_set asked.0 before.0 } }
{
    if asked.0 == 0 { before } else { asked }
}

/// Times and attributes as they are asked for at a moment, by what they were.
fn basic_set(ask: &BasicAsk, moment: u64, basic: Basic) -> Basic
    ensures { kept_basic result ≡ basic_set ask.now moment basic }
{
    Basic {
        creation_time: time_set(ask.creation_time, basic.creation_time),
        last_access_time: time_set(ask.last_access_time, basic.last_access_time),
        last_write_time: time_set(ask.last_write_time, basic.last_write_time),
        change_time: change_time_set(ask.change_time, moment, basic.change_time),
        attributes: attributes_set(ask.attributes, basic.attributes),
    }
}

/// Gives an entry that exists the times and attributes that are asked for at a moment.
pub fn set_entry<T: Tree>(tree: &mut T, entry: EntryNo, ask: &BasicAsk, moment: u64)
    requires { is_some (numbered (T.content tree.old).rows entry) ≡ true }
    ensures { T.content tree.new ≡ changed_in (entry_set ask.now moment) (T.content tree.old) entry }
{
    let Some(seen) = tree.entry(entry) else {
        unreachable!();
    };
    let basic = basic_set(ask, moment, seen.basic);
    match tree.set_basic(entry, basic) {
        Ok(()) => {}
        Err(_) => unreachable!(),
    }
}
