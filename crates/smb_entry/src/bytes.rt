//! READ and WRITE of a file, by what an open shows ([MS-SMB2] 3.3.5.12, 3.3.5.13).

ghost use Rattle.std.specs.Prelude.{◌≡◌, ◌≤◌, Bool, false, None, Some, is_some, IfErr, OnOk, OnErr, nat_lt, ◌&&◌, length, if◌then◌else◌};
ghost use Rattle.std.specs.Option.{option_map};
ghost use Rattle.smb_tree.specs.Content.{numbered};
ghost use Rattle.smb_tree.specs.Entries.{is_folder_kind, kept_basic};
ghost use Rattle.smb_tree.specs.Faults.{write_fault};
ghost use Rattle.smb_entry.specs.Parts.{bytes_there, read_rows, may_not_write, write_rows, written_tree, written_basic, refused_by_tree};
ghost use Rattle.smb_refusals.specs.Rows.{first_refusal};
ghost use Rattle.smb_refusals.specs.Refused.{IsRefusedBy};

use bitflags::Flags;
use smb_access::View;
use smb_access::access::{is_reading, is_writing};
use smb_refusals::{ReadRefusal, RefusedBy, WriteRefusal};
use smb_tree::{Basic, EntryNo, Tree, TreeFault};
use smb_wire::Access;

/// How many bytes of a file of this size there are from an offset on, at most `count`.
pub fn bytes_there(size: u64, offset: u64, count: u32) -> u32
    ensures { result ≡ bytes_there size offset count }
{
    let left = size.saturating_sub(offset);
    if left < u64::from(count) {
        left as u32
    } else {
        count
    }
}

/// Whether a READ through an open that shows this is answered by bytes, or why it is refused. One request may ask for
/// `most` bytes; a lock bars it or not.
pub fn may_read(
    most: u32,
    view: &View,
    is_barred: bool,
    offset: u64,
    count: u32,
    minimum: u32,
) -> Result<(), ReadRefusal>
    ensures lawful { OnOk result (first_refusal (read_rows most view.now is_barred offset count minimum) ≡ None) }
    ensures file { OnOk result (is_folder_kind view.now.kind ≡ false) }
    ensures few { OnOk result (count ≤ most) }
    ensures why { IfErr result (λ refusal. first_refusal (read_rows most view.now is_barred offset count minimum) ≡ Some refusal) }
{
    if count > most {
        return Err(ReadRefusal::LengthTooGreat);
    }
    if view.kind.is_folder() {
        return Err(ReadRefusal::EntryIsDirectory);
    }
    if !is_reading(view.access) {
        return Err(ReadRefusal::ReadNotGranted);
    }
    if is_barred {
        return Err(ReadRefusal::RangeLocked);
    }
    if count > 0 && offset >= view.size || bytes_there(view.size, offset, count) < minimum {
        return Err(ReadRefusal::EndOfFile);
    }
    Ok(())
}

/// Whether an open that shows this may not write at an offset.
fn may_not_write(view: &View, offset: u64) -> bool
    ensures { result ≡ may_not_write view.now offset }
{
    !is_writing(view.access) || !view.access.intersects(Access::WRITE_DATA) && offset < view.size
}

/// Whether a WRITE through an open that shows this goes on, which the room then decides, or why it is refused. One
/// request may bring `most` bytes; a lock bars it or not.
pub fn may_write(
    most: u32,
    view: &View,
    is_barred: bool,
    offset: u64,
    count: usize,
) -> Result<(), WriteRefusal>
    ensures goes_on { OnOk result ((is_full : Bool) → first_refusal (write_rows most view.now is_barred offset count is_full) ≡ (if nat_lt 0 count && is_full then Some WriteRefusal.NoSpaceLeft else None)) }
    ensures file { OnOk result (is_folder_kind view.now.kind ≡ false) }
    ensures why { IfErr result (λ refusal. (is_full : Bool) → first_refusal (write_rows most view.now is_barred offset count is_full) ≡ Some refusal) }
{
    if count > most as usize {
        return Err(WriteRefusal::LengthTooGreat);
    }
    if view.kind.is_folder() {
        return Err(WriteRefusal::EntryIsDirectory);
    }
    if may_not_write(view, offset) {
        return Err(WriteRefusal::WriteNotGranted);
    }
    if is_barred {
        return Err(WriteRefusal::RangeLocked);
    }
    Ok(())
}

/// What a file's times become that was written at a moment, its attributes as they are.
pub fn written_basic(moment: u64, basic: Basic) -> Basic
    ensures { kept_basic result ≡ written_basic moment basic }
{
    Basic {
        last_write_time: moment,
        change_time: moment,
        ..basic
    }
}

/// By which row a WRITE is refused where the tree refuses its bytes, or that it is for want of memory.
fn refused_by_tree(fault: TreeFault) -> RefusedBy<WriteRefusal>
    ensures { result ≡ refused_by_tree fault }
{
    match fault {
        TreeFault::Full => RefusedBy::Row(WriteRefusal::NoSpaceLeft),
        TreeFault::Absent
        | TreeFault::Exists
        | TreeFault::ParentAbsent
        | TreeFault::NotEmpty
        | TreeFault::TooDeep
        | TreeFault::NoMemory => RefusedBy::NoMemory,
    }
}

/// Puts bytes into a file, and sets its times of the last write and change. A refusal changes nothing; it is for want of room,
/// or where there is room for want of memory.
pub fn write_file<T: Tree>(
    tree: &mut T,
    entry: EntryNo,
    offset: u64,
    buffer: &[u8],
    moment: u64,
) -> Result<(), RefusedBy<WriteRefusal>>
    requires file { option_map (λ row. is_folder_kind row.1.kind) (numbered (T.content tree.old).rows entry) ≡ Some false }
    ensures ok { OnOk result (T.content tree.new ≡ written_tree (T.content tree.old) entry offset buffer.now moment) }
    ensures room { OnOk result (write_fault (T.content tree.old) entry offset (length buffer.now) ≡ None) }
    ensures err { OnErr result (T.content tree.new ≡ T.content tree.old) }
    ensures why { IfErr result (λ refused. IsRefusedBy (if is_some (write_fault (T.content tree.old) entry offset (length buffer.now)) then Some WriteRefusal.NoSpaceLeft else None) refused) }
{
    let Some(seen) = tree.entry(entry) else {
        unreachable!();
    };
    let basic = written_basic(moment, seen.basic);
    if let Err(fault) = tree.write(entry, offset, buffer) {
        return Err(refused_by_tree(fault));
    }
    match tree.set_basic(entry, basic) {
        Ok(()) => Ok(()),
        Err(_) => unreachable!(),
    }
}
