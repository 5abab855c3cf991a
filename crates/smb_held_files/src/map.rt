//! The entries by their numbers.

ghost use Rattle.std.specs.Prelude.{◌≡◌, ◌+◌, ◌≤◌, ◌<◌, ℕ, [], None, Some, length};
ghost use Rattle.std.specs.Prelude.{IsSome, IfSome, IfNone, OnOk, OnErr};
ghost use Rattle.std.specs.Ordering.{nat_cmp};
ghost use Rattle.std.specs.BTreeMap.{get};
ghost use Rattle.smb_wire.specs.Greatest.{greatest_file_bytes};
ghost use Rattle.smb_tree.specs.Content.{resized, written};
ghost use Rattle.smb_files.specs.Files.{bytes_in};
ghost use Rattle.smb_held_files.specs.Held.{file_shown};
ghost use Rattle.smb_held_files.specs.Views.{shown_at, with_other_bytes, IsPut};

use super::file::HeldFile;
use smb_tree::EntryNo;
use std::alloc::AllocError;
use std::collections::BTreeMap;
use std::ops::Bound;

// Makes an entry what another one is, but for its bytes, which stay.
fn replace(held: &mut HeldFile, file: HeldFile)
    ensures { file_shown held.new ≡ record (file_shown file) { bytes = held.old.bytes } }
{
    held.parent = file.parent;
    held.kind = file.kind;
    held.mark = file.mark;
    held.basic = file.basic;
    held.spelling = file.spelling;
}

/// Puts an entry that has no bytes. Where its number has one already, that one becomes the same, and keeps its bytes:
/// this takes no memory. `Err`: there was no memory, and all is as it was.
pub fn put(
    files: &mut BTreeMap<EntryNo, HeldFile>,
    number: EntryNo,
    file: HeldFile,
) -> Result<(), AllocError>
    requires { file.bytes ≡ [] }
    ensures ok { let bytes = bytes_in (shown_at files.old.entries number) in
        OnOk result (IsPut files.old.entries files.new.entries number
        (Some (record (file_shown file) { bytes = bytes }))) }
    ensures err { OnErr result (files.new.entries ≡ files.old.entries) }
{
    if let Some(held) = files.get_mut(&number) {
        replace(held, file);
        return Ok(());
    }
    files.insert(number, file)?;
    Ok(())
}

/// Puts bytes at an offset of an entry, if there is one. `Err`: there was no memory, and all is as it was.
pub fn write(
    files: &mut BTreeMap<EntryNo, HeldFile>,
    number: EntryNo,
    offset: u64,
    bytes: &[u8],
) -> Result<(), AllocError>
    requires { offset + length bytes.now ≤ greatest_file_bytes }
    ensures ok { OnOk result (IsPut files.old.entries files.new.entries number
        (with_other_bytes (written offset bytes.now) (shown_at files.old.entries number))) }
    ensures err { OnErr result
        (IsPut files.old.entries files.new.entries number (shown_at files.old.entries number)) }
{
    match files.get_mut(&number) {
        Some(held) => held.bytes.put_at(offset, bytes),
        None => Ok(()),
    }
}

/// Gives an entry a size, if there is one. It takes no memory.
pub fn resize(files: &mut BTreeMap<EntryNo, HeldFile>, number: EntryNo, size: u64)
    requires { size ≤ greatest_file_bytes }
    ensures { IsPut files.old.entries files.new.entries number
        (with_other_bytes (resized size) (shown_at files.old.entries number)) }
{
    if let Some(held) = files.get_mut(&number) {
        held.bytes.resize(size);
    }
}

/// Takes an entry out, if there is one. It takes no memory.
pub fn take(files: &mut BTreeMap<EntryNo, HeldFile>, number: EntryNo)
    ensures { IsPut files.old.entries files.new.entries number None }
{
    let _ = files.remove(&number);
}

/// The least number of all.
pub fn first_number(files: &BTreeMap<EntryNo, HeldFile>) -> Option<EntryNo>
    ensures there { IfSome result (λ number. IsSome (get nat_cmp files.now number)) }
    ensures least { IfSome result (λ number. (q : ℕ) → q < number → get nat_cmp files.now q ≡ None) }
    ensures none { IfNone result ((q : ℕ) → get nat_cmp files.now q ≡ None) }
{
    let (number, _) = files.first_key_value()?;
    Some(*number)
}

/// The least number above another one.
pub fn number_above(files: &BTreeMap<EntryNo, HeldFile>, other: EntryNo) -> Option<EntryNo>
    ensures there { IfSome result (λ number. IsSome (get nat_cmp files.now number)) }
    ensures above { IfSome result (λ number. other < number) }
    ensures least { IfSome result
        (λ number. (q : ℕ) → other < q → q < number → get nat_cmp files.now q ≡ None) }
    ensures none { IfNone result ((q : ℕ) → other < q → get nat_cmp files.now q ≡ None) }
{
    let above = (Bound::Excluded(other), Bound::Unbounded);
    let (number, _) = files.range(above).next()?;
    Some(*number)
}

/// Takes out the entry of the least number of all. It takes no memory.
pub fn take_first(files: &mut BTreeMap<EntryNo, HeldFile>) -> Option<(EntryNo, HeldFile)>
    ensures taken { IfSome result (λ first. get nat_cmp files.old first.0 ≡ Some first.1) }
    ensures put { IfSome result (λ first. IsPut files.old.entries files.new.entries first.0 None) }
    ensures least { IfSome result (λ first. (q : ℕ) → q < first.0 → get nat_cmp files.old q ≡ None) }
    ensures none { IfNone result ((q : ℕ) → get nat_cmp files.old q ≡ None) }
    ensures same { IfNone result (files.new.entries ≡ files.old.entries) }
{
    let (number, file) = files.pop_first()?;
    Some((number, file))
}
