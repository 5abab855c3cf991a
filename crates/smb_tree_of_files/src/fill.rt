//! Files get their bytes.

ghost use Rattle.std.specs.Prelude.{◌≡◌, ◌<◌, ◌≤◌, ◌+◌, ℕ, List, true, [], OnOk, length, replicate, take, drop, min};
ghost use Rattle.smb_tree.specs.Content.{Content, bytes_of, changed_in, resized, written};
ghost use Rattle.smb_tree.specs.Good.{GoodContent};
ghost use Rattle.smb_wire.specs.declared.limits.share.Limits.{Limits};
ghost use Rattle.smb_tree_of_files.specs.Building.{filled_to, IsFilled, IsTreeOf};

use super::fault::BuildFault;
use smb_held_files::HeldFiles;
use smb_nodes::NodeTree;
use smb_pages::Pages;
use smb_tree::{EntryNo, Tree, TreeFault};
use std::alloc::Global;

// How many bytes are copied at once: a page's.
const PART: u64 = 4096;

// Why a file cannot get its bytes.
fn fault_of(tree: &NodeTree, number: EntryNo, size: u64, fault: TreeFault) -> BuildFault
    ensures memory { result ≡ BuildFault.NoMemory → fault ≡ TreeFault.NoMemory }
    ensures long { result ≡ BuildFault.TooLong number → tree.now.limits.file_bytes < size }
{
    match fault {
        TreeFault::NoMemory => BuildFault::NoMemory,
        TreeFault::Full if size > tree.limits().file_bytes => BuildFault::TooLong { number },
        TreeFault::Full => BuildFault::NoRoom,
        _ => BuildFault::Unfit { number },
    }
}

// Gives a file its size: its bytes are zeros.
fn grow(tree: &mut NodeTree, number: EntryNo, size: u64) -> Result<(), BuildFault>
    ensures is { OnOk result (tree.new ≡ changed_in
        (λ entry. record entry { bytes = resized size entry.bytes }) tree.old number) }
    ensures good { OnOk result (GoodContent tree.old → GoodContent tree.new) }
{
    match tree.set_size(number, size) {
        Ok(()) => Ok(()),
        Err(fault) => Err(fault_of(tree, number, size, fault)),
    }
}

// Puts bytes into a file at an offset.
fn put(tree: &mut NodeTree, number: EntryNo, offset: u64, part: &[u8]) -> Result<(), BuildFault>
    ensures is { OnOk result (tree.new ≡ changed_in
        (λ entry. record entry { bytes = written offset part.now entry.bytes }) tree.old number) }
    ensures good { OnOk result (GoodContent tree.old → GoodContent tree.new) }
{
    match tree.write(number, offset, part) {
        Ok(()) => Ok(()),
        Err(fault) => Err(fault_of(tree, number, 0, fault)),
    }
}

// Whether bytes are all zeros.
fn are_zeros(part: &[u8]) -> bool
    ensures { result ≡ true → part.now ≡ replicate (length part.now) 0 }
{
    part.iter().all(|byte| *byte == 0)
}

// Puts a part of what a file is to have at its place, in which there are zeros.
fn put_part(
    tree: &mut NodeTree,
    number: EntryNo,
    offset: u64,
    part: &[u8],
) -> Result<(), BuildFault>
    ensures is { (whole : List ℕ) (content : Content) → offset ≤ length whole → part.now ≡ take 4096 (drop offset whole) →
        tree.old ≡ filled_to offset whole content number →
        OnOk result (tree.new ≡ filled_to (min (length whole) (offset + 4096)) whole content number) }
    ensures good { OnOk result (GoodContent tree.old → GoodContent tree.new) }
{
    if are_zeros(part) {
        return Ok(());
    }
    put(tree, number, offset, part)?;
    Ok(())
}

// Gives a file that has no bytes these: it takes no memory for a part that is all zeros.
fn pour(
    alloc: Global,
    tree: &mut NodeTree,
    number: EntryNo,
    bytes: &Pages,
) -> Result<(), BuildFault>
    ensures is { OnOk result (bytes_of tree.old.rows number ≡ [] →
        tree.new ≡ changed_in (λ entry. record entry { bytes = bytes.now }) tree.old number) }
    ensures good { OnOk result (GoodContent tree.old → GoodContent tree.new) }
{
    let size = bytes.size();
    if size == 0 {
        return Ok(());
    }
    grow(tree, number, size)?;
    let mut part = Vec::new(alloc);
    let mut offset = 0;
    while offset < size {
        part.clear();
        bytes.add_part(offset, PART, &mut part)?;
        put_part(tree, number, offset, &part)?;
        offset = size.min(offset.saturating_add(PART));
    }
    Ok(())
}

// Gives each file its bytes, and lets go what was held of it.
pub fn fill_all(alloc: Global, tree: &mut NodeTree, files: HeldFiles) -> Result<(), BuildFault>
    ensures { (limits : Limits) (capacity : ℕ) → IsFilled files files limits capacity tree.old →
        OnOk result (IsTreeOf files limits capacity tree.new) }
{
    let mut left = files;
    while let Some((number, file)) = left.take_first() {
        pour(alloc, tree, number, &file.bytes)?;
    }
    Ok(())
}
