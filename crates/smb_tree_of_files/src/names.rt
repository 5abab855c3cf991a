//! Temporary names: 32 letters from A to P, of which the first sixteen are no entry's own.

ghost use Rattle.std.specs.Prelude.{◌≡◌, ◌+◌, ◌<◌, ◌≤◌, OnOk, IfOk, IfSome, length};
ghost use Rattle.smb_wire.specs.Units.{units_of};

use super::fault::BuildFault;
use smb_held_files::HeldFiles;
use smb_tree::EntryNo;
use smb_wire::Units;
use std::alloc::{AllocError, Global};
use std::collections::BTreeMap;

// How many letters a number takes.
const LETTERS: usize = 16;

// Adds a number as sixteen letters from A to P, the lowest four bits first.
fn put_letters(name: &mut Vec<u8>, number: u64) -> Result<(), AllocError>
    ensures { OnOk result (length name.new.items ≡ length name.old.items + 32) }
{
    let mut rest = number;
    for _ in 0..LETTERS {
        name.push(0x41 + (rest % 16) as u8)?;
        name.push(0)?;
        rest /= 16;
    }
    Ok(())
}

// The temporary name of the entry of a number, two bytes a unit.
pub fn temporary_name(alloc: Global, key: u64, number: EntryNo) -> Result<Vec<u8>, AllocError>
    ensures { IfOk result (λ name. length name.items ≡ 64) }
{
    let mut name = Vec::new(alloc);
    put_letters(&mut name, key)?;
    put_letters(&mut name, number)?;
    Ok(name)
}

// The four bits that a letter says, in upper or lower case.
fn bits_of(unit: u16) -> Option<u64>
    ensures { IfSome result (λ bits. bits < 16) }
{
    match unit {
        0x41..=0x50 => Some(u64::from(unit - 0x41)),
        0x61..=0x70 => Some(u64::from(unit - 0x61)),
        _ => None,
    }
}

// The key of a name that could be a temporary one: what its first sixteen letters say.
fn key_of(name: Units<'_>) -> Option<u64>
    ensures { IfSome result (λ _. length (units_of name.entry) ≡ 32) }
{
    if name.len() != 2 * LETTERS {
        return None;
    }
    let mut key = 0u64;
    for i in 0..LETTERS {
        let bits = bits_of(name.unit(LETTERS - 1 - i))?;
        key = key.wrapping_mul(16).wrapping_add(bits);
    }
    Some(key)
}

// A key that no entry's own name has, so that no temporary name with it is an entry's own.
pub fn free_key(alloc: Global, files: &HeldFiles, numbers: &[EntryNo]) -> Result<u64, BuildFault>
    ensures { IfOk result (λ key. key ≤ length numbers.now) }
{
    let mut taken = BTreeMap::new(alloc);
    for number in numbers {
        if let Some(file) = files.get(*number) {
            if let Some(key) = Units::of(&file.spelling).and_then(key_of) {
                if taken.insert(key, ()).is_err() {
                    return Err(BuildFault::NoMemory);
                }
            }
        }
    }
    for key in 0..=numbers.len() as u64 {
        if !taken.contains_key(&key) {
            return Ok(key);
        }
    }
    Err(BuildFault::TooManyEntries)
}
