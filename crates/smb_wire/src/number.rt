//! Numbers at a place of some bytes, and numbers added to a vector ([MS-SMB2] 2.2).

ghost use Rattle.std.specs.Prelude.{◌≡◌, ◌++◌, ◌+◌, OnOk, OnErr, length};
ghost use Rattle.std.specs.Option.{option_map};
ghost use Rattle.smb_wire.specs.Number.{field_at, number_spelled, spelling, EachNumberHasOneSpelling, WhatIsPutIsRead};

use super::fault::WireFault;
use byteorder::{ByteOrder, LittleEndian};

/// The `width` bytes from `at` on, or None where they pass the end.
fn bytes_at(bytes: &[u8], at: usize, width: usize) -> Option<&[u8]>
    ensures { option_map (λ field. field.now) result ≡ field_at width bytes.now at }
{
    if bytes.len() < width || bytes.len() - width < at {
        return None;
    }
    Some(&bytes[at..at + width])
}

/// The 16-bit number in the 2 bytes from `at` on, or None where they pass the end.
pub fn u16_at(bytes: &[u8], at: usize) -> Option<u16>
    ensures { result ≡ number_spelled 2 bytes.now at }
{
    let field = bytes_at(bytes, at, 2)?;
    Some(LittleEndian::read_u16(field))
}

/// The 32-bit number in the 4 bytes from `at` on, or None where they pass the end.
pub fn u32_at(bytes: &[u8], at: usize) -> Option<u32>
    ensures { result ≡ number_spelled 4 bytes.now at }
{
    let field = bytes_at(bytes, at, 4)?;
    Some(LittleEndian::read_u32(field))
}

/// The 64-bit number in the 8 bytes from `at` on, or None where they pass the end.
pub fn u64_at(bytes: &[u8], at: usize) -> Option<u64>
    ensures { result ≡ number_spelled 8 bytes.now at }
{
    let field = bytes_at(bytes, at, 8)?;
    Some(LittleEndian::read_u64(field))
}

/// A 16-bit number as 2 bytes, the lowest first.
#[tactic(auto, unfolding(crate::specs::Number::spelling))]
pub fn in_two(number: u16) -> [u8; 2]
    ensures { result ≡ spelling 2 number }
{
    number.to_le_bytes()
}

/// A 32-bit number as 4 bytes, the lowest first.
#[tactic(auto, unfolding(crate::specs::Number::spelling))]
pub fn in_four(number: u32) -> [u8; 4]
    ensures { result ≡ spelling 4 number }
{
    number.to_le_bytes()
}

/// A 64-bit number as 8 bytes, the lowest first.
#[tactic(auto, unfolding(crate::specs::Number::spelling))]
pub fn in_eight(number: u64) -> [u8; 8]
    ensures { result ≡ spelling 8 number }
{
    number.to_le_bytes()
}

/// Adds a 16-bit number as 2 bytes. [`WireFault::NoMemory`] leaves `out` as it was.
#[tactic(auto, unfolding(crate::specs::Number::spelling))]
pub fn put_u16(out: &mut Vec<u8>, number: u16) -> Result<(), WireFault>
    ensures ok { OnOk result (out.new.items ≡ out.old.items ++ spelling 2 number) }
    ensures len { OnOk result (length out.new.items ≡ length out.old.items + 2) }
    ensures err { OnErr result (out.new.items ≡ out.old.items) }
{
    let mut field = [0u8; 2];
    LittleEndian::write_u16(&mut field, number);
    out.extend_from_slice(&field)?;
    Ok(())
}

/// Adds a 32-bit number as 4 bytes. [`WireFault::NoMemory`] leaves `out` as it was.
#[tactic(auto, unfolding(crate::specs::Number::spelling))]
pub fn put_u32(out: &mut Vec<u8>, number: u32) -> Result<(), WireFault>
    ensures ok { OnOk result (out.new.items ≡ out.old.items ++ spelling 4 number) }
    ensures len { OnOk result (length out.new.items ≡ length out.old.items + 4) }
    ensures err { OnErr result (out.new.items ≡ out.old.items) }
{
    let mut field = [0u8; 4];
    LittleEndian::write_u32(&mut field, number);
    out.extend_from_slice(&field)?;
    Ok(())
}

/// Adds a 64-bit number as 8 bytes. [`WireFault::NoMemory`] leaves `out` as it was.
#[tactic(auto, unfolding(crate::specs::Number::spelling))]
pub fn put_u64(out: &mut Vec<u8>, number: u64) -> Result<(), WireFault>
    ensures ok { OnOk result (out.new.items ≡ out.old.items ++ spelling 8 number) }
    ensures len { OnOk result (length out.new.items ≡ length out.old.items + 8) }
    ensures err { OnErr result (out.new.items ≡ out.old.items) }
{
    let mut field = [0u8; 8];
    LittleEndian::write_u64(&mut field, number);
    out.extend_from_slice(&field)?;
    Ok(())
}

/// The laws of numbers and their spellings: the contract is the statement, and the body does nothing.
pub fn laws_of_numbers()
    ensures one { EachNumberHasOneSpelling }
    ensures put { WhatIsPutIsRead }
{}
