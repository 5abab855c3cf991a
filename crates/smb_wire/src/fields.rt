//! Fields of a format whose length was looked at already.

ghost use Rattle.std.specs.Prelude.{◌≡◌, ◌++◌, ◌+◌, ◌≤◌, OnOk, OnErr, length};
ghost use Rattle.smb_wire.specs.Number.{spelling};
ghost use Rattle.smb_wire.specs.Fields.{number_in, WhatIsJoinedStands, JoinedIsAsWide};

use super::fault::WireFault;
use byteorder::{ByteOrder, LittleEndian};

/// The byte at `at`, which is within the bytes.
pub fn u8_in(bytes: &[u8], at: usize) -> u8
    requires { at + 1 ≤ length bytes.now }
    ensures { result ≡ number_in 1 at bytes.now }
{
    bytes[at]
}

/// The 16-bit number in the 2 bytes from `at` on, which are within the bytes.
pub fn u16_in(bytes: &[u8], at: usize) -> u16
    requires { at + 2 ≤ length bytes.now }
    ensures { result ≡ number_in 2 at bytes.now }
{
    LittleEndian::read_u16(&bytes[at..])
}

/// The 32-bit number in the 4 bytes from `at` on, which are within the bytes.
pub fn u32_in(bytes: &[u8], at: usize) -> u32
    requires { at + 4 ≤ length bytes.now }
    ensures { result ≡ number_in 4 at bytes.now }
{
    LittleEndian::read_u32(&bytes[at..])
}

/// The 64-bit number in the 8 bytes from `at` on, which are within the bytes.
pub fn u64_in(bytes: &[u8], at: usize) -> u64
    requires { at + 8 ≤ length bytes.now }
    ensures { result ≡ number_in 8 at bytes.now }
{
    LittleEndian::read_u64(&bytes[at..])
}

/// Adds a byte. [`WireFault::NoMemory`] leaves `out` as it was.
#[tactic(auto, unfolding(crate::specs::Number::spelling))]
pub fn put_u8(out: &mut Vec<u8>, number: u8) -> Result<(), WireFault>
    ensures ok { OnOk result (out.new.items ≡ out.old.items ++ spelling 1 number) }
    ensures len { OnOk result (length out.new.items ≡ length out.old.items + 1) }
    ensures err { OnErr result (out.new.items ≡ out.old.items) }
{
    out.extend_from_slice(&[number])?;
    Ok(())
}

/// Adds bytes as they are. [`WireFault::NoMemory`] leaves `out` as it was.
pub fn put_bytes(out: &mut Vec<u8>, bytes: &[u8]) -> Result<(), WireFault>
    ensures ok { OnOk result (out.new.items ≡ out.old.items ++ bytes.now) }
    ensures len { OnOk result (length out.new.items ≡ length out.old.items + length bytes.now) }
    ensures err { OnErr result (out.new.items ≡ out.old.items) }
{
    out.extend_from_slice(bytes)?;
    Ok(())
}

/// The laws of tables of fields: the contract is the statement, and the body does nothing.
pub fn laws_of_fields()
    ensures stand { WhatIsJoinedStands }
    ensures width { JoinedIsAsWide }
{}
