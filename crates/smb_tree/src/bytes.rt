//! The bytes of a stored file.

ghost use Rattle.std.specs.Prelude.{◌≡◌, ◌+◌, ◌≤◌, ◌++◌, max, OnOk, OnErr, length, take, drop};
ghost use Rattle.smb_wire.specs.Greatest.{greatest_file_bytes};
ghost use Rattle.smb_tree.specs.Content.{resized, written};
ghost use Rattle.smb_tree.specs.Parts.{part};

use std::alloc::AllocError;

// Adds the bytes from an offset on, at most so many, behind others: one copy.
pub fn add_part(
    bytes: &[u8],
    offset: u64,
    count: u64,
    behind: &mut Vec<u8>,
) -> Result<(), AllocError>
    ensures ok { OnOk result (behind.new.items ≡ behind.old.items ++ part offset count bytes.now) }
    ensures err { OnErr result (behind.new.items ≡ behind.old.items) }
{
    let begin = offset.min(bytes.len() as u64) as usize;
    let rest = &bytes[begin..];
    let end = count.min(rest.len() as u64) as usize;
    behind.extend_from_slice(&rest[..end])
}

// Adds zeros up to an end that is past the bytes.
fn lengthen(bytes: &mut Vec<u8>, end: usize) -> Result<(), AllocError>
    ensures ok { OnOk result (bytes.new.items ≡ resized (max (length bytes.old.items) end) bytes.old.items) }
    ensures err { OnErr result (bytes.new.items ≡ bytes.old.items) }
{
    if end <= bytes.len() {
        return Ok(());
    }
    bytes.resize(end, 0)
}

// Puts bytes over those from an offset on: one copy.
fn set_bytes(bytes: &mut Vec<u8>, offset: usize, buffer: &[u8])
    requires { offset + length buffer.now ≤ length bytes.old.items }
    ensures { bytes.new.items ≡ take offset bytes.old.items ++ (buffer.now ++ drop (offset + length buffer.now) bytes.old.items) }
{
    bytes[offset..offset + buffer.len()].copy_from_slice(buffer);
}

// Puts bytes at an offset, behind zeros where it is past the end.
pub fn put_at(bytes: &mut Vec<u8>, offset: usize, buffer: &[u8]) -> Result<(), AllocError>
    requires { offset + length buffer.now ≤ greatest_file_bytes }
    ensures ok { OnOk result (bytes.new.items ≡ written offset buffer.now bytes.old.items) }
    ensures err { OnErr result (bytes.new.items ≡ bytes.old.items) }
{
    lengthen(bytes, offset + buffer.len())?;
    set_bytes(bytes, offset, buffer);
    Ok(())
}
