//! The parts of a request's body: its fixed part, and the buffers that it names.

ghost use Rattle.std.specs.Prelude.{◌≡◌, ◌+◌, ◌*◌, ◌%◌, ◌≤◌, nat_eq, ◌&&◌, length, take, drop, is_some, IfSome};
ghost use Rattle.smb_wire.specs.Units.{units_of};
ghost use Rattle.smb_wire.specs.Pairs.{units_in};
ghost use Rattle.smb_body.specs.Buffers.{body, file_id_at, is_within};
ghost use Rattle.smb_body.specs.Readings.{slice};

use super::types::Guid;
use smb_wire::{FileId, Units, u64_in};

/// The length of a header ([MS-SMB2] 2.2.1), in bytes.
const HEADER: usize = 64;

/// The body of a request, which stands behind its header.
pub fn body(request: &[u8]) -> &[u8]
    ensures { result.now ≡ body request.now }
{
    if request.len() < HEADER {
        return &[];
    }
    &request[HEADER..]
}

/// The 16 bytes from `at` on, which are within the bytes.
pub fn guid_in(bytes: &[u8], at: usize) -> Guid
    requires { at + 16 ≤ length bytes.now }
    ensures { result.0 ≡ take 16 (drop at bytes.now) }
{
    let mut guid = [0u8; 16];
    guid.copy_from_slice(&bytes[at..at + 16]);
    Guid(guid)
}

/// The FileId in the 16 bytes from `at` on, which are within the bytes.
pub fn file_id_in(bytes: &[u8], at: usize) -> FileId
    requires { at + 16 ≤ length bytes.now }
    ensures { result ≡ file_id_at at bytes.now }
{
    FileId {
        persistent: u64_in(bytes, at),
        volatile: u64_in(bytes, at + 8),
    }
}

/// The checked buffer of `size` bytes at `offset`, or None where it begins before `start` or passes the
/// request's end. A buffer without bytes may have any offset.
#[tactic(auto, using(std::proofs::lemmas::Grind::common_steps))]
pub fn buffer(request: &[u8], start: usize, offset: usize, size: usize) -> Option<&[u8]>
    ensures some { is_some result ≡ is_within start offset size request.now }
    ensures bytes { IfSome result (λ bytes. bytes.now ≡ slice offset size request.now) }
{
    if size == 0 {
        return Some(&[]);
    }
    if offset < start || request.len() < offset || request.len() - offset < size {
        return None;
    }
    Some(&request[offset..offset + size])
}

/// The text of a checked buffer, or None where there is no such buffer or `size` is odd.
pub fn text(request: &[u8], start: usize, offset: usize, size: usize) -> Option<Units<'_>>
    ensures some { is_some result ≡ (nat_eq (size % 2) 0 && is_within start offset size request.now) }
    ensures units { IfSome result (λ text. units_of text ≡
        units_in (slice offset size request.now)) }
{
    let bytes = buffer(request, start, offset, size)?;
    Units::of(bytes)
}
