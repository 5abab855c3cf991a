//! Elements of a LOCK over borrowed bytes.

ghost use Rattle.smb_body.specs.Locks.{AllElements};

use super::lock_element::LockElement;
use smb_wire::{LockFlags, u32_in, u64_in};

/// Elements of a LOCK over borrowed bytes, 24 bytes each ([MS-SMB2] 2.2.26).
#[derive(Clone, Copy)]
pub struct LockList<'a> {
    elements: &'a [[u8; 24]],
    ghost lawful: { AllElements elements.now },
}

impl<'a> LockList<'a> {
    ghost use Rattle.std.specs.Prelude.{◌≡◌, ◌%◌, nat_eq, length, is_some, slice_get, IfSome};
    ghost use Rattle.smb_body.specs.Locks.{SaysElements, lock_bytes, AllLocksFit};
    ghost use Rattle.smb_body.specs.LockLists.{locks_of};

    /// The elements that the bytes say, or None where these are no whole elements.
    pub fn of(bytes: &'a [u8]) -> Option<LockList<'a>>
        ensures some { is_some result ≡ nat_eq (length bytes.now % 24) 0 }
        ensures locks { IfSome result (λ list. SaysElements bytes.now (locks_of list)) }
    {
        let (elements, rest) = bytes.as_chunks::<24>();
        if rest.is_empty() {
            Some(LockList { elements })
        } else {
            None
        }
    }

    /// How many elements there are.
    pub fn len(self) -> usize
        ensures { result ≡ length (locks_of self.entry) }
    {
        self.elements.len()
    }

    /// The element at `i`, or None past the end.
    pub fn get(self, i: usize) -> Option<LockElement>
        ensures { result ≡ slice_get (locks_of self.entry) i }
    {
        if i >= self.elements.len() {
            return None;
        }
        let element = &self.elements[i];
        Some(LockElement {
            offset: u64_in(element, 0),
            length: u64_in(element, 8),
            flags: LockFlags(u32_in(element, 16)),
            reserved: u32_in(element, 20),
        })
    }

    /// The bytes that spell the elements.
    pub fn bytes(self) -> &'a [u8]
        ensures bytes { result.now ≡ lock_bytes (locks_of self.entry) }
        ensures numbers { AllLocksFit (locks_of self.entry) }
    {
        self.elements.as_flattened()
    }
}
