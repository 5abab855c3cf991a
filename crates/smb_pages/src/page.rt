//! One page: the bytes that were written of it, at most 4,096; behind them it is zeros.

ghost use Rattle.std.specs.Prelude.{◌≡◌, ◌+◌, ◌≤◌, ◌++◌, OnOk, length, drop, vec_len, vec_capacity};
ghost use Rattle.smb_tree.specs.Content.{resized, written};

use std::alloc::AllocError;

/// The bytes of a page.
pub const PAGE_BYTES: usize = 4096;

// Makes room for a whole page. This changes none of its bytes.
pub fn reserve(page: &mut Vec<u8>) -> Result<(), AllocError>
    requires { length page.old.items ≤ 4096 }
    ensures same { page.new.items ≡ page.old.items }
    ensures room { OnOk result (4096 ≤ vec_capacity page.new) }
{
    page.reserve_exact(PAGE_BYTES - page.len())
}

// Adds so many bytes of a page, from a place in it on, behind others, which have room for them: the bytes that it has
// in one block, and zeros for the others.
pub fn add_bytes(page: &[u8], from: usize, count: usize, behind: &mut Vec<u8>)
    requires { vec_len behind.old + count ≤ vec_capacity behind.old }
    ensures items { behind.new.items ≡ behind.old.items ++ resized count (drop from page.now) }
    ensures capacity { vec_capacity behind.old ≤ vec_capacity behind.new }
{
    let end = behind.len() + count;

    // There is room, so neither call is refused.
    let rest = &page[from.min(page.len())..];
    let _ = behind.extend_from_slice(&rest[..count.min(rest.len())]);
    let _ = behind.resize(end, 0);
}

// Puts bytes at a place in a page that has room for them: one copy, behind zeros where nothing was written.
pub fn put_bytes(page: &mut Vec<u8>, from: usize, bytes: &[u8])
    requires { from + length bytes.now ≤ vec_capacity page.old }
    ensures items { page.new.items ≡ written from bytes.now page.old.items }
    ensures capacity { vec_capacity page.old ≤ vec_capacity page.new }
{
    let end = from + bytes.len();
    if end <= page.len() {
        page[from..end].copy_from_slice(bytes);
        return;
    }

    // There is room, so neither call is refused. What is behind the place is cut before it is put anew.
    let _ = page.resize(from, 0);
    let _ = page.extend_from_slice(bytes);
}
