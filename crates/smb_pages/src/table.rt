//! The pages of a file in the order of their numbers: page n has the bytes from 4,096 n on.

ghost use Rattle.std.specs.Prelude.{ℕ, ◌≡◌, ◌+◌, ◌-◌, ◌*◌, ◌/◌, ◌%◌, ◌^◌, ◌<◌, ◌≤◌, ◌++◌, OnOk, map, max, min, length, vec_len, vec_capacity};
ghost use Rattle.std.specs.List.{range_with_len};
ghost use Rattle.smb_pages.specs.Pages.{byte_at, AreShort, IsTrimmed};
ghost use Rattle.smb_pages.specs.Tables.{room_of, SamePages, IsPut};

use super::page::{PAGE_BYTES, add_bytes, put_bytes, reserve};
use std::alloc::{AllocError, Global};

// Takes away what is at or past a size: the pages that begin there, and the end of the page in which it lies.
pub fn cut(table: &mut Vec<Vec<u8>>, size: usize)
    requires { AreShort table.old.items }
    ensures kept { (i : ℕ) → i < size → byte_at table.new.items i ≡ byte_at table.old.items i }
    ensures trimmed { IsTrimmed table.new.items size }
{
    table.truncate(size.div_ceil(PAGE_BYTES));
    let last = size / PAGE_BYTES;
    if last < table.len() {
        table[last].truncate(size % PAGE_BYTES);
    }
}

// Adds pages of which nothing is written, and which take no memory of their own, up to an end.
fn lengthen(table: &mut Vec<Vec<u8>>, alloc: Global, end: usize) -> Result<(), AllocError>
    ensures same { SamePages table.old.items table.new.items }
    ensures rooms { (number : ℕ) → room_of table.new.items number ≡ room_of table.old.items number }
    ensures few { length table.new.items ≤ max (length table.old.items) end }
    ensures long { OnOk result (end ≤ length table.new.items) }
{
    table.reserve(end.saturating_sub(table.len()))?;
    while table.len() < end {
        table.push(Vec::new(alloc))?;
    }
    Ok(())
}

// Makes room in the pages from one up to another, and in no page before them.
fn reserve_all(table: &mut Vec<Vec<u8>>, begin: usize, end: usize) -> Result<(), AllocError>
    requires within { end ≤ length table.old.items }
    requires short { AreShort table.old.items }
    ensures same { SamePages table.old.items table.new.items }
    ensures long { length table.new.items ≡ length table.old.items }
    ensures room { OnOk result ((number : ℕ) → begin ≤ number → number < end → 4096 ≤ room_of table.new.items number) }
    ensures others { (number : ℕ) → number < begin → room_of table.new.items number ≡ room_of table.old.items number }
{
    for number in begin..end {
        reserve(&mut table[number])?;
    }
    Ok(())
}

// Takes the memory for the pages from one up to another, and for none before them. This changes no byte, also where it
// is refused.
pub fn make_room(
    table: &mut Vec<Vec<u8>>,
    alloc: Global,
    begin: usize,
    end: usize,
) -> Result<(), AllocError>
    requires { AreShort table.old.items }
    ensures same { SamePages table.old.items table.new.items }
    ensures few { length table.new.items ≤ max (length table.old.items) end }
    ensures room { OnOk result ((number : ℕ) → begin ≤ number → number < end → 4096 ≤ room_of table.new.items number) }
    ensures others { (number : ℕ) → number < begin → room_of table.new.items number ≡ room_of table.old.items number }
{
    lengthen(table, alloc, end)?;
    reserve_all(table, begin, end)
}

// Puts of bytes at a place as many as lie in one page with it, and gives how many these are.
fn put_first(table: &mut Vec<Vec<u8>>, place: usize, bytes: &[u8]) -> usize
    requires room { 4096 ≤ room_of table.old.items (place / 4096) }
    requires short { AreShort table.old.items }
    ensures count { result ≡ min (length bytes.now) (4096 - place % 4096) }
    ensures put { IsPut table.old.items table.new.items place result bytes.now }
{
    let from = place % PAGE_BYTES;
    let count = bytes.len().min(PAGE_BYTES - from);
    put_bytes(&mut table[place / PAGE_BYTES], from, &bytes[..count]);
    count
}

// Puts bytes at a place, into pages that have room: one copy.
pub fn put(table: &mut Vec<Vec<u8>>, place: usize, bytes: &[u8])
    requires fits { place + length bytes.now < 2 ^ 64 }
    requires short { AreShort table.old.items }
    requires room { (number : ℕ) → place / 4096 ≤ number → number * 4096 < place + length bytes.now → 4096 ≤ room_of table.old.items number }
    ensures { IsPut table.old.items table.new.items place (length bytes.now) bytes.now }
{
    let mut done = 0;
    while done < bytes.len() {
        done += put_first(table, place + done, &bytes[done..]);
    }
}

// Adds of so many bytes from a place on those that lie in one page with it, behind others, which have room for them,
// and gives how many these are.
fn add_first(table: &[Vec<u8>], place: usize, count: usize, behind: &mut Vec<u8>) -> usize
    requires { vec_len behind.old + count ≤ vec_capacity behind.old }
    ensures count { result ≡ min count (4096 - place % 4096) }
    ensures items { behind.new.items ≡ behind.old.items ++ map (byte_at table.now) (range_with_len place result) }
    ensures capacity { vec_capacity behind.old ≤ vec_capacity behind.new }
{
    let from = place % PAGE_BYTES;
    let taken = count.min(PAGE_BYTES - from);
    let page: &[u8] = match table.get(place / PAGE_BYTES) {
        Some(page) => page,
        None => &[],
    };
    add_bytes(page, from, taken, behind);
    taken
}

// Adds so many bytes from a place on behind others, which have room for them: one copy.
pub fn add(table: &[Vec<u8>], place: usize, count: usize, behind: &mut Vec<u8>)
    requires fits { place + count < 2 ^ 64 }
    requires room { vec_len behind.old + count ≤ vec_capacity behind.old }
    ensures { behind.new.items ≡ behind.old.items ++ map (byte_at table.now) (range_with_len place count) }
{
    let mut done = 0;
    while done < count {
        done += add_first(table, place + done, count - done, behind);
    }
}
