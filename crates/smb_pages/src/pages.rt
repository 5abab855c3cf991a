//! The bytes of one file.

ghost use Rattle.std.specs.Prelude.{◌≡◌, ◌+◌, ◌^◌, ◌<◌, ◌++◌, [], OnOk, OnErr, length, take, drop, vec_len, vec_capacity};
ghost use Rattle.smb_tree.specs.Content.{resized, written};

use super::page::PAGE_BYTES;
use super::table::{add, cut, make_room, put};
use std::alloc::{AllocError, Global};
use std::marker::Model;

/// The bytes of one file, in pages of 4,096 bytes.
///
/// It takes 4,096 bytes of memory for each page below the end in which something was written, and three words for each
/// page up to the last of these, written or not. The table of these words grows by doubling, from four pages on, and a
/// cut file keeps its room. A page is found by its number in one step.
#[derive(Drop)]
pub struct Pages {
    size: u64,
    // The pages in order. A page has the bytes that were written of it, and is zeros behind them.
    table: Vec<Vec<u8>>,
    alloc: Global,
}

impl Model for Pages {
    ghost use Rattle.std.specs.Prelude.{ℕ, List};
    ghost use Rattle.smb_pages.specs.Pages.{bytes_of, IsTrimmed};

    ghost Value = { List ℕ };

    ghost view = { λ pages. bytes_of pages.table.items pages.size };

    ghost invariant = { λ pages. IsTrimmed pages.table.items pages.size };
}

impl Pages {
    /// No bytes. This takes no memory.
    pub fn new(alloc: Global) -> Pages
        ensures { result ≡ [] }
    {
        Pages {
            size: 0,
            table: Vec::new(alloc),
            alloc,
        }
    }

    /// How many bytes there are.
    pub fn size(&self) -> u64
        ensures { result ≡ length self.now }
    {
        self.size
    }

    /// Adds the bytes from an offset on, at most so many, behind others. `Err` where the others have no room for them
    /// and there is no memory for more.
    ///
    /// It takes memory once, for the bytes that it adds and no more. A read of n bytes then finds some n / 4,096 pages,
    /// and copies each byte once: a page in one block, and in one block of zeros what was never written of it.
    pub fn add_part(&self, offset: u64, count: u64, behind: &mut Vec<u8>) -> Result<(), AllocError>
        ensures ok { OnOk result (behind.new.items ≡ behind.old.items ++ take count (drop offset self.now)) }
        ensures err { OnErr result (behind.new.items ≡ behind.old.items) }
        ensures full { OnErr result (vec_capacity behind.old < vec_len behind.old + length (take count (drop offset self.now))) }
    {
        let begin = offset.min(self.size);
        let taken = count.min(self.size - begin) as usize;
        behind.reserve(taken)?;
        add(&self.table, begin as usize, taken, behind);
        Ok(())
    }

    /// Gives the file another size: cuts it, or puts zeros behind it.
    ///
    /// This takes no memory. Growing is one step; cutting gives back the memory of each page that begins past the end.
    pub fn resize(&mut self, size: u64)
        ensures { self.new ≡ resized size self.old }
    {
        cut(&mut self.table, size as usize);
        self.size = size;
    }

    /// Puts bytes at an offset, behind zeros where it is past the end, also where there are none. `Err` where there is
    /// no memory for the pages in which they lie, and then no byte is changed; pages below the end may keep memory that
    /// they got, for the next write.
    ///
    /// It takes the memory of all these pages before it changes one, 4,096 bytes for each in which nothing was written
    /// before. A write of n bytes then finds some n / 4,096 pages, and copies each byte once, a page in one block. What
    /// it fills isn't cleared first; zeros are put only between what was written of a page and the offset.
    pub fn put_at(&mut self, offset: u64, buffer: &[u8]) -> Result<(), AllocError>
        requires { offset + length buffer.now < 2 ^ 64 }
        ensures ok { OnOk result (self.new ≡ written offset buffer.now self.old) }
        ensures err { OnErr result (self.new ≡ self.old) }
    {
        let begin = offset as usize;
        let end = begin + buffer.len();
        let pages = end.div_ceil(PAGE_BYTES);
        if let Err(error) = make_room(&mut self.table, self.alloc, begin / PAGE_BYTES, pages) {
            cut(&mut self.table, self.size as usize);
            return Err(error);
        }
        put(&mut self.table, begin, buffer);
        self.size = self.size.max(end as u64);
        Ok(())
    }
}
