//! The numbers of all entries.

ghost use Rattle.std.specs.Prelude.{IfOk};
ghost use Rattle.smb_tree_of_files.specs.Numbers.{HasAll};

use smb_held_files::HeldFiles;
use smb_tree::EntryNo;
use std::alloc::{AllocError, Global};

/// The numbers of all entries, in rising order.
pub fn numbers_of(alloc: Global, files: &HeldFiles) -> Result<Vec<EntryNo>, AllocError>
    ensures { IfOk result (λ numbers. HasAll files.now numbers.items) }
{
    let mut numbers = Vec::with_capacity(alloc, files.len())?;
    let mut last = None;
    while let Some(number) = files.number_after(last) {
        numbers.push(number)?;
        last = Some(number);
    }
    Ok(numbers)
}
