//! The files of a journal, where no share goes on with it.

ghost use Rattle.std.specs.Prelude.{◌≡◌, IfOk};
ghost use Rattle.smb_opens.specs.Good.{UnmarkedTree};

use crate::fault::KeptFault;
use crate::files::fault_of_read;
use crate::first_line::{FirstLine, is_begun, read_first, refused};
use smb_engine::NodeTree;
use smb_journal_file::DiskFile;
use smb_journal_start::{Space, files_left, read};
use smb_tree::EntryNo;
use std::fs;

/// The files that a journal keeps.
#[derive(Drop)]
pub struct JournalFiles {
    pub tree: NodeTree,
    /// The numbers of the tree's entries, in rising order, and some that none has.
    pub numbers: Vec<EntryNo>,
    /// How many whole batches there are.
    pub batches: u64,
    /// How many bytes the first line and the whole batches are.
    pub whole: u64,
    /// How many bytes of a cut last batch were left out.
    pub left_out: u64,
}

/// The files that a journal keeps, where they fit the space. The file is read, and not written.
pub fn journal_files(rt: &HostRuntime, path: &str, space: Space) -> Result<JournalFiles, KeptFault>
    ensures unmarked { IfOk result (λ files. UnmarkedTree files.tree) }
    ensures limits { IfOk result (λ files. files.tree.limits ≡ space.limits) }
    ensures capacity { IfOk result (λ files. files.tree.capacity ≡ space.capacity) }
{
    let alloc = rt.alloc();
    let mut file = fs::open(rt, path).map_err(fault_of_read)?;
    let line = read_first(alloc, &mut file)?;
    let (first, is_whole) = match FirstLine::of(&line) {
        Some(first) => (first, true),
        None if is_begun(&line) => (FirstLine::new(0), false),
        None => return Err(KeptFault::File(refused(&line))),
    };
    first.check_file(&file)?;
    let mut file = DiskFile::new(file, first.length, false, !is_whole);
    let found = match read(alloc, &mut file, first.seed) {
        Ok(found) => found,
        Err(fault) => return Err(KeptFault::of_start(fault)),
    };
    first.check_size(found.whole)?;
    let (batches, whole, left_out) = (found.number.saturating_sub(1), found.whole, found.cut);
    match files_left(alloc, found, space) {
        Ok(left) => Ok(JournalFiles {
            tree: left.tree,
            numbers: left.numbers,
            batches,
            whole: whole.saturating_add(line.len() as u64),
            left_out,
        }),
        Err(fault) => Err(KeptFault::of_start(fault)),
    }
}
