//! The file of a journal, opened or made.

ghost use Rattle.std.specs.Prelude.{◌≡◌, IfOk};
ghost use Rattle.smb_opens.specs.Good.{UnmarkedTree};

use crate::fault::KeptFault;
use crate::files::{
    cut, fault_of_read, give_name, lock, make_file, open_journal, remove_left, settle_name,
};
use crate::first_line::{FirstLine, is_begun, read_first, refused, write_first};
use crate::room::open_room;
use smb_journal::JournalFault;
use smb_journal_file::{DiskFile, NextWords};
use smb_journal_start::{KeptTree, Space, StartFault, read, start};
use std::alloc::Global;
use std::fs;
use std::fs::File;
use std::io::ErrorKind;
use thiserror::Error;

/// Why a file is not taken as a journal.
#[derive(Clone, Copy, Debug, PartialEq, Eq, Error)]
pub enum FileFault {
    /// It can't be read, made or written.
    #[error("{0}")]
    System(JournalFault),
    /// Its first line is another one.
    #[error("no journal: its first line is not that of one; name a file that --journal made")]
    NoJournal,
    #[error("a journal of events, which an older program made: `smbshare compact < OLD > NEW` makes one of its files, name that")]
    OfEvents,
    #[error("no journal and no record: its first line is not that of one; name a file that --journal or --record made")]
    Neither,
    #[error("a journal of another version: serve it with the program that made it")]
    OtherVersion,
    /// It has not all of the bytes that it had when it got its name.
    #[error("{missing} of its first {wanted} bytes are missing: it is a copy that was broken off, take another")]
    BrokenOff { missing: u64, wanted: u64 },
    /// The file of its room can't be made or written.
    #[error("the file of its room, which has its name and .room: {0}; move that one away")]
    Room(JournalFault),
    /// A share can't begin with what it keeps.
    #[error("{0}")]
    Start(StartFault),
}

/// Where a share's changes are kept, and how.
#[derive(Clone, Copy)]
pub struct JournalWords<'a> {
    pub path: &'a str,
    /// Whether what is kept is to lie on the disk before it is answered.
    pub settles: bool,
}

impl JournalWords<'_> {
    /// Whether a file has the journal's name, and bytes.
    pub fn has_bytes(&self, rt: &HostRuntime) -> Result<bool, KeptFault> {
        match fs::metadata(rt, self.path) {
            Ok(found) => Ok(found.len() > 0),
            Err(error) if error.kind() == ErrorKind::NotFound => Ok(false),
            Err(error) => Err(fault_of_read(error)),
        }
    }

    /// Refuses a file that has bytes meanwhile: another program made it.
    pub fn refuse_bytes(&self, rt: &HostRuntime) -> Result<(), KeptFault> {
        if self.has_bytes(rt)? {
            Err(KeptFault::Recording(JournalFault::InUse))
        } else {
            Ok(())
        }
    }

    /// Gives the file this other name, which is settled where its batches are.
    pub fn give_name(&self, rt: &HostRuntime, path: &str) -> Result<(), KeptFault> {
        give_name(rt, self.path, path, self.settles)
    }

    /// Takes the file away that a start left that was ended, where it is there. Where a program has it to itself it
    /// stays, which is the fault.
    pub fn remove_left(&self, rt: &HostRuntime) -> Result<(), KeptFault> {
        remove_left(rt, self.path)
    }
}

/// A file with what its first line says, and whether there may be batches behind that.
#[derive(Drop)]
struct Opened {
    file: File,
    first: FirstLine,
    has_batches: bool,
}

/// A file that is there. One that has nothing but the beginning of a first line gets a whole one, with this seed.
fn go_on(
    alloc: Global,
    mut file: File,
    words: JournalWords<'_>,
    seed: u64,
) -> Result<Opened, KeptFault> {
    let line = read_first(alloc, &mut file)?;
    if let Some(first) = FirstLine::of(&line) {
        first.check_file(&file)?;
        return Ok(Opened {
            file,
            first,
            has_batches: true,
        });
    }
    if !is_begun(&line) {
        return Err(KeptFault::File(refused(&line)));
    }
    cut(&file, 0)?;
    begin(alloc, file, words, seed)
}

/// A file that has nothing, and gets its first line.
fn begin(
    alloc: Global,
    mut file: File,
    words: JournalWords<'_>,
    seed: u64,
) -> Result<Opened, KeptFault> {
    let first = write_first(alloc, &mut file, words, seed)?;
    Ok(Opened {
        file,
        first,
        has_batches: false,
    })
}

/// The file of a journal, which is made where there is none.
fn open(rt: &HostRuntime, words: JournalWords<'_>, seed: u64) -> Result<Opened, KeptFault> {
    let alloc = rt.alloc();
    if let Some(file) = open_journal(rt, words.path)? {
        return go_on(alloc, file, words, seed);
    }
    let file = lock(make_file(rt, words.path)?)?;
    if words.settles {
        settle_name(rt, words.path)?;
    }
    begin(alloc, file, words, seed)
}

/// A tree whose changes are kept in a journal.
#[derive(Drop)]
pub struct Kept<'a> {
    pub tree: KeptTree<'a>,
    /// How many bytes of a cut last batch were left out.
    pub left_out: u64,
}

/// The files that a journal keeps, as a tree whose changes are kept there from now on, with the room of the file
/// `room`. A journal that is not there is made, with this seed. Where it gets much longer than its files need it is
/// written anew, beside the file of the path in `next`, once that is its own.
pub fn keep_changes<'a>(
    next: NextWords<'a>,
    words: JournalWords<'_>,
    room: &str,
    seed: u64,
    space: Space,
) -> Result<Kept<'a>, KeptFault>
    ensures unmarked { IfOk result (λ kept. UnmarkedTree kept.tree.content) }
    ensures limits { IfOk result (λ kept. kept.tree.content.limits ≡ space.limits) }
    ensures capacity { IfOk result (λ kept. kept.tree.content.capacity ≡ space.capacity) }
{
    let rt = next.rt;
    let alloc = rt.alloc();
    let Opened {
        file,
        first,
        has_batches,
    } = open(rt, words, seed)?;
    if words.path == next.path {
        next.clear();
    }
    let mut file = DiskFile::new(file, first.length, words.settles, !has_batches);
    let found = match read(alloc, &mut file, first.seed) {
        Ok(found) => found,
        Err(fault) => return Err(KeptFault::of_start(fault)),
    };
    first.check_size(found.whole)?;
    let left_out = found.cut;
    let file = file.with_room(open_room(rt, room)?).with_next(next);
    match start(alloc, file, first.seed, found, space) {
        Ok(tree) => Ok(Kept { tree, left_out }),
        Err(fault) => Err(KeptFault::of_start(fault)),
    }
}
