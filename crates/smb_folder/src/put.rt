//! A folder of the system into a share.

use super::counts::Counts;
use super::fault::{FolderFault, FolderRule, Trouble};
use super::grouped::Grouped;
use super::names::{Names, base_of, joined, names_in, system_path};
use super::notes::Notes;
use super::progress::Progress;
use super::talk::{PART, Talk};
use smb_client::{Client, FileId, Line};
use smb_tree::{Basic, Kind};
use smb_wire::limits::Limits;
use std::alloc::Global;
use std::fs;
use std::fs::{Files, Metadata, OpenFile};
use std::io::Read;
use std::os::unix::fs::MetadataExt;

/// How many faults are returned one by one at most.
const MOST_FAULTS: usize = 1_000;

/// What is to be done, by the path below the folder.
#[derive(Drop)]
enum Step {
    /// To put the file or folder there; its name may be no text.
    Put(Vec<u8>),
    /// To set the times and attributes of a folder, all of which is put.
    Mark(String, Basic),
}

impl Step {
    /// The path that it is about.
    fn relative(&self) -> &[u8] {
        match self {
            Step::Put(relative) => relative,
            Step::Mark(relative, _) => relative.as_bytes(),
        }
    }
}

/// What was put into a share.
#[derive(Drop)]
pub struct Put {
    /// What is there.
    pub counts: Counts,
    /// What is not there: a file, or a folder with all that is in it, in the order in which they were met. The first
    /// thousand.
    pub refused: Vec<FolderFault>,
    /// How many more there are.
    pub more: u64,
    /// How many lines of the list beside the folder are of other files than the folder has.
    pub others: u64,
}

/// A folder that is being put into a share.
#[derive(Drop)]
struct Putting<'a, 'l, 'c, R: Files, L: Line, P: Progress + Drop> {
    rt: &'a R,
    alloc: Global,
    base: String,
    talk: Talk<'l, 'c, L>,
    limits: Limits,
    /// What the list beside the folder says.
    notes: Notes,
    /// What is left to do, the next step last.
    steps: Vec<Step>,
    /// The part of a file that was read last.
    part: Vec<u8>,
    counts: Counts,
    refused: Vec<FolderFault>,
    more: u64,
    progress: P,
}

/// Whether a file is still the one that it was, as far as that can be seen.
fn is_unchanged(before: &Metadata, after: &Metadata) -> bool {
    before.dev() == after.dev()
        && before.ino() == after.ino()
        && before.len() == after.len()
        && before.mtime() == after.mtime()
        && before.mtime_nsec() == after.mtime_nsec()
}

/// A file that is still the one that it was, or [`FolderRule::Changed`].
fn check_unchanged<F: OpenFile>(before: &Metadata, file: &F) -> Result<(), Trouble> {
    let after = file.metadata().map_err(Trouble::unread)?;
    if is_unchanged(before, &after) {
        Ok(())
    } else {
        Err(Trouble::Rule(FolderRule::Changed))
    }
}

impl<R: Files, L: Line, P: Progress + Drop> Putting<'_, '_, '_, R, L, P> {
    /// The names of what is in a folder.
    fn names(&self, relative: &str) -> Result<Names, Trouble> {
        let path = system_path(self.alloc, &self.base, relative)?;
        names_in(self.rt, self.alloc, self.limits.entries, &path)
    }

    /// Has what is in a folder put next, in order of the names.
    fn enter(&mut self, relative: &str, found: &Names) -> Result<(), Trouble> {
        self.more = self.more.saturating_add(found.more);
        for name in found.names.iter().rev() {
            let child = joined(self.alloc, relative.as_bytes(), name)?;
            self.steps.push(Step::Put(child))?;
        }
        Ok(())
    }

    /// Puts a folder, and has what is in it put next.
    fn put_folder(&mut self, relative: &str, metadata: &Metadata) -> Result<(), Trouble> {
        let found = self.names(relative)?;
        self.talk.make_folder(relative)?;
        self.counts.add_folder();
        let basic = self.notes.basic_of(relative, Kind::Folder, metadata);
        let name = String::from_str(self.alloc, relative)?;
        self.steps.push(Step::Mark(name, basic))?;
        self.enter(relative, &found)
    }

    /// Reads a part of a file behind the one before it, and tells how many bytes it has: none at the end.
    fn read_part(&mut self, file: &mut R::File) -> Result<usize, Trouble> {
        self.part.clear();
        let mut limited = file.take(u64::from(PART));
        let read = limited.read_to_end(&mut self.part);
        read.map_err(Trouble::unread)
    }

    /// Copies a file of so many bytes into a file of the share. One of more or fewer bytes is [`FolderRule::Changed`].
    fn copy(&mut self, file: &mut R::File, file_id: FileId, size: u64) -> Result<(), Trouble> {
        let mut offset = 0u64;
        for _ in 0..u64::MAX {
            let count = self.read_part(file)? as u64;
            let end = offset.saturating_add(count);
            if count == 0 || end > size {
                offset = end;
                break;
            }
            self.talk.write(file_id, offset, &self.part)?;
            offset = end;
            self.progress.note(self.counts.with_bytes(offset));
        }
        if offset == size {
            Ok(())
        } else {
            Err(Trouble::Rule(FolderRule::Changed))
        }
    }

    /// Gives a file of the share all that a file of the system has.
    fn fill(
        &mut self,
        file_id: FileId,
        relative: &str,
        file: &mut R::File,
        before: &Metadata,
    ) -> Result<(), Trouble> {
        self.copy(file, file_id, before.len())?;
        check_unchanged(before, file)?;
        let basic = self.notes.basic_of(relative, Kind::File, before);
        self.talk.finish_file(file_id, basic)
    }

    /// Puts a file. One that can't be put whole is not in the share.
    fn put_file(&mut self, relative: &str, path: &str, before: &Metadata) -> Result<(), Trouble> {
        if before.len() > self.limits.file_bytes {
            let most = Grouped(self.limits.file_bytes);
            return Err(Trouble::Rule(FolderRule::TooLong(most)));
        }
        let mut file = fs::open(self.rt, path).map_err(Trouble::unread)?;
        check_unchanged(before, &file)?;
        let file_id = self.talk.make_file(relative)?;
        if let Err(trouble) = self.fill(file_id, relative, &mut file, before) {
            if !trouble.is_the_end() {
                self.talk.discard_file(file_id)?;
            }
            return Err(trouble);
        }
        self.counts.add_file(before.len());
        Ok(())
    }

    /// Puts the file or the folder that is at a path.
    fn put(&mut self, relative: &str) -> Result<(), Trouble> {
        if relative.contains('\\') {
            return Err(Trouble::Rule(FolderRule::NotForTheShare));
        }
        let path = system_path(self.alloc, &self.base, relative)?;
        let metadata = fs::symlink_metadata(self.rt, &path).map_err(Trouble::unread)?;
        if metadata.is_dir() {
            self.put_folder(relative, &metadata)
        } else if metadata.is_file() {
            self.put_file(relative, &path, &metadata)
        } else if metadata.is_symlink() {
            Err(Trouble::Rule(FolderRule::SymbolicLink))
        } else {
            Err(Trouble::Rule(FolderRule::Special))
        }
    }

    /// Does a step.
    fn perform(&mut self, step: &Step) -> Result<(), Trouble> {
        match step {
            Step::Put(relative) => match str::from_utf8(relative) {
                Ok(relative) => self.put(relative),
                Err(_) => Err(Trouble::Rule(FolderRule::NotUnicode)),
            },
            Step::Mark(relative, basic) => self.talk.mark_folder(relative, *basic),
        }
    }

    /// Notes that a step could not be done, or ends all of them where nothing more can be done.
    fn refuse(&mut self, trouble: Trouble, step: &Step) -> Result<(), FolderFault> {
        if !trouble.is_the_end() && self.refused.len() >= MOST_FAULTS {
            self.more = self.more.saturating_add(1);
            return Ok(());
        }
        let fault = trouble.at(self.alloc, &self.base, step.relative());
        if trouble.is_the_end() {
            return Err(fault);
        }
        match self.refused.push(fault) {
            Ok(()) => Ok(()),
            Err(_) => Err(FolderFault::NoMemory),
        }
    }

    /// Has all that is in the folder put next.
    fn begin(&mut self) -> Result<(), Trouble> {
        let found = self.names("")?;
        self.enter("", &found)
    }

    /// Does all steps, from the first folder on.
    fn run(&mut self) -> Result<(), FolderFault> {
        if let Err(trouble) = self.begin() {
            return Err(trouble.at(self.alloc, &self.base, b""));
        }
        for _ in 0..u64::MAX {
            let Some(step) = self.steps.pop() else {
                break;
            };
            if let Err(trouble) = self.perform(&step) {
                self.refuse(trouble, &step)?;
            }
            self.progress.note(self.counts);
        }
        Ok(())
    }
}

/// Puts the files and folders of a folder of the system into a share, below its root, and tells how many there were.
/// The client has its session and its tree, and may write.
///
/// They are put from the top down, in the order of the bytes of their names, so two runs make the same requests: of a
/// folder CREATE and CLOSE; of a file CREATE, WRITEs of at most 61,440 bytes, SET_INFO and CLOSE; and once all of a
/// folder is put CREATE, SET_INFO and CLOSE for its times. The times are those of the file, in units of 100 ns, and
/// that of the last write is taken for creation and change too; one before 1970 is put as 1970. What its owner may not
/// write is READONLY. What the list beside the folder says of a file that has its size and its time of the last write
/// is taken from there. No link is followed, unless the folder itself is one.
///
/// The share is under these limits. What cannot be put is a fault of what was [`Put`], and the others are put all the
/// same; of a file that can't be put whole nothing is in the share. Of a folder of more names than the share has room
/// for files and folders the system says which ones are tried. Where the folder or its list cannot be read, memory runs
/// out or the share hears nothing more a [`FolderFault`] ends it, and what was put before is in the share.
pub fn put_folder<R: Files + AllocGlobal, L: Line>(
    rt: &R,
    limits: Limits,
    folder: &str,
    line: &mut L,
    client: &mut Client,
) -> Result<Put, FolderFault> {
    put_folder_noted(rt, limits, folder, line, client, ())
}

/// The same as [`put_folder`], of which somebody hears how far it has come.
pub fn put_folder_noted<R: Files + AllocGlobal, L: Line, P: Progress + Drop>(
    rt: &R,
    limits: Limits,
    folder: &str,
    line: &mut L,
    client: &mut Client,
    progress: P,
) -> Result<Put, FolderFault> {
    let alloc = rt.alloc();
    let mut putting = Putting {
        rt,
        alloc,
        base: base_of(alloc, folder)?,
        talk: Talk::new(alloc, limits, line, client),
        limits,
        notes: Notes::beside(rt, alloc, folder, limits.entries)?,
        steps: Vec::new(alloc),
        part: Vec::new(alloc),
        counts: Counts::default(),
        refused: Vec::new(alloc),
        more: 0,
        progress,
    };
    putting.run()?;
    Ok(Put {
        counts: putting.counts,
        refused: putting.refused,
        more: putting.more,
        others: putting.notes.left(),
    })
}
