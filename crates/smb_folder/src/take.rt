//! The files of a tree into a new folder of the system.

use super::counts::Counts;
use super::fault::{FolderFault, FolderRule, Trouble};
use super::kept::{is_read_only, times_of};
use super::names::{base_of, child_of, name_of, system_path};
use super::note::Note;
use super::notes::{check_no_list, write_list};
use smb_tree::{Basic, EntryNo, EntryView, Kind, Tree};
use std::alloc::{AllocError, Global};
use std::fs;
use std::fs::{Files, OpenFile, OpenOptions};
use std::io::Write;

/// The number of the root.
const ROOT: EntryNo = 1;

/// How many bytes of a file are read at once at most.
const PIECE: u64 = 1_048_576;

/// What is to be done, by the path below the folder.
#[derive(Drop)]
enum Step {
    /// To take the file or folder of a number.
    Take(String, EntryNo),
    /// To set the times and rights of a folder, all of which is taken.
    Mark(String, Basic),
}

impl Step {
    /// The path that it is about.
    fn relative(&self) -> &str {
        match self {
            Step::Take(relative, _) | Step::Mark(relative, _) => relative,
        }
    }
}

/// A tree that is being taken into a folder.
#[derive(Drop)]
struct Taking<'a, R: Files, T: Tree> {
    rt: &'a R,
    alloc: Global,
    base: String,
    tree: &'a T,
    /// What is left to do, the next step last.
    steps: Vec<Step>,
    /// The part of a file that was read last.
    piece: Vec<u8>,
    /// The list of what the folder does not keep, as far as it has come.
    list: String,
    counts: Counts,
    refused: Vec<FolderFault>,
}

/// What was taken of a tree.
#[derive(Drop)]
pub struct Taken {
    /// What was taken whole.
    pub counts: Counts,
    /// What was not taken, or not whole: a file, or a folder with all that is in it. In the order of the tree.
    pub refused: Vec<FolderFault>,
}

/// Sets the times of a file or a folder, and then takes all rights to write where it is READONLY.
fn mark<F: OpenFile>(file: &F, basic: Basic) -> Result<(), Trouble> {
    file.set_times(times_of(basic)).map_err(Trouble::unwritten)?;
    if is_read_only(basic) {
        let mut permissions = file.metadata().map_err(Trouble::unwritten)?.permissions();
        permissions.set_readonly(true);
        file.set_permissions(permissions)
            .map_err(Trouble::unwritten)?;
    }
    Ok(())
}

/// Refuses an entry whose name is no name of a file.
fn check_name(alloc: Global, view: &EntryView<'_>) -> Result<(), Trouble> {
    let (name, is_unicode) = name_of(alloc, view.spelling)?;
    if !is_unicode {
        return Err(Trouble::Rule(FolderRule::NotUnicode));
    }
    match name.as_str() {
        "" | "." | ".." => Err(Trouble::Rule(FolderRule::NotForTheFolder)),
        name if name.contains('/') || name.contains('\0') => {
            Err(Trouble::Rule(FolderRule::NotForTheFolder))
        }
        _ => Ok(()),
    }
}

/// The numbers of what is in a folder of a tree, in its order.
fn children_of<T: Tree>(
    alloc: Global,
    tree: &T,
    number: EntryNo,
) -> Result<Vec<EntryNo>, AllocError> {
    let mut children = Vec::new(alloc);
    let mut last = None;
    for _ in 0..u64::MAX {
        let Some(child) = tree.child_after(number, last.as_ref()) else {
            break;
        };
        let Some(name) = tree.name(child) else {
            break;
        };
        children.push(child)?;
        last = Some(name);
    }
    Ok(children)
}

impl<R: Files, T: Tree> Taking<'_, R, T> {
    /// The path of the system at which what is at a path of the tree comes.
    fn path(&self, relative: &str) -> Result<String, AllocError> {
        system_path(self.alloc, &self.base, relative)
    }

    /// Makes a folder.
    fn make_folder(&mut self, relative: &str) -> Result<(), Trouble> {
        let path = self.path(relative)?;
        fs::create_dir(self.rt, &path).map_err(Trouble::unwritten)
    }

    /// Sets times and rights, and notes what the system keeps otherwise.
    fn mark<F: OpenFile>(
        &mut self,
        relative: &str,
        kind: Kind,
        basic: Basic,
        file: &F,
    ) -> Result<(), Trouble> {
        mark(file, basic)?;
        let metadata = file.metadata().map_err(Trouble::unwritten)?;
        if let Some(note) = Note::of(kind, basic, &metadata) {
            note.write(&mut self.list, relative)?;
        }
        Ok(())
    }

    /// Has what is in a folder taken next.
    fn enter(&mut self, relative: &str, number: EntryNo) -> Result<(), AllocError> {
        let children = children_of(self.alloc, self.tree, number)?;
        for child in children.iter().rev() {
            if let Some(view) = self.tree.entry(*child) {
                let (name, _) = name_of(self.alloc, view.spelling)?;
                let path = child_of(self.alloc, relative, &name)?;
                self.steps.push(Step::Take(path, *child))?;
            }
        }
        Ok(())
    }

    /// Takes a folder.
    fn take_folder(
        &mut self,
        relative: &str,
        number: EntryNo,
        basic: Basic,
    ) -> Result<(), Trouble> {
        self.make_folder(relative)?;
        let name = String::from_str(self.alloc, relative)?;
        self.steps.push(Step::Mark(name, basic))?;
        self.enter(relative, number)?;
        self.counts.add_folder();
        Ok(())
    }

    /// Copies the bytes of a file of the tree, which has this size.
    fn copy(&mut self, number: EntryNo, size: u64, file: &mut R::File) -> Result<(), Trouble> {
        for i in 0..size.div_ceil(PIECE) {
            self.piece.clear();
            let offset = i.saturating_mul(PIECE);
            if self
                .tree
                .read(number, offset, PIECE, &mut self.piece)
                .is_err()
            {
                return Err(Trouble::NoMemory);
            }
            file.write_all(&self.piece).map_err(Trouble::unwritten)?;
        }
        Ok(())
    }

    /// Takes a file of this size.
    fn take_file(
        &mut self,
        relative: &str,
        number: EntryNo,
        size: u64,
        basic: Basic,
    ) -> Result<(), Trouble> {
        let path = self.path(relative)?;
        let mut file = OpenOptions::new()
            .write(true)
            .create_new(true)
            .open(self.rt, &path)
            .map_err(Trouble::unwritten)?;
        self.copy(number, size, &mut file)?;
        self.mark(relative, Kind::File, basic, &file)?;
        self.counts.add_file(size);
        Ok(())
    }

    /// Takes the file or the folder of a number.
    fn take(&mut self, relative: &str, number: EntryNo) -> Result<(), Trouble> {
        let Some(view) = self.tree.entry(number) else {
            return Ok(());
        };
        let EntryView {
            kind,
            basic,
            size,
            ..
        } = view;
        check_name(self.alloc, &view)?;
        if kind.is_folder() {
            self.take_folder(relative, number, basic)
        } else {
            self.take_file(relative, number, size, basic)
        }
    }

    /// Sets the times and rights of a folder.
    fn mark_folder(&mut self, relative: &str, basic: Basic) -> Result<(), Trouble> {
        let path = self.path(relative)?;
        let folder = fs::open(self.rt, &path).map_err(Trouble::unwritten)?;
        self.mark(relative, Kind::Folder, basic, &folder)
    }

    /// Does a step.
    fn perform(&mut self, step: &Step) -> Result<(), Trouble> {
        match step {
            Step::Take(relative, number) => self.take(relative, *number),
            Step::Mark(relative, basic) => self.mark_folder(relative, *basic),
        }
    }

    /// Notes that a step could not be done, or ends all of them where memory ran out.
    fn refuse(&mut self, trouble: Trouble, step: &Step) -> Result<(), FolderFault> {
        let fault = trouble.at(self.alloc, &self.base, step.relative().as_bytes());
        if trouble.is_the_end() {
            return Err(fault);
        }
        self.push_refused(fault)
    }

    /// Notes a fault.
    fn push_refused(&mut self, fault: FolderFault) -> Result<(), FolderFault> {
        match self.refused.push(fault) {
            Ok(()) => Ok(()),
            Err(_) => Err(FolderFault::NoMemory),
        }
    }

    /// Writes the list beside the folder.
    fn finish(&mut self, folder: &str) -> Result<(), FolderFault> {
        match write_list(self.rt, self.alloc, folder, &self.list) {
            Err(FolderFault::NoMemory) => Err(FolderFault::NoMemory),
            Err(fault) => self.push_refused(fault),
            Ok(()) => Ok(()),
        }
    }

    /// Makes the new folder, and has all of the tree taken next.
    fn begin(&mut self) -> Result<(), Trouble> {
        self.make_folder("")?;
        self.enter("", ROOT)?;
        Ok(())
    }

    /// Does all steps, from the new folder on.
    fn run(&mut self) -> Result<(), FolderFault> {
        if let Err(trouble) = self.begin() {
            return Err(trouble.at(self.alloc, &self.base, b""));
        }
        for _ in 0..u64::MAX {
            let Some(step) = self.steps.pop() else {
                break;
            };
            if let Err(trouble) = self.perform(&step) {
                self.refuse(trouble, &step)?;
            }
        }
        Ok(())
    }
}

/// Takes the files and folders of a tree into a new folder of the system, and tells what was taken.
///
/// A folder that exists is a fault, and so is any file that exists where one is made: nothing is written over. Files
/// and folders get the times of the last write and the last access that they have in the tree, in units of 100 ns, one
/// before 1970 as 1970, and where they are READONLY nobody has a right to write. The new folder keeps the times of its
/// making. What the system does not keep, HIDDEN, SYSTEM, ARCHIVE and the times of the creation and the change, is in a
/// list beside the folder, where it is other than that of a file that is put into a share. It has the folder's name and
/// `.attributes`, and one that exists is a fault before anything is made.
///
/// A file or folder that cannot be taken is a fault of what was [`Taken`], and the others are taken all the same: of a
/// file there may be a part in the folder then, and of a folder nothing. Where the new folder cannot be made or memory
/// runs out a [`FolderFault`] ends it, and what was taken before is in the folder.
pub fn take_folder<R: Files + AllocGlobal, T: Tree>(
    rt: &R,
    folder: &str,
    tree: &T,
) -> Result<Taken, FolderFault> {
    let alloc = rt.alloc();
    check_no_list(rt, alloc, folder)?;
    let mut taking = Taking {
        rt,
        alloc,
        base: base_of(alloc, folder)?,
        tree,
        steps: Vec::new(alloc),
        piece: Vec::new(alloc),
        list: String::new(alloc),
        counts: Counts::default(),
        refused: Vec::new(alloc),
    };
    taking.run()?;
    taking.finish(folder)?;
    Ok(Taken {
        counts: taking.counts,
        refused: taking.refused,
    })
}
