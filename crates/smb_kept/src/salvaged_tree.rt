//! A tree of what was salvaged of a journal.

use crate::doubts::Doubts;
use crate::fault::KeptFault;
use smb_engine::NodeTree;
use smb_folder::name_of;
use smb_held_files::{HeldFile, HeldFiles};
use smb_journal_start::Space;
use smb_reason::Shown;
use smb_tree::{EntryNo, Kind, Tree, TreeFault};
use smb_wire::{Units, split_path};
use std::alloc::{AllocError, Global};
use std::fmt;

/// The number of the root.
const ROOT: EntryNo = 1;

/// How many names a path has at most.
const MOST_NAMES: usize = 32;

/// How many bytes of a file are copied at once at most.
const PIECE: u64 = 1_048_576;

/// The folder of what has no other one, and how many names for it are tried.
const LOST: &str = "lost+found";

const LOST_NAMES: u64 = 100;

/// What is between two names of a path, in bytes of a unit.
const SEPARATOR: [u8; 2] = [0x5C, 0];

/// What is not known of an entry, or may be missing of it.
#[derive(Clone, Copy, Debug, PartialEq, Eq)]
pub enum Missing {
    /// Only bytes of it, or its size, were found.
    Name,
    /// Its folder is not known, or is none.
    Folder,
    /// Its name can't be there: another entry has it.
    Place,
    /// It was met behind damage for the first time.
    Begin,
    /// Bytes from an offset up to another one.
    Bytes { from: u64, to: u64 },
}

impl fmt::Display for Missing {
    fn fmt<W: fmt::Write>(&self, f: &mut fmt::Formatter<W>) -> fmt::Result {
        match self {
            Missing::Name => f.write_str("its name and its folder are not known"),
            Missing::Folder => f.write_str("its folder is not known"),
            Missing::Place => f.write_str("its place is another entry's"),
            Missing::Begin => {
                f.write_str("met behind damage for the first time: bytes of it may be missing")
            }
            Missing::Bytes { from, to } => write!(f, "bytes {from} to {to} may be missing"),
        }
    }
}

/// Something that is not known of what is at a path below the new folder.
#[derive(Drop)]
pub struct Loss {
    /// In one line.
    pub path: String,
    pub missing: Missing,
}

/// Where an entry belongs: its number and those of the folders above it, itself first.
#[derive(Drop)]
struct Way {
    numbers: Vec<EntryNo>,
    /// Whether the last of them is in the root.
    is_rooted: bool,
}

/// An entry that is to be placed.
#[derive(Clone, Copy, PartialEq, Eq, PartialOrd, Ord)]
struct Order {
    is_lost: bool,
    depth: usize,
    number: EntryNo,
}

/// Whether a number is that of a folder.
fn is_folder(files: &HeldFiles, number: EntryNo) -> bool {
    match files.get(number) {
        Some(file) => file.kind.is_folder(),
        None => false,
    }
}

/// Where an entry belongs.
fn way_to(alloc: Global, files: &HeldFiles, number: EntryNo) -> Result<Way, AllocError> {
    let mut numbers = Vec::new(alloc);
    numbers.push(number)?;
    let mut last = number;
    for _ in 0..MOST_NAMES {
        let Some(file) = files.get(last) else {
            break;
        };
        if file.parent == ROOT {
            return Ok(Way {
                numbers,
                is_rooted: true,
            });
        }
        if !is_folder(files, file.parent) || numbers.iter().any(|other| *other == file.parent) {
            break;
        }
        last = file.parent;
        numbers.push(last)?;
    }
    Ok(Way {
        numbers,
        is_rooted: false,
    })
}

/// All entries but the root, in the order in which they are placed: a folder before what is in it, and what has a place
/// before what is lost.
fn orders(alloc: Global, files: &HeldFiles) -> Result<Vec<Order>, AllocError> {
    let mut orders = Vec::new(alloc);
    let mut last = None;
    for _ in 0..u64::MAX {
        let Some(number) = files.number_after(last) else {
            break;
        };
        last = Some(number);
        if number == ROOT {
            continue;
        }
        let way = way_to(alloc, files, number)?;
        orders.push(Order {
            is_lost: !way.is_rooted,
            depth: way.numbers.len(),
            number,
        })?;
    }
    orders.sort()?;
    Ok(orders)
}

/// Adds a text to a path.
fn push_text(path: &mut Vec<u8>, text: &str) -> Result<(), AllocError> {
    for unit in text.encode_utf16() {
        path.extend_from_slice(&unit.to_le_bytes())?;
    }
    Ok(())
}

/// A path in one line, with the separators of the system.
fn shown(alloc: Global, path: &[u8]) -> Result<String, AllocError> {
    let Some(units) = Units::of(path) else {
        return Ok(String::new(alloc));
    };
    let (text, _) = name_of(alloc, units)?;
    let path: String = text
        .chars()
        .map(|character| if character == '\\' { '/' } else { character })
        .collect(alloc)?;
    format!(in alloc; "{}", Shown(path.as_bytes()))
}

/// Entries that are being placed in a tree.
#[derive(Drop)]
struct Placing<'a> {
    alloc: Global,
    files: &'a HeldFiles,
    doubts: &'a Doubts,
    tree: NodeTree,
    /// The name of the folder of what is lost, once it is made.
    lost: Option<String>,
    piece: Vec<u8>,
    losses: Vec<Loss>,
}

impl Placing<'_> {
    /// The path below the folder of what is lost of a number.
    fn lost_path(&self, number: EntryNo) -> Result<Vec<u8>, AllocError> {
        let name = match &self.lost {
            Some(name) => name.as_str(),
            None => LOST,
        };
        let text = format!(in self.alloc; "{name}\\{number}")?;
        let mut path = Vec::new(self.alloc);
        push_text(&mut path, &text)?;
        Ok(path)
    }

    /// The path of an entry by its way: below the folder of what is lost where the way does not lead to the root.
    fn path_of(&self, way: &Way) -> Result<Vec<u8>, AllocError> {
        let mut path = Vec::new(self.alloc);
        let mut is_first = true;
        for number in way.numbers.iter().rev() {
            if is_first && !way.is_rooted {
                path = self.lost_path(*number)?;
            } else {
                if !is_first {
                    path.extend_from_slice(&SEPARATOR)?;
                }
                if let Some(file) = self.files.get(*number) {
                    path.extend_from_slice(&file.spelling)?;
                }
            }
            is_first = false;
        }
        Ok(path)
    }

    /// Adds an entry without its bytes at a path; None where it can't be there.
    fn add(&mut self, path: &[u8], file: &HeldFile) -> Result<Option<EntryNo>, KeptFault> {
        let Some(units) = Units::of(path) else {
            return Ok(None);
        };
        let Ok(view) = split_path(units) else {
            return Ok(None);
        };
        let basic = file.basic;
        match self
            .tree
            .add(&view, file.kind, basic.attributes, basic.change_time)
        {
            Ok(number) => {
                let _ = self.tree.set_basic(number, basic);
                Ok(Some(number))
            }
            Err(TreeFault::NoMemory) => Err(KeptFault::NoMemory),
            Err(_) => Ok(None),
        }
    }

    /// Copies the bytes of a file. Zeros are left out.
    fn copy(&mut self, number: EntryNo, file: &HeldFile) -> Result<(), KeptFault> {
        let size = file.bytes.size();
        for i in 0..size.div_ceil(PIECE) {
            let offset = i.saturating_mul(PIECE);
            self.piece.clear();
            file.bytes.add_part(offset, PIECE, &mut self.piece)?;
            if self.piece.iter().any(|byte| *byte != 0)
                && self.tree.write(number, offset, &self.piece).is_err()
            {
                return Err(KeptFault::NoMemory);
            }
        }
        if self.tree.set_size(number, size).is_err() {
            return Err(KeptFault::NoMemory);
        }
        Ok(())
    }

    /// Makes the folder of what is lost, under the first of its names that is free.
    fn make_lost(&mut self, file: &HeldFile) -> Result<(), KeptFault> {
        if self.lost.is_some() {
            return Ok(());
        }
        for i in 1..LOST_NAMES {
            let name = match i {
                1 => String::from_str(self.alloc, LOST)?,
                i => format!(in self.alloc; "{LOST} {i}")?,
            };
            if self.add_folder(&name, file)? {
                self.lost = Some(name);
                return Ok(());
            }
        }
        Ok(())
    }

    /// Makes a folder in the root with the times of an entry, and says whether its name was free.
    fn add_folder(&mut self, name: &str, file: &HeldFile) -> Result<bool, KeptFault> {
        let mut path = Vec::new(self.alloc);
        push_text(&mut path, name)?;
        let Some(units) = Units::of(&path) else {
            return Ok(false);
        };
        let Ok(view) = split_path(units) else {
            return Ok(false);
        };
        let basic = file.basic;
        match self
            .tree
            .add(&view, Kind::Folder, basic.attributes, basic.change_time)
        {
            Ok(_) => Ok(true),
            Err(TreeFault::NoMemory) => Err(KeptFault::NoMemory),
            Err(_) => Ok(false),
        }
    }

    /// Notes something that is not known of what is at a path.
    fn lose(&mut self, path: &[u8], missing: Missing) -> Result<(), KeptFault> {
        let path = shown(self.alloc, path)?;
        match self.losses.push(Loss { path, missing }) {
            Ok(()) => Ok(()),
            Err(_) => Err(KeptFault::NoMemory),
        }
    }

    /// Notes all that is not known of the entry that is at a path.
    fn lose_all(&mut self, path: &[u8], number: EntryNo) -> Result<(), KeptFault> {
        let doubts = self.doubts;
        let Some(doubt) = doubts.get(number) else {
            return Ok(());
        };
        if !doubt.is_named {
            self.lose(path, Missing::Name)?;
        }
        if doubt.is_late && doubt.is_named {
            self.lose(path, Missing::Begin)?;
        }
        for gap in doubt.gaps.iter() {
            let (from, to) = (gap.from, gap.to);
            self.lose(path, Missing::Bytes { from, to })?;
        }
        Ok(())
    }

    /// Adds an entry at its path, or below the folder of what is lost where it can't be there. Gives its path and its
    /// number in the tree; None where it can be nowhere.
    fn add_somewhere(
        &mut self,
        order: Order,
        file: &HeldFile,
    ) -> Result<Option<(Vec<u8>, EntryNo)>, KeptFault> {
        if order.is_lost {
            self.make_lost(file)?;
        }
        let way = way_to(self.alloc, self.files, order.number)?;
        let path = self.path_of(&way)?;
        if let Some(number) = self.add(&path, file)? {
            if order.is_lost && way.numbers.len() == 1 && self.is_named(order.number) {
                self.lose(&path, Missing::Folder)?;
            }
            return Ok(Some((path, number)));
        }
        self.make_lost(file)?;
        let path = self.lost_path(order.number)?;
        match self.add(&path, file)? {
            Some(number) => {
                self.lose(&path, Missing::Place)?;
                Ok(Some((path, number)))
            }
            None => Ok(None),
        }
    }

    /// Whether the name of an entry is known.
    fn is_named(&self, number: EntryNo) -> bool {
        match self.doubts.get(number) {
            Some(doubt) => doubt.is_named,
            None => true,
        }
    }

    /// Places an entry.
    fn place(&mut self, order: Order) -> Result<(), KeptFault> {
        let files = self.files;
        let Some(file) = files.get(order.number) else {
            return Ok(());
        };
        let Some((path, number)) = self.add_somewhere(order, file)? else {
            return Ok(());
        };
        if !file.kind.is_folder() {
            self.copy(number, file)?;
        }
        self.lose_all(&path, order.number)
    }

    /// Places all entries.
    fn run(&mut self) -> Result<(), KeptFault> {
        for order in orders(self.alloc, self.files)?.iter() {
            self.place(*order)?;
        }
        Ok(())
    }
}

/// A tree of what was salvaged, and what is not known of its files. What has no folder is in `lost+found`, by its
/// number. An entry that was to be deleted is there.
pub(crate) fn tree_of(
    alloc: Global,
    files: &HeldFiles,
    doubts: &Doubts,
) -> Result<(NodeTree, Vec<Loss>), KeptFault> {
    let Space {
        limits,
        capacity,
        created,
    } = Space::greatest();
    let Ok(tree) = NodeTree::within(alloc, limits, created, capacity) else {
        return Err(KeptFault::NoMemory);
    };
    let mut placing = Placing {
        alloc,
        files,
        doubts,
        tree,
        lost: None,
        piece: Vec::new(alloc),
        losses: Vec::new(alloc),
    };
    match placing.run() {
        Ok(()) => Ok((placing.tree, placing.losses)),
        Err(fault) => Err(fault),
    }
}
