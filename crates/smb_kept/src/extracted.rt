//! The files that a journal or a recording leaves, taken out into a folder.

use crate::fault::KeptFault;
use crate::files::fault_of_read;
use crate::first_line::{FirstLine, read_first};
use crate::journal::FileFault;
use crate::journal_left::{JournalFiles, journal_files};
use crate::kind::{Kind, kind_of};
use crate::leaving::leave;
use crate::salvaged::{Damage, Place, salvage_bytes};
use crate::salvaged_tree::{Loss, tree_of};
use smb_engine::Tree;
use smb_folder::{FolderFault, take_folder};
use smb_journal::{Form, Mailbox};
use smb_journal_start::{Space, StartFault};
use std::fs;
use std::io::Read;

/// What was taken out.
#[derive(Drop)]
pub struct Extracted {
    pub kind: Kind,
    /// How many bytes of a cut last batch or line were left out.
    pub left_out: u64,
    /// The files and folders that were not taken out, or not whole.
    pub refused: Vec<FolderFault>,
    /// Where it was salvaged what is not there; None where the file is whole.
    pub salvage: Option<SalvageReport>,
}

/// What is not there of a journal that was salvaged.
#[derive(Drop)]
pub struct SalvageReport {
    /// Why it is not taken without that.
    pub fault: FileFault,
    /// In the order of its bytes.
    pub damage: Vec<Damage>,
    pub losses: Vec<Loss>,
}

/// Takes all files of a tree out into a new folder.
fn take_out<T: Tree>(
    rt: &HostRuntime,
    folder: &str,
    tree: &T,
    kind: Kind,
    left_out: u64,
) -> Result<Extracted, KeptFault> {
    let taken = take_folder(rt, folder, tree)?;
    Ok(Extracted {
        kind,
        left_out,
        refused: taken.refused,
        salvage: None,
    })
}

/// Makes a new folder of the files that a recording leaves.
fn extract_recording(
    rt: &HostRuntime,
    file: &str,
    form: Form,
    folder: &str,
) -> Result<Extracted, KeptFault> {
    let mailbox = Mailbox::new(rt.alloc());
    match leave(rt, file, &mailbox) {
        Ok(left) => {
            let tree = left.share.server().store().tree();
            take_out(rt, folder, tree, Kind::Recording(form), left.left_out)
        }
        Err(fault) => Err(fault),
    }
}

/// Makes a new folder of the files that a journal keeps.
fn extract_journal(rt: &HostRuntime, file: &str, folder: &str) -> Result<Extracted, KeptFault> {
    let JournalFiles { tree, left_out, .. } = journal_files(rt, file, Space::greatest())?;
    take_out(rt, folder, &tree, Kind::Journal, left_out)
}

/// Makes a new folder of the files and folders that a journal or a recording leaves, and returns what is missing there.
pub fn extract(rt: &HostRuntime, file: &str, folder: &str) -> Result<Extracted, KeptFault> {
    match kind_of(rt, file)? {
        Kind::Journal => extract_journal(rt, file, folder),
        Kind::Recording(form) => extract_recording(rt, file, form, folder),
    }
}

/// Whether what is whole of a file that is not taken as a journal may be read all the same.
fn is_salvageable(fault: FileFault) -> bool {
    match fault {
        FileFault::Neither | FileFault::BrokenOff { .. } => true,
        FileFault::Start(StartFault::Journal(_) | StartFault::Files(_) | StartFault::Marked) =>
            true,
        _ => false,
    }
}

/// All bytes of a file.
fn bytes_of(rt: &HostRuntime, path: &str) -> Result<Vec<u8>, KeptFault> {
    let mut file = fs::open(rt, path).map_err(fault_of_read)?;
    let mut bytes = Vec::new(rt.alloc());
    match file.read_to_end(&mut bytes) {
        Ok(_) => Ok(bytes),
        Err(error) => Err(fault_of_read(error)),
    }
}

/// Where the first batch of a file is to begin, and how many bytes the file is to have at least. Without a first line
/// that is whole the first byte may be one of a batch's.
fn first_place(rt: &HostRuntime, path: &str) -> Result<(Place, u64), KeptFault> {
    let mut file = fs::open(rt, path).map_err(fault_of_read)?;
    let line = read_first(rt.alloc(), &mut file)?;
    let (at, seed, least) = match FirstLine::of(&line) {
        Some(first) => (
            line.len(),
            first.seed,
            first.least.saturating_add(first.length),
        ),
        None => (0, 0, 0),
    };
    Ok((
        Place {
            at,
            seed,
            number: 1,
        },
        least,
    ))
}

/// Makes a new folder of what is whole of a journal that is not taken for this fault.
fn salvage_journal(
    rt: &HostRuntime,
    file: &str,
    folder: &str,
    fault: FileFault,
) -> Result<Extracted, KeptFault> {
    let alloc = rt.alloc();
    let (first, least) = first_place(rt, file)?;
    let bytes = bytes_of(rt, file)?;
    let found = salvage_bytes(alloc, &bytes, first)?;
    if found.batches == 0 && first.at == 0 {
        return Err(KeptFault::File(fault));
    }
    let mut damage = found.damage;
    let from = bytes.len() as u64;
    if from < least && damage.push(Damage { from, to: least }).is_err() {
        return Err(KeptFault::NoMemory);
    }
    let (tree, losses) = tree_of(alloc, &found.files, &found.doubts)?;
    let extracted = take_out(rt, folder, &tree, Kind::Journal, 0)?;
    let salvage = Some(SalvageReport {
        fault,
        damage,
        losses,
    });
    Ok(Extracted {
        salvage,
        ..extracted
    })
}

/// The same as [`extract`], and of a journal that is damaged what is whole before and behind the damage. All of its
/// bytes are held meanwhile, and its files twice. The journal stays as it is.
pub fn salvage(rt: &HostRuntime, file: &str, folder: &str) -> Result<Extracted, KeptFault> {
    match extract(rt, file, folder) {
        Err(KeptFault::File(fault)) if is_salvageable(fault) => {
            salvage_journal(rt, file, folder, fault)
        }
        extracted => extracted,
    }
}
