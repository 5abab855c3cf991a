//! What is whole of a journal that is damaged.
//!
//! A batch is read by the check in the back of the batch before it, its seed. Behind damage each byte is tried as the
//! first one of a batch whose seed is in the back that the bytes before it would be, also of a batch that was lost
//! itself: where all of it reads, it is one, and those behind it follow by their seeds. Where the front of a damaged
//! batch is whole its changes are passed over, whose bytes may be those of a journal that somebody put into the
//! share.

use crate::doubts::Doubts;
use crate::fault::KeptFault;
use smb_changes::{Change, is_front, read_batch, read_change};
use smb_held_files::{HeldFile, HeldFiles, HoldFault};
use smb_peers::FILETIME_OF_1970;
use smb_tree::{Basic, EntryNo, Kind};
use smb_wire::{FileAttributes, Units, u64_at};
use std::alloc::Global;

/// How many bytes a batch's front has, its back, and both of them.
const FRONT: usize = 24;

const BACK: usize = 9;

const AROUND: u64 = 33;

/// The last byte of a batch.
const LAST: u8 = 10;

/// The number of the folder of an entry of which only bytes are known: none has it.
pub(crate) const NO_FOLDER: EntryNo = 0;

/// Bytes of a journal that are no batches.
#[derive(Clone, Copy, Debug, PartialEq, Eq)]
pub struct Damage {
    pub from: u64,
    /// The first byte behind them.
    pub to: u64,
}

/// Where a batch begins, or is to begin.
#[derive(Clone, Copy)]
pub(crate) struct Place {
    pub(crate) at: usize,
    pub(crate) seed: u64,
    pub(crate) number: u64,
}

/// What was salvaged of a journal.
#[derive(Drop)]
pub(crate) struct Salvaged {
    pub(crate) files: HeldFiles,
    pub(crate) damage: Vec<Damage>,
    /// What is not known of entries.
    pub(crate) doubts: Doubts,
    /// How many batches were read.
    pub(crate) batches: u64,
}

/// Whether a batch's front is at a place.
fn has_front(bytes: &[u8], place: Place) -> bool {
    let Some(rest) = bytes.get(place.at..) else {
        return false;
    };
    if rest.len() < FRONT {
        return false;
    }
    let (front, _) = rest.split_at(FRONT);
    is_front(place.seed, place.number, front)
}

/// The changes of the batch at a place, and the place behind it; None where no whole one is there.
fn batch_at(bytes: &[u8], place: Place) -> Option<(&[u8], Place)> {
    if !has_front(bytes, place) {
        return None;
    }
    let rest = bytes.get(place.at..)?;
    let batch = read_batch(place.seed, place.number, rest)?;
    let behind = Place {
        at: bytes.len().checked_sub(batch.rest.len())?,
        seed: batch.seed,
        number: place.number.saturating_add(1),
    };
    Some((batch.changes, behind))
}

/// The place of a batch that begins at a byte, by what would be the back of the one before it. Its number is not below
/// `least`.
fn place_at(bytes: &[u8], at: usize, least: u64) -> Option<Place> {
    let last = bytes.get(at.checked_sub(1)?)?;
    if *last != LAST {
        return None;
    }
    let seed = u64_at(bytes, at.checked_sub(BACK)?)?;
    let number = u64_at(bytes, at.checked_add(8)?)?;
    if number < least {
        return None;
    }
    let place = Place { at, seed, number };
    if batch_at(bytes, place).is_some() {
        Some(place)
    } else {
        None
    }
}

/// The place behind a batch whose front is whole, where a batch begins there.
fn place_behind(bytes: &[u8], place: Place) -> Option<Place> {
    if !has_front(bytes, place) {
        return None;
    }
    let size = u64_at(bytes, place.at)?.checked_add(AROUND)?;
    let at = (place.at as u64).checked_add(size)?;
    if at > bytes.len() as u64 {
        return None;
    }
    place_at(bytes, at as usize, place.number)
}

/// The next place behind one at which a batch begins.
fn next_place(bytes: &[u8], place: Place) -> Option<Place> {
    if let Some(behind) = place_behind(bytes, place) {
        return Some(behind);
    }
    for at in place.at..bytes.len() {
        if let Some(found) = place_at(bytes, at, place.number) {
            return Some(found);
        }
    }
    None
}

/// Whether all bytes from a place on are zeros.
fn ends_in_zeros(bytes: &[u8], at: usize) -> bool {
    match bytes.get(at..) {
        Some(rest) => rest.iter().all(|byte| *byte == 0),
        None => true,
    }
}

/// How many bytes an entry has.
fn size_of(file: &HeldFile) -> u64 {
    file.bytes.size()
}

impl Salvaged {
    /// Nothing.
    fn new(alloc: Global) -> Self {
        Salvaged {
            files: HeldFiles::new(alloc),
            damage: Vec::new(alloc),
            doubts: Doubts::new(alloc),
            batches: 0,
        }
    }

    /// Makes a change. One that no share can have is passed over.
    fn apply(&mut self, change: Change<'_>) -> Result<(), KeptFault> {
        match self.files.apply(change) {
            Err(HoldFault::NoMemory) => Err(KeptFault::NoMemory),
            _ => Ok(()),
        }
    }

    /// The size of the entry of a number, of which bytes or a size is known. One that is not known yet gets no name.
    fn need(&mut self, number: EntryNo) -> Result<u64, KeptFault> {
        if let Some(file) = self.files.get(number) {
            return Ok(size_of(file));
        }
        let Some(spelling) = Units::of(&[]) else {
            return Ok(0);
        };
        self.doubts.met(number, false)?;
        self.apply(Change::Entry {
            number,
            parent: NO_FOLDER,
            kind: Kind::File,
            mark: false,
            basic: Basic::of(FileAttributes::ARCHIVE, FILETIME_OF_1970),
            spelling,
        })?;
        Ok(0)
    }

    /// Notes what a change behind damage says of what was lost.
    fn doubt(&mut self, change: Change<'_>) -> Result<(), KeptFault> {
        match change {
            Change::Entry { number, .. } => {
                if self.files.get(number).is_none() {
                    self.doubts.met(number, true)?;
                } else {
                    self.doubts.named(number)?;
                }
            }
            Change::Bytes {
                number,
                offset,
                bytes,
            } => {
                let size = self.need(number)?;
                let end = offset.saturating_add(bytes.len() as u64);
                self.doubts.written(number, size, offset, end)?;
            }
            Change::Size { number, size } => {
                let before = self.need(number)?;
                self.doubts.written(number, before, size, u64::MAX)?;
            }
            Change::Gone { number } => self.doubts.gone(number),
            Change::Next { .. } => {}
        }
        Ok(())
    }

    /// Makes the changes of a batch.
    fn take(&mut self, changes: &[u8]) -> Result<(), KeptFault> {
        let mut rest = changes;
        for _ in 0..changes.len() {
            let Some((change, behind)) = read_change(rest) else {
                break;
            };
            if !self.damage.is_empty() {
                self.doubt(change)?;
            }
            self.apply(change)?;
            rest = behind;
        }
        self.batches = self.batches.saturating_add(1);
        Ok(())
    }

    /// Notes that bytes are damaged.
    fn push_damage(&mut self, from: usize, to: usize) -> Result<(), KeptFault> {
        let damage = Damage {
            from: from as u64,
            to: to as u64,
        };
        match self.damage.push(damage) {
            Ok(()) => Ok(()),
            Err(_) => Err(KeptFault::NoMemory),
        }
    }

    /// The place to go on at where no batch is at one; None at the end.
    fn pass(&mut self, bytes: &[u8], place: Place) -> Result<Option<Place>, KeptFault> {
        let next = next_place(bytes, place);
        match next {
            Some(found) => self.push_damage(place.at, found.at)?,
            None if ends_in_zeros(bytes, place.at) => {}
            None => self.push_damage(place.at, bytes.len())?,
        }
        Ok(next)
    }

    /// Reads all batches that are whole, of which the first is to begin at a place.
    fn run(&mut self, bytes: &[u8], first: Place) -> Result<(), KeptFault> {
        let mut place = first;
        for _ in 0..u64::MAX {
            if let Some((changes, behind)) = batch_at(bytes, place) {
                self.take(changes)?;
                place = behind;
                continue;
            }
            match self.pass(bytes, place)? {
                Some(next) => place = next,
                None => break,
            }
        }
        Ok(())
    }
}

/// What can be read of a journal's bytes, whose first batch is to begin at a place.
pub(crate) fn salvage_bytes(
    alloc: Global,
    bytes: &[u8],
    first: Place,
) -> Result<Salvaged, KeptFault> {
    let mut salvaged = Salvaged::new(alloc);
    match salvaged.run(bytes, first) {
        Ok(()) => Ok(salvaged),
        Err(fault) => Err(fault),
    }
}
