//! A batch that changes are added to.

ghost use Rattle.std.specs.Prelude.{◌≡◌, ◌≤◌, ◌++◌, [], OnOk, OnErr, IfOk, length, take, drop, nat_eq};
ghost use Rattle.smb_changes.specs.Batches.{check, back, batch, spelled_change};
ghost use Rattle.smb_changes.specs.Shown.{change_shown};
ghost use Rattle.smb_changes.specs.Crash.{IsWritable};
ghost use Rattle.smb_changes.specs.Open.{changes_in_batch};

use super::batch::{back_of, front_of};
use super::change::{Change, put_change};
use super::check::check_of;
use smb_wire::WireFault;
use std::alloc::Global;

// How many bytes a front has.
const FRONT: usize = 24;

// How many bytes a batch without changes keeps for the next ones, at most.
const KEPT: usize = 1 << 20;

/// A batch that changes are added to, in the bytes in which it is then written: before the changes there is room for
/// its front, and behind them its back is put. So no byte is copied once more. It is the bytes of its changes
/// (`changes_in_batch`).
#[derive(Drop)]
pub struct OpenBatch {
    // Nothing, or room for a front and the changes.
    bytes: Vec<u8>,
}

// Makes room for a front where there is none. An error leaves no changes where there were none.
fn make_room(bytes: &mut Vec<u8>) -> Result<(), WireFault>
    ensures ok { OnOk result (24 ≤ length bytes.new.items) }
    ensures same { drop 24 bytes.new.items ≡ drop 24 bytes.old.items }
{
    if bytes.len() >= FRONT {
        return Ok(());
    }
    bytes.clear();
    bytes.extend_from_slice(&[0; FRONT])?;
    Ok(())
}

// Puts a front in the place of the first bytes.
fn set_front(bytes: &mut Vec<u8>, front: &[u8; FRONT])
    requires { 24 ≤ length bytes.old.items }
    ensures { bytes.new.items ≡ front.now ++ drop 24 bytes.old.items }
{
    let (place, _) = bytes.split_at_mut(FRONT);
    place.copy_from_slice(front);
}

impl OpenBatch {
    /// A batch without changes. It takes no memory.
    pub fn new(alloc: Global) -> OpenBatch
        ensures { changes_in_batch result ≡ [] }
    {
        OpenBatch {
            bytes: Vec::new(alloc),
        }
    }

    /// How many bytes its changes have.
    pub fn len(&self) -> usize
        ensures { result ≡ length (changes_in_batch self.now) }
    {
        self.bytes.len().saturating_sub(FRONT)
    }

    /// Whether it has no changes.
    pub fn is_empty(&self) -> bool
        ensures { result ≡ nat_eq (length (changes_in_batch self.now)) 0 }
    {
        self.len() == 0
    }

    /// Adds a change. Its numbers fit their bytes (`writable`). [`WireFault::NoMemory`] leaves the changes as they
    /// were.
    pub fn note(&mut self, change: Change<'_>) -> Result<(), WireFault>
        ensures ok { OnOk result (changes_in_batch self.new
            ≡ changes_in_batch self.old ++ spelled_change (change_shown change.entry)) }
        ensures writable { OnOk result (IsWritable (change_shown change.entry)) }
        ensures err { OnErr result (changes_in_batch self.new ≡ changes_in_batch self.old) }
    {
        make_room(&mut self.bytes)?;
        put_change(&mut self.bytes, change)?;
        Ok(())
    }

    /// Keeps the first `length` bytes behind the front alone.
    pub fn truncate(&mut self, length: usize)
        ensures { changes_in_batch self.new ≡ take length (changes_in_batch self.old) }
    {
        self.bytes.truncate(length.saturating_add(FRONT));
    }

    /// Writes its front before the changes, and puts its back behind them, and gives the seed of the batch behind it
    /// (`next`). Cut to its changes again it takes further ones. [`WireFault::NoMemory`] leaves the changes as they
    /// were.
    pub fn close(&mut self, seed: u64, number: u64) -> Result<u64, WireFault>
        ensures ok { OnOk result (self.new.bytes.items ≡ batch seed number (changes_in_batch self.old)) }
        ensures behind { OnOk result (changes_in_batch self.new
            ≡ changes_in_batch self.old ++ back seed (changes_in_batch self.old)) }
        ensures next { IfOk result (λ next. next ≡ check seed (changes_in_batch self.old)) }
        ensures err { OnErr result (changes_in_batch self.new ≡ changes_in_batch self.old) }
    {
        make_room(&mut self.bytes)?;
        let size = self.len() as u64;
        let next = check_of(seed, &self.bytes[FRONT..]);
        self.bytes.extend_from_slice(&back_of(next))?;
        set_front(&mut self.bytes, &front_of(seed, number, size));
        Ok(next)
    }

    /// Forgets its changes. Of the memory that they took it keeps 1 MiB at most.
    pub fn clear(&mut self)
        ensures { changes_in_batch self.new ≡ [] }
    {
        self.bytes.truncate(FRONT);
        self.bytes.shrink_to(KEPT);
    }

    /// Its bytes: where it was closed, those of the batch.
    pub fn as_vec(&self) -> &Vec<u8>
        ensures { result.now ≡ self.now.bytes }
    {
        &self.bytes
    }
}
