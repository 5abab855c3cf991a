//! Journals that are whole, that are cut, and that are damaged.

use smb_changes::{Change, put_batch, put_change};
use smb_recovery::{MemorySource, RecoveryFault, recover};
use std::alloc::Global;

/// Adds a batch of 58 bytes, by which the next number is no less than this, and gives the seed of the batch behind it.
fn add_batch(alloc: Global, out: &mut Vec<u8>, seed: u64, number: u64, next: u64) -> Option<u64> {
    let mut body = Vec::new(alloc);
    put_change(&mut body, Change::Next { next }).ok()?;
    put_batch(out, seed, number, &body).ok()
}

/// Two batches, by which the next number is 5, and then 9.
fn journal(alloc: Global) -> Option<Vec<u8>> {
    let mut out = Vec::new(alloc);
    let seed = add_batch(alloc, &mut out, 7, 1, 5)?;
    add_batch(alloc, &mut out, seed, 2, 9)?;
    Some(out)
}

/// Whether this is found: the next number of the files, the length of whole batches, the number and the bytes behind.
fn finds(alloc: Global, bytes: &[u8], next: u64, whole: u64, number: u64, cut: u64) -> bool {
    match recover(alloc, &mut MemorySource::of(bytes), 7) {
        Ok(found) => {
            found.files.next() == next
                && found.whole == whole
                && found.number == number
                && found.cut == cut
        }
        Err(_) => false,
    }
}

/// Why bytes are refused, if they are.
fn fault_of(alloc: Global, bytes: &[u8]) -> Option<RecoveryFault> {
    recover(alloc, &mut MemorySource::of(bytes), 7).err()
}

/// Reads two whole batches, then the first with a part of the second, then that with zeros behind it.
fn reads_whole_and_cut(alloc: Global) -> bool {
    let Some(mut bytes) = journal(alloc) else {
        return false;
    };
    if bytes.len() != 116 || !finds(alloc, &bytes, 9, 116, 3, 0) {
        return false;
    }
    bytes.truncate(100);
    if !finds(alloc, &bytes, 5, 58, 2, 42) {
        return false;
    }
    bytes.extend_from_slice(&[0; 30]).is_ok() && finds(alloc, &bytes, 5, 58, 2, 72)
}

/// Whether a journal of which one byte is another is refused as damaged, in the batch of this number and at this place.
fn refuses(alloc: Global, at: usize, number: u64, place: u64) -> bool {
    let Some(mut bytes) = journal(alloc) else {
        return false;
    };
    if at >= bytes.len() {
        return false;
    }
    bytes[at] ^= 1;
    fault_of(alloc, &bytes) == Some(RecoveryFault::Damaged { number, place })
}

#[test]
fn whole_and_cut(rt: HostRuntime) {
    assert!(rt; reads_whole_and_cut(rt.alloc()));
}

#[test]
fn nothing(rt: HostRuntime) {
    assert!(rt; finds(rt.alloc(), b"", 1, 0, 1, 0));
}

#[test]
fn damaged(rt: HostRuntime) {
    for (at, number, place) in [
        (0, 1, 0),
        (8, 1, 0),
        (30, 1, 0),
        (57, 1, 0),
        (90, 2, 58),
        (115, 2, 58),
    ] {
        assert!(rt; refuses(rt.alloc(), at, number, place), "at {at}");
    }
}
