//! The limits of a share that has a folder's files.

use crate::measured::Measured;
use crate::size::GREATEST_CAPACITY;
use smb_wire::limits::Limits;

/// The most entries that a share can have, and the most bytes of a file.
const GREATEST_ENTRIES: u64 = 4_294_967_295;

const GREATEST_FILE_BYTES: u64 = 8_796_093_022_208;

/// The room of a share with a folder's files: what is asked for, or as much above them as a share has by default.
pub(crate) fn capacity_for(measured: Measured, asked: Option<u64>) -> u64 {
    match asked {
        Some(capacity) => capacity,
        None => measured
            .bytes
            .saturating_add(Limits::profile().capacity)
            .min(GREATEST_CAPACITY),
    }
}

/// The limits of a share with a folder's files and so much room, each its default at least: as many entries above the
/// folder's as there are by default, and files as long as the longest one, or as the room that is asked for.
pub(crate) fn limits_for(measured: Measured, capacity: u64, asked: Option<u64>) -> Limits {
    let mut limits = Limits::profile();
    let entries = measured.entries.saturating_add(limits.entries as u64);
    let longest = measured.longest.max(asked.unwrap_or(0));
    let file_bytes = limits.file_bytes.max(longest).min(GREATEST_FILE_BYTES);
    let capacity = limits.capacity.max(capacity).min(GREATEST_CAPACITY);
    let _ = limits.set_entries(entries.min(GREATEST_ENTRIES) as usize);
    let _ = limits.set_file_bytes(file_bytes);
    let _ = limits.set_capacity(capacity);
    limits
}
