//! What peers in memory took.

use super::memory_peers::MemoryPeers;
use std::alloc::{AllocError, Global};

/// The bytes that peers in memory took for the connection of a number, in order: each of [`MemoryPeers::taken`]. Each byte is looked up
/// in the peers' record.
pub fn taken_from(alloc: Global, peers: &MemoryPeers, number: u64) -> Result<Vec<u8>, AllocError> {
    let mut bytes = Vec::new(alloc);
    for index in 0..usize::MAX {
        let Some(byte) = peers.taken(number, index) else {
            break;
        };
        bytes.push(byte)?;
    }
    Ok(bytes)
}
