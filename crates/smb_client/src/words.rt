//! Texts as they stand on the wire.

use std::alloc::{AllocError, Global};

/// A text in UTF-16, its bytes in the order of the wire: what [`Units::of`](smb_wire::Units::of) takes.
pub fn units_of(alloc: Global, text: &str) -> Result<Vec<u8>, AllocError> {
    let mut bytes = Vec::new(alloc);
    for character in text.chars() {
        let mut units = [0u16; 2];
        for unit in character.encode_utf16(&mut units).iter() {
            bytes.extend_from_slice(&unit.to_le_bytes())?;
        }
    }
    Ok(bytes)
}
