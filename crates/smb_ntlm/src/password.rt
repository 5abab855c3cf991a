//! Passwords.

ghost use Rattle.std.specs.Prelude.{◌≡◌, ◌++◌, IfOk, OnOk};
ghost use Rattle.std.specs.Char.Escape.{encode_utf16};
ghost use Rattle.smb_wire.specs.Pairs.{unit_bytes};
ghost use Rattle.smb_ntlm.specs.Passwords.{utf16_bytes, nt_hash};

use super::md4::md4;
use smb_wire::{WireFault, put_u16};
use std::alloc::{AllocError, Global};

/// Adds a character in UTF-16LE. After an error some of it stands there.
fn put_character(bytes: &mut Vec<u8>, character: char) -> Result<(), WireFault>
    ensures { OnOk result (bytes.new.items ≡ bytes.old.items ++ unit_bytes (encode_utf16 character)) }
{
    let mut buffer = [0u16; 2];
    let units = character.encode_utf16(&mut buffer);
    for unit in units.iter() {
        put_u16(bytes, *unit)?;
    }
    Ok(())
}

/// A text in UTF-16LE.
fn utf16_bytes_of(alloc: Global, text: &str) -> Result<Vec<u8>, WireFault>
    ensures { IfOk result (λ bytes. bytes.items ≡ utf16_bytes text.now) }
{
    let mut bytes = Vec::new(alloc);
    for character in text.chars() {
        put_character(&mut bytes, character)?;
    }
    Ok(bytes)
}

/// The NT hash of a password, for an [`Account`](crate::Account): MD4 of it in UTF-16LE ([MS-NLMP] 3.3.1, NTOWFv1). Who
/// has it can log in.
pub fn nt_hash_of(alloc: Global, password: &str) -> Result<[u8; 16], AllocError>
    ensures { IfOk result (λ hash. hash ≡ nt_hash password.now) }
{
    let bytes = utf16_bytes_of(alloc, password).map_err(|_| AllocError)?;
    md4(bytes)
}
