//! Names in capitals.

ghost use Rattle.std.specs.Prelude.{◌≡◌, IfOk};
ghost use Rattle.smb_wire.specs.Pairs.{units_in};
ghost use Rattle.smb_wire.specs.Names.{folded};
ghost use Rattle.smb_ntlm.specs.Proof.{capitals};

use smb_wire::{WireFault, fold_unit, put_u16};
use std::alloc::Global;

/// A name in ASCII, in capitals, in UTF-16LE.
pub fn capitals_of(alloc: Global, name: &[u8]) -> Result<Vec<u8>, WireFault>
    ensures spelled { IfOk result (λ units. units.items ≡ capitals name.now) }
    ensures read { IfOk result (λ units. units_in units.items ≡ folded name.now) }
{
    let mut units = Vec::new(alloc);
    for byte in name {
        put_u16(&mut units, fold_unit(u16::from(*byte)))?;
    }
    Ok(units)
}
