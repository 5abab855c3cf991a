//! A batch, and its bytes.

ghost use Rattle.std.specs.Prelude.{◌≡◌, ◌++◌, ◌∷◌, [], OnOk, OnErr, IfOk, length, take};
ghost use Rattle.smb_wire.specs.Number.{spelling};
ghost use Rattle.smb_changes.specs.Batches.{check, front, batch};

use super::check::check_of;
use smb_wire::{WireFault, in_eight, put_bytes};

/// The front of a batch whose changes have `size` bytes.
pub(crate) fn front_of(seed: u64, number: u64, size: u64) -> [u8; 24]
    ensures { result ≡ front seed number size }
{
    let mut fields = [0; 16];
    let (first, second) = fields.split_at_mut(8);
    first.copy_from_slice(&in_eight(size));
    second.copy_from_slice(&in_eight(number));
    let check = check_of(seed, &fields);
    let mut front = [0; 24];
    let (place, last) = front.split_at_mut(16);
    place.copy_from_slice(&fields);
    last.copy_from_slice(&in_eight(check));
    front
}

/// The back of a batch whose changes have this check.
pub(crate) fn back_of(check: u64) -> [u8; 9]
    ensures { result ≡ spelling 8 check ++ 10 ∷ [] }
{
    let mut back = [10; 9];
    let (place, _) = back.split_at_mut(8);
    place.copy_from_slice(&in_eight(check));
    back
}

// Adds a batch, and gives the seed of the next. After an error the bytes that were there are there.
#[tactic(auto, using(crate::proofs::Kept::kept_by))]
fn put_parts(out: &mut Vec<u8>, seed: u64, number: u64, body: &[u8]) -> Result<u64, WireFault>
    ensures ok { OnOk result (out.new.items ≡ out.old.items ++ batch seed number body.now) }
    ensures next { IfOk result (λ next. next ≡ check seed body.now) }
    ensures err { OnErr result (take (length out.old.items) out.new.items ≡ out.old.items) }
{
    put_bytes(out, &front_of(seed, number, body.len() as u64))?;
    put_bytes(out, body)?;
    let next = check_of(seed, body);
    put_bytes(out, &back_of(next))?;
    Ok(next)
}

/// Adds a batch of changes that are spelled, and gives the seed of the batch behind it (`next`).
/// [`WireFault::NoMemory`] leaves `out` as it was.
pub fn put_batch(out: &mut Vec<u8>, seed: u64, number: u64, body: &[u8]) -> Result<u64, WireFault>
    ensures ok { OnOk result (out.new.items ≡ out.old.items ++ batch seed number body.now) }
    ensures next { IfOk result (λ next. next ≡ check seed body.now) }
    ensures err { OnErr result (out.new.items ≡ out.old.items) }
{
    let length = out.len();
    match put_parts(out, seed, number, body) {
        Ok(next) => Ok(next),
        Err(fault) => {
            out.truncate(length);
            Err(fault)
        }
    }
}
