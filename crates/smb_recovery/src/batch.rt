//! One batch is taken, and its changes are made.

ghost use Rattle.std.specs.Prelude.{◌≡◌, ◌++◌, OnOk, IfOk, IfErr};
ghost use Rattle.smb_wire.specs.Number.{IsBytes};
ghost use Rattle.smb_files.specs.Files.{replayed};
ghost use Rattle.smb_recovery.specs.Steps.{IsFrontTaken, IsFull, AreChanges, RefusesOne, changes_of};

use super::source::Source;
use smb_changes::{is_front, read_change};
use smb_held_files::{HeldFiles, HoldFault};
use smb_reason::Reason;
use smb_wire::u64_in;

// Takes 24 bytes in place of those of the buffer, and gives how many bytes of changes follow where they are the front
// of a batch.
fn take_front<S: Source>(
    source: &mut S,
    buffer: &mut Vec<u8>,
    seed: u64,
    number: u64,
) -> Result<Option<u64>, Reason>
    ensures read { OnOk result (S.read source.new ≡ S.read source.old ++ buffer.new.items) }
    ensures front { IfOk result (λ size. IsFrontTaken size seed number buffer.new.items (S.ended source.new)) }
{
    buffer.clear();
    source.take(24, buffer)?;
    if buffer.len() == 24 && is_front(seed, number, buffer) {
        Ok(Some(u64_in(buffer, 0)))
    } else {
        Ok(None)
    }
}

/// Takes the bytes of a batch in place of those of the buffer: its front, and its changes and its back behind it; only
/// 24 bytes where these are no front of a batch of this number and seed. At the end there may be fewer.
pub fn take_batch<S: Source>(
    source: &mut S,
    buffer: &mut Vec<u8>,
    seed: u64,
    number: u64,
) -> Result<(), Reason>
    ensures read { OnOk result (S.read source.new ≡ S.read source.old ++ buffer.new.items) }
    ensures full { OnOk result (IsFull seed number buffer.new.items (S.ended source.new)) }
    ensures bytes { OnOk result (IsBytes buffer.new.items) }
{
    if let Some(size) = take_front(source, buffer, seed, number)? {
        source.take(size, buffer)?;
        source.take(9, buffer)?;
    }
    Ok(())
}

/// Makes the changes that bytes are, the first of them first.
pub fn apply_all(files: &mut HeldFiles, bytes: &[u8]) -> Result<(), HoldFault>
    requires { AreChanges bytes.now }
    ensures ok { OnOk result (files.new ≡ replayed files.old (changes_of bytes.now)) }
    ensures why { IfErr result (λ fault. RefusesOne fault (changes_of bytes.now)) }
{
    let mut rest = bytes;
    while let Some((change, behind)) = read_change(rest) {
        if let Err(fault) = files.apply(change) {
            return Err(fault);
        }
        rest = behind;
    }
    Ok(())
}
