//! What lies behind the whole batches.

ghost use Rattle.std.specs.Prelude.{◌≡◌, true, IfOk, IfErr, IfSome};
ghost use Rattle.smb_changes.specs.Batches.{are_zeros};
ghost use Rattle.smb_recovery.specs.Steps.{begins_torn, IsSearched, IsLong};

use super::fault::RecoveryFault;
use super::source::Source;
use smb_changes::is_front;
use smb_wire::u64_in;

// How many bytes are read at once where none are kept.
const PART: u64 = 65_536;

// Whether bytes are zeros.
fn are_zeros(bytes: &[u8]) -> bool
    ensures { result ≡ are_zeros bytes.now }
{
    bytes.iter().all(|byte| *byte == 0)
}

/// Whether the bytes that were taken for a batch may be what a lost end leaves of it, if only zeros are behind them:
/// they are no front, fewer than the batch has, or end in a zero.
pub fn begins_torn(seed: u64, number: u64, bytes: &[u8]) -> bool
    ensures { result ≡ begins_torn seed number bytes.now }
{
    if bytes.len() < 24 {
        return true;
    }
    let (front, behind) = bytes.split_at(24);
    if !is_front(seed, number, front) {
        return true;
    }
    let size = u64_in(bytes, 0);
    if behind.len() < 9 || size > (behind.len() - 9) as u64 {
        return true;
    }
    let (_, tail) = behind.split_at(size as usize + 8);
    are_zeros(tail)
}

/// Reads what is left to its end. How many bytes it is where all of them are zeros, and else None. The buffer has no
/// more than 65,536 bytes at a time.
pub fn take_zeros<S: Source>(
    source: &mut S,
    buffer: &mut Vec<u8>,
) -> Result<Option<u64>, RecoveryFault>
    ensures zeros { IfOk result
        (λ found. IsSearched found (S.read source.old) (S.read source.new) (S.ended source.old)) }
    ensures ended { IfOk result (λ found. IfSome found (λ _. S.ended source.new ≡ true)) }
    ensures err { IfErr result (λ fault. IsLong (S.read source.new) fault) }
{
    let mut count = 0u64;
    loop {
        buffer.clear();
        source.take(PART, buffer)?;
        if buffer.is_empty() {
            return Ok(Some(count));
        }
        if !are_zeros(buffer) {
            return Ok(None);
        }
        let Some(more) = count.checked_add(buffer.len() as u64) else {
            return Err(RecoveryFault::TooLong);
        };
        count = more;
    }
}
