//! The files that a journal keeps.

ghost use Rattle.std.specs.Prelude.{◌≡◌, ◌≤◌, ◌+◌, ◌++◌, ℕ, List, false, true, [], OnOk, IfOk, IfErr, length};
ghost use Rattle.smb_changes.specs.Batches.{recovered, is_damaged};
ghost use Rattle.smb_recovery.specs.Recovering.{IsReadUpTo, SaysWhy};
ghost use Rattle.smb_recovery.specs.Steps.{IsFull, IsStep, IsReadTo, IsReadOut, IsEnd, refusal_of};

use super::batch::{apply_all, take_batch};
use super::fault::RecoveryFault;
use super::rest::{begins_torn, take_zeros};
use super::source::Source;
use smb_changes::read_batch;
use smb_held_files::{HeldFiles, HoldFault};
use std::alloc::Global;

/// What is recovered of a journal's bytes.
#[derive(Drop)]
pub struct Recovered {
    /// The files that the whole batches make.
    pub files: HeldFiles,
    /// How many bytes the whole batches are.
    pub whole: u64,
    /// The number of the batch that is to come behind them.
    pub number: u64,
    /// The seed of that batch.
    pub seed: u64,
    /// How many bytes lie behind the whole batches: what a lost end leaves.
    pub cut: u64,
}

// What is answered where a change of the batch of this number is not made.
fn refusal(number: u64, fault: HoldFault) -> RecoveryFault
    ensures { result ≡ refusal_of number fault }
{
    match fault {
        HoldFault::NoMemory => RecoveryFault::NoMemory,
        fault => RecoveryFault::NotHeld { number, fault },
    }
}

// Takes a batch and makes its changes; false where there is no whole one.
fn take_next<S: Source>(
    source: &mut S,
    buffer: &mut Vec<u8>,
    found: &mut Recovered,
) -> Result<bool, RecoveryFault>
    requires { found.old.number ≤ found.old.whole + 1 }
    ensures read { OnOk result (S.read source.new ≡ S.read source.old ++ buffer.new.items) }
    ensures full { OnOk result (IsFull found.old.seed found.old.number buffer.new.items (S.ended source.new)) }
    ensures step { IfOk result (λ more. IsStep more found.old found.new buffer.new.items) }
    ensures why { IfErr result (λ fault. (first : ℕ) → IsReadTo first (S.read source.old) [] found.old →
        (later : List ℕ) → SaysWhy first (S.read source.new ++ later) fault) }
{
    take_batch(source, buffer, found.seed, found.number)?;
    let Some(batch) = read_batch(found.seed, found.number, buffer) else {
        return Ok(false);
    };
    let number = found.number;
    if let Err(fault) = apply_all(&mut found.files, batch.changes) {
        return Err(refusal(number, fault));
    }
    let Some(whole) = found.whole.checked_add(buffer.len() as u64) else {
        return Err(RecoveryFault::TooLong);
    };
    found.whole = whole;
    found.number = number + 1;
    found.seed = batch.seed;
    Ok(true)
}

// Takes whole batches, and makes their changes, until there is none.
fn take_all<S: Source>(
    alloc: Global,
    source: &mut S,
    buffer: &mut Vec<u8>,
    seed: u64,
) -> Result<Recovered, RecoveryFault>
    requires { S.read source.old ≡ [] }
    ensures read { IfOk result
        (λ found. IsReadOut seed (S.read source.new) buffer.new.items found (S.ended source.new)) }
    ensures why { IfErr result
        (λ fault. (later : List ℕ) → SaysWhy seed (S.read source.new ++ later) fault) }
{
    let mut found = Recovered {
        files: HeldFiles::new(alloc),
        whole: 0,
        number: 1,
        seed,
        cut: 0,
    };
    loop {
        match take_next(source, buffer, &mut found) {
            Ok(true) => {}
            Ok(false) => return Ok(found),
            Err(fault) => return Err(fault),
        }
    }
}

// Reads what is left to its end, where the buffer has what was taken for a batch and is no whole one.
fn finish<S: Source>(
    source: &mut S,
    buffer: &mut Vec<u8>,
    found: Recovered,
) -> Result<Recovered, RecoveryFault>
    requires { IsFull found.seed found.number buffer.old.items (S.ended source.old) }
    ensures done { IfOk result (λ done. IsEnd found done buffer.old.items
        (S.read source.old) (S.read source.new) (S.ended source.old)) }
    ensures ended { OnOk result (S.ended source.new ≡ true) }
    ensures why { IfErr result (λ fault. (first : ℕ) →
        IsReadOut first (S.read source.old) buffer.old.items found (S.ended source.old) →
        (later : List ℕ) → SaysWhy first (S.read source.new ++ later) fault) }
{
    let damaged = RecoveryFault::Damaged {
        number: found.number,
        place: found.whole,
    };
    if !begins_torn(found.seed, found.number, buffer) {
        return Err(damaged);
    }
    let begun = buffer.len() as u64;
    let zeros = match take_zeros(source, buffer) {
        Ok(Some(zeros)) => zeros,
        Ok(None) => return Err(damaged),
        Err(fault) => return Err(fault),
    };
    let Some(cut) = begun.checked_add(zeros) else {
        return Err(RecoveryFault::TooLong);
    };
    Ok(Recovered { cut, ..found })
}

/// The files that the bytes of a source keep, of which nothing was read: it is read to its end.
///
/// The first `whole` bytes are the whole batches with which they begin, the first with this seed, and the files are
/// those that their changes make (`written`): what `recovered` of `smb_changes` says of all the bytes that were read
/// (`files`). The `cut` bytes behind them are what a lost end leaves of one batch (`undamaged`).
///
/// The memory is that of the files and of one batch, but no more than the bytes that are there. After an error the
/// source is read up to some byte.
///
/// # Errors
///
/// The last three come only where `why` says so of the bytes that were read, whatever may follow these.
///
/// - [`RecoveryFault::NoMemory`] where there is no memory for a change.
/// - [`RecoveryFault::Refused`] where a read, or the memory for what it gives, is refused.
/// - [`RecoveryFault::NotHeld`] where a change says what no share can have.
/// - [`RecoveryFault::Damaged`] where what lies behind the whole batches is not what a lost end leaves.
/// - [`RecoveryFault::TooLong`] past 2^64 - 1 bytes.
pub fn recover<S: Source>(
    alloc: Global,
    source: &mut S,
    seed: u64,
) -> Result<Recovered, RecoveryFault>
    requires { S.read source.old ≡ [] }
    ensures files { IfOk result (λ found. found.files ≡ recovered seed (S.read source.new)) }
    ensures written { IfOk result
        (λ found. IsReadUpTo seed (S.read source.new) found.files found.whole found.number found.seed) }
    ensures all { IfOk result (λ found. found.whole + found.cut ≡ length (S.read source.new)) }
    ensures undamaged { OnOk result (is_damaged seed (S.read source.new) ≡ false) }
    ensures why { IfErr result
        (λ fault. (later : List ℕ) → SaysWhy seed (S.read source.new ++ later) fault) }
    ensures ended { OnOk result (S.ended source.new ≡ true) }
{
    let mut buffer = Vec::new(alloc);
    match take_all(alloc, source, &mut buffer, seed) {
        Ok(found) => match finish(source, &mut buffer, found) {
            Ok(done) => Ok(done),
            Err(fault) => Err(fault),
        },
        Err(fault) => Err(fault),
    }
}
