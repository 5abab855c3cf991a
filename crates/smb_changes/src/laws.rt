//! The laws of batches.

ghost use Rattle.smb_changes.specs.Crash.{WhatIsWrittenIsRead, ACrashLeavesWholeBatches, ACrashIsNoDamage};
ghost use Rattle.smb_changes.specs.Chains.{ABatchOfAnotherChainIsNotRead};
ghost use Rattle.smb_changes.specs.Exact.{OnlyAWrittenChangeIsRead, OnlyAWrittenBatchIsRead};

/// The laws of batches: the contract is the statement, and the body does nothing. Each law speaks of every seed, and of
/// any batches whose numbers fit their bytes, as [`put_change`](crate::put_change) ensures of each change (`writable`).
///
/// - `written`: batches that were written one behind the other, from number 1 on, are read again, each with its
///   changes, so that the files that are recovered are those that all the changes make.
/// - `crash`: where only the first n bytes of them are left, with any count of zeros behind these, the files that are
///   recovered are those that the batches wholly in the first n bytes make: no batch is read in part, and none that is
///   whole is lost.
/// - `damage`: such a beginning is not taken for damage, so that after a crash nothing is refused.
/// - `chain`: a batch that was written by another seed, of 64 bits, is not read, though its number is right.
/// - `exact_change`, `exact`: bytes that are read as a change, or as a batch, are those that are written of it, and its
///   numbers fit their bytes: nothing has a second spelling.
pub fn laws_of_batches()
    ensures written { WhatIsWrittenIsRead }
    ensures crash { ACrashLeavesWholeBatches }
    ensures damage { ACrashIsNoDamage }
    ensures chain { ABatchOfAnotherChainIsNotRead }
    ensures exact_change { OnlyAWrittenChangeIsRead }
    ensures exact { OnlyAWrittenBatchIsRead }
{}
