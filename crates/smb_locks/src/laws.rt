//! The laws of locks.

ghost use Rattle.smb_locks.specs.Laws.{ComparingEndsIsOverlap, ConflictsAreByOverlap, NoTwoConflict};
ghost use Rattle.smb_locks.specs.Laws.{EachFileHasItsLocks, OtherLocksStay, TablesStayGood};

/// What follows from the definitions: the contract is the statement, and the body does nothing.
pub fn laws_of_locks()
    ensures ends { ComparingEndsIsOverlap }
    ensures conflicts { ConflictsAreByOverlap }
    ensures apart { NoTwoConflict }
    ensures files { EachFileHasItsLocks }
    ensures others { OtherLocksStay }
    ensures good { TablesStayGood }
{}
