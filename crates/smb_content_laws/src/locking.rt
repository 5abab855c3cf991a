//! The laws of locks.

ghost use Rattle.smb_content_laws.specs.Locking.{ALockAddsWhatIsAsked, AnUnlockTakesWhatIsAsked, LocksOfOthersStay};
ghost use Rattle.smb_content_laws.specs.Locking.{WhatIsLockedIsReadAndWritten, RequestsLeaveLocksAndOpens};

/// After a LOCK a file has the locks that it had, and behind them those that were asked for. After an UNLOCK, for each
/// range that was asked for the oldest lock of the open over it is gone, and all others are held still, in order; one
/// that is refused at an element has taken what those before it asked for. Both leave every other file's locks.
/// Neither, refused or not, nor a CLOSE touches a lock of another open; an open that is closed holds none. What an open has just locked it reads, and what
/// it has just locked as its own alone it writes, where the same request asks for no shared lock over it. A LOCK and an
/// UNLOCK change no entry and no open. A CREATE leaves every lock, and every open but the one that it makes, as they
/// were; a WRITE and a SET_INFO leave all locks and opens. That other opens neither read nor write what an open has
/// locked as its own alone, and none writes what is locked as shared, is a law of smb_opens (`laws_of_stores`). The
/// contract is the statement, and the body does nothing.
pub fn laws_of_locking()
    ensures adds { ALockAddsWhatIsAsked }
    ensures takes { AnUnlockTakesWhatIsAsked }
    ensures others { LocksOfOthersStay }
    ensures holder { WhatIsLockedIsReadAndWritten }
    ensures beside { RequestsLeaveLocksAndOpens }
{}
