//! The laws of stores.

ghost use Rattle.smb_opens.specs.Laws.{ANewTreeIsGood, AConflictIsMutual, ALockKeepsOthersOut};
ghost use Rattle.smb_opens.specs.Laws.{ASetOfASizeKeepsTheFront, AMarkedEntryIsNotOpened, ARenameKeepsBytes};
ghost use Rattle.smb_opens.specs.Laws.{AScanIsOfOneOpen};
ghost use Rattle.smb_opens.specs.Readers.{AReaderChangesNothing, AReadersOpenIsRefused, AReadersCreateOpens};

/// A new tree is good, so a store can be made of it. A conflict is one both ways, and more access never removes one.
/// What an open has locked as its own alone, no other open reads or writes; what is under a shared lock, no open
/// writes. A SET_INFO of a size leaves the bytes before the smaller of both sizes, with zeros behind those that there
/// were. An entry that is marked isn't opened. A rename leaves every entry's kind and bytes, but of one that it
/// replaces. A scan is of one open, and changes nothing else. Whoever may only read changes no file: whatever requests
/// are made, each entry that was not to go with its last open is as it was, none is new, and no other is to go; an open
/// that may only read is refused each WRITE and each SET_INFO; and a CREATE of a session that may only read opens an
/// entry that exists to read it, and leaves the tree. The contract is the statement, and the body does nothing.
pub fn laws_of_stores()
    ensures new_tree { ANewTreeIsGood }
    ensures conflicts { AConflictIsMutual }
    ensures kept_out { ALockKeepsOthersOut }
    ensures front { ASetOfASizeKeepsTheFront }
    ensures not_opened { AMarkedEntryIsNotOpened }
    ensures renamed { ARenameKeepsBytes }
    ensures scans { AScanIsOfOneOpen }
    ensures readers { AReaderChangesNothing }
    ensures readers_refused { AReadersOpenIsRefused }
    ensures readers_create { AReadersCreateOpens }
{}
