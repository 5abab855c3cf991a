//! The laws of creates.

ghost use Rattle.smb_name_laws.specs.Creates.{ACreateFindsItsEntry, AnOverwriteRenewsItsFile, AnAbsentEntryIsMade};
ghost use Rattle.smb_name_laws.specs.Creates.{ACreateChangesItsEntryAlone, ACreateIsRefused};

/// Once a CREATE is performed, its name finds the entry that its open is of, and that this open shows. Where it
/// succeeds and overwrites, that is a file of the number, the spelling and the mark that were there, without bytes and
/// with the attributes that were asked for; the times of its last write and change are the moment, and where it
/// supersedes all four. Where its name found nothing, it is a new entry of the kind and the attributes that were asked
/// for, without bytes or a mark, under a number that no entry had; its four times are the moment, and it is spelled as it
/// was asked for. A CREATE changes no other entry, and none at all where it opens one without overwriting it. No
/// CREATE succeeds whose disposition or options do not fit what is there, nor one that would write to a file that is
/// READONLY. The contract is the statement, and the body does nothing.
pub fn laws_of_creates()
    ensures finds { ACreateFindsItsEntry }
    ensures renews { AnOverwriteRenewsItsFile }
    ensures made { AnAbsentEntryIsMade }
    ensures others { ACreateChangesItsEntryAlone }
    ensures refused { ACreateIsRefused }
{}
