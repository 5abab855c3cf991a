//! The laws of sharing.

ghost use Rattle.smb_name_laws.specs.Sharing.{NothingIsGrantedWhereNothingIsShared, EachRightHasItsShareBit};
ghost use Rattle.smb_name_laws.specs.Sharing.{WhoSharesIsNotRefused, ACreateSucceedsAfterTheClose};

/// While an open reads, writes or deletes its entry, no CREATE of it succeeds that would be granted what that open
/// does not share; where the open shares nothing, none that is to read, write, delete or overwrite the entry; and
/// none of these that would share nothing itself. What is shared goes by the standard's bits: reading by 1,
/// writing by 2, deleting by 4. And the other way round: no CREATE is refused for sharing, where it and each open
/// of its entry share what the other is to do, or where it is to do none of these; and one that was refused for
/// the sharing of one open alone succeeds once that open is closed, unless this was to delete the entry. The
/// contract is the statement, and the body does nothing.
pub fn laws_of_sharing()
    ensures not_granted { NothingIsGrantedWhereNothingIsShared }
    ensures bits { EachRightHasItsShareBit }
    ensures shares { WhoSharesIsNotRefused }
    ensures after_close { ACreateSucceedsAfterTheClose }
{}
