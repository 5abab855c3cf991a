//! The laws of opens that are made, and of their end.

ghost use Rattle.smb_name_laws.specs.Opened.{AnOpenIsAsItWasAskedFor, RightsAreGrantedAsAskedFor};
ghost use Rattle.smb_name_laws.specs.Opened.{NoRightAskedForIsLeftOut, AReaderGetsNoRightToChange, ACloseEndsItsOpenAlone};

/// The open of the number that a CREATE returns is a new one, of the session and the tree connect that asked. It shares
/// what was asked for of reading, writing and deleting, and deletes its entry once it is closed exactly where
/// FILE_DELETE_ON_CLOSE was asked for. It has the rights that were asked for and no other, where these were neither
/// generic nor MAXIMUM_ALLOWED; and however many are asked for at once, all rights that each of them gives. A session that
/// may only read gets no right to change anything: of no CREATE that succeeds, nor of MAXIMUM_ALLOWED; this gives it the
/// right to read, and another session every right, but of a read-only file. A CLOSE ends the open of its number alone. The
/// contract is the statement, and the body does nothing.
pub fn laws_of_opens()
    ensures asked { AnOpenIsAsItWasAskedFor }
    ensures rights { RightsAreGrantedAsAskedFor }
    ensures left_out { NoRightAskedForIsLeftOut }
    ensures readers { AReaderGetsNoRightToChange }
    ensures ends { ACloseEndsItsOpenAlone }
{}
