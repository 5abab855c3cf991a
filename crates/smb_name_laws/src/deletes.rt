//! The laws of deletes.

ghost use Rattle.smb_name_laws.specs.Deletes.{ACloseDeletesWhatIsToBeDeleted, NothingElseGoes};
ghost use Rattle.smb_name_laws.specs.Deletes.{AnEntryGoesWithItsOwner, NoOtherRequestDeletes, NothingMarkedIsOpened};

/// A file, or a folder other than the root in which no entry is, is gone once its last open is closed, where it is
/// marked or this open was made with FILE_DELETE_ON_CLOSE: neither its number nor its path finds anything. Nothing
/// else goes with a CLOSE: an entry that is gone afterwards was the open's own, had no other open, and was to be
/// deleted. Where another open of it is left, it is still at its path, and marked, so that it goes with the last of
/// them; and where it is not to be deleted, the CLOSE changes no entry. It also goes where all opens of a session or
/// a tree connect end, and no one else has an open of it. Every other entry, and every other path, is as it was. And no request
/// deletes an entry but one that ends opens, or a rename. No CREATE of an entry that is marked succeeds, nor one in a folder that
/// is. The contract is the statement, and the body does nothing.
pub fn laws_of_deletes()
    ensures closes { ACloseDeletesWhatIsToBeDeleted }
    ensures nothing_else { NothingElseGoes }
    ensures owner { AnEntryGoesWithItsOwner }
    ensures no_other { NoOtherRequestDeletes }
    ensures marked { NothingMarkedIsOpened }
{}
