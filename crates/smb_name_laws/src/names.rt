//! The laws of renames.

ghost use Rattle.smb_name_laws.specs.Names.{ARenameMovesItsEntry, ARenameDeletesWhatItReplaces};

/// After a rename that succeeded the new name finds the entry, with the same number, kind and bytes; the old name
/// finds nothing, unless the two differ in case alone. Each open of the entry goes on, and shows the entry that the
/// new name finds. What lay beneath a folder's old name lies beneath its new one; every other path finds what it
/// found; and no entry is deleted but a file that is replaced, which had no open. The entry is spelled as the new
/// name, and the moment is the time of its last change; its mark, its other times and its attributes are as they were.
/// The contract is the statement, and the body does nothing.
pub fn laws_of_renames()
    ensures moves { ARenameMovesItsEntry }
    ensures replaced { ARenameDeletesWhatItReplaces }
{}
