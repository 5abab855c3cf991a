//! The laws of files.

ghost use Rattle.smb_files.specs.Laws.{AnAdditionIsAChange, AWriteIsAChange, ASettingIsAChange};
ghost use Rattle.smb_files.specs.Laws.{ARemovalIsAChange, AMoveIsAChange, FilesTellTheContent};

/// Where a content is good, each call of a tree that succeeds is one change of its files, and a move is one or two. An
/// entry that is added is one change: under the next number there is this entry, in its folder and with no bytes, and
/// the next number is one greater. Bytes that are put at an offset of a file are one change, which says no more than
/// these bytes, and so is a size that a file gets. Other times and attributes of an entry, or its mark, are one change:
/// the entry as it then is, its bytes left. An entry that is removed is one change: it is gone. And a move is one
/// change, the entry in its new folder under its new name, however much lies beneath it; where it replaces a file,
/// another change comes before, by which this file is gone. Every other entry stays as it was, with its folder and its
/// bytes.
///
/// And files tell all of a content but how much space there is, its limits and the order of its rows: two good contents
/// with the same files, whose entries are as they may be kept, have the same entry at each path, with its number, its
/// bytes and all else, and the same next number.
///
/// The contract is the statement, and the body does nothing.
pub fn laws_of_files()
    ensures additions { AnAdditionIsAChange }
    ensures writes { AWriteIsAChange }
    ensures settings { ASettingIsAChange }
    ensures removals { ARemovalIsAChange }
    ensures moves { AMoveIsAChange }
    ensures told { FilesTellTheContent }
{}
