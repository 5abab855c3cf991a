//! The laws of contents.

ghost use Rattle.smb_tree.specs.Laws.{EntriesAreAMap, PathsAndNumbersAgree, PathsAndNumbersStayApart};
ghost use Rattle.smb_tree.specs.FileLaws.{WhatIsWrittenIsRead, AChangeIsOfOneNumber};
ghost use Rattle.smb_tree.specs.ChildLaws.{ChildrenComeInTurn};
ghost use Rattle.smb_tree.specs.MoveLaws.{AnEntryMovesWithWhatIsBeneath, NumbersKeepTheirEntries, TheRootIsNotReplaced};
ghost use Rattle.smb_tree.specs.MoveLaws.{AMoveKeepsGood};

/// A list of entries, in which no path and no number is there twice, is a finite map from paths to entries, and
/// additions, changes and removals leave it so; what was written to a file is read, and all else of it stays; the
/// children of a folder come in the order of their names. The contract is the statement, and the body does nothing.
pub fn laws_of_contents()
    ensures map { EntriesAreAMap }
    ensures numbers { PathsAndNumbersAgree }
    ensures apart { PathsAndNumbersStayApart }

    ensures written { WhatIsWrittenIsRead }
    ensures others { AChangeIsOfOneNumber }

    ensures children { ChildrenComeInTurn }
{}

/// A move of a good content that is not refused takes an entry, with all that lies beneath it, to another path and
/// leaves nothing behind. All other paths and numbers keep their entries, but for a file that is replaced; the content
/// stays good, and its entries lawful, where the new path is. The contract is the statement, and the body does nothing.
pub fn laws_of_moves()
    ensures entry { AnEntryMovesWithWhatIsBeneath }
    ensures numbers { NumbersKeepTheirEntries }
    ensures root { TheRootIsNotReplaced }
    ensures good { AMoveKeepsGood }
{}
