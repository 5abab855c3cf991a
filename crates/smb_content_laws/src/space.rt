//! The laws of space.

ghost use Rattle.smb_content_laws.specs.Space.{AllocationIsInClusters, UsedSpaceIsTheSum, ACreateTakesNoSpace};
ghost use Rattle.smb_content_laws.specs.Space.{AFileTakesTheSpaceOfItsSize, ACloseFreesWhatItRemoves};
ghost use Rattle.smb_content_laws.specs.Space.{ARenameFreesWhatItReplaces, SpaceStaysWithinCapacity};

/// A file takes whole clusters, the least that its bytes fit into, and the space used is the sum of what all files
/// take. A removal frees exactly what the removed file took; so do a CLOSE that removes its file, a rename that
/// replaces one, and a CREATE that overwrites one. A WRITE or another size takes the space of the size that the file
/// gets. The space used never passes the capacity, whatever requests succeed. The contract is the statement, and the
/// body does nothing.
pub fn laws_of_space()
    ensures clusters { AllocationIsInClusters }
    ensures total { UsedSpaceIsTheSum }
    ensures creates { ACreateTakesNoSpace }
    ensures sizes { AFileTakesTheSpaceOfItsSize }
    ensures closes { ACloseFreesWhatItRemoves }
    ensures renames { ARenameFreesWhatItReplaces }
    ensures within { SpaceStaysWithinCapacity }
{}
