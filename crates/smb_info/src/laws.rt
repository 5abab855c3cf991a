//! The laws of listings.

ghost use Rattle.smb_info.specs.ListingLaws.{AFolderIsListedInFull, NothingIsLeftOut, TheNextQueryGoesOn, OnlyWhatIsMatchedIsListed};

/// What queries of a directory list, in a user's words: the contract is the statement, and the body does nothing.
pub fn laws_of_listings()
    ensures full { AFolderIsListedInFull }
    ensures left { NothingIsLeftOut }
    ensures next { TheNextQueryGoesOn }
    ensures only { OnlyWhatIsMatchedIsListed }
{}
