//! The laws of what responses say of entries.

ghost use Rattle.smb_request_laws.specs.Responses.{ACreateDescribesItsEntry, ACreateGivesItsOpen};
ghost use Rattle.smb_request_laws.specs.Responses.{ACloseDescribesItsEntry, AQueryInfoTellsTheSize};
ghost use Rattle.smb_request_laws.specs.Responses.{AListingShowsEntriesAsTheyAre};

use smb_session::Authenticator;

/// What a response says of a file or a folder is what is there. The response of a CREATE gives the number of its open,
/// which the next request of the chain inherits, and the sizes, times and attributes of the entry as the CREATE leaves
/// it; that of a CLOSE, where they are asked for, those that the entry had. EndOfFile in the response of a QUERY_INFO
/// is how many bytes the file has. Each entry that the listing of a QUERY_DIRECTORY is made of has the size, the times
/// and the attributes of the entry that is there, and the scan goes on behind the last of them; this is said of the
/// entries that are listed, not of the bytes that are sent.
///
/// The laws hold of every authenticator: the contract is the statement, and the body does nothing.
pub fn laws_of_responses<A: Authenticator>()
    ensures create { ACreateDescribesItsEntry A.meaning }
    ensures gives { ACreateGivesItsOpen A.meaning }
    ensures close { ACloseDescribesItsEntry A.meaning }
    ensures query { AQueryInfoTellsTheSize A.meaning }
    ensures listing { AListingShowsEntriesAsTheyAre A.meaning }
{}
