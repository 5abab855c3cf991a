//! The laws of requests that succeed.

ghost use Rattle.smb_content_laws.specs.Successes.{TheFirstRowDecides, ACreateSucceeds, RequestsSucceedWhereTheyMay};
ghost use Rattle.smb_content_laws.specs.Example.{EachSucceeds, TheSessionSucceeds};

/// The status of a request is that of the first row of its table that holds, and STATUS_SUCCESS where none does. So a
/// CREATE succeeds exactly where none of its rows holds; and a READ, a WRITE, a LOCK, an UNLOCK and a SET_INFO exactly
/// where they may, in sentences of their own. In a store with one file and one open each of them succeeds, as does a
/// rename; and so do seven requests in a row. The contract is the statement, and the body does nothing.
pub fn laws_of_successes()
    ensures rows { TheFirstRowDecides }
    ensures creates { ACreateSucceeds }
    ensures requests { RequestsSucceedWhereTheyMay }
    ensures examples { EachSucceeds }
    ensures session { TheSessionSucceeds }
{}
