//! The laws of what connections share.

ghost use Rattle.smb_request.specs.Laws.{OrderIsKept, AnEndIsAlone, ARequestIsAlone, ARequestToReadChangesNoFile, AnEndChangesNoFile};

use smb_session::Authenticator;

/// The end of a connection leaves each session of another one as it is, with its trees and its opens, and so does a
/// request on a connection, but for a SESSION_SETUP that lets the user of that session in and names it as the previous
/// one: then it is over, with its opens. Both take only that the numbers of sessions and opens are in order, which they
/// keep. No request on a connection changes a file where no session of the connection may write, and the end of no
/// connection does, but for what goes with its last open: entries that are marked, or that some open is to delete when it
/// is closed. The laws hold of every authenticator. The contract is the statement, and the body does nothing.
pub fn laws_of_connections<A: Authenticator>()
    ensures order { OrderIsKept A.meaning }
    ensures end { AnEndIsAlone A.meaning }
    ensures request { ARequestIsAlone A.meaning }
    ensures reader { ARequestToReadChangesNoFile A.meaning }
    ensures end_of_reader { AnEndChangesNoFile A.meaning }
{}
