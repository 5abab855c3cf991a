//! The laws of acting.

ghost use Rattle.smb_request_laws.specs.Acting.{NothingIsDoneWithoutASession, NothingIsDoneWithoutATree};
ghost use Rattle.smb_request_laws.specs.Acting.{NothingIsDoneWithoutAnOpen, NobodyChangesNothing};
ghost use Rattle.smb_request_laws.specs.Acting.{NoCreateIsRefusedBySuccess};

use smb_session::Authenticator;

/// A request acts under a finished session of its own connection, unless it is NEGOTIATE, SESSION_SETUP or ECHO; under
/// a tree connect of that session, unless it is also no LOGOFF or TREE_CONNECT; and on an open of that session and tree
/// connect, unless it is also no TREE_DISCONNECT or CREATE. Else it is refused: it changes nothing, and its response
/// has the error body. So a connection on which no session is finished changes no file, open or lock, but by a
/// SESSION_SETUP.
///
/// The laws hold of every authenticator: the contract is the statement, and the body does nothing.
pub fn laws_of_acting<A: Authenticator>()
    ensures session { NothingIsDoneWithoutASession A.meaning }
    ensures nobody { NobodyChangesNothing A.meaning }
    ensures tree { NothingIsDoneWithoutATree A.meaning }
    ensures open { NothingIsDoneWithoutAnOpen A.meaning }
    ensures refused { NoCreateIsRefusedBySuccess A.meaning }
{}
