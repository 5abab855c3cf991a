//! The laws of doing.

ghost use Rattle.smb_request_laws.specs.Doing.{AReadTellsTheFile, AWriteIsInTheFile, ACreateOpens, ACloseCloses};
ghost use Rattle.smb_request_laws.specs.Doing.{ATreeConnectJoins, ATreeDisconnectLeaves, ALogoffEndsItsSession};
ghost use Rattle.smb_request_laws.specs.Doing.{ALockLocks, ASetInfoSets, AQuestionChangesNothing};
ghost use Rattle.smb_request_laws.specs.Doing.{ARefusalChangesNothing, ARequestNamesItsOpen};

use smb_session::Authenticator;

/// What is answered is what was done. A request names the open of its FileId, or by one of all ones the open that the
/// request before it in its chain named or made. A READ that succeeds tells the bytes of the file, and changes nothing;
/// a WRITE that succeeds leaves its bytes in the file; a CREATE that succeeds opens what it asks for, under its session
/// and tree connect; a CLOSE that succeeds closes the open; a TREE_CONNECT that succeeds names the share, and gives the
/// session a tree connect, and a TREE_DISCONNECT that succeeds ends it, with its opens; and a LOGOFF that succeeds ends
/// the session, with its opens. A LOCK that succeeds has locked or unlocked its ranges, and a SET_INFO that succeeds has
/// set what its class and its buffer ask for; a FLUSH, an ECHO and a QUERY_INFO that succeed change nothing, and a
/// QUERY_DIRECTORY nothing but the scan of its open. A request that is refused changes nothing, but for a SESSION_SETUP, a LOCK that
/// unlocked some of its ranges, and the scan of a QUERY_DIRECTORY.
///
/// The laws hold of every authenticator: the contract is the statement, and the body does nothing.
pub fn laws_of_doing<A: Authenticator>()
    ensures named { ARequestNamesItsOpen A }
    ensures read { AReadTellsTheFile A.meaning }
    ensures write { AWriteIsInTheFile A.meaning }
    ensures create { ACreateOpens A.meaning }
    ensures close { ACloseCloses A.meaning }
    ensures connect { ATreeConnectJoins A.meaning }
    ensures disconnect { ATreeDisconnectLeaves A.meaning }
    ensures logoff { ALogoffEndsItsSession A.meaning }
    ensures lock { ALockLocks A.meaning }
    ensures set { ASetInfoSets A.meaning }
    ensures question { AQuestionChangesNothing A.meaning }
    ensures refusal { ARefusalChangesNothing A.meaning }
{}
