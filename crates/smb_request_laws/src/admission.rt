//! The laws of admission.

ghost use Rattle.smb_request_laws.specs.Admission.{AnAnswerDecidesWhoIsIn, NobodyGetsInUnasked};
ghost use Rattle.smb_request_laws.specs.Admission.{ASetUpThatSucceedsLetsIn, WhoIsNotInClosesNothing};

use smb_session::Authenticator;

/// What an answer of the authenticator leaves of the sessions. Whoever is to go on is not let in yet; whoever is
/// accepted is let in, as exactly this user, who may only read where the answer says so, in a session that is signed as
/// the answer says; whoever is denied is out. No answer changes another session, but that the previous one may be gone.
/// The contract is the statement, and the body does nothing.
pub fn laws_of_answers()
    ensures decides { AnAnswerDecidesWhoIsIn }
{}

/// Whatever a client sends, a session that is finished afterwards was so before, on the same connection, by the same
/// user, with the same leave to write and signed the same; or the request is a SESSION_SETUP of this session, whose
/// token the authenticator accepts, and so says who the user is, whether he may only read, and by which key the session
/// is signed. A SESSION_SETUP that succeeds lets its session in so, and one that does not succeed closes no open and
/// changes no file.
///
/// The laws hold of every authenticator: the contract is the statement, and the body does nothing.
pub fn laws_of_admission<A: Authenticator>()
    ensures unasked { NobodyGetsInUnasked A.meaning }
    ensures closes { WhoIsNotInClosesNothing A.meaning }
    ensures succeeds { ASetUpThatSucceedsLetsIn A.meaning }
{}
