//! The laws of serving.

ghost use Rattle.smb_request_laws.specs.Serving.{AnEchoIsAnswered, WhoIsAcceptedIsAnswered, WhatIsOfItsOwnSucceeds};

use smb_session::Authenticator;

/// Whoever may is served, by a request that its signature does not refuse. An ECHO is answered, whoever sends it; a
/// SESSION_SETUP whose token is accepted succeeds; and a READ or a WRITE through an open of its own tree connect and
/// session succeeds where the store refuses it for no reason.
///
/// The laws hold of every authenticator: the contract is the statement, and the body does nothing.
pub fn laws_of_serving<A: Authenticator>()
    ensures echo { AnEchoIsAnswered A.meaning }
    ensures accepted { WhoIsAcceptedIsAnswered A.meaning }
    ensures own { WhatIsOfItsOwnSucceeds A.meaning }
{}
