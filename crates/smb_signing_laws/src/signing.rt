//! The laws of signing.

ghost use Rattle.smb_signing_laws.specs.Requests.{ARequestIsSignedOrDenied};
ghost use Rattle.smb_signing_laws.specs.Runs.{EachRequestIsSignedOrChangesNothing, WhatIsNotSignedChangesNoFile};
ghost use Rattle.smb_signing_laws.specs.Responses.{AChainIsAnsweredSigned};
ghost use Rattle.smb_signing_laws.specs.Unsigned.{WithoutKeysARequestIsVerified, ARunWithoutKeysHasNone};
ghost use Rattle.smb_signing_laws.specs.Unsigned.{WithoutKeysNoReplyIsSigned};

use smb_session::Authenticator;

/// A request that must be signed, since its session signs and it says that it is signed or has to be, is signed by its
/// session's key, or it is denied, and changes nothing; so it is of each request of a run. Where no request of a run is
/// of somebody who may write and signed where it must be, no file changes. A chain is answered by one frame of
/// messages, one for each request but a CANCEL, in order; that to a signed request of a session that signs is signed by
/// the session's key, and that to a SESSION_SETUP which lets in a session that signs, by that session's. And where the
/// authenticator gives no keys, no signature refuses a request, and on a connection that keeps no key no response is
/// signed, and it keeps none.
///
/// The laws hold of every authenticator: the contract is the statement, and the body does nothing.
pub fn laws_of_signing<A: Authenticator>()
    ensures request { ARequestIsSignedOrDenied A.meaning }
    ensures signed { EachRequestIsSignedOrChangesNothing A.meaning }
    ensures files { WhatIsNotSignedChangesNoFile A.meaning }
    ensures answers { AChainIsAnsweredSigned A.meaning }
    ensures verified { WithoutKeysARequestIsVerified A.meaning }
    ensures keyless { ARunWithoutKeysHasNone A.meaning }
    ensures replies { WithoutKeysNoReplyIsSigned A.meaning }
{}
