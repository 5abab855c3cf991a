//! The laws of restarts.

ghost use Rattle.smb_restart_laws.specs.Restarts.{AStartIsOneRun, AStartGoesOn, TwoStartsAreOne, WhatIsUnreadIsEnough};

use smb_session::Authenticator;

/// A start from a journal is one run: of the journal's events, and of the ends of the connections that they leave open.
/// What clients send later is answered as by the run of all of these events and theirs. A second start, nothing having
/// come in between, performs the same events and leaves the same state. Of what the streams carried before, the bytes
/// that are unread are enough, and behind the ends none are left.
///
/// The laws hold of every authenticator: the contract is the statement, and the body does nothing.
pub fn laws_of_restarts<A: Authenticator>()
    ensures one { AStartIsOneRun A.meaning }
    ensures later { AStartGoesOn A.meaning }
    ensures two { TwoStartsAreOne A.meaning }
    ensures unread { WhatIsUnreadIsEnough A.meaning }
{}
