//! The laws of shares.

ghost use Rattle.smb_engine.specs.Laws.{StatesAreInOrder, ACutDoesNotMatter, CutsDoNotMatter, RunsAreOne, UnreadIsEnough, OthersAreLeft, SessionsAreInOrder, SessionsOfOthersAreLeft, WhatIsOverStaysOver, AnEndIsTheLast, EachPayloadIsAdmittedOrEnds, EachEndIsHeard, AReaderChangesNoFile};

use smb_session::Authenticator;

/// What a run leaves and puts out does not depend on how bytes that come at one moment were cut into pieces, nor on how
/// the events were cut into runs; events on other connections leave a connection as it was, and put nothing out to it;
/// they leave each of its sessions too, with its trees and opens, or one of their requests replaced it, and what is over
/// stays over; and the share ends a connection at most once, with nothing behind it. A payload is performed, or there is a rule
/// by which it ends its connection. Who observes a run hears of each connection that the share ends, by which rule, and of no
/// other.
///
/// Whoever may only read changes no file: events on connections none of whose sessions may write, as each of their requests
/// comes, leave every entry as it was, with its name, bytes, attributes and times, and add none. What goes with its last open
/// may go: an entry that was marked, and one that some open was to delete when it is closed, as where a SESSION_SETUP ends a
/// previous session of its user that could write.
///
/// The laws hold of every authenticator: the contract is the statement, and the body does nothing.
pub fn laws_of_shares<A: Authenticator>()
    ensures order { StatesAreInOrder A.meaning }
    ensures cut { ACutDoesNotMatter A.meaning }
    ensures cuts { CutsDoNotMatter A.meaning }
    ensures one { RunsAreOne A.meaning }
    ensures unread { UnreadIsEnough A.meaning }
    ensures alone { OthersAreLeft A.meaning }
    ensures numbers { SessionsAreInOrder A.meaning }
    ensures sessions { SessionsOfOthersAreLeft A.meaning }
    ensures over { WhatIsOverStaysOver A.meaning }
    ensures last { AnEndIsTheLast A.meaning }
    ensures endings { EachPayloadIsAdmittedOrEnds }
    ensures heard { EachEndIsHeard A.meaning }
    ensures readers { AReaderChangesNoFile A.meaning }
{}
