//! The laws of serving.

ghost use Rattle.smb_serving.specs.ServingLaws.{ServingIsARun, WithMemoryItIsARun};

use smb_session::Authenticator;

/// What [`serve`](crate::serve) did in its turns, from a share without connections on, is a run of events, in some of which memory
/// may have run out; the result of `serve` is how often memory ran out. Clause `once` of `serve` has that no number is opened
/// twice.
///
/// Each number that they opened has a connection in the run, or was closed at its opening, since the share was full or memory ran
/// out. At each point of the record all that came of a number, and nothing else, was brought to its connection, and what was
/// taken for the number is the beginning of what the run put out to it. It is all of that but what is still owed, unless the
/// peers ended the number, a send to it failed, memory ran out in a piece of it, or it was owed too much: what befalls another
/// number changes none of that. A number is closed once: when its connection has ended and it is owed nothing. Where memory never
/// ran out, the run is that of [`run`](smb_engine::Share::run).
///
/// The laws hold of every authenticator: the contract is the statement, and the body does nothing.
pub fn laws_of_serving<A: Authenticator>()
    ensures run { ServingIsARun A.meaning }
    ensures memory { WithMemoryItIsARun A.meaning }
{}
