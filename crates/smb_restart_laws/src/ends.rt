//! The laws of ends.

ghost use Rattle.smb_restart_laws.specs.Ends.{ANewShareIsGood, AShareOverFilesIsGood, TheFilesStayGood, AllConnectionsEnd, NoFileIsLost};
ghost use Rattle.smb_restart_laws.specs.Ends.{ANameFindsItsFileAgain, WhatWasToGoIsGone};

use smb_session::Authenticator;

/// A new share is good, and one over good files without marks. Whatever happens to a share that was good, its files, opens and locks stay good, and its open
/// connections can all end: none of these ends is refused, and nothing is put out. No file is lost: each file and
/// folder that was not to go is found at its path, with its name, bytes, times and attributes; and none is new. What
/// is gone was marked, or some open was to delete it when it is closed. Gone is each entry that was marked, each file
/// that some open was to delete, and each folder that one was to delete and in which no entry was. The share is good
/// and at rest then: no connection, session, open, lock or mark is left.
///
/// The laws hold of every authenticator: the contract is the statement, and the body does nothing.
pub fn laws_of_ends<A: Authenticator>()
    ensures new { ANewShareIsGood A.meaning }
    ensures over { AShareOverFilesIsGood A.meaning }
    ensures good { TheFilesStayGood A.meaning }
    ensures end { AllConnectionsEnd A.meaning }
    ensures lost { NoFileIsLost A.meaning }
    ensures found { ANameFindsItsFileAgain A.meaning }
    ensures went { WhatWasToGoIsGone A.meaning }
{}
