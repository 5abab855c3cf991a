//! The laws of runs.

ghost use Rattle.smb_run_laws.specs.Actions.{ARunIsItsActions, ARunIsSteps};
ghost use Rattle.smb_run_laws.specs.Written.{IsReadAsWritten};
ghost use Rattle.smb_run_laws.specs.OpenFiles.{OpenFilesKeepTheirBytes, NumbersAreGivenOnce};
ghost use Rattle.smb_run_laws.specs.Locks.{LocksBarOthers};
ghost use Rattle.smb_run_laws.specs.MemoryRuns.{AServedRunIsItsActions, HoldsOfRuns};
ghost use Rattle.smb_run_laws.specs.Answers.{AChainIsPerformedWhole, AChainTellsItsCredits};
ghost use Rattle.smb_run_laws.specs.Answers.{AChainIsAnsweredInOrder, ARunIsAnsweredInOrder};
ghost use Rattle.smb_run_laws.specs.Rules.{WhoKeepsTheRulesIsServedOn};

use smb_session::Authenticator;

/// Of every run of a share, and of every one in which memory runs out:
///
/// - Each request that is performed leaves the files as they were, or as the one step leaves them that it asked for,
///   which succeeds; each end of a connection closes the opens of its sessions. So the whole run is a list of steps of
///   the store.
/// - What one client wrote, and was answered, is what any client reads, byte by byte, until a request that is answered
///   by success writes that byte, cuts it or overwrites the file.
/// - A file that is open keeps its bytes whatever is renamed or deleted. The number of an open, or of an entry, names
///   one for ever.
/// - What is locked bars others while the open of the lock is there and asks for no UNLOCK of that range: under an
///   exclusive lock the READs and WRITEs of other opens, under a shared one every WRITE.
/// - Each request that is performed, but a CANCEL, is answered once, in order, under its MessageId, on its connection,
///   in one frame with those of its chain; and nothing else is sent. (Where memory runs out in a piece none of it is
///   answered.)
/// - A chain behind which its connection goes on is performed whole, and uses the MessageId of each of its requests but
///   a CANCEL: this was in the window, and is not used again. Its replies tell the credits by which the window grows.
/// - The connection of a client stays open whose frames are whole and not too long, whose payloads are chains of which
///   NEGOTIATE is the first, alone, and whose MessageIds are in the window, each once; until the client ends it, or
///   memory runs out in a piece of it.
///
/// The laws hold of every authenticator: the contract is the statement, and the body does nothing.
pub fn laws_of_runs<A: Authenticator>()
    ensures actions { ARunIsItsActions A.meaning }
    ensures steps { ARunIsSteps A.meaning }
    ensures written { HoldsOfRuns A.meaning IsReadAsWritten }
    ensures opened { HoldsOfRuns A.meaning OpenFilesKeepTheirBytes }
    ensures numbers { HoldsOfRuns A.meaning NumbersAreGivenOnce }
    ensures bars { HoldsOfRuns A.meaning LocksBarOthers }
    ensures served { AServedRunIsItsActions A.meaning }
    ensures whole { AChainIsPerformedWhole A.meaning }
    ensures credits { AChainTellsItsCredits A.meaning }
    ensures chains { AChainIsAnsweredInOrder A.meaning }
    ensures answers { ARunIsAnsweredInOrder A.meaning }
    ensures rules { WhoKeepsTheRulesIsServedOn A.meaning }
{}
