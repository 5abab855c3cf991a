//! The laws of scans.

ghost use Rattle.smb_request_laws.specs.Scans.{AnEntryIsListedOnce};

/// An entry that keeps its name while a directory is listed, query after query, from one that starts the scan up to
/// NO_MORE_FILES, is listed exactly once, whatever is made, renamed or deleted beside it. The contract is the
/// statement, and the body does nothing.
pub fn laws_of_scans()
    ensures once { AnEntryIsListedOnce }
{}
