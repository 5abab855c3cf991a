//! The laws of what is set of an entry.

ghost use Rattle.smb_name_laws.specs.Settings.{RequestsChangeTheirEntryAlone, AMarkIsSetAsAskedFor};
ghost use Rattle.smb_name_laws.specs.Settings.{TimesAreSetAsAskedFor, AWriteIsTheLastOne, AnAllocationSizeOnlyCuts};

/// After a SET_INFO of a mark the entry of the open is marked, or no longer, as was asked for, and is otherwise as
/// it was. After one of times and attributes it has those that were asked for, and where no time was for the last
/// change the moment; the others, its path, number, kind, spelling, mark and bytes are as they were. A WRITE of some
/// bytes and a SET_INFO of a size make the moment the times of the last write and change, and leave the others, the
/// attributes and the same of the entry. An allocation size below the size does what this size would, and any other
/// one nothing. None of these changes another entry. The contract is the statement, and the body does nothing.
pub fn laws_of_settings()
    ensures alone { RequestsChangeTheirEntryAlone }
    ensures marks { AMarkIsSetAsAskedFor }
    ensures times { TimesAreSetAsAskedFor }
    ensures writes { AWriteIsTheLastOne }
    ensures allocation { AnAllocationSizeOnlyCuts }
{}
