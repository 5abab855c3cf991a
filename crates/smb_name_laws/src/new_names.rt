//! The laws of names that are new, of files that are free, and of renames that succeed.

ghost use Rattle.smb_name_laws.specs.NewNames.{APlainNameIsMade, AFreeFileIsOpened, LettersOfEitherCaseAreTheSame};
ghost use Rattle.smb_name_laws.specs.RenamesSucceed.{ARenameSucceeds, ARenameOfCaseSucceeds};

/// Under each name of plain parts, which are of digits, letters of ASCII and units from 128 on, a new file or folder
/// can be made: a CREATE with FILE_CREATE or FILE_OPEN_IF, of some rights, by a session that may write, succeeds where
/// the folder exists and is not marked, the entry is absent, and there is room. A file under such a name that is not
/// marked, not READONLY and open by nobody is opened so with FILE_OPEN or FILE_OPEN_IF.
///
/// To each such name a file, or a folder other than the root, can be renamed through an open with DELETE, where it is
/// not marked: if the name is absent, in the same folder or in another; if ReplaceIfExists is set and the name is that
/// of a file which is not marked, not READONLY and open by nobody; or if it is the entry's own in letters of another
/// case. A folder that moves must not get a path within itself; and of what is beneath it nothing may be open, or get a
/// path of more than 32 components.
///
/// Two such names find the same in every store where they differ in the case of the letters of ASCII alone, and only
/// such names are of one path. The contract is the statement, and the body does nothing.
pub fn laws_of_new_names()
    ensures made { APlainNameIsMade }
    ensures opened { AFreeFileIsOpened }
    ensures renamed { ARenameSucceeds }
    ensures respelled { ARenameOfCaseSucceeds }
    ensures letters { LettersOfEitherCaseAreTheSame }
{}
