//! The file information classes ([MS-FSCC] 2.4).

ghost use Rattle.std.specs.Prelude.{◌≡◌, ℕ};
ghost use Rattle.smb_info.specs.Parts.{fixed_length};
ghost use Rattle.smb_info.specs.FileInformation.{file_class, file_information_of};
ghost use Rattle.smb_tree.specs.WholeNames.{Copied};

/// A file information class that is told; the standard's names end in `Information`.
#[derive(Clone, Copy, Debug, PartialEq, Eq)]
pub enum FileInformationClass {
    FileBasic,
    FileStandard,
    FileInternal,
    FileEa,
    FileAccess,
    FilePosition,
    FileMode,
    FileAlignment,
    FileAll,
    FileNetworkOpen,
    FileAttributeTag,
}

impl FileInformationClass {
    /// The class of a number, or None.
    pub fn of(number: u8) -> Option<FileInformationClass>
        ensures { result ≡ file_class number }
    {
        match number {
            4 => Some(FileInformationClass::FileBasic),
            5 => Some(FileInformationClass::FileStandard),
            6 => Some(FileInformationClass::FileInternal),
            7 => Some(FileInformationClass::FileEa),
            8 => Some(FileInformationClass::FileAccess),
            14 => Some(FileInformationClass::FilePosition),
            16 => Some(FileInformationClass::FileMode),
            17 => Some(FileInformationClass::FileAlignment),
            18 => Some(FileInformationClass::FileAll),
            34 => Some(FileInformationClass::FileNetworkOpen),
            35 => Some(FileInformationClass::FileAttributeTag),
            _ => None,
        }
    }

    /// How many bytes the fixed part has.
    pub fn fixed_length(self) -> usize
        ensures { (entry : Copied) (access : ℕ) → fixed_length (file_information_of self entry access) ≡ result }
    {
        match self {
            FileInformationClass::FileBasic => 40,
            FileInformationClass::FileStandard => 24,
            FileInformationClass::FileInternal => 8,
            FileInformationClass::FileEa => 4,
            FileInformationClass::FileAccess => 4,
            FileInformationClass::FilePosition => 8,
            FileInformationClass::FileMode => 4,
            FileInformationClass::FileAlignment => 4,
            FileInformationClass::FileAll => 100,
            FileInformationClass::FileNetworkOpen => 56,
            FileInformationClass::FileAttributeTag => 8,
        }
    }
}
