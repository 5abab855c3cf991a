//! The directory information classes ([MS-FSCC] 2.4).

ghost use Rattle.std.specs.Prelude.{◌≡◌};
ghost use Rattle.smb_info.specs.DirectoryInformation.{directory_class, directory_length};

/// An information class that a QUERY_DIRECTORY may ask for; the standard's names end in `Information`.
#[derive(Clone, Copy, Debug, PartialEq, Eq)]
pub enum DirectoryInformationClass {
    FileDirectory,
    FileFullDirectory,
    FileBothDirectory,
    FileNames,
    FileIdBothDirectory,
    FileIdFullDirectory,
}

impl DirectoryInformationClass {
    /// The class of a number, or None.
    pub fn of(number: u8) -> Option<DirectoryInformationClass>
        ensures { result ≡ directory_class number }
    {
        match number {
            1 => Some(DirectoryInformationClass::FileDirectory),
            2 => Some(DirectoryInformationClass::FileFullDirectory),
            3 => Some(DirectoryInformationClass::FileBothDirectory),
            12 => Some(DirectoryInformationClass::FileNames),
            37 => Some(DirectoryInformationClass::FileIdBothDirectory),
            38 => Some(DirectoryInformationClass::FileIdFullDirectory),
            _ => None,
        }
    }

    /// How many bytes the fixed part has.
    pub fn fixed_length(self) -> usize
        ensures { result ≡ directory_length self }
    {
        match self {
            DirectoryInformationClass::FileDirectory => 64,
            DirectoryInformationClass::FileFullDirectory => 68,
            DirectoryInformationClass::FileBothDirectory => 94,
            DirectoryInformationClass::FileNames => 12,
            DirectoryInformationClass::FileIdBothDirectory => 104,
            DirectoryInformationClass::FileIdFullDirectory => 80,
        }
    }
}
