//! The file system information classes ([MS-FSCC] 2.5).

ghost use Rattle.std.specs.Prelude.{◌≡◌};
ghost use Rattle.smb_info.specs.Parts.{fixed_length};
ghost use Rattle.smb_info.specs.FileSystemInformation.{fs_class, fs_information_of, VolumeFacts};

/// A file system information class that is told; the standard's names end in `Information`.
#[derive(Clone, Copy, Debug, PartialEq, Eq)]
pub enum FileSystemInformationClass {
    FileFsVolume,
    FileFsSize,
    FileFsDevice,
    FileFsAttribute,
    FileFsFullSize,
}

impl FileSystemInformationClass {
    /// The class of a number, or None.
    pub fn of(number: u8) -> Option<FileSystemInformationClass>
        ensures { result ≡ fs_class number }
    {
        match number {
            1 => Some(FileSystemInformationClass::FileFsVolume),
            3 => Some(FileSystemInformationClass::FileFsSize),
            4 => Some(FileSystemInformationClass::FileFsDevice),
            5 => Some(FileSystemInformationClass::FileFsAttribute),
            7 => Some(FileSystemInformationClass::FileFsFullSize),
            _ => None,
        }
    }

    /// How many bytes the fixed part has.
    pub fn fixed_length(self) -> usize
        ensures { (volume : VolumeFacts) → fixed_length (fs_information_of self volume) ≡ result }
    {
        match self {
            FileSystemInformationClass::FileFsVolume => 18,
            FileSystemInformationClass::FileFsSize => 24,
            FileSystemInformationClass::FileFsDevice => 8,
            FileSystemInformationClass::FileFsAttribute => 12,
            FileSystemInformationClass::FileFsFullSize => 32,
        }
    }
}
