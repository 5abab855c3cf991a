//! What a SET_INFO asks ([MS-FSCC] 2.4).

ghost use Rattle.std.specs.Prelude.{◌≡◌, ◌≤◌, None, Some, IfOk, IfErr, IfSome, OnOk, is_some, length};
ghost use Rattle.smb_info.specs.SetInformation.{set_class, set_length, set_of, set_fault};
ghost use Rattle.smb_info.specs.Parts.{basic_of, rename_of, is_rename};
ghost use Rattle.smb_wire.specs.Units.{units_of};
ghost use Rattle.smb_info.specs.SetAsks.{set_asked};

use super::fault::InfoFault;
use smb_opens::BasicAsk;
use smb_wire::{FileAttributes, Units, u8_in, u32_in, u64_in};

/// An information class that can be set; the standard's names end in `Information`.
#[derive(Clone, Copy, Debug, PartialEq, Eq)]
pub enum SetInformationClass {
    FileBasic,
    FileRename,
    FileDisposition,
    FileAllocation,
    FileEndOfFile,
}

impl SetInformationClass {
    /// The class of a number, or None.
    pub fn of(number: u8) -> Option<SetInformationClass>
        ensures { result ≡ set_class number }
    {
        match number {
            4 => Some(SetInformationClass::FileBasic),
            10 => Some(SetInformationClass::FileRename),
            13 => Some(SetInformationClass::FileDisposition),
            19 => Some(SetInformationClass::FileAllocation),
            20 => Some(SetInformationClass::FileEndOfFile),
            _ => None,
        }
    }

    /// How many bytes the fixed part has.
    pub fn fixed_length(self) -> usize
        ensures { result ≡ set_length self }
    {
        match self {
            SetInformationClass::FileBasic => 40,
            SetInformationClass::FileRename => 20,
            SetInformationClass::FileDisposition => 1,
            SetInformationClass::FileAllocation => 8,
            SetInformationClass::FileEndOfFile => 8,
        }
    }
}

/// What a client asks to be set of the file or the folder that it has open.
#[derive(Clone, Copy, Debug)]
pub enum SetAsk<'a> {
    /// Its times and its attributes.
    Basic(BasicAsk),
    /// Its name, which counts from the root of the share; and whether a file of that name is replaced.
    Rename(bool, Units<'a>),
    /// Whether it goes once its last open is closed.
    Mark(bool),
    /// The space that it takes, in bytes.
    Allocation(u64),
    /// Its size in bytes.
    End(u64),
}

/// What the buffer of a SET_INFO asks, by the number of its class; bytes behind it are passed over. Its cost does
/// not depend on how many bytes there are, and it allocates nothing.
///
/// [`BadClass`](InfoFault::BadClass) where no class that can be set has the number,
/// [`TooSmall`](InfoFault::TooSmall) where the bytes end within the fixed part,
/// [`Unreadable`](InfoFault::Unreadable) where a rename says no name.
pub fn read_set_info(class: u8, bytes: &[u8]) -> Result<SetAsk<'_>, InfoFault>
    ensures ok { IfOk result (λ ask. Some (set_asked ask) ≡ set_of class bytes.now) }
    ensures lawful { OnOk result (set_fault class bytes.now ≡ None) }
    ensures err { IfErr result (λ fault. set_fault class bytes.now ≡ Some fault) }
{
    let Some(class) = SetInformationClass::of(class) else {
        return Err(InfoFault::BadClass);
    };
    if bytes.len() < class.fixed_length() {
        return Err(InfoFault::TooSmall);
    }
    match class {
        SetInformationClass::FileBasic => Ok(SetAsk::Basic(read_basic(bytes))),
        SetInformationClass::FileRename => match read_rename(bytes) {
            Some(name) => Ok(SetAsk::Rename(u8_in(bytes, 0) != 0, name)),
            None => Err(InfoFault::Unreadable),
        },
        SetInformationClass::FileDisposition => Ok(SetAsk::Mark(u8_in(bytes, 0) != 0)),
        SetInformationClass::FileAllocation => Ok(SetAsk::Allocation(u64_in(bytes, 0))),
        SetInformationClass::FileEndOfFile => Ok(SetAsk::End(u64_in(bytes, 0))),
    }
}

// The times and attributes of FileBasicInformation.
fn read_basic(bytes: &[u8]) -> BasicAsk
    requires { 40 ≤ length bytes.now }
    ensures { result ≡ basic_of bytes.now }
{
    BasicAsk {
        creation_time: u64_in(bytes, 0),
        last_access_time: u64_in(bytes, 8),
        last_write_time: u64_in(bytes, 16),
        change_time: u64_in(bytes, 24),
        attributes: FileAttributes(u32_in(bytes, 32)),
    }
}

// The name of FileRenameInformation, or None where it says none.
fn read_rename(bytes: &[u8]) -> Option<Units<'_>>
    requires { 20 ≤ length bytes.now }
    ensures some { is_some result ≡ is_rename bytes.now }
    ensures name { IfSome result (λ name. units_of name ≡ rename_of bytes.now) }
{
    let size = u32_in(bytes, 16) as usize;
    let behind = &bytes[20..];
    if u64_in(bytes, 8) != 0 || size == 0 || behind.len() < size {
        return None;
    }
    Units::of(&behind[..size])
}
