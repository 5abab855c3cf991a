//! What is told of a file or a folder ([MS-FSCC] 2.4).

ghost use Rattle.std.specs.Prelude.{◌≡◌, ◌≢◌, ◌++◌, None, Some, length, drop, IfOk, OnOk, OnErr, IfErr};
ghost use Rattle.smb_tree.specs.WholeNames.{copied};
ghost use Rattle.smb_info.specs.FileInformation.{file_information};
ghost use Rattle.smb_info.specs.Information.{told, information_written, info_fault, FieldsStand};
ghost use Rattle.smb_info.specs.declared.fault.InfoFault.TheVariants.{NoMemory};

use super::fault::InfoFault;
use super::file_class::FileInformationClass;
use super::file_fields::put_information;
use super::written::{Truncation, cut};
use smb_tree::EntryCopy;
use smb_wire::Access;

/// Adds what a class tells of an entry, by the class's number, through an open with this access, and at most
/// `room` bytes of it. It tells whether that is all. Its cost grows with the length of the entry's name.
///
/// [`BadClass`](InfoFault::BadClass) where no class that is told has the number,
/// [`TooSmall`](InfoFault::TooSmall) where the fixed part passes `room`, [`NoMemory`](InfoFault::NoMemory) where
/// none of these holds and `out` could not grow. After each of them `out` is as it was.
pub fn file_info(
    class: u8,
    entry: &EntryCopy,
    access: Access,
    room: usize,
    out: &mut Vec<u8>,
) -> Result<Truncation, InfoFault>
    ensures ok { OnOk result (out.new.items ≡
        out.old.items ++ told (file_information class (copied entry.now) access.0) room) }
    ensures stand { OnOk result
        (FieldsStand (file_information class (copied entry.now) access.0) (drop (length out.old.items) out.new.items)) }
    ensures written { IfOk result (λ w. w ≡ information_written (file_information class (copied entry.now) access.0) room) }
    ensures lawful { OnOk result (info_fault (file_information class (copied entry.now) access.0) room ≡ None) }
    ensures err { OnErr result (out.new.items ≡ out.old.items) }
    ensures why { IfErr result (λ fault. fault ≢ NoMemory →
        info_fault (file_information class (copied entry.now) access.0) room ≡ Some fault) }
    ensures memory { IfErr result (λ fault. fault ≡ NoMemory →
        info_fault (file_information class (copied entry.now) access.0) room ≡ None) }
{
    let Some(class) = FileInformationClass::of(class) else {
        return Err(InfoFault::BadClass);
    };
    if room < class.fixed_length() {
        return Err(InfoFault::TooSmall);
    }
    let before = out.len();
    if let Err(fault) = put_information(class, entry, access, out) {
        out.truncate(before);
        return Err(InfoFault::from(fault));
    }
    Ok(cut(out, before, room))
}
