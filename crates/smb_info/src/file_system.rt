//! What is told of a share as a file system ([MS-FSCC] 2.5).

ghost use Rattle.std.specs.Prelude.{◌≡◌, ◌≢◌, ◌≤◌, ◌++◌, None, Some, true, length, drop, IfOk, OnOk, OnErr, IfErr};
ghost use Rattle.smb_info.specs.Information.{told, information_written, info_fault, FieldsStand};
ghost use Rattle.smb_info.specs.FileSystemInformation.{fs_information, is_volume_label};
ghost use Rattle.smb_info.specs.Volumes.{volume_facts};
ghost use Rattle.smb_info.specs.declared.fault.InfoFault.TheVariants.{NoMemory};

use super::fault::InfoFault;
use super::file_system_class::FileSystemInformationClass;
use super::file_system_fields::put_information;
use super::volume::Volume;
use super::written::{Truncation, cut};

/// Adds what a class tells of a volume, by the class's number, and at most `room` bytes of it. It tells whether
/// that is all. Its cost grows with the label's length, which is small.
///
/// [`BadClass`](InfoFault::BadClass) where no class that is told has the number,
/// [`TooSmall`](InfoFault::TooSmall) where the fixed part passes `room`, [`NoMemory`](InfoFault::NoMemory) where
/// none of these holds and `out` could not grow. After each of them `out` is as it was.
pub fn fs_info(
    class: u8,
    volume: &Volume<'_>,
    room: usize,
    out: &mut Vec<u8>,
) -> Result<Truncation, InfoFault>
    requires label { is_volume_label volume.now.label.now ≡ true }
    requires used { volume.now.used ≤ volume.now.capacity }
    ensures ok { OnOk result (out.new.items ≡
        out.old.items ++ told (fs_information class (volume_facts volume.now)) room) }
    ensures stand { OnOk result
        (FieldsStand (fs_information class (volume_facts volume.now)) (drop (length out.old.items) out.new.items)) }
    ensures written { IfOk result (λ w. w ≡ information_written (fs_information class (volume_facts volume.now)) room) }
    ensures lawful { OnOk result (info_fault (fs_information class (volume_facts volume.now)) room ≡ None) }
    ensures err { OnErr result (out.new.items ≡ out.old.items) }
    ensures why { IfErr result (λ fault. fault ≢ NoMemory →
        info_fault (fs_information class (volume_facts volume.now)) room ≡ Some fault) }
    ensures memory { IfErr result (λ fault. fault ≡ NoMemory →
        info_fault (fs_information class (volume_facts volume.now)) room ≡ None) }
{
    let Some(class) = FileSystemInformationClass::of(class) else {
        return Err(InfoFault::BadClass);
    };
    if room < class.fixed_length() {
        return Err(InfoFault::TooSmall);
    }
    let before = out.len();
    if let Err(fault) = put_information(class, volume, out) {
        out.truncate(before);
        return Err(InfoFault::from(fault));
    }
    Ok(cut(out, before, room))
}
