//! The fields of the file system information classes ([MS-FSCC] 2.5).

ghost use Rattle.std.specs.Prelude.{◌≡◌, ◌≤◌, ◌++◌, true, length, take, OnOk};
ghost use Rattle.smb_wire.specs.Fields.{AllFit, appended};
ghost use Rattle.smb_wire.specs.Pairs.{unit_bytes};
ghost use Rattle.smb_info.specs.FileSystemInformation.{fs_information_of, is_volume_label};
ghost use Rattle.smb_info.specs.Parts.{volume_fields, size_fields, device_fields, attribute_fields, full_size_fields, whole};
ghost use Rattle.smb_info.specs.Volumes.{volume_facts};

use super::file_system_class::FileSystemInformationClass;
use super::volume::Volume;
use smb_wire::{WireFault, put_u8, put_u16, put_u32, put_u64};

// The size of an allocation unit in bytes.
const ALLOCATION_UNIT: u64 = 4096;

/// Adds all that a class tells. After an error some of it stands there.
pub(crate) fn put_information(
    class: FileSystemInformationClass,
    volume: &Volume<'_>,
    out: &mut Vec<u8>,
) -> Result<(), WireFault>
    requires label { is_volume_label volume.now.label.now ≡ true }
    requires used { volume.now.used ≤ volume.now.capacity }
    ensures ok { OnOk result (out.new.items ≡
        out.old.items ++ whole (fs_information_of class (volume_facts volume.now))) }
    ensures fits { OnOk result (AllFit (fs_information_of class (volume_facts volume.now)).fields) }
    ensures kept { take (length out.old.items) out.new.items ≡ out.old.items }
{
    match class {
        FileSystemInformationClass::FileFsVolume => {
            put_volume(volume, out)?;
            put_ascii(volume.label.as_bytes(), out)?;
        }
        FileSystemInformationClass::FileFsSize => put_size(volume, out)?,
        FileSystemInformationClass::FileFsDevice => put_device(out)?,
        FileSystemInformationClass::FileFsAttribute => {
            put_attribute(out)?;
            put_ascii(b"MEMFS", out)?;
        }
        FileSystemInformationClass::FileFsFullSize => put_full_size(volume, out)?,
    }
    Ok(())
}

// Adds ASCII text, two bytes a character. After an error some of it stands there.
fn put_ascii(text: &[u8], out: &mut Vec<u8>) -> Result<(), WireFault>
    ensures ok { OnOk result (out.new.items ≡ out.old.items ++ unit_bytes text.now) }
    ensures kept { take (length out.old.items) out.new.items ≡ out.old.items }
{
    for character in text {
        put_u16(out, u16::from(*character))?;
    }
    Ok(())
}

fn put_volume(volume: &Volume<'_>, out: &mut Vec<u8>) -> Result<(), WireFault>
    requires { is_volume_label volume.now.label.now ≡ true }
    ensures ok { OnOk result (out.new.items ≡
        appended out.old.items (volume_fields (volume_facts volume.now))) }
    ensures fits { OnOk result (AllFit (volume_fields (volume_facts volume.now))) }
    ensures kept { take (length out.old.items) out.new.items ≡ out.old.items }
{
    put_u64(out, volume.created)?;
    put_u32(out, 1)?;
    put_u32(out, volume.label.len() as u32 * 2)?;
    put_u8(out, 0)?;
    put_u8(out, 0)?;
    Ok(())
}

fn put_size(volume: &Volume<'_>, out: &mut Vec<u8>) -> Result<(), WireFault>
    requires { volume.now.used ≤ volume.now.capacity }
    ensures ok { OnOk result (out.new.items ≡
        appended out.old.items (size_fields (volume_facts volume.now))) }
    ensures fits { OnOk result (AllFit (size_fields (volume_facts volume.now))) }
    ensures kept { take (length out.old.items) out.new.items ≡ out.old.items }
{
    put_u64(out, volume.capacity / ALLOCATION_UNIT)?;
    put_u64(out, (volume.capacity - volume.used) / ALLOCATION_UNIT)?;
    put_u32(out, 8)?;
    put_u32(out, 512)?;
    Ok(())
}

fn put_device(out: &mut Vec<u8>) -> Result<(), WireFault>
    ensures ok { OnOk result (out.new.items ≡ appended out.old.items device_fields) }
    ensures fits { OnOk result (AllFit device_fields) }
    ensures kept { take (length out.old.items) out.new.items ≡ out.old.items }
{
    put_u32(out, 7)?;
    put_u32(out, 0x20)?;
    Ok(())
}

fn put_attribute(out: &mut Vec<u8>) -> Result<(), WireFault>
    ensures ok { OnOk result (out.new.items ≡ appended out.old.items attribute_fields) }
    ensures fits { OnOk result (AllFit attribute_fields) }
    ensures kept { take (length out.old.items) out.new.items ≡ out.old.items }
{
    put_u32(out, 6)?;
    put_u32(out, 255)?;
    put_u32(out, 10)?;
    Ok(())
}

fn put_full_size(volume: &Volume<'_>, out: &mut Vec<u8>) -> Result<(), WireFault>
    requires { volume.now.used ≤ volume.now.capacity }
    ensures ok { OnOk result (out.new.items ≡
        appended out.old.items (full_size_fields (volume_facts volume.now))) }
    ensures fits { OnOk result (AllFit (full_size_fields (volume_facts volume.now))) }
    ensures kept { take (length out.old.items) out.new.items ≡ out.old.items }
{
    let available = (volume.capacity - volume.used) / ALLOCATION_UNIT;
    put_u64(out, volume.capacity / ALLOCATION_UNIT)?;
    put_u64(out, available)?;
    put_u64(out, available)?;
    put_u32(out, 8)?;
    put_u32(out, 512)?;
    Ok(())
}
