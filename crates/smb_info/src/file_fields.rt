//! The fields of the file information classes ([MS-FSCC] 2.4).

ghost use Rattle.std.specs.Prelude.{◌≡◌, ◌<◌, ◌++◌, length, take, OnOk};
ghost use Rattle.smb_wire.specs.Fields.{AllFit, appended};
ghost use Rattle.smb_tree.specs.WholeNames.{copied};
ghost use Rattle.smb_info.specs.FileInformation.{file_information_of, basic_fields};
ghost use Rattle.smb_info.specs.Parts.{network_open_fields, attribute_tag_fields, all_fields, whole, attributes_of, flag, standard_fields};

use super::file_class::FileInformationClass;
use smb_tree::{EntryCopy, allocation_size};
use smb_wire::{Access, WireFault, put_bytes, put_u8, put_u16, put_u32, put_u64};

// A backslash.
const SEPARATOR: u16 = 0x5c;

/// Adds all that a class tells. After an error some of it stands there.
pub(crate) fn put_information(
    class: FileInformationClass,
    entry: &EntryCopy,
    access: Access,
    out: &mut Vec<u8>,
) -> Result<(), WireFault>
    ensures ok { OnOk result (out.new.items ≡
        out.old.items ++ whole (file_information_of class (copied entry.now) access.0)) }
    ensures fits { OnOk result (AllFit (file_information_of class (copied entry.now) access.0).fields) }
    ensures kept { take (length out.old.items) out.new.items ≡ out.old.items }
{
    match class {
        FileInformationClass::FileBasic => put_basic(entry, out)?,
        FileInformationClass::FileStandard => put_standard(entry, out)?,
        FileInformationClass::FileInternal => put_u64(out, entry.number)?,
        FileInformationClass::FileEa => put_u32(out, 0)?,
        FileInformationClass::FileAccess => put_u32(out, access.0)?,
        FileInformationClass::FilePosition => put_u64(out, 0)?,
        FileInformationClass::FileMode => put_u32(out, 0)?,
        FileInformationClass::FileAlignment => put_u32(out, 0)?,
        FileInformationClass::FileAll => {
            put_all(entry, access, out)?;
            put_u16(out, SEPARATOR)?;
            put_bytes(out, &entry.name)?;
        }
        FileInformationClass::FileNetworkOpen => put_network_open(entry, out)?,
        FileInformationClass::FileAttributeTag => put_attribute_tag(entry, out)?,
    }
    Ok(())
}

// The attributes that are shown of an entry.
fn attributes(entry: &EntryCopy) -> u32
    ensures { result ≡ attributes_of (copied entry.now) }
{
    entry.kind.shown_attributes(entry.basic.attributes).0
}

// A yes as 1, a no as 0.
fn flag(yes: bool) -> u8
    ensures value { result ≡ flag yes }
    ensures small { flag yes < 2 }
{
    u8::from(yes)
}

fn put_basic(entry: &EntryCopy, out: &mut Vec<u8>) -> Result<(), WireFault>
    ensures ok { OnOk result (out.new.items ≡ appended out.old.items (basic_fields (copied entry.now))) }
    ensures fits { OnOk result (AllFit (basic_fields (copied entry.now))) }
    ensures kept { take (length out.old.items) out.new.items ≡ out.old.items }
{
    put_u64(out, entry.basic.creation_time)?;
    put_u64(out, entry.basic.last_access_time)?;
    put_u64(out, entry.basic.last_write_time)?;
    put_u64(out, entry.basic.change_time)?;
    put_u32(out, attributes(entry))?;
    put_u32(out, 0)?;
    Ok(())
}

fn put_standard(entry: &EntryCopy, out: &mut Vec<u8>) -> Result<(), WireFault>
    ensures ok { OnOk result (out.new.items ≡ appended out.old.items (standard_fields (copied entry.now))) }
    ensures fits { OnOk result (AllFit (standard_fields (copied entry.now))) }
    ensures kept { take (length out.old.items) out.new.items ≡ out.old.items }
{
    put_u64(out, allocation_size(entry.size))?;
    put_u64(out, entry.size)?;
    put_u32(out, 1)?;
    put_u8(out, flag(entry.mark))?;
    put_u8(out, flag(entry.kind.is_folder()))?;
    put_u16(out, 0)?;
    Ok(())
}

fn put_network_open(entry: &EntryCopy, out: &mut Vec<u8>) -> Result<(), WireFault>
    ensures ok { OnOk result (out.new.items ≡ appended out.old.items (network_open_fields (copied entry.now))) }
    ensures fits { OnOk result (AllFit (network_open_fields (copied entry.now))) }
    ensures kept { take (length out.old.items) out.new.items ≡ out.old.items }
{
    put_u64(out, entry.basic.creation_time)?;
    put_u64(out, entry.basic.last_access_time)?;
    put_u64(out, entry.basic.last_write_time)?;
    put_u64(out, entry.basic.change_time)?;
    put_u64(out, allocation_size(entry.size))?;
    put_u64(out, entry.size)?;
    put_u32(out, attributes(entry))?;
    put_u32(out, 0)?;
    Ok(())
}

fn put_attribute_tag(entry: &EntryCopy, out: &mut Vec<u8>) -> Result<(), WireFault>
    ensures ok { OnOk result (out.new.items ≡ appended out.old.items (attribute_tag_fields (copied entry.now))) }
    ensures fits { OnOk result (AllFit (attribute_tag_fields (copied entry.now))) }
    ensures kept { take (length out.old.items) out.new.items ≡ out.old.items }
{
    put_u32(out, attributes(entry))?;
    put_u32(out, 0)?;
    Ok(())
}

// The fields of the classes before it, one behind the other, and the length of the name.
fn put_all(entry: &EntryCopy, access: Access, out: &mut Vec<u8>) -> Result<(), WireFault>
    ensures ok { OnOk result (out.new.items ≡ appended out.old.items (all_fields (copied entry.now) access.0)) }
    ensures fits { OnOk result (AllFit (all_fields (copied entry.now) access.0)) }
    ensures kept { take (length out.old.items) out.new.items ≡ out.old.items }
{
    put_basic(entry, out)?;
    put_standard(entry, out)?;
    put_u64(out, entry.number)?;
    put_u32(out, 0)?;
    put_u32(out, access.0)?;
    put_u64(out, 0)?;
    put_u32(out, 0)?;
    put_u32(out, 0)?;
    put_u32(out, entry.name.len() as u32 + 2)?;
    Ok(())
}
