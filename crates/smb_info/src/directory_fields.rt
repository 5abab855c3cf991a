//! The fields of the directory information classes ([MS-FSCC] 2.4).

ghost use Rattle.std.specs.Prelude.{◌≡◌, ◌<◌, ◌^◌, ◌*◌, ◌++◌, length, take, OnOk, OnErr};
ghost use Rattle.smb_wire.specs.Fields.{AllFit, appended};
ghost use Rattle.smb_wire.specs.Number.{spelling};
ghost use Rattle.smb_wire.specs.Units.{units_of};
ghost use Rattle.smb_tree.specs.Entries.{shown_attributes};
ghost use Rattle.smb_info.specs.CandidateViews.{candidate};
ghost use Rattle.smb_info.specs.DirectoryInformation.{fields_of, directory_fields, full_directory_fields, both_directory_fields};
ghost use Rattle.smb_info.specs.Parts.{names_fields, id_both_directory_fields, id_full_directory_fields, whole, directory_information_of};

use super::candidate::CandidateView;
use super::directory_class::DirectoryInformationClass;
use smb_tree::{EntryView, allocation_size};
use smb_wire::{WireFault, in_eight, in_four, put_bytes, put_u8, put_u16, put_u32, put_u64};

/// Adds what a class tells of an entry, behind which the next one begins `next` bytes on. After an error some of it
/// stands there.
pub fn put_entry(
    class: DirectoryInformationClass,
    next: u32,
    entry: &CandidateView<'_>,
    out: &mut Vec<u8>,
) -> Result<(), WireFault>
    requires { 2 * length (units_of entry.now.name) < 2 ^ 32 }
    ensures ok { OnOk result (out.new.items ≡
        out.old.items ++ whole (directory_information_of class next (candidate entry.now))) }
    ensures fits { OnOk result (AllFit (fields_of class next (candidate entry.now))) }
    ensures kept { take (length out.old.items) out.new.items ≡ out.old.items }
{
    put_fields(class, next, entry, out)?;
    put_bytes(out, entry.name.bytes())?;
    Ok(())
}

// Adds the fields of a class.
fn put_fields(
    class: DirectoryInformationClass,
    next: u32,
    entry: &CandidateView<'_>,
    out: &mut Vec<u8>,
) -> Result<(), WireFault>
    requires { 2 * length (units_of entry.now.name) < 2 ^ 32 }
    ensures ok { OnOk result (out.new.items ≡ appended out.old.items (fields_of class next (candidate entry.now))) }
    ensures fits { OnOk result (AllFit (fields_of class next (candidate entry.now))) }
    ensures kept { take (length out.old.items) out.new.items ≡ out.old.items }
{
    match class {
        DirectoryInformationClass::FileDirectory => put_directory(next, entry, out)?,
        DirectoryInformationClass::FileFullDirectory => put_full_directory(next, entry, out)?,
        DirectoryInformationClass::FileBothDirectory => put_both_directory(next, entry, out)?,
        DirectoryInformationClass::FileNames => put_names(next, entry, out)?,
        DirectoryInformationClass::FileIdBothDirectory => put_id_both_directory(next, entry, out)?,
        DirectoryInformationClass::FileIdFullDirectory => put_id_full_directory(next, entry, out)?,
    }
    Ok(())
}

// The attributes that are shown of an entry.
fn attributes(entry: &EntryView<'_>) -> u32
    ensures { result ≡ shown_attributes entry.now.kind entry.now.basic.attributes.0 }
{
    entry.kind.shown_attributes(entry.basic.attributes).0
}

// The length of a name in bytes.
fn name_length(entry: &CandidateView<'_>) -> u32
    requires { 2 * length (units_of entry.now.name) < 2 ^ 32 }
    ensures { result ≡ 2 * length (units_of entry.now.name) }
{
    entry.name.len() as u32 * 2
}

fn put_directory(next: u32, entry: &CandidateView<'_>, out: &mut Vec<u8>) -> Result<(), WireFault>
    requires { 2 * length (units_of entry.now.name) < 2 ^ 32 }
    ensures ok { OnOk result (out.new.items ≡ appended out.old.items (directory_fields next (candidate entry.now))) }
    ensures fits { OnOk result (AllFit (directory_fields next (candidate entry.now))) }
    ensures kept { take (length out.old.items) out.new.items ≡ out.old.items }
{
    let basic = &entry.entry.basic;
    put_bytes(out, [in_four(next), in_four(0)].as_flattened())?;
    let long = [
        in_eight(basic.creation_time),
        in_eight(basic.last_access_time),
        in_eight(basic.last_write_time),
        in_eight(basic.change_time),
        in_eight(entry.entry.size),
        in_eight(allocation_size(entry.entry.size)),
    ];
    put_bytes(out, long.as_flattened())?;
    let last = [
        in_four(attributes(&entry.entry)),
        in_four(name_length(entry)),
    ];
    put_bytes(out, last.as_flattened())?;
    Ok(())
}

fn put_full_directory(
    next: u32,
    entry: &CandidateView<'_>,
    out: &mut Vec<u8>,
) -> Result<(), WireFault>
    requires { 2 * length (units_of entry.now.name) < 2 ^ 32 }
    ensures ok { OnOk result (out.new.items ≡ appended out.old.items (full_directory_fields next (candidate entry.now))) }
    ensures fits { OnOk result (AllFit (full_directory_fields next (candidate entry.now))) }
    ensures kept { take (length out.old.items) out.new.items ≡ out.old.items }
{
    put_directory(next, entry, out)?;
    put_u32(out, 0)?;
    Ok(())
}

// A short name: there is none.
#[tactic(auto, unfolding(smb_wire::specs::Number::spelling))]
fn put_no_short_name(out: &mut Vec<u8>) -> Result<(), WireFault>
    ensures ok { OnOk result (out.new.items ≡ out.old.items ++ spelling 24 0) }
    ensures err { OnErr result (out.new.items ≡ out.old.items) }
{
    put_bytes(out, &[0; 24])
}

// What stands between the fixed front and the number of an entry: no extended attributes, no short name, and what is
// reserved around it, all of it zeros.
#[tactic(auto, unfolding(smb_wire::specs::Number::spelling))]
fn put_no_short_name_and_more(out: &mut Vec<u8>) -> Result<(), WireFault>
    ensures ok { OnOk result (out.new.items ≡ out.old.items
        ++ (spelling 4 0 ++ (spelling 1 0 ++ (spelling 1 0 ++ (spelling 24 0 ++ spelling 2 0))))) }
    ensures err { OnErr result (out.new.items ≡ out.old.items) }
{
    put_bytes(out, &[0; 32])
}

fn put_both_directory(
    next: u32,
    entry: &CandidateView<'_>,
    out: &mut Vec<u8>,
) -> Result<(), WireFault>
    requires { 2 * length (units_of entry.now.name) < 2 ^ 32 }
    ensures ok { OnOk result (out.new.items ≡ appended out.old.items (both_directory_fields next (candidate entry.now))) }
    ensures fits { OnOk result (AllFit (both_directory_fields next (candidate entry.now))) }
    ensures kept { take (length out.old.items) out.new.items ≡ out.old.items }
{
    put_full_directory(next, entry, out)?;
    put_u8(out, 0)?;
    put_u8(out, 0)?;
    put_no_short_name(out)?;
    Ok(())
}

fn put_names(next: u32, entry: &CandidateView<'_>, out: &mut Vec<u8>) -> Result<(), WireFault>
    requires { 2 * length (units_of entry.now.name) < 2 ^ 32 }
    ensures ok { OnOk result (out.new.items ≡ appended out.old.items (names_fields next (candidate entry.now))) }
    ensures fits { OnOk result (AllFit (names_fields next (candidate entry.now))) }
    ensures kept { take (length out.old.items) out.new.items ≡ out.old.items }
{
    put_u32(out, next)?;
    put_u32(out, 0)?;
    put_u32(out, name_length(entry))?;
    Ok(())
}

fn put_id_both_directory(
    next: u32,
    entry: &CandidateView<'_>,
    out: &mut Vec<u8>,
) -> Result<(), WireFault>
    requires { 2 * length (units_of entry.now.name) < 2 ^ 32 }
    ensures ok { OnOk result (out.new.items ≡ appended out.old.items (id_both_directory_fields next (candidate entry.now))) }
    ensures fits { OnOk result (AllFit (id_both_directory_fields next (candidate entry.now))) }
    ensures kept { take (length out.old.items) out.new.items ≡ out.old.items }
{
    put_directory(next, entry, out)?;
    put_no_short_name_and_more(out)?;
    put_u64(out, entry.entry.number)?;
    Ok(())
}

fn put_id_full_directory(
    next: u32,
    entry: &CandidateView<'_>,
    out: &mut Vec<u8>,
) -> Result<(), WireFault>
    requires { 2 * length (units_of entry.now.name) < 2 ^ 32 }
    ensures ok { OnOk result (out.new.items ≡ appended out.old.items (id_full_directory_fields next (candidate entry.now))) }
    ensures fits { OnOk result (AllFit (id_full_directory_fields next (candidate entry.now))) }
    ensures kept { take (length out.old.items) out.new.items ≡ out.old.items }
{
    put_full_directory(next, entry, out)?;
    put_u32(out, 0)?;
    put_u64(out, entry.entry.number)?;
    Ok(())
}
