//! A change, and its bytes.

ghost use Rattle.std.specs.Prelude.{◌≡◌, ◌+◌, ◌<◌, ◌^◌, ◌∷◌, ◌++◌, [], OnOk, OnErr, length, take};
ghost use Rattle.smb_wire.specs.Number.{spelling};
ghost use Rattle.smb_wire.specs.Pairs.{unit_bytes};
ghost use Rattle.smb_wire.specs.Units.{units_of};
ghost use Rattle.smb_changes.specs.Batches.{kind_code, mark_code, about_bytes, spelled_change};
ghost use Rattle.smb_changes.specs.Shown.{about_with, change_shown};
ghost use Rattle.smb_changes.specs.Crash.{IsWritableAbout, IsWritable};

use smb_tree::{Basic, EntryNo, Kind};
use smb_wire::{Units, WireFault, put_bytes, put_u32, put_u64};

/// A change of a share's files. Entries are named by their numbers, of which none is given twice.
#[derive(Clone, Copy, Debug)]
pub enum Change<'a> {
    /// An entry is this, in the folder of the number `parent`, but for its bytes, which stay. With a mark it is to go
    /// once its last open is closed.
    Entry {
        number: EntryNo,
        parent: EntryNo,
        kind: Kind,
        mark: bool,
        basic: Basic,
        spelling: Units<'a>,
    },
    /// Bytes are put at an offset of a file, in bytes, with zeros before them where it is past the end.
    Bytes {
        number: EntryNo,
        offset: u64,
        bytes: &'a [u8],
    },
    /// A file gets a size in bytes: it is cut, or zeros are put behind it.
    Size {
        number: EntryNo,
        size: u64,
    },
    /// An entry is gone.
    Gone {
        number: EntryNo,
    },
    /// The next number is at least this.
    Next {
        next: EntryNo,
    },
}

// 0 for a file, 1 for a folder.
fn kind_code(kind: Kind) -> u8
    ensures { result ≡ kind_code kind }
{
    match kind {
        Kind::File => 0,
        Kind::Folder => 1,
    }
}

// 1 with a mark, 0 without.
fn mark_code(mark: bool) -> u8
    ensures { result ≡ mark_code mark }
{
    if mark { 1 } else { 0 }
}

// Adds a byte. An error leaves `out` as it was.
fn put_byte(out: &mut Vec<u8>, byte: u8) -> Result<(), WireFault>
    ensures ok { OnOk result (out.new.items ≡ out.old.items ++ byte ∷ []) }
    ensures err { OnErr result (out.new.items ≡ out.old.items) }
{
    out.extend_from_slice(&[byte])?;
    Ok(())
}

// Adds what all changes begin with. After an error the bytes that were there are there.
fn put_fields(
    out: &mut Vec<u8>,
    kind: u8,
    number: u64,
    second: u64,
    count: u64,
) -> Result<(), WireFault>
    ensures ok { OnOk result (out.new.items
        ≡ out.old.items ++ (kind ∷ (spelling 8 number ++ (spelling 8 second ++ spelling 8 count)))) }
    ensures err { OnErr result (take (length out.old.items) out.new.items ≡ out.old.items) }
    ensures fits { (number < 256 ^ 8) × (second < 256 ^ 8) × (count < 256 ^ 8) }
{
    put_byte(out, kind)?;
    put_u64(out, number)?;
    put_u64(out, second)?;
    put_u64(out, count)?;
    Ok(())
}

// Adds what is known of an entry. After an error the bytes that were there are there.
fn put_about(
    out: &mut Vec<u8>,
    kind: Kind,
    mark: bool,
    basic: Basic,
    name: Units<'_>,
) -> Result<(), WireFault>
    ensures ok { OnOk result (out.new.items ≡ out.old.items ++ about_bytes (about_with kind name.entry basic mark)) }
    ensures err { OnErr result (take (length out.old.items) out.new.items ≡ out.old.items) }
    ensures fits { OnOk result (IsWritableAbout (about_with kind name.entry basic mark)) }
{
    put_byte(out, kind_code(kind))?;
    put_byte(out, mark_code(mark))?;
    put_u64(out, basic.creation_time)?;
    put_u64(out, basic.last_access_time)?;
    put_u64(out, basic.last_write_time)?;
    put_u64(out, basic.change_time)?;
    put_u32(out, basic.attributes.0)?;
    let text = name.bytes();
    put_bytes(out, text)?;
    Ok(())
}

// How many bytes say what is known of an entry.
fn about_length(name: Units<'_>) -> u64
    ensures { result ≡ 38 + length (unit_bytes (units_of name.entry)) }
{
    38 + name.bytes().len() as u64
}

// Adds a change. After an error the bytes that were there are there.
#[tactic(auto, using(crate::proofs::Kept::kept_by))]
fn put_parts(out: &mut Vec<u8>, change: Change<'_>) -> Result<(), WireFault>
    ensures ok { OnOk result (out.new.items ≡ out.old.items ++ spelled_change (change_shown change.entry)) }
    ensures writable { OnOk result (IsWritable (change_shown change.entry)) }
    ensures err { OnErr result (take (length out.old.items) out.new.items ≡ out.old.items) }
{
    match change {
        Change::Entry {
            number,
            parent,
            kind,
            mark,
            basic,
            spelling,
        } => {
            put_fields(out, 1, number, parent, about_length(spelling))?;
            put_about(out, kind, mark, basic, spelling)?;
            Ok(())
        }
        Change::Bytes {
            number,
            offset,
            bytes,
        } => {
            put_fields(out, 2, number, offset, bytes.len() as u64)?;
            put_bytes(out, bytes)
        }
        Change::Size { number, size } => put_fields(out, 3, number, size, 0),
        Change::Gone { number } => put_fields(out, 4, number, 0, 0),
        Change::Next { next } => put_fields(out, 5, next, 0, 0),
    }
}

/// Adds the bytes of a change: its kind, two numbers of 8 bytes, how many bytes follow, in 8, and these. Its numbers
/// fit these bytes (`writable`). [`WireFault::NoMemory`] leaves `out` as it was.
pub fn put_change(out: &mut Vec<u8>, change: Change<'_>) -> Result<(), WireFault>
    ensures ok { OnOk result (out.new.items ≡ out.old.items ++ spelled_change (change_shown change.entry)) }
    ensures writable { OnOk result (IsWritable (change_shown change.entry)) }
    ensures err { OnErr result (out.new.items ≡ out.old.items) }
{
    let length = out.len();
    match put_parts(out, change) {
        Ok(()) => Ok(()),
        Err(fault) => {
            out.truncate(length);
            Err(fault)
        }
    }
}
