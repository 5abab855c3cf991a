//! The rows of CREATE's table ([MS-SMB2] 3.3.5.9).

ghost use Rattle.std.specs.Prelude.{◌||◌, ◌&&◌, not, ◌≡◌, ◌++◌, List, None, Some, slice_index, IfOk, IfErr, OnOk};
ghost use Rattle.smb_wire.specs.Paths.{is_separator, path_fault, path_spelled};
ghost use Rattle.smb_wire.specs.PathViews.{parts_of};
ghost use Rattle.smb_wire.specs.Units.{units_of};
ghost use Rattle.smb_access.specs.Asked.{asked};
ghost use Rattle.smb_access.specs.Parts.{asks_folder, asks_file, asks_by_number, asks_delete, asks_read_only, asks_past_reading, is_bad_access};
ghost use Rattle.smb_wire.specs.Dispositions.{disposition_code};
ghost use Rattle.smb_access.specs.Access.{is_deleting, granted};
ghost use Rattle.smb_refusals.specs.Rows.{RefusalRow, first_refusal};
ghost use Rattle.smb_refusals.specs.declared.create.CreateRefusal.{CreateRefusal};
ghost use Rattle.smb_access.specs.Looked.{asked_rows, place_rows, kind_rows, room_rows, is_file_target, is_folder_target, is_read_only_target, is_marked_target, is_root_target, target_becomes_read_only};

use super::access::{granted, is_bad_access, is_deleting, is_past_reading, is_writing};
use super::ask::CreateAsk;
use super::found::{CreateLookup, ROOT, Target};
use bitflags::Flags;
use smb_refusals::CreateRefusal;
use smb_wire::{
    Access, CreateDisposition, CreateOptions, FileAttributes, PathView, Units, split_path,
};

const SEPARATOR: u16 = 0x5C;

/// Whether a folder is asked for.
pub fn asks_folder(ask: &CreateAsk<'_>) -> bool
    ensures { result ≡ asks_folder (asked ask.now) }
{
    ask.options.intersects(CreateOptions::DIRECTORY_FILE)
}

// Whether a file is asked for.
fn asks_file(ask: &CreateAsk<'_>) -> bool
    ensures { result ≡ asks_file (asked ask.now) }
{
    ask.options.intersects(CreateOptions::NON_DIRECTORY_FILE)
}

// Whether an entry is asked for by its number.
fn asks_by_number(ask: &CreateAsk<'_>) -> bool
    ensures { result ≡ asks_by_number (asked ask.now) }
{
    ask.options.intersects(CreateOptions::OPEN_BY_FILE_ID)
}

/// Whether the entry is to be deleted when the open is closed.
pub fn asks_delete(ask: &CreateAsk<'_>) -> bool
    ensures { result ≡ asks_delete (asked ask.now) }
{
    ask.options.intersects(CreateOptions::DELETE_ON_CLOSE)
}

// Whether the attribute of a read-only file is given.
fn asks_read_only(ask: &CreateAsk<'_>) -> bool
    ensures { result ≡ asks_read_only (asked ask.now) }
{
    ask.attributes.intersects(FileAttributes::READONLY)
}

// Whether a name begins with a separator.
fn begins_with_separator(name: Units<'_>) -> bool
    ensures { result ≡ is_separator (slice_index (units_of name.entry) 0) }
{
    name.len() > 0 && name.unit(0) == SEPARATOR
}

/// Whether a folder stands there.
pub fn is_folder_target(target: &Option<Target>) -> bool
    ensures { result ≡ is_folder_target target.now }
{
    match target {
        Some(target) => target.kind.is_folder(),
        None => false,
    }
}

// Whether a file stands there.
fn is_file_target(target: &Option<Target>) -> bool
    ensures { result ≡ is_file_target target.now }
{
    match target {
        Some(target) => !target.kind.is_folder(),
        None => false,
    }
}

/// Whether a read-only file stands there.
pub fn is_read_only_target(target: &Option<Target>) -> bool
    ensures { result ≡ is_read_only_target target.now }
{
    match target {
        Some(target) => {
            !target.kind.is_folder() && target.basic.attributes.intersects(FileAttributes::READONLY)
        }
        None => false,
    }
}

// Whether a marked entry stands there.
fn is_marked_target(target: &Option<Target>) -> bool
    ensures { result ≡ is_marked_target target.now }
{
    match target {
        Some(target) => target.mark,
        None => false,
    }
}

/// Whether what stands there is marked, or the folder that it is in.
pub fn is_pending(target: &Option<Target>, above: &Option<Target>) -> bool
    ensures { result ≡ (is_marked_target target.now || is_marked_target above.now) }
{
    is_marked_target(target) || is_marked_target(above)
}

// Whether the root stands there.
fn is_root_target(target: &Option<Target>) -> bool
    ensures { result ≡ is_root_target target.now }
{
    match target {
        Some(target) => target.number == ROOT,
        None => false,
    }
}

// Whether a read-only file stands there once the request is performed, and none did before.
fn target_becomes_read_only(
    ask: &CreateAsk<'_>,
    disposition: CreateDisposition,
    target: &Option<Target>,
) -> bool
    requires { disposition_code disposition ≡ ask.now.disposition.0 }
    ensures { result ≡ target_becomes_read_only (asked ask.now) target.now }
{
    match target {
        Some(target) => {
            disposition.overwrites() && asks_read_only(ask) && !target.kind.is_folder()
        }
        None => !asks_folder(ask) && asks_read_only(ask),
    }
}

/// The disposition and the path that a request names, or by which row it is refused, whatever files the share has.
pub fn asked_path<'a>(
    ask: &CreateAsk<'a>,
) -> Result<(CreateDisposition, PathView<'a>), CreateRefusal>
    ensures disposition { IfOk result (λ pair. disposition_code pair.0 ≡ ask.now.disposition.0) }
    ensures path { IfOk result (λ pair. parts_of pair.1 ≡ path_spelled (units_of ask.now.name)) }
    ensures fault { OnOk result (path_fault (units_of ask.now.name) ≡ None) }
    ensures lawful { OnOk result ((rows : List (RefusalRow CreateRefusal)) → first_refusal (asked_rows (asked ask.now) ++ rows) ≡ first_refusal rows) }
    ensures err { IfErr result (λ refusal. (rows : List (RefusalRow CreateRefusal)) → first_refusal (asked_rows (asked ask.now) ++ rows) ≡ Some refusal) }
{
    let Some(disposition) = ask.disposition.known() else {
        return Err(CreateRefusal::UnknownDisposition);
    };
    if asks_folder(ask) && (asks_file(ask) || disposition.overwrites()) {
        return Err(CreateRefusal::DirectoryToBeOverwritten);
    }
    if begins_with_separator(ask.name) {
        return Err(CreateRefusal::NameBeginsWithSeparator);
    }
    if asks_by_number(ask) {
        return Err(CreateRefusal::OpenByFileId);
    }
    match split_path(ask.name) {
        Ok(path) => Ok((disposition, path)),
        Err(_) => Err(CreateRefusal::NameIsNoPath),
    }
}

// Whether no access is asked for, or an unknown one, or DELETE is needed and not granted.
fn is_denied(ask: &CreateAsk<'_>, access: Access) -> bool
    ensures { result ≡ (is_bad_access ask.now.access.0 || asks_delete (asked ask.now) && not (is_deleting access)) }
{
    if is_bad_access(ask.access) {
        return true;
    }
    asks_delete(ask) && !is_deleting(access)
}

// Whether a session that may only read asks for a right to change something, or to create or overwrite
// an entry.
fn asks_past_reading(ask: &CreateAsk<'_>, disposition: CreateDisposition, access: Access) -> bool
    requires { disposition_code disposition ≡ ask.now.disposition.0 }
    ensures { result ≡ asks_past_reading (asked ask.now) access }
{
    ask.read_only
        && (is_past_reading(access) || disposition.must_be_new() || disposition.overwrites())
}

/// Whether an entry may be where a request names it, or why not.
pub fn check_place(
    ask: &CreateAsk<'_>,
    disposition: CreateDisposition,
    found: &CreateLookup,
) -> Result<(), CreateRefusal>
    requires { disposition_code disposition ≡ ask.now.disposition.0 }
    ensures lawful { OnOk result ((rows : List (RefusalRow CreateRefusal)) → first_refusal (place_rows (asked ask.now) found.now ++ rows) ≡ first_refusal rows) }
    ensures err { IfErr result (λ refusal. (rows : List (RefusalRow CreateRefusal)) → first_refusal (place_rows (asked ask.now) found.now ++ rows) ≡ Some refusal) }
{
    let exists = found.target.is_some();
    let access = granted(
        ask.access,
        ask.read_only,
        is_read_only_target(&found.target),
    );
    if is_denied(ask, access) {
        return Err(CreateRefusal::NoAccessAsked);
    }
    if asks_past_reading(ask, disposition, access) {
        return Err(CreateRefusal::SessionMayOnlyRead);
    }
    if !found.reached {
        return Err(CreateRefusal::PathNotFound);
    }
    if found.pending {
        return Err(CreateRefusal::EntryToBeDeleted);
    }
    if !exists && disposition.must_exist() {
        return Err(CreateRefusal::EntryAbsent);
    }
    if ask.read_only && !exists {
        return Err(CreateRefusal::SessionMayNotAdd);
    }
    if exists && disposition.must_be_new() {
        return Err(CreateRefusal::EntryExists);
    }
    Ok(())
}

/// Whether what a request asks for suits the entry that it found, or why not.
pub fn check_kind(
    ask: &CreateAsk<'_>,
    disposition: CreateDisposition,
    target: &Option<Target>,
) -> Result<(), CreateRefusal>
    requires { disposition_code disposition ≡ ask.now.disposition.0 }
    ensures lawful { OnOk result ((rows : List (RefusalRow CreateRefusal)) → first_refusal (kind_rows (asked ask.now) target.now ++ rows) ≡ first_refusal rows) }
    ensures err { IfErr result (λ refusal. (rows : List (RefusalRow CreateRefusal)) → first_refusal (kind_rows (asked ask.now) target.now ++ rows) ≡ Some refusal) }
{
    let overwrites = disposition.overwrites();
    let read_only = is_read_only_target(target);
    if is_folder_target(target) && (asks_file(ask) || overwrites) {
        return Err(CreateRefusal::EntryIsDirectory);
    }
    if is_file_target(target) && asks_folder(ask) {
        return Err(CreateRefusal::EntryIsFile);
    }
    if read_only && (overwrites || is_writing(granted(ask.access, ask.read_only, read_only))) {
        return Err(CreateRefusal::FileIsReadOnly);
    }
    if asks_delete(ask)
        && (is_root_target(target)
            || read_only
            || target_becomes_read_only(ask, disposition, target))
    {
        return Err(CreateRefusal::EntryNotDeletable);
    }
    Ok(())
}

/// Whether there is room for what a request asks for, or why not.
pub fn check_room(found: &CreateLookup) -> Result<(), CreateRefusal>
    ensures lawful { OnOk result (first_refusal (room_rows found.now) ≡ None) }
    ensures err { IfErr result (λ refusal. first_refusal (room_rows found.now) ≡ Some refusal) }
{
    if found.opens_full {
        return Err(CreateRefusal::NoOpenLeft);
    }
    if found.target.is_none() && found.entries_full {
        return Err(CreateRefusal::NoEntryLeft);
    }
    Ok(())
}
