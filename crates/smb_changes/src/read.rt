//! Changes and batches are read.

ghost use Rattle.std.specs.Prelude.{◌≡◌, ◌+◌, ◌≤◌, ◌==◌, ◌++◌, ◌∷◌, ◌&&◌, [], length, drop, is_some, IfSome, if◌then◌else◌};
ghost use Rattle.smb_tree.specs.declared.entry.Kind.TheVariants.{File, Folder};
ghost use Rattle.std.specs.Option.{option_map};
ghost use Rattle.std.specs.Str.{bytes_eq};
ghost use Rattle.smb_wire.specs.Number.{spelling};
ghost use Rattle.smb_changes.specs.Batches.{about_in, entry_of, change_of, change_at, changes_in, size_at, body_at, has_front, batch_at, seed_behind};
ghost use Rattle.smb_changes.specs.Shown.{change_shown};

use super::change::Change;
use super::check::check_of;
use smb_tree::{Basic, EntryNo, Kind};
use smb_wire::{FileAttributes, Units, in_eight, u32_in, u64_in};

// Whether 0 or 1 is said of a file or of a folder.
fn kind_of(code: u8) -> Kind
    ensures { result ≡ (if code == 0 then File else Folder) }
{
    match code {
        0 => Kind::File,
        _ => Kind::Folder,
    }
}

// The times and attributes with which bytes begin.
fn basic_of(bytes: &[u8]) -> Basic
    requires { 36 ≤ length bytes.now }
    ensures { result ≡ (about_in 0 0 bytes.now).basic }
{
    Basic {
        creation_time: u64_in(bytes, 0),
        last_access_time: u64_in(bytes, 8),
        last_write_time: u64_in(bytes, 16),
        change_time: u64_in(bytes, 24),
        attributes: FileAttributes(u32_in(bytes, 32)),
    }
}

// The entry that bytes say.
fn entry_of(number: EntryNo, parent: EntryNo, bytes: &[u8]) -> Option<Change<'_>>
    ensures { option_map change_shown result ≡ entry_of number parent bytes.now }
{
    let (kind, bytes) = bytes.split_first()?;
    let (mark, bytes) = bytes.split_first()?;
    if *kind > 1 || *mark > 1 || bytes.len() < 36 {
        return None;
    }
    let (_, text) = bytes.split_at(36);
    let spelling = Units::of(text)?;
    Some(Change::Entry {
        number,
        parent,
        kind: kind_of(*kind),
        mark: *mark == 1,
        basic: basic_of(bytes),
        spelling,
    })
}

// The change that fields say.
fn change_of(kind: u8, number: u64, second: u64, bytes: &[u8]) -> Option<Change<'_>>
    ensures { option_map change_shown result
        ≡ change_of (record { kind = kind; number = number; second = second; data_bytes = bytes.now }) }
{
    match kind {
        1 => entry_of(number, second, bytes),
        2 => Some(Change::Bytes {
            number,
            offset: second,
            bytes,
        }),
        3 if bytes.is_empty() => Some(Change::Size {
            number,
            size: second,
        }),
        4 if bytes.is_empty() && second == 0 => Some(Change::Gone { number }),
        5 if bytes.is_empty() && second == 0 => Some(Change::Next { next: number }),
        _ => None,
    }
}

/// The change with which bytes begin, and the bytes behind it. None exactly where they do not begin with one.
pub fn read_change(bytes: &[u8]) -> Option<(Change<'_>, &[u8])>
    ensures { option_map (λ found. (change_shown found.0, found.1.now)) result ≡ change_at bytes.now }
{
    let (kind, bytes) = bytes.split_first()?;
    if bytes.len() < 24 {
        return None;
    }
    let size = u64_in(bytes, 16);
    if size > (bytes.len() - 24) as u64 {
        return None;
    }
    let (_, behind) = bytes.split_at(24);
    let (own, rest) = behind.split_at(size as usize);
    let change = change_of(*kind, u64_in(bytes, 0), u64_in(bytes, 8), own)?;
    Some((change, rest))
}

// Whether bytes are changes, one behind the other.
fn are_changes(bytes: &[u8]) -> bool
    ensures { result ≡ is_some (changes_in (length bytes.now) bytes.now) }
{
    let mut rest = bytes;
    for _ in 0..bytes.len() {
        if rest.is_empty() {
            return true;
        }
        let Some((_, behind)) = read_change(rest) else {
            return false;
        };
        rest = behind;
    }
    rest.is_empty()
}

/// Whether 24 bytes are the front of a batch of this number and this seed. A front says in its first 8 bytes how many
/// bytes the changes have.
pub fn is_front(seed: u64, number: u64, bytes: &[u8]) -> bool
    requires { length bytes.now ≡ 24 }
    ensures { result ≡ has_front seed number bytes.now }
{
    let (fields, check) = bytes.split_at(16);
    let (_, own) = fields.split_at(8);
    own == in_eight(number).as_slice() && check == in_eight(check_of(seed, fields)).as_slice()
}

// Whether 9 bytes are the back of a batch with this check.
fn is_back(check: u64, bytes: &[u8]) -> bool
    requires { length bytes.now ≡ 9 }
    ensures { result ≡ bytes_eq bytes.now (spelling 8 check ++ 10 ∷ []) }
{
    let (own, last) = bytes.split_at(8);
    own == in_eight(check).as_slice() && last == [10].as_slice()
}

// Whether these are the front of a batch of this number, its changes, and a back with this check.
fn is_whole(seed: u64, number: u64, check: u64, front: &[u8], changes: &[u8], back: &[u8]) -> bool
    requires front { length front.now ≡ 24 }
    requires back { length back.now ≡ 9 }
    ensures { result ≡ ((has_front seed number front.now && bytes_eq back.now (spelling 8 check ++ 10 ∷ []))
        && is_some (changes_in (length changes.now) changes.now)) }
{
    if !is_front(seed, number, front) {
        return false;
    }
    if !is_back(check, back) {
        return false;
    }
    are_changes(changes)
}

/// A batch that was read.
#[derive(Clone, Copy, Debug)]
pub struct BatchView<'a> {
    /// The bytes of its changes, which [`read_change`] reads.
    pub changes: &'a [u8],
    /// The bytes behind it.
    pub rest: &'a [u8],
    /// The seed of the batch behind it.
    pub seed: u64,
}

/// The batch of this number and this seed with which bytes begin: its changes, which can all be read (`changes`), what
/// is behind it (`rest`), and the seed of the next (`next`). None exactly where they begin with no whole one (`whole`).
pub fn read_batch(seed: u64, number: u64, bytes: &[u8]) -> Option<BatchView<'_>>
    ensures whole { is_some result ≡ is_some (batch_at seed number bytes.now) }
    ensures changes { IfSome result (λ batch. batch.changes.now ≡ body_at bytes.now) }
    ensures rest { IfSome result (λ batch. batch.rest.now ≡ drop (33 + size_at bytes.now) bytes.now) }
    ensures next { IfSome result (λ batch. batch.seed ≡ seed_behind seed bytes.now) }
{
    if bytes.len() < 33 {
        return None;
    }
    let size = u64_in(bytes, 0);
    if size > (bytes.len() - 33) as u64 {
        return None;
    }
    let (front, behind) = bytes.split_at(24);
    let (changes, behind) = behind.split_at(size as usize);
    let (back, rest) = behind.split_at(9);
    let check = check_of(seed, changes);
    if is_whole(seed, number, check, front, changes, back) {
        Some(BatchView {
            changes,
            rest,
            seed: check,
        })
    } else {
        None
    }
}
