//! The path of a TREE_CONNECT ([MS-SMB2] 2.2.9).

ghost use Rattle.std.specs.Prelude.{◌≡◌, ◌<◌, ◌≤◌, ◌+◌, ◌%◌, length, drop, IsSomeAnd};
ghost use Rattle.std.specs.List.{position_or_len};
ghost use Rattle.std.specs.Option.{option_map};
ghost use Rattle.smb_wire.specs.Pairs.{units_in};
ghost use Rattle.smb_wire.specs.Units.{units_of};
ghost use Rattle.smb_wire.specs.Paths.{is_separator};
ghost use Rattle.smb_session.specs.Path.{path_parts, share_in};
ghost use Rattle.smb_session.specs.Parts.{leads_to};

use smb_wire::{Units, same_name};

/// The backslash.
const SEPARATOR: u16 = 0x5C;

/// The place of the first separator from a place on, or the length.
fn separator_from(text: Units<'_>, from: usize) -> usize
    requires { from ≤ length (units_of text) }
    ensures { result ≡ from + position_or_len is_separator (drop from (units_of text.entry)) }
{
    for i in from..text.len() {
        if text.unit(i) == SEPARATOR {
            return i;
        }
    }
    text.len()
}

/// The text from a place on.
fn text_from(text: Units<'_>, from: usize) -> Option<Units<'_>>
    requires { from ≤ length (units_of text) }
    ensures { IsSomeAnd result (λ rest. units_of rest ≡ drop from (units_of text.entry)) }
{
    let (_, rest) = text.bytes().split_at(2 * from);
    Units::of(rest)
}

/// The share that a path names, `\\server\share`, or None where it is no such path.
fn named_share(path: Units<'_>) -> Option<Units<'_>>
    ensures { option_map units_of result ≡ share_in (path_parts (units_of path.entry)) }
{
    if path.len() < 2 || path.unit(0) != SEPARATOR || path.unit(1) != SEPARATOR {
        return None;
    }
    let end = separator_from(path, 2);
    if end == 2 {
        return None;
    }
    if end == path.len() {
        return None;
    }
    let named = text_from(path, end + 1)?;
    if separator_from(named, 0) != named.len() {
        return None;
    }
    Some(named)
}

/// Whether a path is `\\server\share`, for the share of this name in UTF-16.
pub(crate) fn leads_to(share: &[u8], path: Units<'_>) -> bool
    requires { length share.now % 2 ≡ 0 }
    ensures { result ≡ leads_to (units_in share.now) (units_of path.entry) }
{
    match (named_share(path), Units::of(share)) {
        (Some(named), Some(share)) => same_name(named, share),
        _ => false,
    }
}
