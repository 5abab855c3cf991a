//! Names with their paths, or the first fault, set by hand.

use smb_wire::{PathFault, Units, laws_of_components, put_u16, split_path};
use std::alloc::Global;

/// A text in ASCII, so many times over, and an end, as UTF-16.
fn spelled(alloc: Global, text: &str, times: usize, end: &str) -> Option<Vec<u8>> {
    let mut bytes = Vec::new(alloc);
    for _ in 0..times {
        for byte in text.as_bytes() {
            put_u16(&mut bytes, u16::from(*byte)).ok()?;
        }
    }
    for byte in end.as_bytes() {
        put_u16(&mut bytes, u16::from(*byte)).ok()?;
    }
    Some(bytes)
}

/// How many components the path of a name has, or why it is none.
fn count_of(name: &[u8]) -> Option<Result<usize, PathFault>> {
    match split_path(Units::of(name)?) {
        Ok(path) => Some(Ok(path.len())),
        Err(fault) => Some(Err(fault)),
    }
}

/// Whether the name of a text, so many times over, and an end, has this path, or this fault.
fn is_split(
    alloc: Global,
    text: &str,
    times: usize,
    end: &str,
    want: Result<usize, PathFault>,
) -> bool {
    match spelled(alloc, text, times, end) {
        Some(name) => count_of(&name) == Some(want),
        None => false,
    }
}

#[test]
fn the_first_fault_is_told(rt: HostRuntime) {
    for (text, times, end, want) in [
        ("", 1usize, "", Ok(0usize)),
        ("a\\b\\", 1, "", Ok(2)),
        ("a\\\\", 1, "", Err(PathFault::BadName)),
        ("\\a", 1, "", Err(PathFault::LeadingSeparator)),
        ("a\\", 31, "a", Ok(32)),
        ("a\\", 32, "", Ok(32)),
        ("a\\", 32, "a", Err(PathFault::TooDeep)),
        ("\\?", 33, "", Err(PathFault::LeadingSeparator)),
        ("?\\", 32, "?", Err(PathFault::TooDeep)),
        ("b", 255, "\\c", Ok(2)),
        ("b", 256, "\\c", Err(PathFault::BadName)),
    ] {
        assert!(rt; is_split(rt.alloc(), text, times, end, want), "{text}");
    }
}

#[test]
fn lawful_components(rt: HostRuntime) {
    for name in [
        "a\"", "*", "a/b", "a:b", "<", ">", "?", "a|", "\u{1f}", "\u{0}", ".", "..", "a\\..",
    ] {
        let want = Err(PathFault::BadName);
        assert!(rt; is_split(rt.alloc(), name, 1, "", want), "{name}");
    }
    for name in ["...", ".a", "a.", " ", "!", "{}", "~"] {
        assert!(rt; is_split(rt.alloc(), name, 1, "", Ok(1)), "{name}");
    }
    // Lone surrogates, and a unit past them.
    let count = count_of(&[0x00, 0xd8, 0xff, 0xdf, 0xff, 0xff]);
    assert!(rt; count == Some(Ok(1)));
    laws_of_components();
}

/// Whether a name is a path of two components, which are these.
fn has_parts(name: &[u8], first: &[u8], second: &[u8]) -> bool {
    let Some(text) = Units::of(name) else {
        return false;
    };
    match split_path(text) {
        Ok(path) if path.len() == 2 => {
            let front = path.front(1);
            path.part(0).bytes() == first
                && path.part(1).bytes() == second
                && front.len() == 1
                && front.text().bytes() == first
        }
        _ => false,
    }
}

#[test]
fn components_are_told(rt: HostRuntime) {
    assert!(rt; has_parts(b"A\0b\0\\\0c\0\\\0", b"A\0b\0", b"c\0"));
}
