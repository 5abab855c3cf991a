//! Names that are the same, and names in order, set by hand.

use smb_wire::{FoldedName, Units, compare_folded, fold_unit, same_name};
use std::cmp::Ordering;

#[test]
fn folds_ascii_alone(rt: HostRuntime) {
    for (unit, folded) in [
        (0x61u16, 0x41u16),
        (0x7a, 0x5a),
        (0x60, 0x60),
        (0x7b, 0x7b),
        (0xe4, 0xe4),
        (0xd800, 0xd800),
    ] {
        assert_eq!(rt; fold_unit(unit), folded);
    }
}

/// The order of two names, and whether they are the same.
fn compared(left: &[u8], right: &[u8]) -> Option<(Ordering, bool)> {
    let left = Units::of(left)?;
    let right = Units::of(right)?;
    Some((compare_folded(left, right), same_name(left, right)))
}

/// A name as a key.
fn folded(name: &[u8]) -> Option<FoldedName> {
    match Units::of(name) {
        Some(name) => FoldedName::of(name),
        None => None,
    }
}

/// The order of two names as keys.
fn ordered(left: &[u8], right: &[u8]) -> Option<Ordering> {
    match (folded(left), folded(right)) {
        (Some(left), Some(right)) => Some(left.cmp(&right)),
        _ => None,
    }
}

#[test]
fn compares_folded(rt: HostRuntime) {
    // `_` stands between the capitals and the small letters, so behind a folded `b`.
    for (left, right, order) in [
        (b"a\0b\0".as_slice(), b"A\0B\0".as_slice(), Ordering::Equal),
        (b"A\0", b"a\0b\0", Ordering::Less),
        (b"a\0_\0", b"a\0b\0", Ordering::Greater),
    ] {
        assert!(rt; compared(left, right) == Some((order, order.is_eq())));
        assert!(rt; ordered(left, right) == Some(order));
    }
}

#[test]
fn a_key_has_255_units_at_most(rt: HostRuntime) {
    let bytes = [0x62u8; 512];
    let length = match folded(&bytes[..510]) {
        Some(name) => name.len(),
        None => 0,
    };
    assert!(rt; length == 255 && folded(&bytes).is_none());
}
