//! Sizes.

use crate::fault::SharingRule;

/// The most bytes that a share can have.
pub(crate) const GREATEST_CAPACITY: u64 = 70_368_744_177_664;

/// What a size is a multiple of, as a share has it.
const PAGE: u64 = 4_096;

/// The units of a size, and how many bytes each has.
const UNITS: [(&str, u64); 4] = [
    ("KiB", 1_024),
    ("MiB", 1_048_576),
    ("GiB", 1_073_741_824),
    ("TiB", 1_099_511_627_776),
];

/// The number before a unit, and how many bytes the unit has: 1 where there is none.
fn parts_of(text: &str) -> (&str, u64) {
    for (unit, bytes) in UNITS {
        if let Some(number) = text.strip_suffix(unit) {
            return (number, bytes);
        }
    }
    (text, 1)
}

/// A number of bytes as a share has it: the next multiple of 4,096, or the greatest one below 2^64.
pub(crate) fn in_pages(bytes: u64) -> u64 {
    let above = bytes.saturating_add(PAGE - 1);
    above - above % PAGE
}

/// How many bytes a text says, as the next multiple of 4,096: digits alone, or with KiB, MiB, GiB or TiB behind them.
///
/// [`SharingRule::NotASize`] of any other text and of 0, [`SharingRule::TooGreat`] of more than 64 TiB.
pub(crate) fn size_of(text: &str) -> Result<u64, SharingRule> {
    let (digits, unit) = parts_of(text);
    if digits.is_empty() || !digits.bytes().all(|digit| digit.is_ascii_digit()) {
        return Err(SharingRule::NotASize);
    }
    let Ok(number) = digits.parse::<u64>() else {
        return Err(SharingRule::TooGreat);
    };
    match number.checked_mul(unit) {
        Some(0) => Err(SharingRule::NotASize),
        Some(bytes) if bytes <= GREATEST_CAPACITY => Ok(in_pages(bytes)),
        _ => Err(SharingRule::TooGreat),
    }
}
