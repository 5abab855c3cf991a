//! The words of a line.

ghost use Rattle.std.specs.Prelude.{◌≡◌, ◌<◌, ◌==◌, ◌&&◌, length, nat_lt, position, if◌then◌else◌, IfOk, IfSome, Some, None};
ghost use Rattle.std.specs.List.{list_all};
ghost use Rattle.std.specs.Option.{option_map};
ghost use Rattle.std.specs.Result.{result_ok};
ghost use Rattle.hex.specs.Hex.{decode_of};
ghost use Rattle.smb_journal.specs.Lines.{is_digit, decimal_from, decimal_number, piece_of, at_blank, piece_parts};

use hex::FromHexError;
use std::alloc::{AllocError, Global};
use std::io;
use std::io::Write;

/// How many bytes are written as hex at a time.
const HEX_PART: usize = 512;

/// The first place of a character.
pub fn place_of(character: u8, text: &[u8]) -> Option<usize>
    ensures place { result ≡ position (λ c. c == character) text.now }
    ensures within { IfSome result (λ i. i < length text.now) }
{
    text.iter().position(|c| *c == character)
}

/// What is before the first blank, and what behind it.
pub(crate) fn at_blank(text: &[u8]) -> Option<(&[u8], &[u8])>
    ensures { option_map (λ parts. (parts.0.now, parts.1.now)) result ≡ at_blank text.now }
{
    let blank = place_of(b' ', text)?;
    Some((&text[..blank], &text[blank + 1..]))
}

/// What is before the last place of these bytes, and what behind it.
pub(crate) fn at_last<'a>(bytes: &[u8], text: &'a [u8]) -> Option<(&'a [u8], &'a [u8])> {
    for place in (0..text.len()).rev() {
        if let Some(back) = text.get(place..)?.strip_prefix(bytes) {
            return Some((text.get(..place)?, back));
        }
    }
    None
}

/// Whether each of these is a decimal digit.
fn all_digits(digits: &[u8]) -> bool
    ensures { result ≡ list_all is_digit digits.now }
{
    digits.iter().all(|digit| b'0' <= *digit && *digit <= b'9')
}

/// The number that decimal digits spell, or None where it is 2^64 or more.
fn spelled(digits: &[u8]) -> Option<u64>
    ensures { result ≡ (if nat_lt (decimal_from 0 digits.now) 18446744073709551616 then Some (decimal_from 0 digits.now) else None) }
{
    let mut number = 0u64;
    for digit in digits {
        let tens = number.checked_mul(10)?;
        number = tens.checked_add(u64::from(digit.saturating_sub(b'0')))?;
    }
    Some(number)
}

/// A number of one decimal digit or more, below 2^64.
pub(crate) fn number_of(digits: &[u8]) -> Option<u64>
    ensures { result ≡ decimal_number digits.now }
{
    if digits.is_empty() || !all_digits(digits) {
        return None;
    }
    spelled(digits)
}

/// A connection's number, a moment, and what is behind them: `N MOMENT ..`.
pub(crate) fn piece_parts(text: &[u8]) -> Option<(u64, u64, &[u8])>
    ensures { option_map (λ parts. (parts.0, parts.1, parts.2.now)) result ≡ piece_parts text.now }
{
    let (number, others) = at_blank(text)?;
    let number = number_of(number)?;
    let (moment, others) = at_blank(others)?;
    let moment = number_of(moment)?;
    Some((number, moment, others))
}

/// The bytes that hex digits spell, in either case; None where they spell no whole bytes.
pub fn read_hex(alloc: Global, digits: &[u8]) -> Result<Option<Vec<u8>>, AllocError>
    ensures { IfOk result (λ read. option_map (λ bytes. bytes.items) read ≡ result_ok (decode_of digits.now)) }
{
    match hex::decode(alloc, digits) {
        Ok(bytes) => Ok(Some(bytes)),
        Err(FromHexError::OutOfMemory) => Err(AllocError),
        Err(_) => Ok(None),
    }
}

/// The bytes that hex digits spell, one byte or more.
pub(crate) fn piece_of(alloc: Global, digits: &[u8]) -> Result<Option<Vec<u8>>, AllocError>
    ensures { IfOk result (λ piece. option_map (λ bytes. bytes.items) piece ≡ piece_of digits.now) }
{
    if digits.is_empty() {
        return Ok(None);
    }
    read_hex(alloc, digits)
}

/// The bytes of a token or a user: hex digits, and `-` for none.
pub(crate) fn token_of(alloc: Global, digits: &[u8]) -> Result<Option<Vec<u8>>, AllocError> {
    if digits == b"-".as_slice() {
        return Ok(Some(Vec::new(alloc)));
    }
    read_hex(alloc, digits)
}

/// The number of 16 hex digits.
pub(crate) fn check_of_digits(digits: &[u8]) -> Option<u64> {
    let mut bytes = [0u8; 8];
    hex::decode_to_slice(digits, &mut bytes).ok()?;
    Some(u64::from_be_bytes(bytes))
}

/// Writes bytes as hex.
pub fn write_hex<W: Write>(bytes: &[u8], output: &mut W) -> io::Result<()> {
    let mut digits = [0u8; 1_024];
    for part in bytes.chunks(HEX_PART) {
        let length = 2 * part.len().min(HEX_PART);
        if hex::encode_to_slice(part, &mut digits[..length]).is_ok() {
            output.write_all(&digits[..length])?;
        }
    }
    Ok(())
}
