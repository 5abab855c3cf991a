//! Dialects over borrowed bytes.

ghost use Rattle.std.specs.Prelude.{◌≡◌, ◌%◌, nat_eq, length, is_some, IfSome, slice_get};
ghost use Rattle.std.specs.Option.{option_map};
ghost use Rattle.smb_wire.specs.Pairs.{units_in, unit_bytes, AreUnits};
ghost use Rattle.smb_body.specs.Dialects.{dialects_of};

use super::types::DialectRevision;
use smb_wire::Units;

/// Dialects over borrowed bytes, two bytes each ([MS-SMB2] 2.2.3).
#[derive(Clone, Copy)]
pub struct Dialects<'a> {
    numbers: Units<'a>,
}

impl<'a> Dialects<'a> {
    /// The dialects that the bytes spell, or None where these are no whole dialects.
    pub fn of(bytes: &'a [u8]) -> Option<Dialects<'a>>
        ensures some { is_some result ≡ nat_eq (length bytes.now % 2) 0 }
        ensures dialects { IfSome result (λ dialects. dialects_of dialects ≡ units_in bytes.now) }
    {
        let numbers = Units::of(bytes)?;
        Some(Dialects { numbers })
    }

    /// How many dialects there are.
    pub fn len(self) -> usize
        ensures { result ≡ length (dialects_of self.entry) }
    {
        self.numbers.len()
    }

    /// The dialect at `i`, or None past the end.
    pub fn get(self, i: usize) -> Option<DialectRevision>
        ensures { option_map (λ dialect. dialect.0) result ≡ slice_get (dialects_of self.entry) i }
    {
        if i < self.numbers.len() {
            Some(DialectRevision(self.numbers.unit(i)))
        } else {
            None
        }
    }

    /// The bytes that spell the dialects.
    pub fn bytes(self) -> &'a [u8]
        ensures bytes { result.now ≡ unit_bytes (dialects_of self.entry) }
        ensures numbers { AreUnits (dialects_of self.entry) }
    {
        self.numbers.bytes()
    }
}
