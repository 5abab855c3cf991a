//! Text over borrowed bytes.

ghost use Rattle.smb_wire.specs.Pairs.{AllPairs};

use byteorder::{ByteOrder, LittleEndian};

/// Text in UTF-16 units over borrowed bytes, two bytes a unit ([MS-SMB2] 2.2). Any units are text, lone
/// surrogates too.
#[derive(Clone, Copy, Debug)]
pub struct Units<'a> {
    pairs: &'a [[u8; 2]],
    ghost lawful: { AllPairs pairs.now },
}

impl<'a> Units<'a> {
    ghost use Rattle.std.specs.Prelude.{◌≡◌, ◌<◌, ◌≤◌, ◌%◌, nat_eq, length, is_some, slice_index, slice_range, IfSome};
    ghost use Rattle.smb_wire.specs.Pairs.{units_in, unit_bytes, AreUnits};
    ghost use Rattle.smb_wire.specs.Units.{units_of};

    /// The text that the bytes spell, or None where their number is odd.
    pub fn of(bytes: &'a [u8]) -> Option<Units<'a>>
        ensures some { is_some result ≡ nat_eq (length bytes.now % 2) 0 }
        ensures units { IfSome result (λ text. units_of text ≡ units_in bytes.now) }
    {
        let (pairs, rest) = bytes.as_chunks::<2>();
        if rest.is_empty() {
            Some(Units { pairs })
        } else {
            None
        }
    }

    /// How many units there are.
    pub fn len(self) -> usize
        ensures { result ≡ length (units_of self.entry) }
    {
        self.pairs.len()
    }

    /// The unit at `i`, which is below [`len`](Units::len).
    pub fn unit(self, i: usize) -> u16
        requires { i < length (units_of self) }
        ensures { result ≡ slice_index (units_of self.entry) i }
    {
        LittleEndian::read_u16(&self.pairs[i])
    }

    /// The units from `from` to before `to`, which are in order and at most [`len`](Units::len).
    pub fn range(self, from: usize, to: usize) -> Units<'a>
        requires order { from ≤ to }
        requires within { to ≤ length (units_of self) }
        ensures { units_of result ≡ slice_range (units_of self.entry) from to }
    {
        let pairs = &self.pairs[from..to];
        Units { pairs }
    }

    /// The bytes that spell the text.
    pub fn bytes(self) -> &'a [u8]
        ensures bytes { result.now ≡ unit_bytes (units_of self.entry) }
        ensures units { AreUnits (units_of self.entry) }
    {
        self.pairs.as_flattened()
    }
}

ghost use Rattle.smb_wire.specs.Pairs.{UnitsAreRead, BytesAreKept};

/// The laws of units and their bytes: the contract is the statement, and the body does nothing.
pub fn laws_of_units()
    ensures read { UnitsAreRead }
    ensures kept { BytesAreKept }
{}
