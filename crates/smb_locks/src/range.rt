//! Ranges of bytes.

ghost use Rattle.std.specs.Prelude.{◌≡◌, ◌+◌, ◌&&◌, nat_le, nat_lt};
ghost use Rattle.smb_locks.specs.Ranges.{overlaps, is_past_the_end};

/// A range of a file's bytes: `length` of them, from the byte of the number `offset` on.
#[derive(Clone, Copy, Debug, PartialEq, Eq)]
pub struct ByteRange {
    pub offset: u64,
    pub length: u64,
}

impl ByteRange {
    // Whether a number is in the range. No end is computed: that of a range up to the last byte is 2^64.
    fn holds(self, number: u64) -> bool
        ensures { result ≡ (nat_le self.offset number && nat_lt number (self.offset + self.length)) }
    {
        number >= self.offset && number - self.offset < self.length
    }

    // Whether some number is in both ranges: then the greater of their offsets is.
    pub(crate) fn overlaps(self, other: ByteRange) -> bool
        ensures { result ≡ overlaps self other }
    {
        let greater = self.offset.max(other.offset);
        self.holds(greater) && other.holds(greater)
    }

    // Whether the range reaches past the byte of the number 2^64 - 1.
    pub(crate) fn is_past_the_end(self) -> bool
        ensures { result ≡ is_past_the_end self }
    {
        self.length > 0 && self.length - 1 > u64::MAX - self.offset
    }
}
