//! The volume of a share.

/// The volume that a share shows itself as ([MS-FSCC] 2.5).
#[derive(Clone, Copy, Debug)]
pub struct Volume<'a> {
    /// When it was created, in units of 100 ns since 1601.
    pub created: u64,
    /// Its label: up to 32 characters from 0x20 to 0x7E.
    pub label: &'a str,
    /// How many bytes of space there are, a multiple of 4,096.
    pub capacity: u64,
    /// How many of them are used.
    pub used: u64,
}
