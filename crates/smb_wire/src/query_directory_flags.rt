//! Flags of a QUERY_DIRECTORY ([MS-SMB2] 2.2.33).

ghost use Rattle.std.specs.Prelude.{⊤, ◌∷◌, [], codes};

use bitflags::{Flag, Flags, bitflag_items};

/// Flags of a QUERY_DIRECTORY ([MS-SMB2] 2.2.33): the scan starts anew (RESTART_SCANS, REOPEN), and one entry at most is
/// returned (RETURN_SINGLE_ENTRY). Bits without a name are kept.
#[derive(Clone, Copy, Debug, PartialEq, Eq)]
pub struct QueryDirectoryFlags(pub u8);

bitflag_items! {
    impl QueryDirectoryFlags: u8 {
        const RESTART_SCANS = 0x1;
        const RETURN_SINGLE_ENTRY = 0x2;
        const REOPEN = 0x10;
    }
}

impl Flags for QueryDirectoryFlags {
    type Bits = u8;

    ghost exact = { ⊤ };

    ghost table = { (codes "RESTART_SCANS", 0x1) ∷ (codes "RETURN_SINGLE_ENTRY", 0x2) ∷ (codes "REOPEN", 0x10) ∷ [] };

    ghost set_of = { λ flags. flags.0 };

    fn flags<'a>() -> &'a [Flag<QueryDirectoryFlags>] {
        QueryDirectoryFlags::FLAGS
    }

    fn bits(&self) -> u8 {
        self.0
    }

    fn from_bits_retain(bits: u8) -> QueryDirectoryFlags {
        QueryDirectoryFlags(bits)
    }
}
