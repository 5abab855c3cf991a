//! Flags of an element of a LOCK ([MS-SMB2] 2.2.26.1).

ghost use Rattle.std.specs.Prelude.{⊤, ◌∷◌, [], codes};

use bitflags::{Flag, Flags, bitflag_items};

/// Flags of an element of a LOCK ([MS-SMB2] 2.2.26.1). Bits without a name are kept.
#[derive(Clone, Copy, Debug, PartialEq, Eq)]
pub struct LockFlags(pub u32);

bitflag_items! {
    impl LockFlags: u32 {
        const SHARED_LOCK = 0x1;
        const EXCLUSIVE_LOCK = 0x2;
        const UNLOCK = 0x4;
        const FAIL_IMMEDIATELY = 0x10;
    }
}

impl Flags for LockFlags {
    type Bits = u32;

    ghost exact = { ⊤ };

    ghost table = { (codes "SHARED_LOCK", 0x1) ∷ (codes "EXCLUSIVE_LOCK", 0x2)
        ∷ (codes "UNLOCK", 0x4) ∷ (codes "FAIL_IMMEDIATELY", 0x10) ∷ [] };

    ghost set_of = { λ flags. flags.0 };

    fn flags<'a>() -> &'a [Flag<LockFlags>] {
        LockFlags::FLAGS
    }

    fn bits(&self) -> u32 {
        self.0
    }

    fn from_bits_retain(bits: u32) -> LockFlags {
        LockFlags(bits)
    }
}
