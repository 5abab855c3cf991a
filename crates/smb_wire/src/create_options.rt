//! Options of a CREATE ([MS-SMB2] 2.2.13).

ghost use Rattle.std.specs.Prelude.{⊤, ◌∷◌, [], codes};

use bitflags::{Flag, Flags, bitflag_items};

/// Options of a CREATE ([MS-SMB2] 2.2.13). The profile ignores those without a name here.
#[derive(Clone, Copy, Debug, PartialEq, Eq)]
pub struct CreateOptions(pub u32);

bitflag_items! {
    impl CreateOptions: u32 {
        const DIRECTORY_FILE = 0x1;
        const NON_DIRECTORY_FILE = 0x40;
        const DELETE_ON_CLOSE = 0x1000;
        const OPEN_BY_FILE_ID = 0x2000;
    }
}

impl Flags for CreateOptions {
    type Bits = u32;

    ghost exact = { ⊤ };

    ghost table = { (codes "DIRECTORY_FILE", 0x1) ∷ (codes "NON_DIRECTORY_FILE", 0x40)
        ∷ (codes "DELETE_ON_CLOSE", 0x1000) ∷ (codes "OPEN_BY_FILE_ID", 0x2000) ∷ [] };

    ghost set_of = { λ options. options.0 };

    fn flags<'a>() -> &'a [Flag<CreateOptions>] {
        CreateOptions::FLAGS
    }

    fn bits(&self) -> u32 {
        self.0
    }

    fn from_bits_retain(bits: u32) -> CreateOptions {
        CreateOptions(bits)
    }
}
