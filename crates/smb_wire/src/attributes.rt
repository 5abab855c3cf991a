//! Attributes of files and folders ([MS-FSCC] 2.6).

ghost use Rattle.std.specs.Prelude.{⊤, ◌∷◌, [], codes};

use bitflags::{Flag, Flags, bitflag_items};

/// Attributes of a file or a folder ([MS-FSCC] 2.6). Bits without a name are kept.
#[derive(Clone, Copy, Debug, PartialEq, Eq)]
pub struct FileAttributes(pub u32);

bitflag_items! {
    impl FileAttributes: u32 {
        const READONLY = 0x1;
        const HIDDEN = 0x2;
        const SYSTEM = 0x4;
        const DIRECTORY = 0x10;
        const ARCHIVE = 0x20;
        const NORMAL = 0x80;
    }
}

impl Flags for FileAttributes {
    type Bits = u32;

    ghost exact = { ⊤ };

    ghost table = { (codes "READONLY", 0x1) ∷ (codes "HIDDEN", 0x2) ∷ (codes "SYSTEM", 0x4)
        ∷ (codes "DIRECTORY", 0x10) ∷ (codes "ARCHIVE", 0x20) ∷ (codes "NORMAL", 0x80) ∷ [] };

    ghost set_of = { λ attributes. attributes.0 };

    fn flags<'a>() -> &'a [Flag<FileAttributes>] {
        FileAttributes::FLAGS
    }

    fn bits(&self) -> u32 {
        self.0
    }

    fn from_bits_retain(bits: u32) -> FileAttributes {
        FileAttributes(bits)
    }
}
