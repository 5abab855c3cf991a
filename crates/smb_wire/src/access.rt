//! Access to files and folders, and what an open shares ([MS-SMB2] 2.2.13, 2.2.13.1).

ghost use Rattle.std.specs.Prelude.{⊤, ◌∷◌, [], codes};

use bitflags::{Flag, Flags, bitflag_items};

/// Access to a file or a folder ([MS-SMB2] 2.2.13.1). The same bits are used on both.
#[derive(Clone, Copy, Debug, PartialEq, Eq)]
pub struct Access(pub u32);

bitflag_items! {
    impl Access: u32 {
        const READ_DATA = 0x1;
        const WRITE_DATA = 0x2;
        const APPEND_DATA = 0x4;
        const READ_EA = 0x8;
        const WRITE_EA = 0x10;
        const EXECUTE = 0x20;
        const DELETE_CHILD = 0x40;
        const READ_ATTRIBUTES = 0x80;
        const WRITE_ATTRIBUTES = 0x100;
        const DELETE = 0x1_0000;
        const READ_CONTROL = 0x2_0000;
        const WRITE_DAC = 0x4_0000;
        const WRITE_OWNER = 0x8_0000;
        const SYNCHRONIZE = 0x10_0000;
        const MAXIMUM_ALLOWED = 0x200_0000;
        const GENERIC_ALL = 0x1000_0000;
        const GENERIC_EXECUTE = 0x2000_0000;
        const GENERIC_WRITE = 0x4000_0000;
        const GENERIC_READ = 0x8000_0000;
    }
}

impl Flags for Access {
    type Bits = u32;

    ghost exact = { ⊤ };

    ghost table = { (codes "READ_DATA", 0x1) ∷ (codes "WRITE_DATA", 0x2) ∷ (codes "APPEND_DATA", 0x4)
        ∷ (codes "READ_EA", 0x8) ∷ (codes "WRITE_EA", 0x10) ∷ (codes "EXECUTE", 0x20)
        ∷ (codes "DELETE_CHILD", 0x40) ∷ (codes "READ_ATTRIBUTES", 0x80) ∷ (codes "WRITE_ATTRIBUTES", 0x100)
        ∷ (codes "DELETE", 0x10000) ∷ (codes "READ_CONTROL", 0x20000) ∷ (codes "WRITE_DAC", 0x40000)
        ∷ (codes "WRITE_OWNER", 0x80000) ∷ (codes "SYNCHRONIZE", 0x100000)
        ∷ (codes "MAXIMUM_ALLOWED", 0x2000000) ∷ (codes "GENERIC_ALL", 0x10000000)
        ∷ (codes "GENERIC_EXECUTE", 0x20000000) ∷ (codes "GENERIC_WRITE", 0x40000000)
        ∷ (codes "GENERIC_READ", 0x80000000) ∷ [] };

    ghost set_of = { λ access. access.0 };

    fn flags<'a>() -> &'a [Flag<Access>] {
        Access::FLAGS
    }

    fn bits(&self) -> u32 {
        self.0
    }

    fn from_bits_retain(bits: u32) -> Access {
        Access(bits)
    }
}

impl Access {
    /// Every right there is, which GENERIC_ALL asks for.
    pub const FILE_ALL_ACCESS: Access = Access(0x1F_01FF);

    /// What GENERIC_READ asks for.
    pub const FILE_GENERIC_READ: Access = Access(0x12_0089);

    /// What GENERIC_WRITE asks for.
    pub const FILE_GENERIC_WRITE: Access = Access(0x12_0116);

    /// What GENERIC_EXECUTE asks for.
    pub const FILE_GENERIC_EXECUTE: Access = Access(0x12_00A0);
}

/// What an open lets others do ([MS-SMB2] 2.2.13).
#[derive(Clone, Copy, Debug, PartialEq, Eq)]
pub struct ShareAccess(pub u32);

bitflag_items! {
    impl ShareAccess: u32 {
        const READ = 0x1;
        const WRITE = 0x2;
        const DELETE = 0x4;
    }
}

impl Flags for ShareAccess {
    type Bits = u32;

    ghost exact = { ⊤ };

    ghost table = { (codes "READ", 0x1) ∷ (codes "WRITE", 0x2) ∷ (codes "DELETE", 0x4) ∷ [] };

    ghost set_of = { λ share_access. share_access.0 };

    fn flags<'a>() -> &'a [Flag<ShareAccess>] {
        ShareAccess::FLAGS
    }

    fn bits(&self) -> u32 {
        self.0
    }

    fn from_bits_retain(bits: u32) -> ShareAccess {
        ShareAccess(bits)
    }
}
