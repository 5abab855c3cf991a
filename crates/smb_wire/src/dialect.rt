//! The dialects of the share ([MS-SMB2] 2.2.3).

ghost use Rattle.std.specs.Prelude.{◌≡◌};
ghost use Rattle.smb_wire.specs.Dialects.{revision_of};

/// A dialect that the share speaks.
#[derive(Clone, Copy, Debug, PartialEq, Eq)]
pub enum Dialect {
    /// SMB 2.0.2
    Smb202,
    /// SMB 2.1
    Smb210,
}

impl Dialect {
    /// The dialect's revision number.
    pub fn revision(self) -> u16
        ensures { result ≡ revision_of self }
    {
        match self {
            Dialect::Smb202 => 0x0202,
            Dialect::Smb210 => 0x0210,
        }
    }
}
