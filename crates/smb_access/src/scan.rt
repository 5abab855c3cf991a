//! Scans of a directory ([MS-FSA] 2.1.5.6.3).

ghost use Rattle.std.specs.Prelude.{◌≡◌};

use smb_wire::FoldedName;
use std::fmt;

/// How far a scan of a directory has come: which entry was the last that it gave.
#[derive(Clone, Copy)]
pub enum ScanLast {
    /// None yet.
    Start,
    /// `.`, the directory itself.
    Dot,
    /// `..`, the directory around it.
    DotDot,
    /// The entry of this name, whether it is still there or not.
    Name(FoldedName),
}

/// The scan of a directory through an open.
#[derive(Clone, Copy)]
pub struct Scan {
    /// The pattern of the names that are wanted, or None where no query was made yet.
    pub pattern: Option<FoldedName>,
    /// Behind which entry the next query goes on.
    pub last: ScanLast,
}

impl Scan {
    /// That of an open through which no query was made yet.
    pub fn none() -> Scan
        ensures { result ≡ record { pattern = None; last = ScanLast.Start } }
    {
        Scan {
            pattern: None,
            last: ScanLast::Start,
        }
    }
}

impl fmt::Debug for Scan {
    fn fmt<W: fmt::Write>(&self, f: &mut fmt::Formatter<W>) -> fmt::Result {
        f.write_str("Scan")
    }
}
