//! An entry that may be listed.

ghost use Rattle.std.specs.Prelude.{◌≡◌, ◌≤◌, length};
ghost use Rattle.smb_wire.specs.Greatest.{greatest_file_bytes};
ghost use Rattle.smb_wire.specs.Units.{units_of};
ghost use Rattle.smb_info.specs.Places.{behind_of};

use smb_access::ScanLast;
use smb_tree::EntryView;
use smb_wire::{FoldedName, Units};

/// As what an entry is listed.
#[derive(Clone, Copy)]
pub enum Listed {
    /// As `.`, the directory itself.
    Dot,
    /// As `..`, the directory around it.
    DotDot,
    /// Under its own name.
    Child,
}

/// An entry that may be listed.
#[derive(Clone, Copy)]
pub struct CandidateView<'a> {
    pub listed: Listed,
    /// The name under which it is listed.
    pub name: Units<'a>,
    pub entry: EntryView<'a>,
    pub ghost few: { entry.size ≤ greatest_file_bytes },
    pub ghost short: { length (units_of name) ≤ 255 },
}

impl CandidateView<'_> {
    /// How far a scan is that has given it.
    pub fn behind(&self) -> ScanLast
        ensures { result ≡ behind_of self.now.listed (units_of self.now.name) }
    {
        match self.listed {
            Listed::Dot => ScanLast::Dot,
            Listed::DotDot => ScanLast::DotDot,
            Listed::Child => ScanLast::Name(FoldedName::of(self.name).unwrap()),
        }
    }
}
