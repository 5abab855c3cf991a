//! Why a call of this crate refuses.

ghost use Rattle.std.specs.Prelude.{◌≡◌};
ghost use Rattle.smb_info.specs.declared.fault.InfoFault.TheVariants.{NoMemory};

use smb_access::Scan;
use smb_wire::WireFault;
use thiserror::Error;

/// A refusal, in the order in which it is looked at.
#[derive(Clone, Copy, Debug, Error)]
pub enum InfoFault {
    /// No class that can be told or set has the number.
    #[error("bad class")]
    BadClass,
    /// A pattern of over 255 units.
    #[error("bad pattern")]
    BadPattern,
    /// There is no room for the fixed part of the class, or the bytes end within it. Of a directory also: there is none
    /// for the first entry with its name.
    #[error("too small")]
    TooSmall,
    /// No name of a directory is matched in the scan that was started with this query; this scan then stands.
    #[error("no match")]
    NoMatch(Scan),
    /// No further name of a directory is matched.
    #[error("no more")]
    NoMore,
    /// A rename whose name is empty, has an odd number of bytes or passes the end, or that counts from another
    /// folder than the share's root.
    #[error("unreadable")]
    Unreadable,
    /// An allocation was refused.
    #[error("no memory")]
    NoMemory,
}

impl From<WireFault> for InfoFault {
    ghost from_gives = { λ _ fault. fault ≡ NoMemory };

    fn from(_fault: WireFault) -> InfoFault {
        InfoFault::NoMemory
    }
}
