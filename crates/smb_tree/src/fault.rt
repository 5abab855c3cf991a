//! Why a call of a tree refuses.

ghost use Rattle.std.specs.Prelude.{◌≡◌};
ghost use Rattle.smb_tree.specs.declared.fault.TreeFault.TheVariants.{NoMemory};

use smb_wire::WireFault;
use std::alloc::AllocError;
use thiserror::Error;

/// A refusal, in the order in which it is looked at; the tree is as it was.
#[derive(Clone, Copy, Debug, PartialEq, Eq, Error)]
pub enum TreeFault {
    /// No entry has the number; where the call is about a file's bytes, also where it is a folder.
    #[error("absent")]
    Absent,
    /// The folder in which the entry would stand is absent, or a file; where an entry is moved, also where that
    /// folder is the entry or lies beneath it.
    #[error("parent absent")]
    ParentAbsent,
    /// An entry stands at the path; where an entry is moved, another folder.
    #[error("exists")]
    Exists,
    /// The folder has children.
    #[error("not empty")]
    NotEmpty,
    /// An entry is moved, and its path, or that of an entry beneath it, would have more than 32 components.
    #[error("too deep")]
    TooDeep,
    /// There are as many entries besides the root as the limits allow, the numbers are spent, the file would be
    /// longer than they allow, or the used space would pass the capacity.
    #[error("full")]
    Full,
    /// An allocation was refused.
    #[error("no memory")]
    NoMemory,
}

impl From<AllocError> for TreeFault {
    ghost from_gives = { λ _ fault. fault ≡ NoMemory };

    fn from(_error: AllocError) -> TreeFault {
        TreeFault::NoMemory
    }
}

impl From<WireFault> for TreeFault {
    ghost from_gives = { λ _ fault. fault ≡ NoMemory };

    fn from(_fault: WireFault) -> TreeFault {
        TreeFault::NoMemory
    }
}
