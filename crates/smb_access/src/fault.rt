//! Why a store refuses.

ghost use Rattle.std.specs.Prelude.{◌≡◌};
ghost use Rattle.smb_access.specs.Faults.{store_fault};
ghost use Rattle.smb_access.specs.Looked.{refusal_of};
ghost use Rattle.smb_access.specs.declared.fault.StoreFault.TheVariants.{NoMemory, Status};
ghost use Rattle.smb_wire.specs.NtStatus.{status_code};

use smb_refusals::{Refusal, RefusedBy};
use smb_tree::TreeFault;
use smb_wire::NtStatus;
use std::alloc::AllocError;
use thiserror::Error;

/// A refusal of a store, which is as it was.
#[derive(Clone, Copy, Debug, PartialEq, Eq, Error)]
pub enum StoreFault {
    /// The request is answered by this NTSTATUS ([MS-ERREF] 2.3.1), which is not SUCCESS.
    #[error("status {0:#x}")]
    Status(u32),
    /// An allocation was refused.
    #[error("no memory")]
    NoMemory,
}

impl From<AllocError> for StoreFault {
    ghost from_gives = { λ _ fault. fault ≡ NoMemory };

    fn from(_error: AllocError) -> StoreFault {
        StoreFault::NoMemory
    }
}

impl From<NtStatus> for StoreFault {
    ghost from_gives = { λ status fault. fault ≡ Status (status_code status) };

    fn from(status: NtStatus) -> StoreFault {
        StoreFault::Status(status.code())
    }
}

impl From<RefusedBy<Refusal>> for StoreFault {
    ghost from_gives = { λ refused fault. fault ≡ store_fault refused };

    fn from(refused: RefusedBy<Refusal>) -> StoreFault {
        match refused {
            RefusedBy::Row(refusal) => StoreFault::from(refusal.status()),
            RefusedBy::NoMemory => StoreFault::NoMemory,
        }
    }
}

/// What a tree's refusal is to a store. A store asks a tree for nothing that is refused for other reasons than want of room
/// and of memory.
pub fn refusal_of(refusal: TreeFault) -> StoreFault
    ensures { result ≡ refusal_of refusal }
{
    match refusal {
        TreeFault::Full => StoreFault::from(NtStatus::DiskFull),
        TreeFault::Absent
        | TreeFault::Exists
        | TreeFault::ParentAbsent
        | TreeFault::NotEmpty
        | TreeFault::TooDeep
        | TreeFault::NoMemory => StoreFault::NoMemory,
    }
}
