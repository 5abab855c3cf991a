//! What of an open may stand in another's way.

ghost use Rattle.std.specs.Prelude.{◌≡◌, ◌&&◌, not};
ghost use Rattle.smb_wire.specs.Access.{has_any};
ghost use Rattle.smb_access.specs.Sharing.{is_shared_access, uses};

use super::access::{is_deleting, is_reading, is_writing};
use super::open_row::OpenRow;
use super::sharing::is_shared_access;
use bitflags::Flags;
use smb_wire::ShareAccess;

/// What of an open may stand in the way of another one of its entry ([MS-FSA] 2.1.5.1.2). An open whose access neither reads,
/// writes nor deletes has none of it, whatever it shares.
#[derive(Clone, Copy, Debug, PartialEq, Eq)]
pub enum SharingUse {
    /// It reads.
    Reads,
    /// It writes.
    Writes,
    /// It deletes.
    Deletes,
    /// It doesn't share reading.
    SharesNoRead,
    /// It doesn't share writing.
    SharesNoWrite,
    /// It doesn't share deleting.
    SharesNoDelete,
}

impl SharingUse {
    /// Whether an open uses its entry so.
    pub fn is_of(self, row: &OpenRow) -> bool
        ensures { result ≡ uses self row.now }
    {
        match self {
            SharingUse::Reads => is_reading(row.access),
            SharingUse::Writes => is_writing(row.access),
            SharingUse::Deletes => is_deleting(row.access),
            SharingUse::SharesNoRead => is_shared_without(row, ShareAccess::READ),
            SharingUse::SharesNoWrite => is_shared_without(row, ShareAccess::WRITE),
            SharingUse::SharesNoDelete => is_shared_without(row, ShareAccess::DELETE),
        }
    }
}

// Whether sharing speaks of an open's access, and the open doesn't share this.
fn is_shared_without(row: &OpenRow, share: ShareAccess) -> bool
    ensures { result ≡ (is_shared_access row.now.access && not (has_any row.now.share.0 share.0)) }
{
    is_shared_access(row.access) && !row.share.intersects(share)
}
