//! Whether two opens of one entry may exist together ([MS-SMB2] 2.2.13).

ghost use Rattle.std.specs.Prelude.{◌≡◌};
ghost use Rattle.smb_wire.specs.Dispositions.{disposition_code};
ghost use Rattle.smb_access.specs.Asked.{asked};
ghost use Rattle.smb_access.specs.Sharing.{use_asked, is_shared_access};
ghost use Rattle.smb_access.specs.Parts.{has_conflict, share_asked};
ghost use Rattle.smb_access.specs.Uses.{is_kept_out_by_some, keeps_out_some};
ghost use Rattle.smb_access.specs.Looked.{target_conflicts};

use super::access::{granted, is_deleting, is_reading, is_writing};
use super::ask::CreateAsk;
use super::checks::is_read_only_target;
use super::found::Target;
use super::opens::Opens;
use super::use_kind::SharingUse;
use bitflags::Flags;
use smb_tree::EntryNo;
use smb_wire::{Access, CreateDisposition, ShareAccess};

/// The bits of sharing that have a name.
const SHARING: u32 = 0x7;

/// What the open is to share that a request asks for.
pub fn share_asked(ask: &CreateAsk<'_>) -> ShareAccess
    ensures { result ≡ share_asked (asked ask.now) }
{
    ShareAccess(ask.share.0 & SHARING)
}

/// Whether an access is one that sharing speaks of: one that reads, writes or deletes.
pub fn is_shared_access(access: Access) -> bool
    ensures { result ≡ is_shared_access access }
{
    is_reading(access) || is_writing(access) || is_deleting(access)
}

// Whether an open of an entry does not share something that an access has.
#[tactic(auto, using(crate::proofs::Uses::kept_out_is))]
fn is_kept_out<O: Opens>(opens: &O, entry: EntryNo, access: Access) -> bool
    ensures { result ≡ is_kept_out_by_some (O.content opens.now) entry access }
{
    (is_reading(access) && opens.has_use(entry, SharingUse::SharesNoRead))
        || (is_writing(access) && opens.has_use(entry, SharingUse::SharesNoWrite))
        || (is_deleting(access) && opens.has_use(entry, SharingUse::SharesNoDelete))
}

// Whether an open of an entry has an access that is not shared.
#[tactic(auto, using(crate::proofs::Uses::keeps_out_is))]
fn keeps_out<O: Opens>(opens: &O, entry: EntryNo, share: ShareAccess) -> bool
    ensures { result ≡ keeps_out_some (O.content opens.now) entry share }
{
    (!share.intersects(ShareAccess::READ) && opens.has_use(entry, SharingUse::Reads))
        || (!share.intersects(ShareAccess::WRITE) && opens.has_use(entry, SharingUse::Writes))
        || (!share.intersects(ShareAccess::DELETE) && opens.has_use(entry, SharingUse::Deletes))
}

// Whether an access and what it shares conflict with an open of an entry.
#[tactic(auto, using(crate::proofs::Uses::conflict_is))]
fn has_conflict<O: Opens>(opens: &O, entry: EntryNo, access: Access, share: ShareAccess) -> bool
    ensures { result ≡ has_conflict (O.content opens.now) entry (access, share) }
{
    is_shared_access(access)
        && (is_kept_out(opens, entry, access) || keeps_out(opens, entry, share))
}

// What a request does to an entry that is granted this access: one that overwrites writes.
fn access_used(ask: &CreateAsk<'_>, disposition: CreateDisposition, access: Access) -> Access
    requires { disposition_code disposition ≡ ask.now.disposition.0 }
    ensures { result ≡ (use_asked (asked ask.now) access).0 }
{
    if disposition.overwrites() {
        Access(access.0 | Access::WRITE_DATA.0)
    } else {
        access
    }
}

/// Whether a request conflicts with an open of the entry that it found.
pub fn conflicts<O: Opens>(
    opens: &O,
    ask: &CreateAsk<'_>,
    disposition: CreateDisposition,
    target: &Option<Target>,
) -> bool
    requires { disposition_code disposition ≡ ask.now.disposition.0 }
    ensures { result ≡ target_conflicts (O.content opens.now) (asked ask.now) target.now }
{
    let Some(found) = target else {
        return false;
    };
    let access = granted(ask.access, ask.read_only, is_read_only_target(target));
    has_conflict(
        opens,
        found.number,
        access_used(ask, disposition, access),
        share_asked(ask),
    )
}
