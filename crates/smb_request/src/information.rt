//! The refusals of information classes.

ghost use Rattle.std.specs.Prelude.{◌≡◌};
ghost use Rattle.smb_request.specs.Parts.{written_status};
ghost use Rattle.smb_request.specs.Refusals.{query_info_refused, set_info_refusal};

use smb_info::{InfoFault, Truncation};
use smb_refusals::{QueryInfoRefusal, RefusedBy, SetInfoRefusal};
use smb_wire::NtStatus;

/// The status of a response with information: where it was cut, one that is no failure ([MS-SMB2] 3.3.4.4).
pub(crate) fn written_status(written: Truncation) -> NtStatus
    ensures { result ≡ written_status written }
{
    match written {
        Truncation::Whole => NtStatus::Success,
        Truncation::Cut => NtStatus::BufferOverflow,
    }
}

/// Why a QUERY_INFO is not answered: its class is unknown, there is no room for its fixed part, or an allocation was
/// refused.
pub(crate) fn query_info_refused(fault: InfoFault) -> RefusedBy<QueryInfoRefusal>
    ensures { result ≡ query_info_refused fault }
{
    match fault {
        InfoFault::NoMemory => RefusedBy::NoMemory,
        InfoFault::TooSmall => RefusedBy::Row(QueryInfoRefusal::NoRoomForFields),
        _ => RefusedBy::Row(QueryInfoRefusal::UnknownClass),
    }
}

/// Why the buffer of a SET_INFO is refused: its class is unknown, it is shorter than the fixed part, or it is a rename
/// that says no name.
pub(crate) fn set_info_refusal(fault: InfoFault) -> SetInfoRefusal
    ensures { result ≡ set_info_refusal fault }
{
    match fault {
        InfoFault::TooSmall => SetInfoRefusal::BufferTooShort,
        InfoFault::Unreadable => SetInfoRefusal::RenameSaysNoName,
        _ => SetInfoRefusal::UnknownClass,
    }
}
