//! Requests that have nothing but a reserved field: LOGOFF, TREE_DISCONNECT, CANCEL and ECHO
//! ([MS-SMB2] 2.2.7, 2.2.11, 2.2.30, 2.2.28).

ghost use Rattle.std.specs.Prelude.{◌≡◌, ◌++◌, length, take, is_some, IfSome, OnOk};
ghost use Rattle.smb_wire.specs.Fields.{joined};
ghost use Rattle.smb_body.specs.Reserved.{reserved_fields, FitsReserved};
ghost use Rattle.smb_body.specs.Readings.{is_reserved, reserved_of};
ghost use Rattle.smb_body.specs.Replies.{answers_logoff, reply_fields};

use super::buffer::body;
use super::numbers::{Number, put_numbers};
use smb_wire::{WireFault, put_bytes, u16_in};

/// A LOGOFF, TREE_DISCONNECT, CANCEL or ECHO request ([MS-SMB2] 2.2.7, 2.2.11, 2.2.30, 2.2.28).
#[derive(Clone, Copy)]
pub struct ReservedRequest {
    pub reserved: u16,
}

/// What such a request says, or None where it says nothing.
pub(crate) fn read_reserved(request: &[u8]) -> Option<ReservedRequest>
    ensures some { is_some result ≡ is_reserved request.now }
    ensures value { IfSome result (λ r. r ≡ reserved_of request.now) }
{
    let body = body(request);
    if body.len() < 4 || u16_in(body, 0) != 4 {
        return None;
    }
    Some(ReservedRequest {
        reserved: u16_in(body, 2),
    })
}

/// Adds the body. After an error some of it stands there.
pub(crate) fn put_reserved(request: ReservedRequest, out: &mut Vec<u8>) -> Result<(), WireFault>
    ensures ok { OnOk result (out.new.items ≡ out.old.items ++ joined (reserved_fields request)) }
    ensures fits { OnOk result (FitsReserved request) }
    ensures kept { take (length out.old.items) out.new.items ≡ out.old.items }
{
    put_numbers(&[Number::U16(4), Number::U16(request.reserved)], out)
}

/// Adds the body of the response of LOGOFF, TREE_DISCONNECT, FLUSH, LOCK or ECHO. After an error some of
/// it stands there.
#[tactic(auto, unfolding(smb_wire::specs::Number::spelling))]
pub(crate) fn put_reserved_response(out: &mut Vec<u8>) -> Result<(), WireFault>
    ensures ok { OnOk result (out.new.items ≡ out.old.items ++ joined (reply_fields answers_logoff)) }
    ensures kept { take (length out.old.items) out.new.items ≡ out.old.items }
{
    put_bytes(out, &[4, 0, 0, 0])
}
