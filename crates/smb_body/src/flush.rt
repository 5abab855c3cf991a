//! FLUSH ([MS-SMB2] 2.2.17).

ghost use Rattle.std.specs.Prelude.{◌≡◌, ◌++◌, length, take, is_some, IfSome, OnOk};
ghost use Rattle.smb_wire.specs.Fields.{joined};
ghost use Rattle.smb_body.specs.Flush.{flush_fields, FitsFlush};
ghost use Rattle.smb_body.specs.Readings.{is_flush, flush_of};

use super::buffer::{body, file_id_in};
use super::numbers::{Number, put_numbers};
use smb_wire::{FileId, WireFault, u16_in, u32_in};

/// A FLUSH request ([MS-SMB2] 2.2.17).
#[derive(Clone, Copy)]
pub struct FlushRequest {
    pub reserved1: u16,
    pub reserved2: u32,
    pub file_id: FileId,
}

/// What a FLUSH request says, or None where it says nothing.
pub(crate) fn read_flush(request: &[u8]) -> Option<FlushRequest>
    ensures some { is_some result ≡ is_flush request.now }
    ensures value { IfSome result (λ r. r ≡ flush_of request.now) }
{
    let body = body(request);
    if body.len() < 24 || u16_in(body, 0) != 24 {
        return None;
    }
    Some(FlushRequest {
        reserved1: u16_in(body, 2),
        reserved2: u32_in(body, 4),
        file_id: file_id_in(body, 8),
    })
}

/// Adds the body. After an error some of it stands there.
pub(crate) fn put_flush(request: FlushRequest, out: &mut Vec<u8>) -> Result<(), WireFault>
    ensures ok { OnOk result (out.new.items ≡ out.old.items ++ joined (flush_fields request)) }
    ensures fits { OnOk result (FitsFlush request) }
    ensures kept { take (length out.old.items) out.new.items ≡ out.old.items }
{
    put_numbers(
        &[
            Number::U16(24),
            Number::U16(request.reserved1),
            Number::U32(request.reserved2),
            Number::U64(request.file_id.persistent),
            Number::U64(request.file_id.volatile),
        ],
        out,
    )
}
