//! CLOSE ([MS-SMB2] 2.2.15, 2.2.16).

ghost use Rattle.std.specs.Prelude.{◌≡◌, ◌++◌, length, take, is_some, IfSome, OnOk};
ghost use Rattle.smb_wire.specs.Fields.{AllFit, joined};
ghost use Rattle.smb_body.specs.Close.{close_fields, FitsClose, close_response_fields};
ghost use Rattle.smb_body.specs.Readings.{is_close, close_of};

use super::buffer::{body, file_id_in};
use super::numbers::{Number, put_numbers};
use smb_wire::{
    FileAttributes, FileId, WireFault, in_eight, in_two, put_bytes, put_u32, u16_in, u32_in,
};

/// Flags of CLOSE ([MS-SMB2] 2.2.15, 2.2.16).
#[derive(Clone, Copy)]
pub struct CloseFlags(pub u16);

impl CloseFlags {
    /// The response shows times, sizes and attributes.
    pub const POSTQUERY_ATTRIB: CloseFlags = CloseFlags(1);
}

/// A CLOSE request ([MS-SMB2] 2.2.15).
#[derive(Clone, Copy)]
pub struct CloseRequest {
    pub flags: CloseFlags,
    pub reserved: u32,
    pub file_id: FileId,
}

/// What a CLOSE request says, or None where it says nothing.
pub(crate) fn read_close(request: &[u8]) -> Option<CloseRequest>
    ensures some { is_some result ≡ is_close request.now }
    ensures value { IfSome result (λ r. r ≡ close_of request.now) }
{
    let body = body(request);
    if body.len() < 24 || u16_in(body, 0) != 24 {
        return None;
    }
    Some(CloseRequest {
        flags: CloseFlags(u16_in(body, 2)),
        reserved: u32_in(body, 4),
        file_id: file_id_in(body, 8),
    })
}

/// Adds the body. After an error some of it stands there.
pub(crate) fn put_close(request: CloseRequest, out: &mut Vec<u8>) -> Result<(), WireFault>
    ensures ok { OnOk result (out.new.items ≡ out.old.items ++ joined (close_fields request)) }
    ensures fits { OnOk result (FitsClose request) }
    ensures kept { take (length out.old.items) out.new.items ≡ out.old.items }
{
    put_numbers(
        &[
            Number::U16(24),
            Number::U16(request.flags.0),
            Number::U32(request.reserved),
            Number::U64(request.file_id.persistent),
            Number::U64(request.file_id.volatile),
        ],
        out,
    )
}

/// A CLOSE response ([MS-SMB2] 2.2.16).
/// Times are in 100 ns since 1601, sizes in bytes.
#[derive(Clone, Copy)]
pub struct CloseResponse {
    pub flags: CloseFlags,
    pub creation_time: u64,
    pub last_access_time: u64,
    pub last_write_time: u64,
    pub change_time: u64,
    pub allocation_size: u64,
    pub end_of_file: u64,
    pub file_attributes: FileAttributes,
}

/// Adds the body of a response. After an error some of it stands there.
pub(crate) fn put_close_response(
    response: CloseResponse,
    out: &mut Vec<u8>,
) -> Result<(), WireFault>
    ensures ok { OnOk result (out.new.items ≡
        out.old.items ++ joined (close_response_fields response)) }
    ensures fits { OnOk result (AllFit (close_response_fields response)) }
    ensures kept { take (length out.old.items) out.new.items ≡ out.old.items }
{
    put_bytes(out, [in_two(60), in_two(response.flags.0)].as_flattened())?;
    put_u32(out, 0)?;
    let times_and_sizes = [
        in_eight(response.creation_time),
        in_eight(response.last_access_time),
        in_eight(response.last_write_time),
        in_eight(response.change_time),
        in_eight(response.allocation_size),
        in_eight(response.end_of_file),
    ];
    put_bytes(out, times_and_sizes.as_flattened())?;
    put_u32(out, response.file_attributes.0)?;
    Ok(())
}
