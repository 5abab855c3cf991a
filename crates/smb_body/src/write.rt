//! WRITE ([MS-SMB2] 2.2.21, 2.2.22).

ghost use Rattle.std.specs.Prelude.{◌≡◌, ◌++◌, ◌≤◌, length, take, is_some, IfSome, OnOk, IfErr, false};
ghost use Rattle.smb_wire.specs.Fields.{AllFit, joined};
ghost use Rattle.smb_body.specs.Refusals.{body_refusal};
ghost use Rattle.smb_body.specs.Write.{write_asked, write_fields, write_laid, write_spelling, FitsWrite};
ghost use Rattle.smb_body.specs.Readings.{is_write_too_long, is_write, write_of};
ghost use Rattle.smb_body.specs.Replies.{answers_write, reply_fields};

use super::buffer::{body, buffer, file_id_in};
use super::fault::BodyFault;
use super::numbers::{Number, put_numbers};
use super::types::Channel;
use smb_wire::{FileId, WireFault, put_bytes, put_u32, u16_in, u32_in, u64_in};

/// Flags of a WRITE request ([MS-SMB2] 2.2.21). The profile ignores them.
#[derive(Clone, Copy)]
pub struct WriteFlags(pub u32);

/// A WRITE request ([MS-SMB2] 2.2.21).
#[derive(Clone, Copy)]
pub struct WriteRequest<'a> {
    pub data_offset: u16,
    pub buffer: &'a [u8],
    pub offset: u64,
    pub file_id: FileId,
    pub channel: Channel,
    pub remaining_bytes: u32,
    pub write_channel_info_offset: u16,
    pub write_channel_info_length: u16,
    pub flags: WriteFlags,
}

/// What a WRITE request says, or None where it says nothing.
pub(crate) fn read_write(request: &[u8]) -> Option<WriteRequest<'_>>
    ensures some { is_some result ≡ is_write request.now }
    ensures value { IfSome result (λ r. write_asked r ≡ write_of request.now) }
{
    let body = body(request);
    if body.len() < 48 || u16_in(body, 0) != 49 {
        return None;
    }
    let data_offset = u16_in(body, 2);
    let buffer = buffer(request, 112, data_offset as usize, u32_in(body, 4) as usize)?;
    Some(WriteRequest {
        data_offset,
        buffer,
        offset: u64_in(body, 8),
        file_id: file_id_in(body, 16),
        channel: Channel(u32_in(body, 32)),
        remaining_bytes: u32_in(body, 36),
        write_channel_info_offset: u16_in(body, 40),
        write_channel_info_length: u16_in(body, 42),
        flags: WriteFlags(u32_in(body, 44)),
    })
}

/// Adds the fixed part. After an error some of it stands there.
fn put_fixed(request: &WriteRequest<'_>, out: &mut Vec<u8>) -> Result<(), WireFault>
    requires { length (write_asked request.now).buffer ≤ 4294967295 }
    ensures ok { OnOk result (out.new.items ≡
        out.old.items ++ joined (write_fields (write_laid (write_asked request.now)))) }
    ensures kept { take (length out.old.items) out.new.items ≡ out.old.items }
{
    put_numbers(
        &[
            Number::U16(49),
            Number::U16(112),
            Number::U32(request.buffer.len() as u32),
            Number::U64(request.offset),
            Number::U64(request.file_id.persistent),
            Number::U64(request.file_id.volatile),
            Number::U32(request.channel.0),
            Number::U32(request.remaining_bytes),
            Number::U16(request.write_channel_info_offset),
            Number::U16(request.write_channel_info_length),
            Number::U32(request.flags.0),
        ],
        out,
    )
}

/// Adds the body. After an error some of it stands there.
pub(crate) fn put_write(request: WriteRequest<'_>, out: &mut Vec<u8>) -> Result<(), BodyFault>
    ensures ok { OnOk result (out.new.items ≡
        out.old.items ++ write_spelling (write_asked request.entry)) }
    ensures fits { OnOk result (FitsWrite (write_asked request.entry)) }
    ensures short { OnOk result (is_write_too_long (write_asked request.entry) ≡ false) }
    ensures fault { IfErr result (λ fault. fault ≡
        body_refusal (is_write_too_long (write_asked request.entry))) }
    ensures kept { take (length out.old.items) out.new.items ≡ out.old.items }
{
    if request.buffer.len() > 4_294_967_295 {
        return Err(BodyFault::TooLong);
    }
    put_fixed(&request, out)?;
    put_bytes(out, request.buffer)?;
    Ok(())
}

/// A WRITE response ([MS-SMB2] 2.2.22).
#[derive(Clone, Copy)]
pub struct WriteResponse {
    pub count: u32,
}

/// Adds the body of a response. After an error some of it stands there.
#[tactic(auto, unfolding(smb_wire::specs::Number::spelling))]
pub(crate) fn put_write_response(
    response: WriteResponse,
    out: &mut Vec<u8>,
) -> Result<(), WireFault>
    ensures ok { OnOk result (out.new.items ≡
        out.old.items ++ joined (reply_fields (answers_write response))) }
    ensures fits { OnOk result (AllFit (reply_fields (answers_write response))) }
    ensures kept { take (length out.old.items) out.new.items ≡ out.old.items }
{
    put_bytes(out, &[17, 0, 0, 0])?;
    put_u32(out, response.count)?;
    put_bytes(out, &[0; 8])
}
