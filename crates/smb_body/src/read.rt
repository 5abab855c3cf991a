//! READ ([MS-SMB2] 2.2.19, 2.2.20).

ghost use Rattle.std.specs.Prelude.{ℕ, List, ◌+◌, OnErr, ◌≡◌, length, take, is_some, IfSome, OnOk, ◌++◌, ◌≤◌, IfErr, false};
ghost use Rattle.smb_wire.specs.Fields.{AllFit, joined};
ghost use Rattle.smb_body.specs.Refusals.{body_refusal};
ghost use Rattle.smb_body.specs.Read.{read_fields, FitsRead};
ghost use Rattle.smb_body.specs.Readings.{is_read_response_too_long, is_read, read_of};
ghost use Rattle.smb_body.specs.Replies.{reply_spelling, answers_read, reply_fields};

use super::buffer::{body, file_id_in};
use super::fault::BodyFault;
use super::numbers::{Number, put_numbers};
use super::types::Channel;
use smb_wire::{FileId, WireFault, put_bytes, u8_in, u16_in, u32_in, u64_in};
use std::alloc::AllocError;

/// Flags of a READ request ([MS-SMB2] 2.2.19). The profile ignores them.
#[derive(Clone, Copy)]
pub struct ReadFlags(pub u8);

/// A READ request ([MS-SMB2] 2.2.19).
#[derive(Clone, Copy)]
pub struct ReadRequest {
    pub padding: u8,
    pub flags: ReadFlags,
    pub length: u32,
    pub offset: u64,
    pub file_id: FileId,
    pub minimum_count: u32,
    pub channel: Channel,
    pub remaining_bytes: u32,
    pub read_channel_info_offset: u16,
    pub read_channel_info_length: u16,
}

/// What a READ request says, or None where it says nothing.
pub(crate) fn read_read(request: &[u8]) -> Option<ReadRequest>
    ensures some { is_some result ≡ is_read request.now }
    ensures value { IfSome result (λ r. r ≡ read_of request.now) }
{
    let body = body(request);
    if body.len() < 48 || u16_in(body, 0) != 49 {
        return None;
    }
    Some(ReadRequest {
        padding: u8_in(body, 2),
        flags: ReadFlags(u8_in(body, 3)),
        length: u32_in(body, 4),
        offset: u64_in(body, 8),
        file_id: file_id_in(body, 16),
        minimum_count: u32_in(body, 32),
        channel: Channel(u32_in(body, 36)),
        remaining_bytes: u32_in(body, 40),
        read_channel_info_offset: u16_in(body, 44),
        read_channel_info_length: u16_in(body, 46),
    })
}

/// Adds the body. After an error some of it stands there.
pub(crate) fn put_read(request: ReadRequest, out: &mut Vec<u8>) -> Result<(), WireFault>
    ensures ok { OnOk result (out.new.items ≡ out.old.items ++ joined (read_fields request)) }
    ensures fits { OnOk result (FitsRead request) }
    ensures kept { take (length out.old.items) out.new.items ≡ out.old.items }
{
    put_numbers(
        &[
            Number::U16(49),
            Number::U8(request.padding),
            Number::U8(request.flags.0),
            Number::U32(request.length),
            Number::U64(request.offset),
            Number::U64(request.file_id.persistent),
            Number::U64(request.file_id.volatile),
            Number::U32(request.minimum_count),
            Number::U32(request.channel.0),
            Number::U32(request.remaining_bytes),
            Number::U16(request.read_channel_info_offset),
            Number::U16(request.read_channel_info_length),
        ],
        out,
    )
}

/// A READ response ([MS-SMB2] 2.2.20).
#[derive(Clone, Copy)]
pub struct ReadResponse<'a> {
    pub buffer: &'a [u8],
}

/// Adds the fixed part of a response. After an error some of it stands there.
fn put_response_fixed(response: &ReadResponse<'_>, out: &mut Vec<u8>) -> Result<(), WireFault>
    requires { length response.now.buffer.now ≤ 4294967295 }
    ensures ok { OnOk result (out.new.items ≡
        out.old.items ++ joined (reply_fields (answers_read response.now.buffer.now))) }
    ensures kept { take (length out.old.items) out.new.items ≡ out.old.items }
{
    put_numbers(
        &[
            Number::U16(17),
            Number::U8(80),
            Number::U8(0),
            Number::U32(response.buffer.len() as u32),
            Number::U32(0),
            Number::U32(0),
        ],
        out,
    )
}

/// Adds the body of a response. After an error some of it stands there.
pub(crate) fn put_read_response(
    response: ReadResponse<'_>,
    out: &mut Vec<u8>,
) -> Result<(), BodyFault>
    ensures ok { OnOk result (out.new.items ≡
        out.old.items ++ (joined (reply_fields (answers_read response.entry.buffer.now))
        ++ response.entry.buffer.now)) }
    ensures fits { OnOk result (AllFit (reply_fields (answers_read response.entry.buffer.now))) }
    ensures short { OnOk result (is_read_response_too_long response.entry.buffer.now ≡ false) }
    ensures fault { IfErr result (λ fault. fault ≡
        body_refusal (is_read_response_too_long response.entry.buffer.now)) }
    ensures kept { take (length out.old.items) out.new.items ≡ out.old.items }
{
    if response.buffer.len() > 4_294_967_295 {
        return Err(BodyFault::TooLong);
    }
    put_response_fixed(&response, out)?;
    put_bytes(out, response.buffer)?;
    Ok(())
}

/// Adds the fixed part of a READ response, whose data of this length is added behind it.
///
/// After an error `out` is as it was.
pub fn put_read_head(data_length: u32, out: &mut Vec<u8>) -> Result<(), AllocError>
    ensures ok { (buffer : List ℕ) → length buffer ≡ data_length →
        OnOk result (out.new.items ++ buffer ≡ out.old.items ++ reply_spelling (answers_read buffer)) }
    ensures len { OnOk result (length out.new.items ≡ length out.old.items + 16) }
    ensures kept { take (length out.old.items) out.new.items ≡ out.old.items }
    ensures err { OnErr result (out.new.items ≡ out.old.items) }
{
    let [a, b, c, d] = data_length.to_le_bytes();
    out.extend_from_slice(&[17, 0, 80, 0, a, b, c, d, 0, 0, 0, 0, 0, 0, 0, 0])?;
    Ok(())
}
