//! SET_INFO ([MS-SMB2] 2.2.39, 2.2.40).

ghost use Rattle.std.specs.Prelude.{◌≡◌, ◌++◌, ◌≤◌, length, take, is_some, IfSome, OnOk, IfErr, false};
ghost use Rattle.smb_wire.specs.Fields.{joined};
ghost use Rattle.smb_body.specs.Refusals.{body_refusal};
ghost use Rattle.smb_body.specs.SetInfo.{set_info_asked, set_info_fields, set_info_laid, set_info_spelling, FitsSetInfo};
ghost use Rattle.smb_body.specs.Readings.{is_set_info_too_long, is_set_info, set_info_of};
ghost use Rattle.smb_body.specs.Replies.{answers_set_info, reply_fields};

use super::buffer::{body, buffer, file_id_in};
use super::fault::BodyFault;
use super::numbers::{Number, put_numbers};
use super::types::{AdditionalInformation, InfoType, InformationClass};
use smb_wire::{FileId, WireFault, put_bytes, u8_in, u16_in, u32_in};

/// A SET_INFO request ([MS-SMB2] 2.2.39).
#[derive(Clone, Copy)]
pub struct SetInfoRequest<'a> {
    pub info_type: InfoType,
    pub file_info_class: InformationClass,
    pub buffer: &'a [u8],
    pub buffer_offset: u16,
    pub reserved: u16,
    pub additional_information: AdditionalInformation,
    pub file_id: FileId,
}

/// What a SET_INFO request says, or None where it says nothing.
pub(crate) fn read_set_info(request: &[u8]) -> Option<SetInfoRequest<'_>>
    ensures some { is_some result ≡ is_set_info request.now }
    ensures value { IfSome result (λ r. set_info_asked r ≡ set_info_of request.now) }
{
    let body = body(request);
    if body.len() < 32 || u16_in(body, 0) != 33 {
        return None;
    }
    let buffer_offset = u16_in(body, 8);
    let buffer = buffer(
        request,
        96,
        buffer_offset as usize,
        u32_in(body, 4) as usize,
    )?;
    Some(SetInfoRequest {
        info_type: InfoType(u8_in(body, 2)),
        file_info_class: InformationClass(u8_in(body, 3)),
        buffer,
        buffer_offset,
        reserved: u16_in(body, 10),
        additional_information: AdditionalInformation(u32_in(body, 12)),
        file_id: file_id_in(body, 16),
    })
}

/// Adds the fixed part. After an error some of it stands there.
fn put_fixed(request: &SetInfoRequest<'_>, out: &mut Vec<u8>) -> Result<(), WireFault>
    requires { length (set_info_asked request.now).buffer ≤ 4294967295 }
    ensures ok { OnOk result (out.new.items ≡
        out.old.items ++ joined (set_info_fields (set_info_laid (set_info_asked request.now)))) }
    ensures kept { take (length out.old.items) out.new.items ≡ out.old.items }
{
    put_numbers(
        &[
            Number::U16(33),
            Number::U8(request.info_type.0),
            Number::U8(request.file_info_class.0),
            Number::U32(request.buffer.len() as u32),
            Number::U16(96),
            Number::U16(request.reserved),
            Number::U32(request.additional_information.0),
            Number::U64(request.file_id.persistent),
            Number::U64(request.file_id.volatile),
        ],
        out,
    )
}

/// Adds the body. After an error some of it stands there.
pub(crate) fn put_set_info(request: SetInfoRequest<'_>, out: &mut Vec<u8>) -> Result<(), BodyFault>
    ensures ok { OnOk result (out.new.items ≡
        out.old.items ++ set_info_spelling (set_info_asked request.entry)) }
    ensures fits { OnOk result (FitsSetInfo (set_info_asked request.entry)) }
    ensures short { OnOk result (is_set_info_too_long (set_info_asked request.entry) ≡ false) }
    ensures fault { IfErr result (λ fault. fault ≡
        body_refusal (is_set_info_too_long (set_info_asked request.entry))) }
    ensures kept { take (length out.old.items) out.new.items ≡ out.old.items }
{
    if request.buffer.len() > 4_294_967_295 {
        return Err(BodyFault::TooLong);
    }
    put_fixed(&request, out)?;
    put_bytes(out, request.buffer)?;
    Ok(())
}

/// Adds the body of a response ([MS-SMB2] 2.2.40).
pub(crate) fn put_set_info_response(out: &mut Vec<u8>) -> Result<(), WireFault>
    ensures ok { OnOk result (out.new.items ≡ out.old.items ++ joined (reply_fields answers_set_info)) }
    ensures kept { take (length out.old.items) out.new.items ≡ out.old.items }
{
    put_numbers(&[Number::U16(2)], out)
}
