//! QUERY_INFO ([MS-SMB2] 2.2.37).

ghost use Rattle.std.specs.Prelude.{◌≡◌, ◌++◌, length, take, is_some, IfSome, OnOk};
ghost use Rattle.smb_wire.specs.Fields.{joined};
ghost use Rattle.smb_body.specs.QueryInfo.{query_info_fields, FitsQueryInfo};
ghost use Rattle.smb_body.specs.Readings.{is_query_info, query_info_of};

use super::buffer::{body, file_id_in};
use super::numbers::{Number, put_numbers};
use super::types::{AdditionalInformation, InfoType, InformationClass};
use smb_wire::{FileId, WireFault, u8_in, u16_in, u32_in};

/// Flags of a QUERY_INFO request ([MS-SMB2] 2.2.37). The profile ignores them.
#[derive(Clone, Copy)]
pub struct QueryInfoFlags(pub u32);

/// A QUERY_INFO request ([MS-SMB2] 2.2.37).
#[derive(Clone, Copy)]
pub struct QueryInfoRequest {
    pub info_type: InfoType,
    pub file_info_class: InformationClass,
    pub output_buffer_length: u32,
    pub input_buffer_offset: u16,
    pub reserved: u16,
    pub input_buffer_length: u32,
    pub additional_information: AdditionalInformation,
    pub flags: QueryInfoFlags,
    pub file_id: FileId,
}

/// What a QUERY_INFO request says, or None where it says nothing.
pub(crate) fn read_query_info(request: &[u8]) -> Option<QueryInfoRequest>
    ensures some { is_some result ≡ is_query_info request.now }
    ensures value { IfSome result (λ r. r ≡ query_info_of request.now) }
{
    let body = body(request);
    if body.len() < 40 || u16_in(body, 0) != 41 {
        return None;
    }
    Some(QueryInfoRequest {
        info_type: InfoType(u8_in(body, 2)),
        file_info_class: InformationClass(u8_in(body, 3)),
        output_buffer_length: u32_in(body, 4),
        input_buffer_offset: u16_in(body, 8),
        reserved: u16_in(body, 10),
        input_buffer_length: u32_in(body, 12),
        additional_information: AdditionalInformation(u32_in(body, 16)),
        flags: QueryInfoFlags(u32_in(body, 20)),
        file_id: file_id_in(body, 24),
    })
}

/// Adds the body. After an error some of it stands there.
pub(crate) fn put_query_info(request: QueryInfoRequest, out: &mut Vec<u8>) -> Result<(), WireFault>
    ensures ok { OnOk result (out.new.items ≡ out.old.items ++ joined (query_info_fields request)) }
    ensures fits { OnOk result (FitsQueryInfo request) }
    ensures kept { take (length out.old.items) out.new.items ≡ out.old.items }
{
    put_numbers(
        &[
            Number::U16(41),
            Number::U8(request.info_type.0),
            Number::U8(request.file_info_class.0),
            Number::U32(request.output_buffer_length),
            Number::U16(request.input_buffer_offset),
            Number::U16(request.reserved),
            Number::U32(request.input_buffer_length),
            Number::U32(request.additional_information.0),
            Number::U32(request.flags.0),
            Number::U64(request.file_id.persistent),
            Number::U64(request.file_id.volatile),
        ],
        out,
    )
}
