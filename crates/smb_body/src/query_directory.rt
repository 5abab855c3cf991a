//! QUERY_DIRECTORY ([MS-SMB2] 2.2.33).

ghost use Rattle.std.specs.Prelude.{◌≡◌, ◌++◌, ◌≤◌, length, take, is_some, IfSome, OnOk, IfErr, false};
ghost use Rattle.smb_wire.specs.Fields.{joined};
ghost use Rattle.smb_body.specs.Refusals.{body_refusal};
ghost use Rattle.smb_body.specs.QueryDirectory.{query_directory_asked, query_directory_fields, query_directory_laid, query_directory_spelling, FitsQueryDirectory};
ghost use Rattle.smb_body.specs.Readings.{is_query_directory_too_long, is_query_directory, query_directory_of};

use super::buffer::{body, file_id_in, text};
use super::fault::BodyFault;
use super::numbers::{Number, put_numbers};
use super::types::InformationClass;
use smb_wire::{FileId, QueryDirectoryFlags, Units, WireFault, put_bytes, u8_in, u16_in, u32_in};

/// A QUERY_DIRECTORY request ([MS-SMB2] 2.2.33).
#[derive(Clone, Copy)]
pub struct QueryDirectoryRequest<'a> {
    pub file_information_class: InformationClass,
    pub flags: QueryDirectoryFlags,
    pub file_index: u32,
    pub file_id: FileId,
    pub file_name_offset: u16,
    pub file_name: Units<'a>,
    pub output_buffer_length: u32,
}

/// What a QUERY_DIRECTORY request says, or None where it says nothing.
pub(crate) fn read_query_directory(request: &[u8]) -> Option<QueryDirectoryRequest<'_>>
    ensures some { is_some result ≡ is_query_directory request.now }
    ensures value { IfSome result (λ r. query_directory_asked r ≡ query_directory_of request.now) }
{
    let body = body(request);
    if body.len() < 32 || u16_in(body, 0) != 33 {
        return None;
    }
    let file_name_offset = u16_in(body, 24);
    let file_name = text(
        request,
        96,
        file_name_offset as usize,
        u16_in(body, 26) as usize,
    )?;
    Some(QueryDirectoryRequest {
        file_information_class: InformationClass(u8_in(body, 2)),
        flags: QueryDirectoryFlags(u8_in(body, 3)),
        file_index: u32_in(body, 4),
        file_id: file_id_in(body, 8),
        file_name_offset,
        file_name,
        output_buffer_length: u32_in(body, 28),
    })
}

/// Adds the fixed part. After an error some of it stands there.
fn put_fixed(request: &QueryDirectoryRequest<'_>, out: &mut Vec<u8>) -> Result<(), WireFault>
    requires { length (query_directory_asked request.now).file_name ≤ 32767 }
    ensures ok { OnOk result (out.new.items ≡
        out.old.items ++ joined (query_directory_fields (query_directory_laid (query_directory_asked request.now)))) }
    ensures kept { take (length out.old.items) out.new.items ≡ out.old.items }
{
    put_numbers(
        &[
            Number::U16(33),
            Number::U8(request.file_information_class.0),
            Number::U8(request.flags.0),
            Number::U32(request.file_index),
            Number::U64(request.file_id.persistent),
            Number::U64(request.file_id.volatile),
            Number::U16(96),
            Number::U16(2 * request.file_name.len() as u16),
            Number::U32(request.output_buffer_length),
        ],
        out,
    )
}

/// Adds the body. After an error some of it stands there.
pub(crate) fn put_query_directory(
    request: QueryDirectoryRequest<'_>,
    out: &mut Vec<u8>,
) -> Result<(), BodyFault>
    ensures ok { OnOk result (out.new.items ≡
        out.old.items ++ query_directory_spelling (query_directory_asked request.entry)) }
    ensures fits { OnOk result (FitsQueryDirectory (query_directory_asked request.entry)) }
    ensures short { OnOk result
        (is_query_directory_too_long (query_directory_asked request.entry) ≡ false) }
    ensures fault { IfErr result (λ fault. fault ≡
        body_refusal (is_query_directory_too_long (query_directory_asked request.entry))) }
    ensures kept { take (length out.old.items) out.new.items ≡ out.old.items }
{
    if request.file_name.len() > 32_767 {
        return Err(BodyFault::TooLong);
    }
    put_fixed(&request, out)?;
    put_bytes(out, request.file_name.bytes())?;
    Ok(())
}
