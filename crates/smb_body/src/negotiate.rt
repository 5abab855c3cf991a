//! NEGOTIATE ([MS-SMB2] 2.2.3, 2.2.4).

ghost use Rattle.std.specs.Prelude.{◌≡◌, ◌++◌, ◌≤◌, length, take, is_some, IfSome, IfErr, OnOk, false};
ghost use Rattle.smb_wire.specs.Fields.{AllFit, joined};
ghost use Rattle.smb_body.specs.Refusals.{body_refusal};
ghost use Rattle.smb_body.specs.Negotiate.{negotiate_asked, negotiate_fields, negotiate_spelling, FitsNegotiate, negotiate_answered, negotiate_response_fields};
ghost use Rattle.smb_body.specs.Readings.{is_negotiate_too_long, is_negotiate_response_too_long, is_negotiate, negotiate_of};

use super::buffer::{body, guid_in};
use super::dialects::Dialects;
use super::fault::BodyFault;
use super::numbers::{Number, put_numbers};
use super::types::{Capabilities, DialectRevision, Guid};
use smb_wire::{WireFault, put_bytes, u16_in, u32_in, u64_in};

/// Whether signing is enabled (1) and required (2).
#[derive(Clone, Copy)]
pub struct SecurityMode(pub u16);

/// A NEGOTIATE request ([MS-SMB2] 2.2.3).
#[derive(Clone, Copy)]
pub struct NegotiateRequest<'a> {
    pub security_mode: SecurityMode,
    pub reserved: u16,
    pub capabilities: Capabilities,
    pub client_guid: Guid,
    pub client_start_time: u64,
    pub dialects: Dialects<'a>,
}

/// What a NEGOTIATE request says, or None where it says nothing.
pub(crate) fn read_negotiate(request: &[u8]) -> Option<NegotiateRequest<'_>>
    ensures some { is_some result ≡ is_negotiate request.now }
    ensures value { IfSome result (λ r. negotiate_asked r ≡ negotiate_of request.now) }
{
    let body = body(request);
    if body.len() < 36 || u16_in(body, 0) != 36 {
        return None;
    }
    let count = u16_in(body, 2) as usize;
    if count == 0 || body.len() < 36 + 2 * count {
        return None;
    }
    let dialects = Dialects::of(&body[36..36 + 2 * count])?;
    Some(NegotiateRequest {
        security_mode: SecurityMode(u16_in(body, 4)),
        reserved: u16_in(body, 6),
        capabilities: Capabilities(u32_in(body, 8)),
        client_guid: guid_in(body, 12),
        client_start_time: u64_in(body, 28),
        dialects,
    })
}

/// Adds the fixed part. After an error some of it stands there.
fn put_fixed(request: &NegotiateRequest<'_>, out: &mut Vec<u8>) -> Result<(), WireFault>
    requires { length (negotiate_asked request.now).dialects ≤ 65535 }
    ensures ok { OnOk result (out.new.items ≡
        out.old.items ++ joined (negotiate_fields (negotiate_asked request.now))) }
    ensures kept { take (length out.old.items) out.new.items ≡ out.old.items }
{
    put_numbers(
        &[
            Number::U16(36),
            Number::U16(request.dialects.len() as u16),
            Number::U16(request.security_mode.0),
            Number::U16(request.reserved),
            Number::U32(request.capabilities.0),
        ],
        out,
    )?;
    put_bytes(out, &request.client_guid.0)?;
    put_numbers(&[Number::U64(request.client_start_time)], out)
}

/// Adds the body. After an error some of it stands there.
pub(crate) fn put_negotiate(
    request: NegotiateRequest<'_>,
    out: &mut Vec<u8>,
) -> Result<(), BodyFault>
    ensures ok { OnOk result (out.new.items ≡
        out.old.items ++ negotiate_spelling (negotiate_asked request.entry)) }
    ensures fits { OnOk result (FitsNegotiate (negotiate_asked request.entry)) }
    ensures short { OnOk result (is_negotiate_too_long (negotiate_asked request.entry) ≡ false) }
    ensures fault { IfErr result (λ fault. fault ≡
        body_refusal (is_negotiate_too_long (negotiate_asked request.entry))) }
    ensures kept { take (length out.old.items) out.new.items ≡ out.old.items }
{
    if request.dialects.len() > 65_535 {
        return Err(BodyFault::TooLong);
    }
    put_fixed(&request, out)?;
    put_bytes(out, request.dialects.bytes())?;
    Ok(())
}

/// A NEGOTIATE response ([MS-SMB2] 2.2.4).
/// Times are in 100 ns since 1601, sizes in bytes.
#[derive(Clone, Copy)]
pub struct NegotiateResponse<'a> {
    pub security_mode: SecurityMode,
    pub dialect_revision: DialectRevision,
    pub server_guid: Guid,
    pub capabilities: Capabilities,
    pub max_transact_size: u32,
    pub max_read_size: u32,
    pub max_write_size: u32,
    pub system_time: u64,
    pub server_start_time: u64,
    pub security_buffer: &'a [u8],
}

/// Adds the fixed part of a response. After an error some of it stands there.
fn put_response_fixed(response: &NegotiateResponse<'_>, out: &mut Vec<u8>) -> Result<(), WireFault>
    requires { length response.now.security_buffer.now ≤ 65535 }
    ensures ok { OnOk result (out.new.items ≡
        out.old.items ++ joined (negotiate_response_fields (negotiate_answered response.now))) }
    ensures kept { take (length out.old.items) out.new.items ≡ out.old.items }
{
    put_numbers(
        &[
            Number::U16(65),
            Number::U16(response.security_mode.0),
            Number::U16(response.dialect_revision.0),
            Number::U16(0),
        ],
        out,
    )?;
    put_bytes(out, &response.server_guid.0)?;
    put_numbers(
        &[
            Number::U32(response.capabilities.0),
            Number::U32(response.max_transact_size),
            Number::U32(response.max_read_size),
            Number::U32(response.max_write_size),
            Number::U64(response.system_time),
            Number::U64(response.server_start_time),
            Number::U16(128),
            Number::U16(response.security_buffer.len() as u16),
            Number::U32(0),
        ],
        out,
    )
}

/// Adds the body of a response. After an error some of it stands there.
pub(crate) fn put_negotiate_response(
    response: NegotiateResponse<'_>,
    out: &mut Vec<u8>,
) -> Result<(), BodyFault>
    ensures ok { OnOk result (out.new.items ≡
        out.old.items ++ (joined (negotiate_response_fields (negotiate_answered response.entry))
        ++ response.entry.security_buffer.now)) }
    ensures fits { OnOk result
        (AllFit (negotiate_response_fields (negotiate_answered response.entry))) }
    ensures short { OnOk result
        (is_negotiate_response_too_long (negotiate_answered response.entry) ≡ false) }
    ensures fault { IfErr result (λ fault. fault ≡
        body_refusal (is_negotiate_response_too_long (negotiate_answered response.entry))) }
    ensures kept { take (length out.old.items) out.new.items ≡ out.old.items }
{
    if response.security_buffer.len() > 65_535 {
        return Err(BodyFault::TooLong);
    }
    put_response_fixed(&response, out)?;
    put_bytes(out, response.security_buffer)?;
    Ok(())
}
