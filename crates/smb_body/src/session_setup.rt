//! SESSION_SETUP ([MS-SMB2] 2.2.5, 2.2.6).

ghost use Rattle.std.specs.Prelude.{◌≡◌, ◌++◌, ◌≤◌, length, take, is_some, IfSome, OnOk, IfErr, false};
ghost use Rattle.smb_wire.specs.Fields.{AllFit, joined};
ghost use Rattle.smb_body.specs.Refusals.{body_refusal};
ghost use Rattle.smb_body.specs.SessionSetup.{session_setup_asked, session_setup_fields, session_setup_laid, session_setup_spelling, FitsSessionSetup, session_setup_answered};
ghost use Rattle.smb_body.specs.Readings.{is_session_setup_too_long, is_session_setup_response_too_long, is_session_setup, session_setup_of};
ghost use Rattle.smb_body.specs.Replies.{answers_session_setup, reply_fields};

use super::buffer::{body, buffer};
use super::fault::BodyFault;
use super::numbers::{Number, put_numbers};
use super::types::{Capabilities, Channel};
use smb_wire::{WireFault, put_bytes, u8_in, u16_in, u32_in, u64_in};

/// Flags of a SESSION_SETUP request ([MS-SMB2] 2.2.5).
#[derive(Clone, Copy)]
pub struct SessionSetupFlags(pub u8);

impl SessionSetupFlags {
    /// The request binds a session that stands to a further connection.
    pub const BINDING: SessionSetupFlags = SessionSetupFlags(1);
}

/// Whether the client enables (1) and requires (2) signing ([MS-SMB2] 2.2.5).
#[derive(Clone, Copy)]
pub struct SessionSecurityMode(pub u8);

/// A SESSION_SETUP request ([MS-SMB2] 2.2.5).
#[derive(Clone, Copy)]
pub struct SessionSetupRequest<'a> {
    pub flags: SessionSetupFlags,
    pub security_mode: SessionSecurityMode,
    pub capabilities: Capabilities,
    pub channel: Channel,
    pub security_buffer_offset: u16,
    pub security_buffer: &'a [u8],
    pub previous_session_id: u64,
}

/// What a SESSION_SETUP request says, or None where it says nothing.
pub(crate) fn read_session_setup(request: &[u8]) -> Option<SessionSetupRequest<'_>>
    ensures some { is_some result ≡ is_session_setup request.now }
    ensures value { IfSome result (λ r. session_setup_asked r ≡ session_setup_of request.now) }
{
    let body = body(request);
    if body.len() < 24 || u16_in(body, 0) != 25 {
        return None;
    }
    let security_buffer_offset = u16_in(body, 12);
    let security_buffer = buffer(
        request,
        88,
        security_buffer_offset as usize,
        u16_in(body, 14) as usize,
    )?;
    Some(SessionSetupRequest {
        flags: SessionSetupFlags(u8_in(body, 2)),
        security_mode: SessionSecurityMode(u8_in(body, 3)),
        capabilities: Capabilities(u32_in(body, 4)),
        channel: Channel(u32_in(body, 8)),
        security_buffer_offset,
        security_buffer,
        previous_session_id: u64_in(body, 16),
    })
}

/// Adds the fixed part. After an error some of it stands there.
fn put_fixed(request: &SessionSetupRequest<'_>, out: &mut Vec<u8>) -> Result<(), WireFault>
    requires { length (session_setup_asked request.now).security_buffer ≤ 65535 }
    ensures ok { OnOk result (out.new.items ≡
        out.old.items ++ joined (session_setup_fields (session_setup_laid (session_setup_asked request.now)))) }
    ensures kept { take (length out.old.items) out.new.items ≡ out.old.items }
{
    put_numbers(
        &[
            Number::U16(25),
            Number::U8(request.flags.0),
            Number::U8(request.security_mode.0),
            Number::U32(request.capabilities.0),
            Number::U32(request.channel.0),
            Number::U16(88),
            Number::U16(request.security_buffer.len() as u16),
            Number::U64(request.previous_session_id),
        ],
        out,
    )
}

/// Adds the body. After an error some of it stands there.
pub(crate) fn put_session_setup(
    request: SessionSetupRequest<'_>,
    out: &mut Vec<u8>,
) -> Result<(), BodyFault>
    ensures ok { OnOk result (out.new.items ≡
        out.old.items ++ session_setup_spelling (session_setup_asked request.entry)) }
    ensures fits { OnOk result (FitsSessionSetup (session_setup_asked request.entry)) }
    ensures short { OnOk result
        (is_session_setup_too_long (session_setup_asked request.entry) ≡ false) }
    ensures fault { IfErr result (λ fault. fault ≡
        body_refusal (is_session_setup_too_long (session_setup_asked request.entry))) }
    ensures kept { take (length out.old.items) out.new.items ≡ out.old.items }
{
    if request.security_buffer.len() > 65_535 {
        return Err(BodyFault::TooLong);
    }
    put_fixed(&request, out)?;
    put_bytes(out, request.security_buffer)?;
    Ok(())
}

/// Flags of a SESSION_SETUP response ([MS-SMB2] 2.2.6).
#[derive(Clone, Copy)]
pub struct SessionFlags(pub u16);

impl SessionFlags {
    pub const IS_GUEST: SessionFlags = SessionFlags(1);

    pub const IS_NULL: SessionFlags = SessionFlags(2);
}

/// A SESSION_SETUP response ([MS-SMB2] 2.2.6).
#[derive(Clone, Copy)]
pub struct SessionSetupResponse<'a> {
    pub session_flags: SessionFlags,
    pub security_buffer: &'a [u8],
}

/// Adds the fixed part of a response. After an error some of it stands there.
fn put_response_fixed(
    response: &SessionSetupResponse<'_>,
    out: &mut Vec<u8>,
) -> Result<(), WireFault>
    requires { length response.now.security_buffer.now ≤ 65535 }
    ensures ok { OnOk result (out.new.items ≡
        out.old.items ++ joined (reply_fields (answers_session_setup (session_setup_answered response.now)))) }
    ensures kept { take (length out.old.items) out.new.items ≡ out.old.items }
{
    put_numbers(
        &[
            Number::U16(9),
            Number::U16(response.session_flags.0),
            Number::U16(72),
            Number::U16(response.security_buffer.len() as u16),
        ],
        out,
    )
}

/// Adds the body of a response. After an error some of it stands there.
pub(crate) fn put_session_setup_response(
    response: SessionSetupResponse<'_>,
    out: &mut Vec<u8>,
) -> Result<(), BodyFault>
    ensures ok { OnOk result (out.new.items ≡
        out.old.items ++ (joined (reply_fields (answers_session_setup (session_setup_answered response.entry)))
        ++ response.entry.security_buffer.now)) }
    ensures fits { OnOk result
        (AllFit (reply_fields (answers_session_setup (session_setup_answered response.entry)))) }
    ensures short { OnOk result
        (is_session_setup_response_too_long (session_setup_answered response.entry) ≡ false) }
    ensures fault { IfErr result (λ fault. fault ≡
        body_refusal (is_session_setup_response_too_long (session_setup_answered response.entry))) }
    ensures kept { take (length out.old.items) out.new.items ≡ out.old.items }
{
    if response.security_buffer.len() > 65_535 {
        return Err(BodyFault::TooLong);
    }
    put_response_fixed(&response, out)?;
    put_bytes(out, response.security_buffer)?;
    Ok(())
}
