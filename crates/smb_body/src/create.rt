//! CREATE ([MS-SMB2] 2.2.13, 2.2.14).

ghost use Rattle.std.specs.Prelude.{◌≡◌, ◌++◌, ◌≤◌, ◌<◌, ◌^◌, length, take, replicate, is_some, IfSome, OnOk, OnErr, IfErr, false};
ghost use Rattle.smb_wire.specs.Fields.{AllFit, joined};
ghost use Rattle.smb_wire.specs.Pairs.{AreUnits};
ghost use Rattle.smb_body.specs.Refusals.{body_refusal};
ghost use Rattle.smb_body.specs.Create.{create_asked, create_fields, create_laid, create_spelling, FitsCreate, contexts_place, contexts_gap, name_end, create_response_fields};
ghost use Rattle.smb_body.specs.Readings.{is_create_too_long, is_create, create_of};

use super::buffer::{body, buffer, text};
use super::fault::BodyFault;
use super::numbers::{Number, put_numbers};
use smb_wire::{
    Access, CreateAction, CreateDispositionCode, CreateOptions, FileAttributes, FileId,
    ShareAccess, Units, WireFault, in_eight, in_four, put_bytes, put_u8, put_u16, put_u32, u8_in,
    u16_in, u32_in, u64_in,
};

/// Security flags of a CREATE request, which are reserved.
#[derive(Clone, Copy)]
pub struct SecurityFlags(pub u8);

/// An oplock level. The profile ignores what is asked for, and gives none.
#[derive(Clone, Copy)]
pub struct OplockLevel(pub u8);

impl OplockLevel {
    pub const NONE: OplockLevel = OplockLevel(0);
}

/// How far the server may act for the client. The profile ignores it.
#[derive(Clone, Copy)]
pub struct ImpersonationLevel(pub u32);

/// Flags of a CREATE request, which are reserved.
#[derive(Clone, Copy)]
pub struct SmbCreateFlags(pub u64);

/// A CREATE request ([MS-SMB2] 2.2.13).
#[derive(Clone, Copy)]
pub struct CreateRequest<'a> {
    pub security_flags: SecurityFlags,
    pub requested_oplock_level: OplockLevel,
    pub impersonation_level: ImpersonationLevel,
    pub smb_create_flags: SmbCreateFlags,
    pub reserved: u64,
    pub desired_access: Access,
    pub file_attributes: FileAttributes,
    pub share_access: ShareAccess,
    pub create_disposition: CreateDispositionCode,
    pub create_options: CreateOptions,
    pub name_offset: u16,
    pub name: Units<'a>,
    pub create_contexts_offset: u32,
    pub create_contexts: &'a [u8],
}

/// What a CREATE request says, or None where it says nothing.
pub(crate) fn read_create(request: &[u8]) -> Option<CreateRequest<'_>>
    ensures some { is_some result ≡ is_create request.now }
    ensures value { IfSome result (λ r. create_asked r ≡ create_of request.now) }
{
    let body = body(request);
    if body.len() < 56 || u16_in(body, 0) != 57 {
        return None;
    }
    let name_offset = u16_in(body, 44);
    let name = text(
        request,
        120,
        name_offset as usize,
        u16_in(body, 46) as usize,
    )?;
    let create_contexts_offset = u32_in(body, 48);
    let create_contexts = buffer(
        request,
        120,
        create_contexts_offset as usize,
        u32_in(body, 52) as usize,
    )?;
    Some(CreateRequest {
        security_flags: SecurityFlags(u8_in(body, 2)),
        requested_oplock_level: OplockLevel(u8_in(body, 3)),
        impersonation_level: ImpersonationLevel(u32_in(body, 4)),
        smb_create_flags: SmbCreateFlags(u64_in(body, 8)),
        reserved: u64_in(body, 16),
        desired_access: Access(u32_in(body, 24)),
        file_attributes: FileAttributes(u32_in(body, 28)),
        share_access: ShareAccess(u32_in(body, 32)),
        create_disposition: CreateDispositionCode(u32_in(body, 36)),
        create_options: CreateOptions(u32_in(body, 40)),
        name_offset,
        name,
        create_contexts_offset,
        create_contexts,
    })
}

/// Adds the fixed part, with the contexts at `place`. After an error some of it stands there.
fn put_fixed(request: &CreateRequest<'_>, place: u32, out: &mut Vec<u8>) -> Result<(), WireFault>
    requires name { length (create_asked request.now).name ≤ 32767 }
    requires contexts { length (create_asked request.now).create_contexts ≤ 4294967295 }
    requires place { place ≡ contexts_place (name_end (create_asked request.now)) (create_asked request.now).create_contexts }
    ensures ok { OnOk result (out.new.items ≡
        out.old.items ++ joined (create_fields (create_laid (create_asked request.now)))) }
    ensures kept { take (length out.old.items) out.new.items ≡ out.old.items }
{
    put_numbers(
        &[
            Number::U16(57),
            Number::U8(request.security_flags.0),
            Number::U8(request.requested_oplock_level.0),
            Number::U32(request.impersonation_level.0),
            Number::U64(request.smb_create_flags.0),
            Number::U64(request.reserved),
            Number::U32(request.desired_access.0),
            Number::U32(request.file_attributes.0),
            Number::U32(request.share_access.0),
            Number::U32(request.create_disposition.0),
            Number::U32(request.create_options.0),
            Number::U16(120),
            Number::U16(2 * request.name.len() as u16),
            Number::U32(place),
            Number::U32(request.create_contexts.len() as u32),
        ],
        out,
    )
}

/// Where contexts stand that follow a name with this end: at a multiple of 8, or at 0 if there are none.
fn contexts_place(end: usize, contexts: &[u8]) -> u32
    requires { end < 2 ^ 31 }
    ensures { result ≡ contexts_place end contexts.now }
{
    if contexts.is_empty() {
        return 0;
    }
    end.next_multiple_of(8) as u32
}

/// Adds up to 8 zeros.
fn put_zeros(count: usize, out: &mut Vec<u8>) -> Result<(), WireFault>
    requires { count ≤ 8 }
    ensures ok { OnOk result (out.new.items ≡ out.old.items ++ replicate count 0) }
    ensures err { OnErr result (out.new.items ≡ out.old.items) }
{
    let zeros = [0u8; 8];
    put_bytes(out, &zeros[..count])?;
    Ok(())
}

/// Adds contexts behind a name with this end. After an error some of it stands there.
fn put_contexts(end: usize, contexts: &[u8], out: &mut Vec<u8>) -> Result<(), WireFault>
    requires { end < 2 ^ 31 }
    ensures ok { OnOk result (out.new.items ≡
        out.old.items ++ (contexts_gap end contexts.now ++ contexts.now)) }
    ensures kept { take (length out.old.items) out.new.items ≡ out.old.items }
{
    if contexts.is_empty() {
        return Ok(());
    }
    put_zeros(end.next_multiple_of(8) - end, out)?;
    put_bytes(out, contexts)?;
    Ok(())
}

/// Adds the parts, one behind the other. After an error some of them stand there.
fn put_parts(request: &CreateRequest<'_>, out: &mut Vec<u8>) -> Result<(), WireFault>
    requires name { length (create_asked request.now).name ≤ 32767 }
    requires contexts { length (create_asked request.now).create_contexts ≤ 4294967295 }
    ensures ok { OnOk result (out.new.items ≡
        out.old.items ++ create_spelling (create_asked request.now)) }
    ensures units { OnOk result (AreUnits (create_asked request.now).name) }
    ensures kept { take (length out.old.items) out.new.items ≡ out.old.items }
{
    let end = 120 + 2 * request.name.len();
    put_fixed(request, contexts_place(end, request.create_contexts), out)?;
    put_bytes(out, request.name.bytes())?;
    put_contexts(end, request.create_contexts, out)?;
    Ok(())
}

/// Adds the body. After an error some of it stands there.
pub(crate) fn put_create(request: CreateRequest<'_>, out: &mut Vec<u8>) -> Result<(), BodyFault>
    ensures ok { OnOk result (out.new.items ≡
        out.old.items ++ create_spelling (create_asked request.entry)) }
    ensures fits { OnOk result (FitsCreate (create_asked request.entry)) }
    ensures short { OnOk result (is_create_too_long (create_asked request.entry) ≡ false) }
    ensures fault { IfErr result (λ fault. fault ≡
        body_refusal (is_create_too_long (create_asked request.entry))) }
    ensures kept { take (length out.old.items) out.new.items ≡ out.old.items }
{
    if request.name.len() > 32_767 || request.create_contexts.len() > 4_294_967_295 {
        return Err(BodyFault::TooLong);
    }
    put_parts(&request, out)?;
    Ok(())
}

/// A CREATE response ([MS-SMB2] 2.2.14).
/// Times are in 100 ns since 1601, sizes in bytes.
#[derive(Clone, Copy)]
pub struct CreateResponse {
    pub oplock_level: OplockLevel,
    pub create_action: CreateAction,
    pub creation_time: u64,
    pub last_access_time: u64,
    pub last_write_time: u64,
    pub change_time: u64,
    pub allocation_size: u64,
    pub end_of_file: u64,
    pub file_attributes: FileAttributes,
    pub file_id: FileId,
}

/// Adds what stands before the times. After an error some of it stands there.
fn put_response_front(response: &CreateResponse, out: &mut Vec<u8>) -> Result<(), WireFault>
    ensures ok { OnOk result (out.new.items ≡
        out.old.items ++ joined (take 4 (create_response_fields response.now))) }
    ensures kept { take (length out.old.items) out.new.items ≡ out.old.items }
{
    put_u16(out, 89)?;
    put_u8(out, response.oplock_level.0)?;
    put_u8(out, 0)?;
    put_u32(out, response.create_action.code())
}

/// Adds the fields of a response. After an error some of them stand there.
fn put_response_fields(response: &CreateResponse, out: &mut Vec<u8>) -> Result<(), WireFault>
    ensures ok { OnOk result (out.new.items ≡
        out.old.items ++ joined (create_response_fields response.now)) }
    ensures kept { take (length out.old.items) out.new.items ≡ out.old.items }
{
    put_response_front(response, out)?;
    let times_and_sizes = [
        in_eight(response.creation_time),
        in_eight(response.last_access_time),
        in_eight(response.last_write_time),
        in_eight(response.change_time),
        in_eight(response.allocation_size),
        in_eight(response.end_of_file),
    ];
    put_bytes(out, times_and_sizes.as_flattened())?;
    put_bytes(
        out,
        [in_four(response.file_attributes.0), in_four(0)].as_flattened(),
    )?;
    let file_id = &response.file_id;
    put_bytes(
        out,
        [in_eight(file_id.persistent), in_eight(file_id.volatile)].as_flattened(),
    )?;
    put_bytes(out, [in_four(0), in_four(0)].as_flattened())
}

/// Adds the body of a response. After an error some of it stands there.
pub(crate) fn put_create_response(
    response: CreateResponse,
    out: &mut Vec<u8>,
) -> Result<(), WireFault>
    ensures ok { OnOk result (out.new.items ≡
        out.old.items ++ joined (create_response_fields response)) }
    ensures fits { OnOk result (AllFit (create_response_fields response)) }
    ensures kept { take (length out.old.items) out.new.items ≡ out.old.items }
{
    put_response_fields(&response, out)?;
    Ok(())
}
