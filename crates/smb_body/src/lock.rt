//! LOCK ([MS-SMB2] 2.2.26).

ghost use Rattle.std.specs.Prelude.{◌≡◌, ◌++◌, ◌≤◌, length, take, is_some, IfSome, OnOk, IfErr, false};
ghost use Rattle.smb_wire.specs.Fields.{joined};
ghost use Rattle.smb_body.specs.Refusals.{body_refusal};
ghost use Rattle.smb_body.specs.Lock.{lock_asked, lock_request_fields, lock_spelling, FitsLock};
ghost use Rattle.smb_body.specs.Readings.{is_lock_too_long, is_lock, lock_of};

use super::buffer::{body, file_id_in};
use super::fault::BodyFault;
use super::lock_list::LockList;
use super::numbers::{Number, put_numbers};
use smb_wire::{FileId, WireFault, put_bytes, u16_in, u32_in};

/// The sequence of a LOCK, for replays. The profile ignores it.
#[derive(Clone, Copy)]
pub struct LockSequence(pub u32);

/// A LOCK request ([MS-SMB2] 2.2.26).
#[derive(Clone, Copy)]
pub struct LockRequest<'a> {
    pub lock_sequence: LockSequence,
    pub file_id: FileId,
    pub locks: LockList<'a>,
}

/// What a LOCK request says, or None where it says nothing.
pub(crate) fn read_lock(request: &[u8]) -> Option<LockRequest<'_>>
    ensures some { is_some result ≡ is_lock request.now }
    ensures value { IfSome result (λ r. lock_asked r ≡ lock_of request.now) }
{
    let body = body(request);
    if body.len() < 24 || u16_in(body, 0) != 48 {
        return None;
    }
    let count = u16_in(body, 2) as usize;
    if count == 0 || body.len() < 24 + 24 * count {
        return None;
    }
    let locks = LockList::of(&body[24..24 + 24 * count])?;
    Some(LockRequest {
        lock_sequence: LockSequence(u32_in(body, 4)),
        file_id: file_id_in(body, 8),
        locks,
    })
}

/// Adds the fixed part. After an error some of it stands there.
fn put_fixed(request: &LockRequest<'_>, out: &mut Vec<u8>) -> Result<(), WireFault>
    requires { length (lock_asked request.now).locks ≤ 65535 }
    ensures ok { OnOk result (out.new.items ≡
        out.old.items ++ joined (lock_request_fields (lock_asked request.now))) }
    ensures kept { take (length out.old.items) out.new.items ≡ out.old.items }
{
    put_numbers(
        &[
            Number::U16(48),
            Number::U16(request.locks.len() as u16),
            Number::U32(request.lock_sequence.0),
            Number::U64(request.file_id.persistent),
            Number::U64(request.file_id.volatile),
        ],
        out,
    )
}

/// Adds the body. After an error some of it stands there.
pub(crate) fn put_lock(request: LockRequest<'_>, out: &mut Vec<u8>) -> Result<(), BodyFault>
    ensures ok { OnOk result (out.new.items ≡
        out.old.items ++ lock_spelling (lock_asked request.entry)) }
    ensures fits { OnOk result (FitsLock (lock_asked request.entry)) }
    ensures short { OnOk result (is_lock_too_long (lock_asked request.entry) ≡ false) }
    ensures fault { IfErr result (λ fault. fault ≡
        body_refusal (is_lock_too_long (lock_asked request.entry))) }
    ensures kept { take (length out.old.items) out.new.items ≡ out.old.items }
{
    if request.locks.len() > 65_535 {
        return Err(BodyFault::TooLong);
    }
    put_fixed(&request, out)?;
    put_bytes(out, request.locks.bytes())?;
    Ok(())
}
