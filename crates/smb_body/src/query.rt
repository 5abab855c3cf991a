//! The response of QUERY_DIRECTORY and QUERY_INFO ([MS-SMB2] 2.2.34, 2.2.38).

ghost use Rattle.std.specs.Prelude.{◌≡◌, ◌++◌, ◌≤◌, ◌<◌, ◌+◌, ◌^◌, List, ℕ, length, take, drop, replicate, OnOk, OnErr, IfOk, IfErr, false};
ghost use Rattle.smb_wire.specs.Fields.{AllFit, joined};
ghost use Rattle.smb_body.specs.Refusals.{body_refusal};
ghost use Rattle.smb_body.specs.Replies.{reply_spelling, answers_query_directory, answers_query_info, reply_fields};
ghost use Rattle.smb_body.specs.Readings.{is_query_response_too_long};

use super::fault::BodyFault;
use super::numbers::{Number, put_numbers};
use smb_wire::{WireFault, put_bytes};
use std::alloc::AllocError;

/// A QUERY_DIRECTORY or QUERY_INFO response ([MS-SMB2] 2.2.34, 2.2.38).
#[derive(Clone, Copy)]
pub struct QueryResponse<'a> {
    pub output_buffer: &'a [u8],
}

/// Adds the fixed part of a response. After an error some of it stands there.
fn put_response_fixed(response: &QueryResponse<'_>, out: &mut Vec<u8>) -> Result<(), WireFault>
    requires { length response.now.output_buffer.now ≤ 4294967295 }
    ensures ok { OnOk result (out.new.items ≡
        out.old.items ++ joined (reply_fields (answers_query_info response.now.output_buffer.now))) }
    ensures kept { take (length out.old.items) out.new.items ≡ out.old.items }
{
    put_numbers(
        &[
            Number::U16(9),
            Number::U16(72),
            Number::U32(response.output_buffer.len() as u32),
        ],
        out,
    )
}

/// Adds the body of a response. After an error some of it stands there.
pub(crate) fn put_query_response(
    response: QueryResponse<'_>,
    out: &mut Vec<u8>,
) -> Result<(), BodyFault>
    ensures ok { OnOk result (out.new.items ≡
        out.old.items ++ (joined (reply_fields (answers_query_info response.entry.output_buffer.now))
        ++ response.entry.output_buffer.now)) }
    ensures fits { OnOk result (AllFit (reply_fields (answers_query_info response.entry.output_buffer.now))) }
    ensures short { OnOk result
        (is_query_response_too_long response.entry.output_buffer.now ≡ false) }
    ensures fault { IfErr result (λ fault. fault ≡
        body_refusal (is_query_response_too_long response.entry.output_buffer.now)) }
    ensures kept { take (length out.old.items) out.new.items ≡ out.old.items }
{
    if response.output_buffer.len() > 4_294_967_295 {
        return Err(BodyFault::TooLong);
    }
    put_response_fixed(&response, out)?;
    put_bytes(out, response.output_buffer)?;
    Ok(())
}

/// Opens a QUERY_DIRECTORY response at the end of `out`: keeps the place of its fixed part free, and tells where that is. The
/// buffer goes behind it, straight at the end of `out`.
///
/// After an error `out` is as it was.
pub fn open_query_response(out: &mut Vec<u8>) -> Result<usize, AllocError>
    ensures ok { OnOk result (out.new.items ≡ out.old.items ++ replicate 8 0) }
    ensures start { IfOk result (λ start. start ≡ length out.old.items) }
    ensures err { OnErr result (out.new.items ≡ out.old.items) }
{
    let start = out.len();
    out.extend_from_slice(&[0; 8])?;
    Ok(start)
}

/// Writes eight bytes over those from `place` on.
fn set_eight(bytes: [u8; 8], place: usize, out: &mut Vec<u8>)
    requires { place + 8 ≤ length out.old.items }
    ensures bytes { out.new.items ≡ take place out.old.items ++ (bytes ++ drop (place + 8) out.old.items) }
    ensures len { length out.new.items ≡ length out.old.items }
{
    out[place..place + 8].copy_from_slice(&bytes);
}

/// Closes the QUERY_DIRECTORY response that was opened at `start`: its buffer is what stands behind its fixed part, and has
/// fewer than 2^32 bytes. It takes no memory.
pub fn close_query_response(start: usize, out: &mut Vec<u8>)
    requires within { start + 8 ≤ length out.old.items }
    requires fits { length out.old.items < start + 8 + 2 ^ 32 }
    ensures closed { (before buffer : List ℕ) → start ≡ length before → out.old.items ≡ (before ++ replicate 8 0) ++ buffer →
        out.new.items ≡ before ++ reply_spelling (answers_query_directory buffer) }
    ensures len { length out.new.items ≡ length out.old.items }
{
    let length = out.len() - start - 8;
    let [a, b, c, d] = (length as u32).to_le_bytes();
    set_eight([9, 0, 72, 0, a, b, c, d], start, out);
}
