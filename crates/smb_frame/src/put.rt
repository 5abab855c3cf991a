//! A payload as a frame.

ghost use Rattle.std.specs.Prelude.{◌≡◌, ◌≤◌, ◌+◌, ◌∷◌, List, ℕ, ◌++◌, ◌<◌, ◌^◌, OnOk, OnErr, IfOk, IfErr, length, take, drop, replicate, reverse};
ghost use Rattle.smb_wire.specs.Number.{spelling};
ghost use Rattle.smb_frame.specs.Framed.{frame};
ghost use Rattle.smb_frame.specs.Unread.{FrameRefused};

use super::fault::FrameFault;
use std::alloc::AllocError;

/// The longest payload that a frame can say the length of, in bytes: 2^24 - 1.
const LONGEST: usize = 16_777_215;

/// Adds some bytes and then others, or nothing.
fn add_both(out: &mut Vec<u8>, front: &[u8], back: &[u8]) -> Result<(), AllocError>
    ensures ok { OnOk result (out.new.items ≡ out.old.items ++ front.now ++ back.now) }
    ensures err { OnErr result (out.new.items ≡ out.old.items) }
{
    let before = out.len();
    out.extend_from_slice(front)?;
    match out.extend_from_slice(back) {
        Ok(()) => Ok(()),
        Err(error) => {
            out.truncate(before);
            Err(error)
        }
    }
}

/// Adds the frame of a payload at the end of `out`, copying the payload once.
///
/// A payload of 2^24 bytes or more is [`FrameFault::PayloadTooLong`], whatever memory there is; after
/// it and after [`FrameFault::NoMemory`] `out` is as it was.
#[tactic(auto, unfolding(smb_wire::specs::Number::spelling))]
pub fn put_frame(payload: &[u8], out: &mut Vec<u8>) -> Result<(), FrameFault>
    ensures ok { OnOk result (out.new.items ≡ out.old.items ++ frame payload.now) }
    ensures fits { OnOk result (length payload.now < 2 ^ 24) }
    ensures err { IfErr result (FrameRefused payload.now) }
    ensures kept { OnErr result (out.new.items ≡ out.old.items) }
{
    let length = payload.len();
    if length > LONGEST {
        return Err(FrameFault::PayloadTooLong);
    }
    let [_, high, middle, low] = (length as u32).to_be_bytes();
    add_both(out, &[0, high, middle, low], payload)?;
    Ok(())
}

/// The four bytes before a payload of this length.
#[tactic(auto, unfolding(smb_wire::specs::Number::spelling))]
fn frame_head(length: usize) -> [u8; 4]
    requires { length < 2 ^ 24 }
    ensures { result ≡ 0 ∷ reverse (spelling 3 length) }
{
    let [_, high, middle, low] = (length as u32).to_be_bytes();
    [0, high, middle, low]
}

/// Writes four bytes over those from `place` on.
fn set_four(bytes: [u8; 4], place: usize, out: &mut Vec<u8>)
    requires { place + 4 ≤ length out.old.items }
    ensures bytes { out.new.items ≡ take place out.old.items ++ (bytes ++ drop (place + 4) out.old.items) }
    ensures len { length out.new.items ≡ length out.old.items }
{
    out[place..place + 4].copy_from_slice(&bytes);
}

/// How many bytes a frame has room for at first: those of any response without a buffer.
const FIRST_ROOM: usize = 160;

/// Opens a frame at the end of `out`: reserves its four first bytes, and tells where they stand. The payload
/// goes behind them, straight at the end of `out`, which has room for a short one then.
///
/// After [`FrameFault::NoMemory`], the only refusal, `out` is as it was.
pub fn open_frame(out: &mut Vec<u8>) -> Result<usize, FrameFault>
    ensures ok { OnOk result (out.new.items ≡ out.old.items ++ replicate 4 0) }
    ensures start { IfOk result (λ start. start ≡ length out.old.items) }
    ensures memory { IfErr result (λ fault. fault ≡ FrameFault.NoMemory) }
    ensures err { OnErr result (out.new.items ≡ out.old.items) }
{
    let start = out.len();
    out.reserve(FIRST_ROOM)?;
    out.extend_from_slice(&[0; 4])?;
    Ok(start)
}

/// Closes the frame that was opened at `start`: its payload is what stands behind its first four bytes, and
/// has fewer than 2^24 bytes. It takes no memory.
pub fn close_frame(start: usize, out: &mut Vec<u8>)
    requires within { start + 4 ≤ length out.old.items }
    requires fits { length out.old.items < start + 4 + 2 ^ 24 }
    ensures closed { (before payload : List ℕ) → start ≡ length before → out.old.items ≡ (before ++ replicate 4 0) ++ payload →
        out.new.items ≡ before ++ frame payload }
    ensures len { length out.new.items ≡ length out.old.items }
{
    let length = out.len() - start - 4;
    set_four(frame_head(length), start, out);
}
