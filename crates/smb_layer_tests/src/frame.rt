//! Frames with bytes set by hand, byte by byte.

use smb_frame::{FrameBuffer, FrameFault, laws_of_frames, put_frame};
use std::alloc::Global;

/// The longest payload of the share.
const LIMIT: u32 = 1_048_576;

/// Two frames: a payload of 3 bytes, and one of 256.
const SHORT: [u8; 7] = [0, 0, 0, 3, 0xfe, 0x53, 0x4d];

const FRONT: [u8; 4] = [0, 0, 1, 0];

/// Whether bytes, pushed one by one, are no whole frame before the last.
fn pushes_each(buffer: &mut FrameBuffer, bytes: &[u8]) -> bool {
    for byte in bytes {
        if buffer.next().is_some() || buffer.push(&[*byte]).is_err() {
            return false;
        }
    }
    true
}

/// Takes the frame that stands first, where its payload is this one.
fn takes(buffer: &mut FrameBuffer, payload: &[u8]) -> bool {
    if buffer.next() != Some(payload) {
        return false;
    }
    if buffer.next().is_some() {
        buffer.done();
    }
    buffer.is_empty() && buffer.next().is_none() && buffer.fault().is_none()
}

#[test]
fn byte_by_byte_and_one_after_the_other(rt: HostRuntime) {
    let mut buffer = FrameBuffer::new(rt.alloc(), LIMIT);
    let payload = [7u8; 256];
    let is_so = pushes_each(&mut buffer, &SHORT)
        && takes(&mut buffer, &SHORT[4..])
        && pushes_each(&mut buffer, &FRONT)
        && pushes_each(&mut buffer, &payload)
        && takes(&mut buffer, &payload);
    assert!(rt; is_so);
    laws_of_frames();
}

/// The fault of a stream that begins so.
fn fault_of(alloc: Global, bytes: &[u8]) -> Option<FrameFault> {
    let mut buffer = FrameBuffer::new(alloc, LIMIT);
    match buffer.push(bytes) {
        Ok(()) => buffer.fault(),
        Err(fault) => Some(fault),
    }
}

#[test]
fn faults(rt: HostRuntime) {
    for (bytes, fault) in [
        ([0x85u8].as_slice(), Some(FrameFault::FirstByte)),
        (&[1, 16, 0, 1], Some(FrameFault::FirstByte)),
        (&[0, 17, 0], None),
        (&[0, 16, 0, 0], None),
        (&[0, 16, 0, 1], Some(FrameFault::TooLong)),
    ] {
        assert!(rt; fault_of(rt.alloc(), bytes) == fault, "{bytes:?}");
    }
}

/// The first four bytes of the frame of so many zeros, or why there is none.
fn front_of(alloc: Global, length: usize) -> Result<[u8; 4], FrameFault> {
    let payload = vec![in alloc; 0u8; length]?;
    let mut out = Vec::new(alloc);
    put_frame(&payload, &mut out)?;
    match out.first_chunk::<4>() {
        Some(front) => Ok(*front),
        None => Err(FrameFault::FirstByte),
    }
}

#[test]
fn puts_a_frame(rt: HostRuntime) {
    assert!(rt; front_of(rt.alloc(), 3) == Ok([0, 0, 0, 3]));
    assert!(rt; front_of(rt.alloc(), 16_777_215) == Ok([0, 0xff, 0xff, 0xff]));
    let too_long = front_of(rt.alloc(), 16_777_216);
    assert!(rt; too_long == Err(FrameFault::PayloadTooLong));
}
