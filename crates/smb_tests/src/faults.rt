//! Readers and writers over memory that fail at a given call or never end, under both commands.

use smb_config::BUILT_IN;
use smb_replay::{replay_text, show_text};
use std::alloc::Global;
use std::io;
use std::io::{ErrorKind, Read, Write};

/// A reader that gives a text, a few bytes at a call, and fails at a call.
#[derive(Drop)]
struct Failing<'a> {
    text: &'a [u8],
    calls: u32,
    kind: ErrorKind,
}

impl Read for Failing<'_> {
    fn read(&mut self, buffer: &mut [u8]) -> io::Result<usize> {
        if self.calls == 0 {
            return Err(io::Error::from(self.kind));
        }
        self.calls -= 1;
        let count = self.text.len().min(buffer.len()).min(5);
        let (front, back) = self.text.split_at(count);
        buffer[..count].copy_from_slice(front);
        self.text = back;
        Ok(count)
    }
}

/// A reader that never ends.
#[derive(Drop)]
struct Endless;

impl Read for Endless {
    fn read(&mut self, buffer: &mut [u8]) -> io::Result<usize> {
        buffer.fill(b'#');
        Ok(buffer.len())
    }
}

/// A writer that takes some calls, and then fails.
#[derive(Drop)]
struct Full {
    calls: u32,
}

impl Write for Full {
    fn write(&mut self, bytes: &[u8]) -> io::Result<usize> {
        if self.calls == 0 {
            return Err(io::Error::from(ErrorKind::StorageFull));
        }
        self.calls -= 1;
        Ok(bytes.len())
    }

    fn flush(&mut self) -> io::Result<()> {
        Ok(())
    }
}

/// Whether a replay of an input has this status, prints nothing and reports this.
fn replay_stops<R: Read + Drop>(
    alloc: Global,
    config: &str,
    input: R,
    status: u8,
    told: &str,
) -> bool {
    let mut out = Vec::new(alloc);
    let mut err = Vec::new(alloc);
    let found = replay_text(alloc, config, input, &mut out, &mut err);
    found == status && out.is_empty() && err.as_slice() == told.as_bytes()
}

/// Whether the listing of an input has this status, prints nothing and reports this.
fn show_stops<R: Read + Drop>(alloc: Global, input: R, status: u8, told: &str) -> bool {
    let mut out = Vec::new(alloc);
    let mut err = Vec::new(alloc);
    let found = show_text(alloc, input, &mut out, &mut err);
    found == status && out.is_empty() && err.as_slice() == told.as_bytes()
}

/// Whether both commands stop at a reader that fails.
fn both_stop(alloc: Global, calls: u32, kind: ErrorKind, status: u8, told: &str) -> bool {
    let text = b"+ 1\n> 1 0 85\n";
    let input = Failing { text, calls, kind };
    if !replay_stops(alloc, BUILT_IN, input, status, told) {
        return false;
    }
    let text = b"00000044fe";
    show_stops(alloc, Failing { text, calls, kind }, status, told)
}

#[test]
fn a_read_fails(rt: HostRuntime) {
    for calls in 0..3u32 {
        let failed = ErrorKind::ConnectionReset;
        assert!(rt; both_stop(rt.alloc(), calls, failed, 1, "input: failed\n"));
        let wanting = ErrorKind::OutOfMemory;
        assert!(rt; both_stop(rt.alloc(), calls, wanting, 3, "no memory\n"));
    }
}

#[test]
fn a_script_is_too_long(rt: HostRuntime) {
    let told = "input too long\n";
    assert!(rt; replay_stops(rt.alloc(), BUILT_IN, Endless, 1, told));
}

#[test]
fn a_stream_is_too_long(rt: HostRuntime) {
    assert!(rt; show_stops(rt.alloc(), Endless, 1, "input too long\n"));
}

#[test]
fn a_configuration_is_refused_first(rt: HostRuntime) {
    let input = Failing {
        text: b"",
        calls: 0,
        kind: ErrorKind::ConnectionReset,
    };
    let told = "config: refused\n";
    assert!(rt; replay_stops(rt.alloc(), "share = 1", input, 1, told));
}

/// Whether a replay reports that its writer fails.
fn replay_is_cut(alloc: Global, calls: u32) -> bool {
    let mut out = Full { calls };
    let mut err = Vec::new(alloc);
    let text = b"+ 1\n> 1 0 85\n?\n".as_slice();
    let status = replay_text(alloc, BUILT_IN, text, &mut out, &mut err);
    status == 1 && err.as_slice() == b"output: failed\n".as_slice()
}

/// Whether a listing reports that its writer fails.
fn show_is_cut(alloc: Global) -> bool {
    let mut out = Full { calls: 0 };
    let mut err = Vec::new(alloc);
    let status = show_text(alloc, b"85".as_slice(), &mut out, &mut err);
    status == 1 && err.as_slice() == b"output: failed\n".as_slice()
}

#[test]
fn a_write_fails(rt: HostRuntime) {
    assert!(rt; replay_is_cut(rt.alloc(), 0));
    assert!(rt; replay_is_cut(rt.alloc(), 1));
    assert!(rt; show_is_cut(rt.alloc()));
}
