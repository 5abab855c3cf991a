//! Bodies that say nothing, and buffers that stand elsewhere than a writer puts them.

use crate::words::frames;
use smb_body::{BodyFault, Request, read_body};
use std::alloc::Global;

/// Commands with bodies that are read in none: no dialect, dialects past the end, another StructureSize, a token past
/// the end and one in the fixed part, an odd path, no lock, IOCTL, CHANGE_NOTIFY, OPLOCK_BREAK, and past the last.
const UNREADABLE: &str = "0 24000000 z60
0 24000f00 z60
0 25000100 z60
1 1900 z10 5800 2900 z48
1 1900 z10 5700 0100 z48
3 0900 0000 4800 0300 z56
10 30000000 z60
11 3900 z62
15 2000 z62
18 1800 z62
19 0400 z62";

/// Why a body behind 64 bytes is not read.
fn fault_of(alloc: Global, command: u16, words: &str) -> Option<BodyFault> {
    let request = frames(alloc, &["z64", words])?;
    read_body(command, &request).err()
}

/// Whether the command and the body of a line are unreadable.
fn is_unreadable(alloc: Global, line: &str) -> bool {
    let Some((command, words)) = line.split_once(' ') else {
        return false;
    };
    match command.parse::<u16>() {
        Ok(command) => fault_of(alloc, command, words) == Some(BodyFault::Unreadable),
        Err(_) => false,
    }
}

#[test]
fn unreadable(rt: HostRuntime) {
    for line in UNREADABLE.lines() {
        assert!(rt; is_unreadable(rt.alloc(), line), "{line}");
    }
    let short = read_body(13, &[0; 60]).err();
    assert!(rt; short == Some(BodyFault::Unreadable), "no whole header");
}

/// Where the buffer of a SESSION_SETUP or a TREE_CONNECT stands, and how long it is.
fn place_of_buffer(alloc: Global, command: u16, words: &str) -> Option<(u16, usize)> {
    let request = frames(alloc, &["z64", words])?;
    match read_body(command, &request) {
        Ok(Request::SessionSetup(setup)) => {
            Some((setup.security_buffer_offset, setup.security_buffer.len()))
        }
        Ok(Request::TreeConnect(tree)) => Some((tree.path_offset, tree.path.len())),
        _ => None,
    }
}

#[test]
fn buffers_elsewhere(rt: HostRuntime) {
    let far = place_of_buffer(rt.alloc(), 1, "1900 z10 7e00 0200 z48");
    assert!(rt; far == Some((126, 2)));
    let empty = place_of_buffer(rt.alloc(), 3, "0900 0000 ffff 0000 z56");
    assert!(rt; empty == Some((65_535, 0)));
}
