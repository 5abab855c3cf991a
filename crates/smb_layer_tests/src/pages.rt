//! The bytes of a file in pages: that the calls succeed, with answers set by hand.

use smb_pages::Pages;
use std::alloc::Global;

/// Whether a read gives these bytes.
fn shows(pages: &Pages, alloc: Global, offset: u64, count: u64, bytes: &[u8]) -> bool {
    let mut read = Vec::new(alloc);
    pages.add_part(offset, count, &mut read).is_ok() && read.as_slice() == bytes
}

/// Puts bytes past the end of an empty file, where two pages stand.
fn puts_behind_a_hole(alloc: Global) -> bool {
    let mut pages = Pages::new(alloc);
    pages.put_at(5000, b"abc").is_ok()
        && pages.size() == 5003
        && shows(&pages, alloc, 4998, 99, b"\0\0abc")
        && shows(&pages, alloc, 4998, 3, b"\0\0a")
        && shows(&pages, alloc, 4094, 3, b"\0\0\0")
        && shows(&pages, alloc, 5003, 1, b"")
}

/// Puts bytes over those at the edge of a page.
fn puts_over_an_edge(alloc: Global) -> bool {
    let mut pages = Pages::new(alloc);
    pages.put_at(4094, b"abcd").is_ok()
        && pages.put_at(4095, b"XY").is_ok()
        && pages.put_at(5000, b"").is_ok()
        && pages.size() == 5000
        && shows(&pages, alloc, 4094, 5, b"aXYd\0")
}

/// Cuts a file within a page, and grows it again.
fn cuts_and_grows(alloc: Global) -> bool {
    let mut pages = Pages::new(alloc);
    if pages.put_at(4094, b"abcd").is_err() {
        return false;
    }
    pages.resize(4095);
    pages.resize(9000);
    shows(&pages, alloc, 4094, 5, b"a\0\0\0\0")
        && pages.put_at(4097, b"d").is_ok()
        && shows(&pages, alloc, 4094, 5, b"a\0\0d\0")
}

#[test]
fn behind_a_hole(rt: HostRuntime) {
    assert!(rt; puts_behind_a_hole(rt.alloc()));
}

#[test]
fn over_an_edge(rt: HostRuntime) {
    assert!(rt; puts_over_an_edge(rt.alloc()));
}

#[test]
fn cut_and_grown(rt: HostRuntime) {
    assert!(rt; cuts_and_grows(rt.alloc()));
}
