//! Dialects and elements of a LOCK over borrowed bytes.

use smb_body::{DialectRevision, Dialects, LockElement, LockList};
use smb_wire::LockFlags;

/// Whether bytes are two dialects, the second of which is this.
fn ends_in(bytes: &[u8], last: DialectRevision) -> bool {
    let Some(dialects) = Dialects::of(bytes) else {
        return false;
    };
    dialects.len() == 2
        && dialects.get(1) == Some(last)
        && dialects.get(2).is_none()
        && dialects.bytes() == bytes
}

#[test]
fn dialects(rt: HostRuntime) {
    assert!(rt; ends_in(b"\x02\x02\x10\x02", DialectRevision(0x0210)));
    assert!(rt; Dialects::of(b"\x02\x02\x10").is_none());
}

/// Whether bytes are this one element.
fn are_one(bytes: &[u8], element: LockElement) -> bool {
    let Some(locks) = LockList::of(bytes) else {
        return false;
    };
    locks.len() == 1
        && locks.get(0) == Some(element)
        && locks.get(1).is_none()
        && locks.bytes() == bytes
}

#[test]
fn locks(rt: HostRuntime) {
    let bytes = b"\x64\0\0\0\0\0\0\0\x0a\0\0\0\0\0\0\0\x12\0\0\0\x07\0\0\0";
    let element = LockElement {
        offset: 100,
        length: 10,
        flags: LockFlags(0x12),
        reserved: 7,
    };
    assert!(rt; are_one(bytes, element));
    assert!(rt; LockList::of(&bytes[1..]).is_none());
}
