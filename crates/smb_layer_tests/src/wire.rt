//! Numbers and text with bytes set by hand ([MS-SMB2] 2.2).

mod names;
mod split;

use smb_wire::{
    Units, laws_of_fields, laws_of_numbers, laws_of_units, put_bytes, put_u8, put_u16, put_u32,
    put_u64, u8_in, u16_at, u16_in, u32_at, u32_in, u64_at, u64_in,
};
use std::alloc::Global;

/// Whether each way of reading tells the numbers that these bytes spell.
fn are_read(bytes: &[u8; 9]) -> bool {
    let found = [
        u16_at(bytes, 0).map(u64::from),
        u32_at(bytes, 0).map(u64::from),
        u64_at(bytes, 1),
        u64_at(bytes, 2),
    ];
    let numbers = [
        u64::from(u8_in(bytes, 8)),
        u64::from(u16_in(bytes, 7)),
        u64::from(u32_in(bytes, 5)),
        u64_in(bytes, 1),
    ];
    found
        == [
            Some(0x53fe),
            Some(0x424d_53fe),
            Some(0x0180_0000_4042_4d53),
            None,
        ]
        && numbers == [1, 0x0180, 0x0180_0000, 0x0180_0000_4042_4d53]
}

#[test]
fn reads_the_lowest_byte_first(rt: HostRuntime) {
    assert!(rt; are_read(&[0xfe, 0x53, 0x4d, 0x42, 0x40, 0, 0, 0x80, 1]));
}

/// A number of each width, and two bytes.
fn put_each(alloc: Global) -> Option<Vec<u8>> {
    let mut out = Vec::new(alloc);
    put_u8(&mut out, 0xff).ok()?;
    put_u16(&mut out, 0x0240).ok()?;
    put_u32(&mut out, 0x424d_53fe).ok()?;
    put_u64(&mut out, 116_444_736_000_000_000).ok()?;
    put_bytes(&mut out, &[7, 8]).ok()?;
    Some(out)
}

#[test]
fn puts_the_lowest_byte_first(rt: HostRuntime) {
    let want = [
        0xff, 0x40, 2, 0xfe, 0x53, 0x4d, 0x42, 0, 0x80, 0x3e, 0xd5, 0xde, 0xb1, 0x9d, 1, 7, 8,
    ];
    let found = put_each(rt.alloc());
    assert!(rt; found.is_some_and(|out| out.as_slice() == want.as_slice()));
    laws_of_numbers();
    laws_of_fields();
}

/// Whether bytes are a text of four units that are these.
fn spells(bytes: &[u8], units: [u16; 4]) -> bool {
    let Some(text) = Units::of(bytes) else {
        return false;
    };
    if text.len() != 4 {
        return false;
    }
    let found = [text.unit(0), text.unit(1), text.unit(2), text.unit(3)];
    found == units && text.range(1, 3).bytes() == &bytes[2..6] && text.bytes() == bytes
}

#[test]
fn spells_units(rt: HostRuntime) {
    let bytes = b"\x5c\0d\0\xe4\0\x00\xd8";
    assert!(rt; spells(bytes, [0x5c, 0x64, 0xe4, 0xd800]));
    assert!(rt; Units::of(&bytes[1..]).is_none());
    laws_of_units();
}
