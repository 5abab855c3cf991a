//! Headers and chains with bytes set by hand.

use smb_head::{
    HeadFault, Header, HeaderFlags, ReplyChain, each_header_fits, laws_of_chains, laws_of_headers,
    read_chain, read_header, write_header,
};
use smb_wire::{Command, CommandCode, laws_of_commands};
use std::alloc::Global;

/// A NEGOTIATE request's header: it asks for 31 credits.
const NEGOTIATE: [u8; 64] = [
    0xfe, 0x53, 0x4d, 0x42, 0x40, 0, 0, 0, 0, 0, 0, 0, 0, 0, 0x1f, 0, 0, 0, 0, 0, 0, 0, 0, 0, 0, 0,
    0, 0, 0, 0, 0, 0, 0, 0, 0, 0, 0, 0, 0, 0, 0, 0, 0, 0, 0, 0, 0, 0, 0, 0, 0, 0, 0, 0, 0, 0, 0, 0,
    0, 0, 0, 0, 0, 0,
];

/// A header with another byte at each place.
const EACH: [u8; 64] = [
    0xfe, 0x53, 0x4d, 0x42, 0x40, 0, 6, 7, 8, 9, 10, 11, 12, 13, 14, 15, 16, 17, 18, 19, 20, 21,
    22, 23, 24, 25, 26, 27, 28, 29, 30, 31, 32, 33, 34, 35, 36, 37, 38, 39, 40, 41, 42, 43, 44, 45,
    46, 47, 48, 49, 50, 51, 52, 53, 54, 55, 56, 57, 58, 59, 60, 61, 62, 63,
];

/// Two ECHO requests in one chain.
const CHAIN: [u8; 140] = [
    0xfe, 0x53, 0x4d, 0x42, 0x40, 0, 0, 0, 0, 0, 0, 0, 0x0d, 0, 1, 0, 0, 0, 0, 0, 0x48, 0, 0, 0, 1,
    0, 0, 0, 0, 0, 0, 0, 0, 0, 0, 0, 0, 0, 0, 0, 0, 0, 0, 0, 0, 0, 0, 0, 0, 0, 0, 0, 0, 0, 0, 0, 0,
    0, 0, 0, 0, 0, 0, 0, 4, 0, 0, 0, 0, 0, 0, 0, 0xfe, 0x53, 0x4d, 0x42, 0x40, 0, 0, 0, 0, 0, 0, 0,
    0x0d, 0, 1, 0, 0, 0, 0, 0, 0, 0, 0, 0, 2, 0, 0, 0, 0, 0, 0, 0, 0, 0, 0, 0, 0, 0, 0, 0, 0, 0, 0,
    0, 0, 0, 0, 0, 0, 0, 0, 0, 0, 0, 0, 0, 0, 0, 0, 0, 0, 0, 0, 0, 4, 0, 0, 0,
];

/// The replies to the two.
const REPLIES: [u8; 140] = [
    0xfe, 0x53, 0x4d, 0x42, 0x40, 0, 0, 0, 0, 0, 0, 0, 0x0d, 0, 1, 0, 1, 0, 0, 0, 0x48, 0, 0, 0, 1,
    0, 0, 0, 0, 0, 0, 0, 0, 0, 0, 0, 0, 0, 0, 0, 0, 0, 0, 0, 0, 0, 0, 0, 0, 0, 0, 0, 0, 0, 0, 0, 0,
    0, 0, 0, 0, 0, 0, 0, 4, 0, 0, 0, 0, 0, 0, 0, 0xfe, 0x53, 0x4d, 0x42, 0x40, 0, 0, 0, 0, 0, 0, 0,
    0x0d, 0, 1, 0, 1, 0, 0, 0, 0, 0, 0, 0, 2, 0, 0, 0, 0, 0, 0, 0, 0, 0, 0, 0, 0, 0, 0, 0, 0, 0, 0,
    0, 0, 0, 0, 0, 0, 0, 0, 0, 0, 0, 0, 0, 0, 0, 0, 0, 0, 0, 0, 0, 4, 0, 0, 0,
];

/// A header of no flags, of a command, credits and a MessageId.
fn plain(command: Command, credits: u16, message_id: u64) -> Header {
    Header {
        credit_charge: 0,
        status: 0,
        command: command.code(),
        credits,
        flags: HeaderFlags(0),
        next_command: 0,
        message_id,
        reserved: 0,
        tree_id: 0,
        session_id: 0,
        signature: [0; 16],
    }
}

/// The header with another byte at each place, as a value.
fn each() -> Header {
    Header {
        credit_charge: 0x0706,
        status: 0x0b0a_0908,
        command: CommandCode(0x0d0c),
        credits: 0x0f0e,
        flags: HeaderFlags(0x1312_1110),
        next_command: 0x1716_1514,
        message_id: 0x1f1e_1d1c_1b1a_1918,
        reserved: 0x2322_2120,
        tree_id: 0x2726_2524,
        session_id: 0x2f2e_2d2c_2b2a_2928,
        signature: [
            48, 49, 50, 51, 52, 53, 54, 55, 56, 57, 58, 59, 60, 61, 62, 63,
        ],
    }
}

/// Whether the bytes are the header's, read and written.
fn is_header(alloc: Global, bytes: &[u8], header: Header) -> bool {
    if read_header(bytes) != Ok(header) {
        return false;
    }
    let mut out = Vec::new(alloc);
    write_header(&header, &mut out).is_ok() && out.as_slice() == bytes
}

#[test]
fn headers(rt: HostRuntime) {
    let negotiate = plain(Command::Negotiate, 31, 0);
    assert!(rt; is_header(rt.alloc(), &NEGOTIATE, negotiate));
    assert!(rt; is_header(rt.alloc(), &EACH, each()));
    laws_of_headers();
    each_header_fits(each());
}

#[test]
fn commands(rt: HostRuntime) {
    assert!(rt; CommandCode(0).known() == Some(Command::Negotiate));
    assert!(rt; CommandCode(0x12).known() == Some(Command::OplockBreak));
    assert!(rt; CommandCode(0x13).known().is_none());
    assert!(rt; Command::QueryInfo.code() == CommandCode(0x10));
    laws_of_commands();
}

#[test]
fn fault_texts(rt: HostRuntime) {
    assert_eq!(rt; HeadFault::Next.number(), 4);
    let text = format!(in rt.alloc(); "{}", HeadFault::Next);
    assert!(rt; text.is_ok_and(|text| text.as_str() == "a wrong NextCommand"));
}

/// Whether the chain has two requests, with these headers.
fn are_two(first: Header, second: Header) -> bool {
    match read_chain(&CHAIN) {
        Ok(chain) => {
            chain.get(0) == Some((first, &CHAIN[..72]))
                && chain.get(1) == Some((second, &CHAIN[72..]))
                && chain.get(2).is_none()
        }
        Err(_) => false,
    }
}

#[test]
fn two_requests(rt: HostRuntime) {
    let first = Header {
        next_command: 72,
        ..plain(Command::Echo, 1, 1)
    };
    let second = plain(Command::Echo, 1, 2);
    assert!(rt; are_two(first, second));
    laws_of_chains();
}

/// How many requests the chain of two has with other bytes at two places, or its fault.
fn answered(first: (usize, u8), second: (usize, u8)) -> Result<usize, HeadFault> {
    let mut payload = CHAIN;
    if let Some(byte) = payload.get_mut(first.0) {
        *byte = first.1;
    }
    if let Some(byte) = payload.get_mut(second.0) {
        *byte = second.1;
    }
    match read_chain(&payload) {
        Ok(chain) => Ok(chain.len()),
        Err(fault) => Err(fault),
    }
}

/// The first byte as it is.
const SAME: (usize, u8) = (0, 0xfe);

/// Other bytes at two places of the chain of two, and how many requests it has then, or its fault.
const OTHER_BYTES: [((usize, u8), (usize, u8), Result<usize, HeadFault>); 14] = [
    (SAME, SAME, Ok(2)),
    ((0, 0xff), (4, 0), Err(HeadFault::Protocol)),
    ((4, 0), (16, 1), Err(HeadFault::Size)),
    ((16, 5), SAME, Err(HeadFault::FromServer)),
    ((16, 4), (20, 0x44), Err(HeadFault::RelatedFirst)),
    // No multiple of 8, below 64, 60 bytes behind it, and past the end.
    ((20, 0x44), (72, 0xff), Err(HeadFault::Next)),
    ((20, 0x38), SAME, Err(HeadFault::Next)),
    ((20, 0x50), SAME, Err(HeadFault::Next)),
    ((23, 0x80), SAME, Err(HeadFault::Next)),
    ((72, 0xff), SAME, Err(HeadFault::Protocol)),
    ((88, 1), SAME, Err(HeadFault::FromServer)),
    ((88, 4), SAME, Ok(2)),
    ((16, 0xfa), SAME, Ok(2)),
    ((20, 0), SAME, Ok(1)),
];

/// The place of the first row of `OTHER_BYTES` that is answered otherwise.
fn answered_otherwise() -> Option<usize> {
    OTHER_BYTES
        .iter()
        .position(|(first, second, want)| answered(*first, *second) != *want)
}

#[test]
fn chain_faults(rt: HostRuntime) {
    assert_eq!(rt; answered_otherwise(), None);
    assert!(rt; matches!(read_chain(&CHAIN[..63]), Err(HeadFault::Short)));
}

/// The replies to the two requests, joined. What a header says as NextCommand is not used.
fn joined(alloc: Global) -> Option<Vec<u8>> {
    let header = Header {
        flags: HeaderFlags::SERVER_TO_REDIR,
        next_command: 0x1234,
        ..plain(Command::Echo, 1, 1)
    };
    let second = Header {
        message_id: 2,
        ..header
    };
    let mut replies = ReplyChain::begin(alloc);
    replies.push(&header, &[4, 0, 0, 0]).ok()?;
    if replies.is_empty() || replies.len() != 68 {
        return None;
    }
    replies.push(&second, &[4, 0, 0, 0]).ok()?;
    Some(replies.finish())
}

#[test]
fn two_replies(rt: HostRuntime) {
    let found = joined(rt.alloc());
    assert!(rt; found.is_some_and(|payload| payload.as_slice() == REPLIES.as_slice()));
}
