//! Signatures of recorded messages.

mod recorded;
mod rfc4231;

use crate::{Key, Message, signatures_of_four};
use hex::FromHex;
use recorded::{IMPACKET, RCLONE, RCLONE_AGAIN, SMBCLIENT, SMBCLIENT_202, Session};
use std::alloc::Global;
use std::test::Fail;

/// Whether a message has its signature, and has it no more where a bit of it is another.
fn is_signed_as_sent(key: &Key, message: &mut [u8]) -> bool {
    if message.len() < 64 || !key.has_signed(message) {
        return false;
    }
    message[63] ^= 1;
    let is_noticed = !key.has_signed(message);
    message[63] ^= 1;
    is_noticed
}

/// Whether the signature that is put into a message, in place of sixteen other bytes, is the one that was sent.
fn signs_as_sent(alloc: Global, key: &Key, sent: &[u8]) -> bool {
    let Ok(mut message) = Vec::from_slice(alloc, sent) else {
        return false;
    };
    if message.len() < 64 {
        return false;
    }
    message[48..64].copy_from_slice(&[0x55; 16]);
    key.sign(&mut message);
    message.as_slice() == sent
}

/// How many messages of a session are signed as they were sent, and None where one is not.
fn signed_in(alloc: Global, session: &Session) -> Option<usize> {
    let key = Key::new(<[u8; 16] as FromHex>::from_hex(session.key).ok()?);
    let mut count = 0usize;
    for line in session.messages.lines() {
        let mut message = hex::decode(alloc, line).ok()?;
        if !signs_as_sent(alloc, &key, &message) || !is_signed_as_sent(&key, &mut message) {
            return None;
        }
        count = count.saturating_add(1);
    }
    Some(count)
}

#[test]
fn recorded_messages_are_signed(rt: HostRuntime) {
    for (session, count) in [
        (SMBCLIENT, 61),
        (SMBCLIENT_202, 39),
        (IMPACKET, 1),
        (RCLONE, 41),
        (RCLONE_AGAIN, 21),
    ] {
        assert!(rt;
            signed_in(rt.alloc(), &session) == Some(count),
            "{count} messages"
        );
    }
}

/// The first message of a session, and its key.
fn first_of(alloc: Global, session: &Session) -> Option<(Key, Vec<u8>)> {
    let key = Key::new(<[u8; 16] as FromHex>::from_hex(session.key).ok()?);
    let message = hex::decode(alloc, session.messages.lines().next()?).ok()?;
    Some((key, message))
}

/// Whether a message was sent with this signature.
fn was_signed(message: &[u8], signature: &[u8; 16]) -> bool {
    message.len() >= 64 && message[48..64] == signature[..]
}

/// Whether the first messages of four sessions have their signatures, and three of them beside a missing one.
fn four_are_signed(alloc: Global) -> Option<bool> {
    let (one, first) = first_of(alloc, &SMBCLIENT)?;
    let (two, second) = first_of(alloc, &SMBCLIENT_202)?;
    let (three, third) = first_of(alloc, &RCLONE)?;
    let (four, fourth) = first_of(alloc, &RCLONE_AGAIN)?;
    let (w, x, y, z) = signatures_of_four(
        Some(Message {
            key: one,
            bytes: &first,
        }),
        Some(Message {
            key: two,
            bytes: &second,
        }),
        Some(Message {
            key: three,
            bytes: &third,
        }),
        Some(Message {
            key: four,
            bytes: &fourth,
        }),
    );
    Some(
        was_signed(&first, &w)
            && was_signed(&second, &x)
            && was_signed(&third, &y)
            && was_signed(&fourth, &z),
    )
}

#[test]
fn four_recorded_messages_are_signed_at_once(rt: HostRuntime) {
    assert!(rt; four_are_signed(rt.alloc()) == Some(true));
}

#[test]
fn no_byte_of_a_key_is_shown(rt: HostRuntime) -> Result<(), Fail> {
    let key = Key::new([9; 16]);
    assert_eq!(rt; format!(in rt.alloc(); "{key:?}")?.as_str(), "Key { .. }");
    Ok(())
}
