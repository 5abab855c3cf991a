//! Digests of FIPS 180-4's examples, and at the edges of a block.

use crate::FourHashes;
use sha2::{Digest, Sha256};
use std::test::Fail;

/// The digest of 64 bytes and of those behind them, by the library's hasher.
fn digest_alone(byte: u8, rest: &[u8]) -> [u8; 32] {
    let mut hasher = Sha256::new();
    hasher.update([byte; 64].as_slice());
    hasher.update(rest);
    hasher.finalize()
}

/// Whether four messages, each of a block and of what is behind it, have the digests that each has alone.
fn are_as_alone(a: &[u8], b: &[u8], c: &[u8], d: &[u8]) -> bool {
    let mut hashes = FourHashes::new();
    hashes.add_blocks(&[1; 64], &[2; 64], &[3; 64], &[4; 64]);
    let (w, x, y, z) = hashes.finish(a, b, c, d);
    w == digest_alone(1, a)
        && x == digest_alone(2, b)
        && y == digest_alone(3, c)
        && z == digest_alone(4, d)
}

#[test]
fn the_standards_examples(rt: HostRuntime) -> Result<(), Fail> {
    let (w, x, y, z) = FourHashes::new().finish(
        b"abc",
        b"",
        b"abcdbcdecdefdefgefghfghighijhijkijkljklmklmnlmnomnopnopq",
        b"abc",
    );
    let abc = "ba7816bf8f01cfea414140de5dae2223b00361a396177a9cb410ff61f20015ad";
    let none = "e3b0c44298fc1c149afbf4c8996fb92427ae41e4649b934ca495991b7852b855";
    let long = "248d6a61d20638b8e5c026930c3e6039a33ce45964ff2167f6ecedd419db06c1";
    assert_eq!(rt; hex::encode(rt.alloc(), w.as_slice())?.as_str(), abc);
    assert_eq!(rt; hex::encode(rt.alloc(), x.as_slice())?.as_str(), none);
    assert_eq!(rt; hex::encode(rt.alloc(), y.as_slice())?.as_str(), long);
    assert_eq!(rt; hex::encode(rt.alloc(), z.as_slice())?.as_str(), abc);
    Ok(())
}

#[test]
fn lengths_at_the_edges_of_a_block(rt: HostRuntime) {
    let bytes = [0x5a; 130];
    assert!(rt; are_as_alone(&bytes[..0], &bytes[..1], &bytes[..55], &bytes[..56]));
    assert!(rt; are_as_alone(&bytes[..63], &bytes[..64], &bytes[..65], &bytes[..119]));
    assert!(rt; are_as_alone(&bytes[..120], &bytes[..127], &bytes[..128], &bytes[..129]));
}

#[test]
fn a_long_message_beside_short_ones(rt: HostRuntime) {
    let bytes = [0xa5; 1000];
    assert!(rt; are_as_alone(&bytes, &bytes[..3], &[], &bytes[..200]));
    assert!(rt; are_as_alone(&[], &bytes[..90], &bytes, &bytes[..61]));
    assert!(rt; are_as_alone(&bytes[..7], &bytes[..7], &bytes[..7], &bytes));
}
