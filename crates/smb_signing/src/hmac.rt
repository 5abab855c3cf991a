//! HMAC-SHA256 (RFC 2104, FIPS 180-4) by keys of at most 64 bytes.

ghost use Rattle.std.specs.Prelude.{◌≡◌, ◌≤◌, ◌++◌, length};
ghost use Rattle.sha2.specs.Sha256.{sha256};
ghost use Rattle.smb_signing.specs.Signature.{padded_key, hmac};

use sha2::{Digest, Sha256};

pub const IPAD: u8 = 0x36;

pub const OPAD: u8 = 0x5C;

/// The key filled up with zeros to a block, and a byte xored to each.
pub fn padded_key(key: &[u8], byte: u8) -> [u8; 64]
    requires { length key.now ≤ 64 }
    ensures { result ≡ padded_key key.now byte }
{
    let mut block = [byte; 64];
    for i in 0..key.len() {
        block[i] = byte ^ key[i];
    }
    block
}

/// The HMAC-SHA256 of a message in three pieces.
pub fn hmac_sha256(key: &[u8], first: &[u8], second: &[u8], third: &[u8]) -> [u8; 32]
    requires { length key.now ≤ 64 }
    ensures { result ≡ hmac sha256 key.now (first.now ++ second.now ++ third.now) }
{
    let mut inner = Sha256::new();
    inner.update(padded_key(key, IPAD).as_slice());
    inner.update(first);
    inner.update(second);
    inner.update(third);
    let digest = inner.finalize();
    let mut outer = Sha256::new();
    outer.update(padded_key(key, OPAD).as_slice());
    outer.update(digest.as_slice());
    outer.finalize()
}
