//! HMAC-MD5 (RFC 2104) by keys of 16 bytes.

ghost use Rattle.std.specs.Prelude.{◌≡◌, ◌++◌};
ghost use Rattle.smb_ntlm.specs.Hmac.{padded, hmac};

use md5::{Digest, Md5};

const IPAD: u8 = 0x36;

const OPAD: u8 = 0x5C;

/// The key filled up with zeros to a block, and a byte xored to each.
fn padded(key: &[u8; 16], byte: u8) -> [u8; 64]
    ensures { result ≡ padded key.now byte }
{
    let mut block = [byte; 64];
    for i in 0..16 {
        block[i] = byte ^ key[i];
    }
    block
}

/// The digest of a message in two pieces.
#[tactic(auto, unfolding(crate::specs::Hmac::hmac))]
pub fn hmac_md5(key: &[u8; 16], first: &[u8], second: &[u8]) -> [u8; 16]
    ensures { result ≡ hmac key.now (first.now ++ second.now) }
{
    let mut inner = Md5::new();
    inner.update(padded(key, IPAD).as_slice());
    inner.update(first);
    inner.update(second);
    let digest = inner.finalize();
    let mut outer = Md5::new();
    outer.update(padded(key, OPAD).as_slice());
    outer.update(digest.as_slice());
    outer.finalize()
}
