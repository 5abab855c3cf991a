//! The key of a session, and signatures by it.

ghost use Rattle.std.specs.Prelude.{◌≡◌, ◌↔◌, ◌≤◌, IsTrue, length, take, drop};
ghost use Rattle.smb_signing.specs.Signature.{signature, signed};

use crate::hmac::hmac_sha256;
use std::fmt;

/// The key by which the messages of a session are signed ([MS-SMB2] 3.3.1.8, Session.SessionKey).
#[derive(Clone, Copy)]
pub struct Key {
    bytes: [u8; 16],
}

/// Shows no byte of the key.
impl fmt::Debug for Key {
    fn fmt<W: fmt::Write>(&self, f: &mut fmt::Formatter<W>) -> fmt::Result {
        f.write_str("Key { .. }")
    }
}

/// The bytes before a message's signature, the signature, which is bytes 48 to 63 of its header (2.2.1.2), and the
/// bytes behind it. Of a message that ends earlier the last parts are shorter, or empty.
pub(crate) fn parts(message: &[u8]) -> (&[u8], &[u8], &[u8])
    ensures front { result.0.now ≡ take 48 message.now }
    ensures signature { result.1.now ≡ take 16 (drop 48 message.now) }
    ensures rest { result.2.now ≡ drop 64 message.now }
{
    let (front, behind) = message.split_at(message.len().min(48));
    let (signature, rest) = behind.split_at(behind.len().min(16));
    (front, signature, rest)
}

/// Whether two slices have the same bytes. Of slices of the same length it looks at each byte, wherever the first
/// difference is.
pub(crate) fn are_equal(left: &[u8], right: &[u8]) -> bool
    ensures { IsTrue result ↔ (left.now ≡ right.now) }
{
    if left.len() != right.len() {
        return false;
    }
    let mut difference = 0;
    for i in 0..left.len() {
        difference |= left[i] ^ right[i];
    }
    difference == 0
}

impl Key {
    /// The key of these bytes.
    pub fn new(bytes: [u8; 16]) -> Key
        ensures { result.bytes ≡ bytes }
    {
        Key { bytes }
    }

    /// Its bytes, which whoever records a login has to keep.
    pub fn bytes(&self) -> [u8; 16]
        ensures { result ≡ self.now.bytes }
    {
        self.bytes
    }

    /// The signature of a message, whatever the message has in its place.
    #[tactic(auto, unfolding(crate::specs::Signature::signature))]
    pub fn signature(&self, message: &[u8]) -> [u8; 16]
        ensures { result ≡ signature self.now.bytes message.now }
    {
        let (front, _, rest) = parts(message);
        let digest = hmac_sha256(&self.bytes, front, &[0; 16], rest);
        let mut signature = [0; 16];
        signature.copy_from_slice(&digest[..16]);
        signature
    }

    /// Puts its signature into a message (`placed`), which is then right (`accepted`). What is shorter than a header,
    /// of 64 bytes, stays as it is.
    pub fn sign(&self, message: &mut [u8])
        ensures placed { message.new ≡ signed self.now.bytes message.old }
        ensures accepted { 64 ≤ length message.old → take 16 (drop 48 message.new) ≡ signature self.now.bytes message.new }
    {
        if message.len() >= 64 {
            let signature = self.signature(message);
            message[48..64].copy_from_slice(&signature);
        }
    }

    /// Whether the signature in a message is its own. What is shorter than a header has none.
    pub fn has_signed(&self, message: &[u8]) -> bool
        ensures { IsTrue result ↔ (take 16 (drop 48 message.now) ≡ signature self.now.bytes message.now) }
    {
        let (_, found, _) = parts(message);
        are_equal(found, &self.signature(message))
    }
}
