//! Signatures that are computed before they are asked for.

ghost use Rattle.std.specs.Prelude.{◌≡◌, ◌↔◌, IfSome, IsTrue, take, drop};
ghost use Rattle.smb_signing.specs.Signature.{signature};

use crate::key::{Key, are_equal, parts};

/// The signature of some message by a key.
#[derive(Clone, Copy)]
pub struct KnownSignature {
    pub key: Key,
    pub own: [u8; 16],
}

/// A message's signature by a key: the known one, where that is by the same key.
fn own_signature(key: &Key, message: &[u8], known: Option<KnownSignature>) -> [u8; 16]
    requires { IfSome known (λ k. k.own ≡ signature k.key.bytes message.now) }
    ensures { result ≡ signature key.now.bytes message.now }
{
    match known {
        Some(known) if are_equal(&known.key.bytes(), &key.bytes()) => known.own,
        _ => key.signature(message),
    }
}

impl Key {
    /// Whether the signature in a message is its own, as [`has_signed`](Key::has_signed) says. Nothing is hashed where
    /// the message's signature by this key is known.
    pub fn has_signed_known(&self, message: &[u8], known: Option<KnownSignature>) -> bool
        requires { IfSome known (λ k. k.own ≡ signature k.key.bytes message.now) }
        ensures { IsTrue result ↔ (take 16 (drop 48 message.now) ≡ signature self.now.bytes message.now) }
    {
        let (_, found, _) = parts(message);
        are_equal(found, &own_signature(self, message, known))
    }
}
