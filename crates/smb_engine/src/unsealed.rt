//! Bytes that are sent, of which the last messages may still be to be signed ([MS-SMB2] 3.3.4.1.1).

ghost use Rattle.std.specs.Prelude.{◌≡◌, length, take};

use smb_head::Unsigned;
use std::marker::Model;

/// The bytes of frames. What they are is what they will be once all their messages are signed: messages of several
/// frames are signed side by side.
#[derive(Drop)]
pub(crate) struct Unsealed {
    pub(crate) bytes: Vec<u8>,
    pub(crate) unsigned: Unsigned,
}

impl Model for Unsealed {
    ghost use Rattle.std.specs.Prelude.{ℕ, List, length};
    ghost use Rattle.smb_head.specs.Sealed.{AreApart, sealed};

    ghost Value = { List ℕ };

    ghost view = { λ out. sealed out.unsigned out.bytes.items };

    ghost invariant = { λ out. AreApart 0 out.unsigned (length out.bytes.items) };
}

impl Unsealed {
    /// These bytes, of which no message is to be signed.
    pub(crate) fn new(bytes: Vec<u8>) -> Unsealed
        ensures { result ≡ bytes.items }
    {
        Unsealed {
            bytes,
            unsigned: Unsigned::new(),
        }
    }

    /// How many bytes they are.
    pub(crate) fn len(&self) -> usize
        ensures { result ≡ length self.now }
    {
        self.bytes.len()
    }

    /// Leaves the first so many of them.
    pub(crate) fn truncate(&mut self, len: usize)
        ensures { self.new ≡ take len self.old }
    {
        self.unsigned.sign(&mut self.bytes);
        self.bytes.truncate(len);
    }

    /// The bytes, with all messages signed.
    pub(crate) fn into_bytes(self) -> Vec<u8>
        ensures { result.items ≡ self }
    {
        let mut bytes = self.bytes;
        let mut unsigned = self.unsigned;
        unsigned.sign(&mut bytes);
        bytes
    }
}
