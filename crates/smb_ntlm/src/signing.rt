//! Whether the messages of accounts' sessions are signed.

ghost use Rattle.std.specs.Prelude.{◌≡◌};
ghost use Rattle.smb_ntlm.specs.SigningModes.{is_on, is_required, signing_by};

use smb_session::Signing;
use smb_signing::Key;

/// Whether the messages of accounts' sessions are signed ([MS-SMB2] 3.3.5.5.3). Those of guests never are.
#[derive(Clone, Copy, Debug, PartialEq, Eq)]
pub enum SigningMode {
    /// No session has a key, and each account is shown to its client as a guest.
    Off,
    /// Accounts' sessions have a key, and a request is checked where it is signed.
    Offered,
    /// Accounts' sessions have a key, and each of their requests has to be signed.
    Required,
}

impl SigningMode {
    /// Whether accounts' sessions have a key.
    pub(crate) fn is_on(self) -> bool
        ensures { result ≡ is_on self }
    {
        match self {
            SigningMode::Off => false,
            SigningMode::Offered | SigningMode::Required => true,
        }
    }

    /// Whether each request of an account's session has to be signed.
    pub(crate) fn is_required(self) -> bool
        ensures { result ≡ is_required self }
    {
        match self {
            SigningMode::Off | SigningMode::Offered => false,
            SigningMode::Required => true,
        }
    }

    /// How an account's session with this key is signed, if it is.
    pub(crate) fn signing_by(self, key: [u8; 16]) -> Option<Signing>
        ensures { result ≡ signing_by self key }
    {
        if !self.is_on() {
            return None;
        }
        Some(Signing {
            key: Key::new(key),
            required: self.is_required(),
        })
    }
}
