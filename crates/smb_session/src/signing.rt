//! How the messages of a session are signed ([MS-SMB2] 3.3.1.8).

ghost use Rattle.std.specs.Prelude.{◌≡◌, ◌||◌};
ghost use Rattle.std.specs.Option.{option_map};
ghost use Rattle.smb_session.specs.declared.signing.Signing.{Signing};

use smb_signing::Key;

/// By which key the messages of a session are signed, and whether each of its requests has to be.
#[derive(Clone, Copy, Debug)]
pub struct Signing {
    /// Session.SessionKey.
    pub key: Key,
    /// Session.SigningRequired: a request that is not signed is refused.
    pub required: bool,
}

/// How a session's messages are signed whose client may ask that each of its requests is ([MS-SMB2] 3.3.5.5.3).
pub(crate) fn signing_asked(signing: Option<Signing>, required: bool) -> Option<Signing>
    ensures { result ≡ option_map (λ (signing : Signing). record signing { required = signing.required || required }) signing }
{
    let Signing {
        key,
        required: always,
    } = signing?;
    Some(Signing {
        key,
        required: always || required,
    })
}
