//! The signature of a request, and the key of its response ([MS-SMB2] 3.3.5.2.4, 3.3.4.1.1).

ghost use Rattle.std.specs.Prelude.{ℕ, List, ◌≡◌, IfSome};
ghost use Rattle.std.specs.Option.{option_map};
ghost use Rattle.std.specs.Str.{bytes_eq};
ghost use Rattle.smb_signing.specs.Signature.{signature};
ghost use Rattle.smb_session.specs.declared.signing.Signing.{Signing};
ghost use Rattle.smb_head.specs.Headers.{header_of};
ghost use Rattle.smb_head.specs.Chains.{is_signed};
ghost use Rattle.smb_session.specs.Table.{signing_of};
ghost use Rattle.smb_request.specs.declared.context.Context.{Context};
ghost use Rattle.smb_request.specs.Call.{request_ids};
ghost use Rattle.smb_request.specs.Request.{signature_refusal, is_set_up, response_key};
ghost use Rattle.smb_request.specs.State.{ServerState};

use super::call::ids_under;
use super::context::Context;
use super::response::Answered;
use super::server::Server;
use bitflags::Flags;
use smb_head::{Header, HeaderFlags};
use smb_opens::Opens;
use smb_refusals::RequestRefusal;
use smb_session::{Authenticator, Signing};
use smb_signing::{Key, KnownSignature};
use smb_tree::Tree;
use smb_wire::{Command, NtStatus};

/// Whether a request bears a signature.
fn is_signed(header: &Header) -> bool
    ensures { (request : List ℕ) → header.now ≡ header_of request → result ≡ is_signed request }
{
    header.flags.contains(HeaderFlags::SIGNED)
}

/// Whether the signature of a request is its own by a key. It may be known already by some key.
fn bears_signature(key: Key, request: &[u8], known: Option<KnownSignature>) -> bool
    requires { IfSome known (λ k. k.own ≡ signature k.key.bytes request.now) }
    ensures { result ≡ bytes_eq (header_of request.now).signature (signature key.bytes request.now) }
{
    key.has_signed_known(request, known)
}

/// Whether a request that was answered so let a session in: a SESSION_SETUP that succeeded.
fn is_set_up(header: &Header, status: NtStatus) -> bool
    ensures { result ≡ is_set_up header.now.command.0 status }
{
    matches!(status, NtStatus::Success) && header.command.0 == Command::SessionSetup.code().0
}

/// The key of a session's messages, where they are signed.
fn key_of(signing: Option<Signing>) -> Option<Key>
    ensures { result ≡ option_map (λ (signing : Signing). signing.key) signing }
{
    match signing {
        Some(Signing { key, .. }) => Some(key),
        None => None,
    }
}

/// Why a request is refused by its signature, where the messages of its session are signed. Its own may be known already by
/// some key.
pub(crate) fn signature_refusal(
    signing: Option<Signing>,
    header: &Header,
    request: &[u8],
    known: Option<KnownSignature>,
) -> Option<RequestRefusal>
    requires header { header.now ≡ header_of request.now }
    requires known { IfSome known (λ k. k.own ≡ signature k.key.bytes request.now) }
    ensures { result ≡ signature_refusal signing request.now }
{
    let Some(Signing { key, required }) = signing else {
        return None;
    };
    if !is_signed(header) {
        return if required {
            Some(RequestRefusal::NotSigned)
        } else {
            None
        };
    }
    if bears_signature(key, request, known) {
        None
    } else {
        Some(RequestRefusal::SignatureWrong)
    }
}

impl<A: Authenticator + Drop, T: Tree + Drop, O: Opens + Drop> Server<A, T, O> {
    /// How the messages of the session are signed that a request behind the requests of a context acts under; None where
    /// they are not.
    pub fn signing(&self, connection: u64, context: Context, header: &Header) -> Option<Signing>
        ensures { (request : List ℕ) → header.now ≡ header_of request →
            result ≡ signing_of self.now.sessions.table connection (request_ids context request).session_id }
    {
        let ids = ids_under(context, header);
        self.sessions.signing(connection, ids.session_id)
    }

    /// The key that the response to a request is signed by; None where it is not. The messages of the session that the
    /// request acts under were signed so before it was performed.
    pub fn response_key(
        &self,
        connection: u64,
        signing: Option<Signing>,
        header: &Header,
        answered: &Answered,
    ) -> Option<Key>
        ensures { (before : ServerState A) (context : Context) (request : List ℕ) → header.now ≡ header_of request →
            signing ≡ signing_of before.sessions.table connection (request_ids context request).session_id →
            result ≡ response_key before self.now connection context request answered.now.ids answered.now.status }
    {
        if signing.is_some() && is_signed(header) {
            return key_of(signing);
        }
        if is_set_up(header, answered.status) {
            return key_of(self.sessions.signing(connection, answered.ids.session_id));
        }
        None
    }
}
