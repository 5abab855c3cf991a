//! Who finds out who a client is ([MS-SMB2] 3.3.5.5.3).

ghost use Rattle.std.specs.Prelude.{◌≡◌, ◌≤◌, length, IfOk, OnOk, OnErr};
ghost use Rattle.smb_wire.specs.Limits.{longest_token};
ghost use Rattle.smb_session.specs.Authenticator.{IsLawful};
ghost use Rattle.smb_session.specs.Answers.{answered_by};

use super::signing::Signing;
use smb_refusals::LoginRefusal;
use std::alloc::AllocError;

/// What an authenticator answers to a client's token.
#[derive(Debug, Drop)]
pub enum Answer {
    /// More is to come: the client is to answer this token.
    Continue(Vec<u8>),
    /// The client is a user.
    Accept {
        /// The user, of at most 256 bytes: two sessions are of the same user where these are equal.
        user: Vec<u8>,
        /// Session flags: 1 a guest, 2 without a name ([MS-SMB2] 2.2.6).
        flags: u16,
        /// Whether the user may only read.
        read_only: bool,
        /// How the session's messages are signed, if they are.
        signing: Option<Signing>,
        /// The last token, of at most 4,096 bytes.
        token: Vec<u8>,
    },
    /// The client is not let in.
    Deny,
}

/// Why a client was denied.
#[derive(Clone, Copy)]
pub struct Denial<'a> {
    pub reason: LoginRefusal,
    /// The account's name as the client typed it: the bytes as they came, in UTF-16LE. Empty where none was read.
    pub name: &'a [u8],
}

/// Finds out who a client is, by an exchange of tokens.
///
/// What it does is `meaning`: functions of its state. Tokens have at most 4,096 bytes and users at most 256;
/// flags are 0 to 3.
pub trait Authenticator {
    ghost use Rattle.smb_session.specs.Authenticator.{Meaning};

    ghost meaning: { Meaning Self };

    /// The token that it offers before any exchange, in each NEGOTIATE response.
    fn hello(&self) -> &[u8]
        ensures value { result.now ≡ meaning.hello self.now }
        ensures short { length result.now ≤ longest_token };

    /// Whether each session that it signs has to sign its requests, which each NEGOTIATE response says.
    fn requires_signing(&self) -> bool
        ensures { result ≡ meaning.requires_signing self.now };

    /// Takes a client's token in the exchange for a session. Want of memory changes nothing.
    fn step(&mut self, session: u64, token: &[u8]) -> Result<Answer, AllocError>
        ensures answer { IfOk result (λ answer. answered_by answer ≡ meaning.answer self.old session token.now) }
        ensures next { OnOk result (self.new ≡ meaning.next self.old session token.now) }
        ensures lawful { IfOk result (λ answer. IsLawful (answered_by answer)) }
        ensures err { OnErr result (self.new ≡ self.old) };

    /// Why the last step denied, where the authenticator keeps it. This takes no part in its meaning.
    fn denial(&self) -> Option<Denial<'_>> {
        None
    }
}
