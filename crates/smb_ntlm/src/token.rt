//! Tokens: messages of NTLM as they come and go, by themselves or in SPNEGO (RFC 4178, 4.2).

ghost use Rattle.std.specs.Prelude.{◌≡◌, ◌≤◌, ◌++◌, ℕ, List, length};
ghost use Rattle.std.specs.Option.{option_map};
ghost use Rattle.smb_ntlm.specs.Tokens.{wrapped, wrapped_in, prefers_another, hello_token, ask_token, answer_token, last_token};

use super::der::byte_at;
use super::messages::has_signature;
use super::spnego::{FRAME, init_token, response_token};

/// A NegTokenInit (RFC 4178, 4.2.1; RFC 2743, 3.1) that lists NTLM alone.
const HELLO: [u8; 30] = [
    0x60, 0x1c, 0x06, 0x06, 0x2b, 0x06, 0x01, 0x05, 0x05, 0x02, 0xa0, 0x12, 0x30, 0x10, 0xa0, 0x0e,
    0x30, 0x0c, 0x06, 0x0a, 0x2b, 0x06, 0x01, 0x04, 0x01, 0x82, 0x37, 0x02, 0x02, 0x0a,
];

/// A NegTokenResp (RFC 4178, 4.2.2): accept-incomplete, NTLM, no token.
const ASK: [u8; 23] = [
    0xa1, 0x15, 0x30, 0x13, 0xa0, 0x03, 0x0a, 0x01, 0x01, 0xa1, 0x0c, 0x06, 0x0a, 0x2b, 0x06, 0x01,
    0x04, 0x01, 0x82, 0x37, 0x02, 0x02, 0x0a,
];

/// A NegTokenResp up to its token of 116 bytes: accept-incomplete, NTLM.
const FIRST: [u8; 29] = [
    0xa1, 0x81, 0x8e, 0x30, 0x81, 0x8b, 0xa0, 0x03, 0x0a, 0x01, 0x01, 0xa1, 0x0c, 0x06, 0x0a, 0x2b,
    0x06, 0x01, 0x04, 0x01, 0x82, 0x37, 0x02, 0x02, 0x0a, 0xa2, 0x76, 0x04, 0x74,
];

/// A NegTokenResp up to its token of 116 bytes: accept-incomplete.
const LATER: [u8; 13] = [
    0xa1, 0x7f, 0x30, 0x7d, 0xa0, 0x03, 0x0a, 0x01, 0x01, 0xa2, 0x76, 0x04, 0x74,
];

/// A NegTokenResp: accept-completed.
const DONE: [u8; 9] = [0xa1, 0x07, 0x30, 0x05, 0xa0, 0x03, 0x0a, 0x01, 0x00];

/// The token that is offered first.
pub fn hello_token() -> &'static [u8]
    ensures value { result.now ≡ hello_token }
    ensures short { length result.now ≤ 30 }
{
    &HELLO
}

/// The token that asks for NTLM.
pub fn ask_token() -> &'static [u8]
    ensures { result.now ≡ ask_token }
{
    &ASK
}

/// What a message is wrapped in.
#[derive(Clone, Copy, Debug, PartialEq, Eq)]
pub enum Wrapping {
    /// Nothing.
    Raw,
    /// A NegTokenInit.
    Init,
    /// A NegTokenResp.
    Response,
}

impl Wrapping {
    /// What stands before a message of 116 bytes in the token that answers one so wrapped.
    pub fn front(self) -> &'static [u8]
        ensures short { length result.now ≤ 29 }
        ensures before { (message : List ℕ) → length message ≡ 116 → result.now ++ message ≡ answer_token self message }
    {
        match self {
            Wrapping::Raw => &[],
            Wrapping::Init => &FIRST,
            Wrapping::Response => &LATER,
        }
    }

    /// The last token of a login.
    pub fn last_token(self) -> &'static [u8]
        ensures { result.now ≡ last_token self }
    {
        match self {
            Wrapping::Raw => &[],
            Wrapping::Init | Wrapping::Response => &DONE,
        }
    }
}

/// A message, and what it is wrapped in.
#[derive(Clone, Copy, Debug)]
pub struct Token<'a> {
    pub wrapping: Wrapping,
    pub message: &'a [u8],
}

impl<'a> Token<'a> {
    /// The message of a token, or None where it is none of the three.
    #[tactic(auto, unfolding(crate::specs::Tokens::wrapped_in))]
    pub fn read(token: &'a [u8]) -> Option<Token<'a>>
        ensures { option_map wrapped result ≡ wrapped_in token.now }
    {
        let (wrapping, message) = if has_signature(token) {
            (Wrapping::Raw, token)
        } else if byte_at(token, 0) == FRAME {
            (Wrapping::Init, init_token(token)?)
        } else {
            (Wrapping::Response, response_token(token)?)
        };
        Some(Token { wrapping, message })
    }

    /// Whether NTLM is to be asked for: it is listed, but the token is another mechanism's, or none.
    pub fn prefers_another(self) -> bool
        ensures { result ≡ prefers_another (wrapped self.entry) }
    {
        self.wrapping == Wrapping::Init && !has_signature(self.message)
    }
}
