//! The sentences of a login by NTLM.

use smb_refusals::LoginRefusal;

/// Why a login by NTLM is denied.
pub(crate) fn login_sentence(refusal: LoginRefusal) -> &'static str {
    match refusal {
        LoginRefusal::TokenUnreadable => "the token is too long, or neither a message nor SPNEGO",
        LoginRefusal::MessageUnknown => "the message is neither NEGOTIATE nor AUTHENTICATE",
        LoginRefusal::NoUnicode => "a NEGOTIATE without UNICODE",
        LoginRefusal::LoginUnreadable => "the AUTHENTICATE is cut, or without UNICODE",
        LoginRefusal::ProofWrong => "the account's proof is wrong, or that of NTLM version 1",
        LoginRefusal::NoGuests => "no such account, and guests may not come in",
    }
}
