//! Why a login by NTLM is denied ([MS-NLMP] 3.2.5).

ghost use Rattle.std.specs.Prelude.{◌≡◌};
ghost use Rattle.smb_refusals.specs.Refusals.{login_label};

/// Why a login by NTLM is denied, in the order in which it is looked at. Each is answered by LOGON_FAILURE.
#[derive(Clone, Copy)]
pub enum LoginRefusal {
    /// LG1: the token is too long, or neither a message nor SPNEGO.
    TokenUnreadable,
    /// LG3: the message is neither NEGOTIATE nor AUTHENTICATE.
    MessageUnknown,
    /// LG4: a NEGOTIATE without UNICODE.
    NoUnicode,
    /// LG6: the AUTHENTICATE is cut, or without UNICODE.
    LoginUnreadable,
    /// LG8: the account's proof is wrong, or that of NTLM version 1.
    ProofWrong,
    /// LG10: no such account, and guests may not come in.
    NoGuests,
}

impl LoginRefusal {
    /// The label of its row in docs/PROFILE.md.
    pub fn label(self) -> &'static str
        ensures { result.now ≡ login_label self }
    {
        match self {
            LoginRefusal::TokenUnreadable => "LG1",
            LoginRefusal::MessageUnknown => "LG3",
            LoginRefusal::NoUnicode => "LG4",
            LoginRefusal::LoginUnreadable => "LG6",
            LoginRefusal::ProofWrong => "LG8",
            LoginRefusal::NoGuests => "LG10",
        }
    }
}
