//! The sentences of SESSION_SETUP, LOGOFF, TREE_CONNECT and TREE_DISCONNECT.

use smb_refusals::{LogoffRefusal, SetupRefusal, TreeConnectRefusal, TreeDisconnectRefusal};

/// Why a SESSION_SETUP is refused.
pub(crate) fn setup_refusal(refusal: SetupRefusal) -> &'static str {
    match refusal {
        SetupRefusal::BindingAsked =>
            "BINDING is set, and no session is bound to a second connection",
        SetupRefusal::NoSessionLeft =>
            "the connection has 16 sessions, or the numbers of sessions are spent",
        SetupRefusal::UnknownSession => "SessionId is that of no session of this connection",
        SetupRefusal::SessionFinished => "the session is set up already",
        SetupRefusal::Denied => "the authenticator denied the client",
    }
}

/// Why a LOGOFF is refused.
pub(crate) fn logoff_refusal(refusal: LogoffRefusal) -> &'static str {
    match refusal {
        LogoffRefusal::UnknownSession =>
            "SessionId is that of no finished session of this connection",
    }
}

/// Why a TREE_CONNECT is refused.
pub(crate) fn tree_connect_refusal(refusal: TreeConnectRefusal) -> &'static str {
    match refusal {
        TreeConnectRefusal::UnknownSession =>
            "SessionId is that of no finished session of this connection",
        TreeConnectRefusal::UnknownShare =>
            "the path is not `\\\\server\\share`, or names another share",
        TreeConnectRefusal::NoTreeConnectLeft =>
            "the session has 16 tree connects, or their numbers are spent",
    }
}

/// Why a TREE_DISCONNECT is refused.
pub(crate) fn tree_disconnect_refusal(refusal: TreeDisconnectRefusal) -> &'static str {
    match refusal {
        TreeDisconnectRefusal::UnknownSession =>
            "SessionId is that of no finished session of this connection",
        TreeDisconnectRefusal::UnknownTreeConnect =>
            "TreeId is that of no tree connect of the session",
    }
}
