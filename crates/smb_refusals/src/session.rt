//! Why SESSION_SETUP, LOGOFF, TREE_CONNECT and TREE_DISCONNECT are refused ([MS-SMB2] 3.3.5.5 and behind it).

ghost use Rattle.std.specs.Prelude.{◌≡◌};
ghost use Rattle.smb_refusals.specs.Refusals.{refusal_status, refusal_label};
ghost use Rattle.smb_refusals.specs.declared.refusal.Refusal.{Refusal};

use smb_wire::NtStatus;

/// Why a SESSION_SETUP is refused, in the order in which it is looked at ([MS-SMB2] 3.3.5.5).
#[derive(Clone, Copy)]
pub enum SetupRefusal {
    /// SS1: BINDING is set, and no session is bound to a second connection.
    BindingAsked,
    /// SS2: the connection has 16 sessions, or the numbers of sessions are spent.
    NoSessionLeft,
    /// SS3: SessionId is that of no session of this connection.
    UnknownSession,
    /// SS4: the session is set up already.
    SessionFinished,
    /// SS5: the authenticator denied the client.
    Denied,
}

impl SetupRefusal {
    /// The status that answers it.
    pub fn status(self) -> NtStatus
        ensures { result ≡ refusal_status (Refusal.SessionSetup self) }
    {
        match self {
            SetupRefusal::BindingAsked
            | SetupRefusal::NoSessionLeft
            | SetupRefusal::SessionFinished => NtStatus::RequestNotAccepted,
            SetupRefusal::UnknownSession => NtStatus::UserSessionDeleted,
            SetupRefusal::Denied => NtStatus::LogonFailure,
        }
    }

    /// The label of its row in docs/PROFILE.md.
    pub fn label(self) -> &'static str
        ensures { result.now ≡ refusal_label (Refusal.SessionSetup self) }
    {
        match self {
            SetupRefusal::BindingAsked => "SS1",
            SetupRefusal::NoSessionLeft => "SS2",
            SetupRefusal::UnknownSession => "SS3",
            SetupRefusal::SessionFinished => "SS4",
            SetupRefusal::Denied => "SS5",
        }
    }
}

/// Why a LOGOFF is refused, in the order in which it is looked at ([MS-SMB2] 3.3.5.6).
#[derive(Clone, Copy)]
pub enum LogoffRefusal {
    /// LO1: SessionId is that of no finished session of this connection.
    UnknownSession,
}

impl LogoffRefusal {
    /// The status that answers it.
    pub fn status(self) -> NtStatus
        ensures { result ≡ refusal_status (Refusal.Logoff self) }
    {
        match self {
            LogoffRefusal::UnknownSession => NtStatus::UserSessionDeleted,
        }
    }

    /// The label of its row in docs/PROFILE.md.
    pub fn label(self) -> &'static str
        ensures { result.now ≡ refusal_label (Refusal.Logoff self) }
    {
        match self {
            LogoffRefusal::UnknownSession => "LO1",
        }
    }
}

/// Why a TREE_CONNECT is refused, in the order in which it is looked at ([MS-SMB2] 3.3.5.7).
#[derive(Clone, Copy)]
pub enum TreeConnectRefusal {
    /// TC1: SessionId is that of no finished session of this connection.
    UnknownSession,
    /// TC2: the path is not `\\server\share`, or names another share.
    UnknownShare,
    /// TC3: the session has 16 tree connects, or their numbers are spent.
    NoTreeConnectLeft,
}

impl TreeConnectRefusal {
    /// The status that answers it.
    pub fn status(self) -> NtStatus
        ensures { result ≡ refusal_status (Refusal.TreeConnect self) }
    {
        match self {
            TreeConnectRefusal::UnknownSession => NtStatus::UserSessionDeleted,
            TreeConnectRefusal::UnknownShare => NtStatus::BadNetworkName,
            TreeConnectRefusal::NoTreeConnectLeft => NtStatus::RequestNotAccepted,
        }
    }

    /// The label of its row in docs/PROFILE.md.
    pub fn label(self) -> &'static str
        ensures { result.now ≡ refusal_label (Refusal.TreeConnect self) }
    {
        match self {
            TreeConnectRefusal::UnknownSession => "TC1",
            TreeConnectRefusal::UnknownShare => "TC2",
            TreeConnectRefusal::NoTreeConnectLeft => "TC3",
        }
    }
}

/// Why a TREE_DISCONNECT is refused, in the order in which it is looked at ([MS-SMB2] 3.3.5.8).
#[derive(Clone, Copy)]
pub enum TreeDisconnectRefusal {
    /// TD1: SessionId is that of no finished session of this connection.
    UnknownSession,
    /// TD2: TreeId is that of no tree connect of the session.
    UnknownTreeConnect,
}

impl TreeDisconnectRefusal {
    /// The status that answers it.
    pub fn status(self) -> NtStatus
        ensures { result ≡ refusal_status (Refusal.TreeDisconnect self) }
    {
        match self {
            TreeDisconnectRefusal::UnknownSession => NtStatus::UserSessionDeleted,
            TreeDisconnectRefusal::UnknownTreeConnect => NtStatus::NetworkNameDeleted,
        }
    }

    /// The label of its row in docs/PROFILE.md.
    pub fn label(self) -> &'static str
        ensures { result.now ≡ refusal_label (Refusal.TreeDisconnect self) }
    {
        match self {
            TreeDisconnectRefusal::UnknownSession => "TD1",
            TreeDisconnectRefusal::UnknownTreeConnect => "TD2",
        }
    }
}
