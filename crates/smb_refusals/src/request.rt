//! Why a request is refused before its command is looked at, and a NEGOTIATE ([MS-SMB2] 3.3.5.2 and behind it).

ghost use Rattle.std.specs.Prelude.{◌≡◌};
ghost use Rattle.smb_refusals.specs.Refusals.{refusal_status, refusal_label};
ghost use Rattle.smb_refusals.specs.declared.refusal.Refusal.{Refusal};

use smb_wire::NtStatus;

/// Why a request of any command is refused, in the order in which it is looked at ([MS-SMB2] 3.3.5.2).
#[derive(Clone, Copy)]
pub enum RequestRefusal {
    /// P0a: the request is not signed, and the requests of its session are to be.
    NotSigned,
    /// P0b: the signature is not that of the request by the key of its session.
    SignatureWrong,
    /// P1: the command is past 0x12.
    UnknownCommand,
    /// P2: the command is IOCTL, CHANGE_NOTIFY or OPLOCK_BREAK, whatever its body.
    CommandNotPerformed,
    /// P3: the body cannot be read.
    BodyUnreadable,
    /// P3b: CreditCharge is less than the payload asks for.
    ChargeTooSmall,
    /// P4: SessionId is that of no finished session of this connection.
    UnknownSession,
    /// P5: TreeId is that of no tree connect of the session.
    UnknownTreeConnect,
    /// P6: a related request names the open before it, and there is none.
    NoOpenHandedOn,
    /// P7: a related request names the open of a CREATE that was refused.
    CreateBeforeRefused(NtStatus),
    /// P8: FileId is that of no open of this tree connect.
    UnknownOpen,
}

impl RequestRefusal {
    /// The status that answers it.
    pub fn status(self) -> NtStatus
        ensures { result ≡ refusal_status (Refusal.Request self) }
    {
        match self {
            RequestRefusal::UnknownCommand
            | RequestRefusal::BodyUnreadable
            | RequestRefusal::ChargeTooSmall
            | RequestRefusal::NoOpenHandedOn => NtStatus::InvalidParameter,
            RequestRefusal::NotSigned | RequestRefusal::SignatureWrong => NtStatus::AccessDenied,
            RequestRefusal::CommandNotPerformed => NtStatus::NotSupported,
            RequestRefusal::UnknownSession => NtStatus::UserSessionDeleted,
            RequestRefusal::UnknownTreeConnect => NtStatus::NetworkNameDeleted,
            RequestRefusal::CreateBeforeRefused(status) => status,
            RequestRefusal::UnknownOpen => NtStatus::FileClosed,
        }
    }

    /// The label of its row in docs/PROFILE.md.
    pub fn label(self) -> &'static str
        ensures { result.now ≡ refusal_label (Refusal.Request self) }
    {
        match self {
            RequestRefusal::NotSigned => "P0a",
            RequestRefusal::SignatureWrong => "P0b",
            RequestRefusal::UnknownCommand => "P1",
            RequestRefusal::CommandNotPerformed => "P2",
            RequestRefusal::BodyUnreadable => "P3",
            RequestRefusal::ChargeTooSmall => "P3b",
            RequestRefusal::UnknownSession => "P4",
            RequestRefusal::UnknownTreeConnect => "P5",
            RequestRefusal::NoOpenHandedOn => "P6",
            RequestRefusal::CreateBeforeRefused(_) => "P7",
            RequestRefusal::UnknownOpen => "P8",
        }
    }
}

/// Why a NEGOTIATE is refused, in the order in which it is looked at ([MS-SMB2] 3.3.5.4).
#[derive(Clone, Copy)]
pub enum NegotiateRefusal {
    /// NG1: neither 2.0.2 nor 2.1 is listed.
    NoDialect,
}

impl NegotiateRefusal {
    /// The status that answers it.
    pub fn status(self) -> NtStatus
        ensures { result ≡ refusal_status (Refusal.Negotiate self) }
    {
        match self {
            NegotiateRefusal::NoDialect => NtStatus::NotSupported,
        }
    }

    /// The label of its row in docs/PROFILE.md.
    pub fn label(self) -> &'static str
        ensures { result.now ≡ refusal_label (Refusal.Negotiate self) }
    {
        match self {
            NegotiateRefusal::NoDialect => "NG1",
        }
    }
}
