//! The sentences of a request of any command, and of a NEGOTIATE.

use smb_refusals::{NegotiateRefusal, RequestRefusal};

/// Why a request of any command is refused.
pub(crate) fn request_refusal(refusal: RequestRefusal) -> &'static str {
    match refusal {
        RequestRefusal::NotSigned =>
            "the request is not signed, and the requests of its session are to be",
        RequestRefusal::SignatureWrong =>
            "the signature is not that of the request by the key of its session",
        RequestRefusal::UnknownCommand => "the command is past 0x12",
        RequestRefusal::CommandNotPerformed =>
            "the command is IOCTL, CHANGE_NOTIFY or OPLOCK_BREAK, whatever its body",
        RequestRefusal::BodyUnreadable => "the body cannot be read",
        RequestRefusal::ChargeTooSmall => "CreditCharge is less than the payload asks for",
        RequestRefusal::UnknownSession =>
            "SessionId is that of no finished session of this connection",
        RequestRefusal::UnknownTreeConnect => "TreeId is that of no tree connect of the session",
        RequestRefusal::NoOpenHandedOn =>
            "a related request names the open before it, and there is none",
        RequestRefusal::CreateBeforeRefused(_) =>
            "a related request names the open of a CREATE that was refused",
        RequestRefusal::UnknownOpen => "FileId is that of no open of this tree connect",
    }
}

/// Why a NEGOTIATE is refused.
pub(crate) fn negotiate_refusal(refusal: NegotiateRefusal) -> &'static str {
    match refusal {
        NegotiateRefusal::NoDialect => "neither 2.0.2 nor 2.1 is listed",
    }
}
