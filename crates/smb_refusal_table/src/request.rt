//! The rows of a request of any command, and of a NEGOTIATE, in the order in which they are looked at.

use crate::table::Table;
use smb_refusals::{NegotiateRefusal, Refusal, RequestRefusal};
use smb_wire::NtStatus;

/// The status of P7 is that of the CREATE, which is shown as that.
pub(crate) const EVERY_REQUEST: Table = Table {
    name: "Every request",
    rows: &[
        Refusal::Request(RequestRefusal::NotSigned),
        Refusal::Request(RequestRefusal::SignatureWrong),
        Refusal::Request(RequestRefusal::UnknownCommand),
        Refusal::Request(RequestRefusal::CommandNotPerformed),
        Refusal::Request(RequestRefusal::BodyUnreadable),
        Refusal::Request(RequestRefusal::ChargeTooSmall),
        Refusal::Request(RequestRefusal::UnknownSession),
        Refusal::Request(RequestRefusal::UnknownTreeConnect),
        Refusal::Request(RequestRefusal::NoOpenHandedOn),
        Refusal::Request(RequestRefusal::CreateBeforeRefused(NtStatus::Success)),
        Refusal::Request(RequestRefusal::UnknownOpen),
    ],
};

pub(crate) const NEGOTIATE: Table = Table {
    name: "NEGOTIATE",
    rows: &[Refusal::Negotiate(NegotiateRefusal::NoDialect)],
};
