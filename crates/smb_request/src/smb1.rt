//! SMB_COM_NEGOTIATE as a connection's first payload ([MS-SMB2] 3.3.5.3.1, 3.3.5.3.2).

ghost use Rattle.std.specs.Prelude.{◌≡◌};
ghost use Rattle.smb_body.specs.Replies.{ReplyValue};
ghost use Rattle.smb_request.specs.Smb1.{answer_to_smb1, reply_to_smb1};

use smb_body::Smb1Dialects;
use smb_head::{Header, HeaderFlags};
use smb_wire::{Command, Dialect, NtStatus};

/// What an SMB_COM_NEGOTIATE is answered with: a revision, and the dialect that stands from now on.
#[derive(Clone, Copy, Debug, PartialEq, Eq)]
pub struct Smb1Answer {
    pub dialect_revision: u16,
    pub dialect: Option<Dialect>,
}

/// The revision that says that the client is to choose a dialect by an SMB2 NEGOTIATE.
const WILDCARD_REVISION: u16 = 0x02FF;

/// The header of the reply: to MessageId 0, with one credit.
pub fn reply_header() -> Header
    ensures { (response : ReplyValue) → result ≡ (reply_to_smb1 response).header }
{
    Header {
        credit_charge: 0,
        status: NtStatus::Success.code(),
        command: Command::Negotiate.code(),
        credits: 1,
        flags: HeaderFlags(1),
        next_command: 0,
        message_id: 0,
        reserved: 0,
        tree_id: 0,
        session_id: 0,
        signature: [0; 16],
    }
}

/// What an SMB_COM_NEGOTIATE with these dialects is answered with, or None where it ends the connection.
pub fn answer(dialects: Smb1Dialects) -> Option<Smb1Answer>
    ensures { result ≡ answer_to_smb1 dialects }
{
    if dialects.smb_2_wildcard {
        Some(Smb1Answer {
            dialect_revision: WILDCARD_REVISION,
            dialect: None,
        })
    } else if dialects.smb_2_002 {
        Some(Smb1Answer {
            dialect_revision: Dialect::Smb202.revision(),
            dialect: Some(Dialect::Smb202),
        })
    } else {
        None
    }
}
