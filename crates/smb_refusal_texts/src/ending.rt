//! The sentences of a connection's end.

use smb_frame::FrameFault;
use smb_head::HeadFault;
use smb_peers::Ending;

/// What is wrong with the bytes of a frame.
fn frame_fault(fault: FrameFault) -> &'static str {
    match fault {
        FrameFault::FirstByte => "a frame's first byte is not 0",
        FrameFault::TooLong => "a frame is longer than 1,048,576 bytes",
        FrameFault::PayloadTooLong => "a payload is too long for a frame",
        FrameFault::NoMemory => "no memory",
    }
}

/// What is wrong with a payload that is no chain.
fn chain_fault(fault: HeadFault) -> &'static str {
    match fault {
        HeadFault::Short => "fewer than 64 bytes are left for a header",
        HeadFault::Protocol => "ProtocolId is not 0xFE and the letters SMB",
        HeadFault::Size => "the header's StructureSize is not 64",
        HeadFault::Next => "NextCommand is neither 0 nor the place of a next header",
        HeadFault::TooMany => "another request follows the 16th",
        HeadFault::FromServer => "SERVER_TO_REDIR is set, as in a response",
        HeadFault::RelatedFirst => "the first request is related to the one before it",
        HeadFault::NoMemory => "no memory",
    }
}

/// Why a connection is ended, without the numbers of its case.
pub(crate) fn ending_sentence(ending: Ending) -> &'static str {
    match ending {
        Ending::Frame(fault) => frame_fault(fault),
        Ending::Chain(fault) => chain_fault(fault),
        Ending::NegotiateAlone => "before there is a dialect, a chain is one NEGOTIATE alone",
        Ending::NegotiateAgain => "a NEGOTIATE, and there is a dialect already",
        Ending::MessageIdNotInWindow(_) => "a MessageId is not in the window",
        Ending::MessageIdTwice => "two requests of a chain use one MessageId",
        Ending::Smb1Misformed => "an SMB_COM_NEGOTIATE is no list of dialects",
        Ending::Smb1Late => "an SMB_COM_NEGOTIATE is not the first payload",
        Ending::Smb1NoDialect => { "an SMB_COM_NEGOTIATE lists neither SMB 2.002 nor SMB 2.???" }
    }
}
