//! By which rule a share ends a connection.

ghost use Rattle.std.specs.Prelude.{◌≡◌};
ghost use Rattle.smb_peers.specs.Ending.{ending_label, frame_label, chain_label};

use smb_frame::FrameFault;
use smb_head::HeadFault;

/// A rule of a client's stream whose breach ends its connection ([MS-SMB2] 2.1, 3.3.5.2).
#[derive(Clone, Copy, Debug, PartialEq, Eq)]
pub enum Ending {
    /// F1 to F4: bytes that are no frame (2.1).
    Frame(FrameFault),
    /// H1 to H8: a payload that is no chain of requests (3.3.5.2.7).
    Chain(HeadFault),
    /// E1: before there is a dialect, a chain is one NEGOTIATE alone.
    NegotiateAlone,
    /// E2: a NEGOTIATE came, and there is a dialect already (3.3.5.4).
    NegotiateAgain,
    /// E3: a MessageId that the connection's window does not have (3.3.5.2.3).
    MessageIdNotInWindow(u64),
    /// E4: a MessageId that a chain uses twice (3.3.5.2.3).
    MessageIdTwice,
    /// E5: an SMB_COM_NEGOTIATE whose bytes are no list of dialects (3.3.5.3.1).
    Smb1Misformed,
    /// E6: an SMB_COM_NEGOTIATE behind another payload (3.3.5.3.1).
    Smb1Late,
    /// E7: an SMB_COM_NEGOTIATE that lists no dialect of the share (3.3.5.3.1).
    Smb1NoDialect,
}

/// The label of a stream's fault.
fn frame_label(fault: FrameFault) -> &'static str
    ensures { result.now ≡ frame_label fault }
{
    match fault {
        FrameFault::FirstByte => "F1",
        FrameFault::TooLong => "F2",
        FrameFault::PayloadTooLong => "F3",
        FrameFault::NoMemory => "F4",
    }
}

/// The label of a chain's fault.
fn chain_label(fault: HeadFault) -> &'static str
    ensures { result.now ≡ chain_label fault }
{
    match fault {
        HeadFault::Short => "H1",
        HeadFault::Protocol => "H2",
        HeadFault::Size => "H3",
        HeadFault::Next => "H4",
        HeadFault::TooMany => "H5",
        HeadFault::FromServer => "H6",
        HeadFault::RelatedFirst => "H7",
        HeadFault::NoMemory => "H8",
    }
}

impl Ending {
    /// The label of its row in docs/PROFILE.md.
    pub fn label(self) -> &'static str
        ensures { result.now ≡ ending_label self }
    {
        match self {
            Ending::Frame(fault) => frame_label(fault),
            Ending::Chain(fault) => chain_label(fault),
            Ending::NegotiateAlone => "E1",
            Ending::NegotiateAgain => "E2",
            Ending::MessageIdNotInWindow(_) => "E3",
            Ending::MessageIdTwice => "E4",
            Ending::Smb1Misformed => "E5",
            Ending::Smb1Late => "E6",
            Ending::Smb1NoDialect => "E7",
        }
    }
}
