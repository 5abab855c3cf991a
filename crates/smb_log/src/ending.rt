//! Why a connection ends.

use smb_refusal_texts::{Why, WithoutComma};
use std::fmt;

/// Why a connection ended.
#[derive(Clone, Copy, Debug, PartialEq, Eq)]
pub enum Ending {
    /// Its client ended it, or a read of it failed.
    ByClient,
    /// The share ended it, and it is not known why.
    ByShare,
    /// The share ended it, whose client broke this rule.
    ByRule(smb_peers::Ending),
    /// It was owed more bytes than the share keeps for one connection.
    Owed,
    /// All connections were owed more bytes than they may be, and it most.
    OwedMost,
    /// A limit of silence passed.
    Silence,
    /// Memory ran out.
    Memory,
    /// A send to it failed.
    SendFailed,
}

impl fmt::Display for Ending {
    fn fmt<W: fmt::Write>(&self, f: &mut fmt::Formatter<W>) -> fmt::Result {
        let words = match self {
            Ending::ByClient => "by the client",
            Ending::ByShare => "by the share",
            Ending::ByRule(rule) => {
                let why = WithoutComma(Why::Connection(*rule));
                return write!(f, "by the share, {why}");
            }
            Ending::Owed => "owed more than 33,554,432 bytes",
            Ending::OwedMost => "owed most, and all together too much",
            Ending::Silence => "silence",
            Ending::Memory => "memory",
            Ending::SendFailed => "a send failed",
        };
        f.write_str(words)
    }
}
