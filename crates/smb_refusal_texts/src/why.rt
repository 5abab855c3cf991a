//! Why a share refuses something, as a user is told it.

use crate::ending::ending_sentence;
use crate::login::login_sentence;
use crate::refusal::refusal_sentence;
use smb_peers::Ending;
use smb_refusals::{LoginRefusal, Refusal};
use std::fmt;
use std::fmt::{Display, Write};

/// Why a share refuses something: the label of a row of docs/PROFILE.md, a comma, and what the row says, as
/// `C3, the name begins with a separator`.
#[derive(Clone, Copy)]
pub enum Why {
    /// A request.
    Request(Refusal),
    /// A login by NTLM.
    Login(LoginRefusal),
    /// All that a connection's client says from here on.
    Connection(Ending),
}

/// The same without the comma, for a field of a line.
#[derive(Clone, Copy)]
pub struct WithoutComma(pub Why);

impl Why {
    /// The label of the row.
    pub fn label(self) -> &'static str {
        match self {
            Why::Request(refusal) => refusal.label(),
            Why::Login(refusal) => refusal.label(),
            Why::Connection(ending) => ending.label(),
        }
    }

    /// What the row says, in words that are the same each time.
    pub fn sentence(self) -> &'static str {
        match self {
            Why::Request(refusal) => refusal_sentence(refusal),
            Why::Login(refusal) => login_sentence(refusal),
            Why::Connection(ending) => ending_sentence(ending),
        }
    }

    /// Writes what the row says, with the MessageId of a case.
    fn write_sentence<W: fmt::Write>(self, f: &mut fmt::Formatter<W>) -> fmt::Result {
        match self {
            Why::Connection(Ending::MessageIdNotInWindow(number)) => {
                write!(f, "MessageId {number} is not in the window")
            }
            _ => f.write_str(self.sentence()),
        }
    }
}

impl Display for Why {
    fn fmt<W: fmt::Write>(&self, f: &mut fmt::Formatter<W>) -> fmt::Result {
        f.write_str(self.label())?;
        f.write_str(", ")?;
        self.write_sentence(f)
    }
}

impl Display for WithoutComma {
    fn fmt<W: fmt::Write>(&self, f: &mut fmt::Formatter<W>) -> fmt::Result {
        let WithoutComma(why) = *self;
        f.write_str(why.label())?;
        f.write_str(" ")?;
        why.write_sentence(f)
    }
}
