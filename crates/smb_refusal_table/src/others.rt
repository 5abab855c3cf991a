//! The rows by which a connection is ended, and a login is denied.

use smb_frame::FrameFault;
use smb_head::HeadFault;
use smb_peers::Ending;
use smb_refusal_texts::Why;
use smb_refusals::LoginRefusal;

pub(crate) const ENDINGS: &[Why] = &[
    Why::Connection(Ending::Frame(FrameFault::FirstByte)),
    Why::Connection(Ending::Frame(FrameFault::TooLong)),
    Why::Connection(Ending::Chain(HeadFault::Short)),
    Why::Connection(Ending::Chain(HeadFault::Protocol)),
    Why::Connection(Ending::Chain(HeadFault::Size)),
    Why::Connection(Ending::Chain(HeadFault::Next)),
    Why::Connection(Ending::Chain(HeadFault::TooMany)),
    Why::Connection(Ending::Chain(HeadFault::FromServer)),
    Why::Connection(Ending::Chain(HeadFault::RelatedFirst)),
    Why::Connection(Ending::NegotiateAlone),
    Why::Connection(Ending::NegotiateAgain),
    Why::Connection(Ending::MessageIdNotInWindow(0)),
    Why::Connection(Ending::MessageIdTwice),
    Why::Connection(Ending::Smb1Misformed),
    Why::Connection(Ending::Smb1Late),
    Why::Connection(Ending::Smb1NoDialect),
];

pub(crate) const LOGINS: &[Why] = &[
    Why::Login(LoginRefusal::TokenUnreadable),
    Why::Login(LoginRefusal::MessageUnknown),
    Why::Login(LoginRefusal::NoUnicode),
    Why::Login(LoginRefusal::LoginUnreadable),
    Why::Login(LoginRefusal::ProofWrong),
    Why::Login(LoginRefusal::NoGuests),
];
