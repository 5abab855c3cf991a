//! A log of a share that an operator can read: one line for each event.
//!
//! The share says what it does, and a [`Log`] has the words: it observes the share. Two borrow the log of a served share in turn:
//! [`LoggedPeers`], around its peers, and a [`LogObserver`]. The log of a replay observes the share itself, and hears each event.
//!
//! The fields of a line are apart by TAB, and `-` is a field that has nothing to say:
//!
//! | field | what it says |
//! |---|---|
//! | moment | of the event, of a request that of its response: UTC with the day, cut to milliseconds |
//! | connection | its number in the share |
//! | peer | its address, as the caller gives it |
//! | user | of the session that a request acts under, or that a SESSION_SETUP let in; at an end who was let in last, and has not logged off; each guest is `guest` |
//! | event | `started`, `failed: ..`, `stopped`, `opened`, `refused: ..`, `kept back: ..`, `ended: ..`, `minute ..`, or what was asked: a command by its name with its fields; of a denied login also `name=..`, as the client typed it |
//! | status | of the response, by its name in [MS-ERREF] |
//! | microseconds | from the piece that completed the request to its response; of a request that was refused a blank and `why=".."` behind them, the label and the words of a row of docs/PROFILE.md |
//!
//! What acts on an open, by its FileId or by that of the request before it in its chain, has the name that its file has before it
//! is performed, as the share spells it; `?` where no open of its session and tree connect has its number. A CREATE has the name that it asks for.
//! The share's root is `.`. No byte of a file's data and no token is ever written. What a [`Level`] leaves out is not written. A
//! line is written as the share responds, also where the response is never sent.
//!
//! Where memory runs out for a line, the line is left out, and the next line that is written follows a line
//! `lines were lost for want of memory`; where a write fails, nothing more is written. Neither is an error: a log changes nothing of
//! what the share does. Connections that are closed as they are accepted have ten lines in a second at most; the next one tells how many
//! had none.
//!
//! No name makes a line, a field, or a character that a terminal obeys: smb_log_text says how each is written.
//! Proved is that the calls are safe and return, and that [`LoggedPeers`] are lawful [`Peers`](smb_peers::Peers); that the lines say what
//! happened is tested.
#![tactic(auto)]

mod ending;
mod kept_back;
mod kept_out;
mod level;
mod log;
mod minute;
mod observer;
mod peers;
mod request;

pub use ending::Ending;
pub use kept_back::KeptBack;
pub use kept_out::KeptOut;
pub use level::Level;
pub use log::Log;
pub use observer::LogObserver;
pub use peers::{ConnectionFacts, LoggedPeers};
