//! A recording of what happens to a share that is served, and what it says, performed again.
//!
//! A share answers as its definition says, and so a run is its list of events and nothing else. [`RecordedPeers`]
//! stand between a share and its peers, and write each event before it is handed on: a line that says what came, at
//! which moment. What an authenticator answers is a line too, by [`RecordedLogin`]; so whoever performs the
//! recording, as the crate smb_kept does, asks no one again. [`Lines`] gives what each line says. A replay reads its
//! lines by the same [`read_line`].
//!
//! | line | what it says |
//! |---|---|
//! | `+ N` | connection N was opened |
//! | `> N MOMENT HEX` | a piece of its stream came |
//! | `b N MOMENT LENGTH SUM` | so too: that many bytes follow the line, and a line feed; SUM is their check |
//! | `= continue TOKEN`, `= accept USER FLAGS READONLY TOKEN [KEY REQUIRED]`, `= deny` | what the authenticator answered in the piece before |
//! | `~ N DONE` | memory ran out in the piece before, behind so many of its requests |
//! | `- N` | connection N has ended |
//!
//! Numbers are decimal, tokens and users hex, `-` where they are empty. A line that `#` begins says nothing; the
//! first one is such a line, the [`Header`]. In a [`Form::Recording`] pieces are hex, as a replay reads them: so all
//! are written. In a [`Form::Journal`], as an older program wrote it, they are bytes, and each line has a check of 16
//! hex digits at its end, behind a blank, which goes over the check of the line before: so a line that is missing, or
//! elsewhere, is found too. A last line without its line feed was never answered, and is left out.
//!
//! That the calls are safe and return is proved, that [`read_line`] gives the event that its definition reads in a
//! line, and that a [`RecordedLogin`] is the authenticator that `by_record` defines. That the lines are those of the
//! events that happened is tested, and what the system does with them is trusted.
#![tactic(auto)]

mod check;
mod fault;
mod form;
mod given;
mod limits;
mod line;
mod lines;
mod login;
mod mailbox;
mod peers;
mod recorder;
mod store;
mod text;

pub use fault::JournalFault;
pub use form::{Form, Header, LimitedConfig, form_of};
pub use given::{GivenAnswer, given_answers};
pub use line::{Line, read_line};
pub use lines::Lines;
pub use login::RecordedLogin;
pub use mailbox::Mailbox;
pub use peers::{RecordedClock, RecordedPeers};
pub use recorder::{Recorder, VERSION};
pub use store::Store;
pub use text::{place_of, read_hex, write_hex};
