//! What stands around a share: the events that happen to it, the peers that bring them, and the clocks that tell their
//! moments.
//!
//! ```text
//!    Event     a connection opens, a piece of its stream comes, it ends        Answer    a frame for its client, or its end
//!    Peers     streams of bytes that come and go: next, piece, send, close     Clock     moments, in 100 ns since 1601
//!    Observer  hears which requests the share performs, how it responds, and by which rule (an Ending) it ends a connection
//! ```
//!
//! A share of the crate smb_engine takes [`Event`]s and gives [`Answer`]s; the crate smb_serving serves it to [`Peers`] by a
//! [`Clock`]. Both traits may keep a record of their calls (`specs/Record.antt`), of which the promises of serving speak.
//! Who stands between a share and its peers, as a recorder or a log, keeps these traits and needs no share.
#![tactic(auto)]

mod answer;
mod clock;
mod ending;
mod event;
mod filetime;
mod observed_list;
mod observer;
mod peers;

pub use answer::Answer;
pub use clock::{Clock, ListClock};
pub use ending::Ending;
pub use event::{Event, Fate};
pub use filetime::{FILETIME_OF_1970, filetime_of, since_1970};
pub use observed_list::{Heard, ListObserver};
pub use observer::{Acting, Observer, Responded};
pub use peers::{PeerEvent, Peers, SendFault, Stopping, Usage};
