//! What is going on in a share that is served: who is there, what is open, what is left of each limit, and what was
//! counted; as a page for a browser, as JSON and as metrics for Prometheus.
//!
//! ```text
//!    Watch          what is noted of a share while it is served: its counts, and its clients with their addresses
//!    WatchedPeers   peers of which that is noted          WatchObserver   counts what the share does
//!    status_of      a look at a share and its watch: a Status, plain data, of 1,000 rows at most
//!    put_page, put_json, put_metrics                      a Status in words
//!    Reading        the bytes of an HTTP request, up to what it asks for
//!    answer_of      the answer to the bytes of a request: all of that in one call, for whoever has the sockets
//! ```
//!
//! Where nothing is watched (`None` in place of a watch), peers and observers are passed on to, and nothing else is
//! done.
//!
//! # HTTP
//!
//! `GET /`, `GET /status.json` and `GET /metrics`, of HTTP/1.0 and 1.1, each on a connection of its own, which the
//! answer ends. All else is refused: a path that is no page (404), a method that is not GET (405), what is no request
//! (400), a head of more than 8,192 bytes or 64 fields (431), and a request for another host (421). The host is
//! `localhost` or the IP address that is listened at, with its port or none; where each address of the machine is
//! listened at, any IP address. So no page of another site can have a browser read what is here under its own name.
//! No answer has a script or anything from elsewhere, and none is kept.
//!
//! # What is shown
//!
//! The first connections, up to 500 rows of their sessions, and the first opens, up to 1,000 rows in all; how many
//! more there are is said. The names of files are shown only where that is asked for. No byte of a file's data and no
//! token is ever shown. Users and names are spelled as in the log (smb_log_text), and then as each format asks: a
//! name makes no tag, no field and no line.
//!
//! Moments in JSON and metrics are in seconds since 1970, in the page in UTC. Counts begin with the serving, and are
//! never set back. A request counts once it is performed, by its command; a refusal by the status that answers it,
//! also that of a login; an ending by the rule of docs/PROFILE.md that the client broke. A turn lasts from an event
//! to the wait for the next one.
//!
//! That the calls are safe and return is proved, and that [`WatchedPeers`] are lawful [`Peers`](smb_peers::Peers);
//! what they show is tested.
#![tactic(auto)]

mod answer;
mod answering;
mod counts;
mod json;
mod metrics;
mod observer;
mod page;
mod peers;
mod reading;
mod status;
mod text;
mod view;
mod watch;
mod words;

pub use answer::{page_answer, refusal_answer};
pub use answering::answer_of;
pub use counts::Counts;
pub use json::put_json;
pub use metrics::put_metrics;
pub use observer::WatchObserver;
pub use page::put_page;
pub use peers::WatchedPeers;
pub use reading::{LONGEST_HEAD, Page, Reading, Refused, Step};
pub use status::{ConnectionRow, Journal, OpenedRow, Room, Rooms, Rows, SessionRow, Status};
pub use view::{Around, MOST_ROWS, status_of};
pub use watch::{Client, Watch};
