//! The share: connections, their streams of requests, and what answers them ([MS-SMB2] 3.3).
//!
//! ```text
//!    calls                                           outputs
//!
//!    opened: a connection, 1, 2, 3 ..     +-------+
//!    feed: its bytes, at a moment     ->  | Share |  ->  frames: bytes for the client of a connection
//!    ended: its client ended it           +-------+      ends: the share ended a connection
//! ```
//!
//! # Quick start
//!
//! The whole of it is the crate smb_example.
//!
//! ```text
//! let config = Config { share: String::from_str(alloc, "data")?, .. };
//! let users = Tokens::new(alloc, b"", false, false, vec![in alloc; ann]?)?;
//! let mut share = Share::in_memory(alloc, config, users)?;
//! let connection = share.opened()?;
//! let fate = share.feed(connection, moment, piece, &mut out)?;
//! share.ended(connection);
//! ```
//!
//! `out` then has more bytes for the client; where the [`Fate`] is `Ended`, it is to be closed once it has them. A moment is in units of
//! 100 ns since 1601: [`filetime_of`] makes it of the time since 1970. The crate smb_serving makes these calls for peers
//! that bring their events.
//!
//! # What is proved
//!
//! A [`Share`] is made of a [`Config`]: [`in_memory`](Share::in_memory), or [`new`](Share::new) over a tree and opens
//! of one's own; under other limits than the default by [`in_memory_within`](Share::in_memory_within) and
//! [`within`](Share::within). Connections are [`opened`](Share::opened), bring pieces of their streams, which are
//! [`feed`](Share::feed), and [end](Share::ended); [`run`](Share::run) takes a list of such [`Event`]s and gives the
//! [`Answer`]s. What it gives is a definition, to be read in this order: `specs/Event.antt` and `State.antt`; `Run.antt`,
//! from one request of a chain to a run of events, over `Request.antt` of the crate smb_request (what one request does);
//! and `Refusals.antt` (what an error says). The definition reads each stream from its first byte; the share holds the
//! unread bytes alone. That it does not matter how bytes that come at one moment were cut is a
//! law of the definition, with others of `specs/Laws.antt`: [`laws_of_shares`].
//!
//! Refusals are [`ServeFault`]s, in a [`RunFault`] those of a run. Where [`opened`](Share::opened) is refused, nothing
//! has changed. Where memory runs out in a piece, its first requests were performed, as many as the fault says, none of
//! them is answered, and its connection has ended. At an end memory never runs out, nor at a piece on a connection that
//! is not open. A piece takes time in proportion to its bytes and to those of its replies; a connection is found in
//! logarithmic time.
//!
//! An [`Observer`] hears which requests are performed, how they are responded to, and by which rule ([`Ending`]) the share
//! ends a connection: [`feed_observed`](Share::feed_observed), [`run_observed`](Share::run_observed). What it hears is the
//! definition `run_observed` of `specs/Observed.antt`, and the rule `ending_of` of `specs/Run.antt`.
#![tactic(auto)]

mod admission;
mod ahead;
mod arrival;
mod chain;
mod connection;
mod ending;
mod fault;
mod laws;
mod making;
mod output;
mod reporting;
mod session_keys;
mod share;
mod stream;
mod unsealed;

pub use fault::{RunFault, ServeFault};
pub use laws::laws_of_shares;
pub use share::Share;
pub use smb_handles::HandleTable;
pub use smb_nodes::NodeTree;
pub use smb_opens::{Opens, PlainOpens};
pub use smb_peers::{
    Answer, Ending, Event, FILETIME_OF_1970, Fate, Observer, Usage, filetime_of, since_1970,
};
pub use smb_request::Config;
pub use smb_session::{Authenticator, Tokens, User};
pub use smb_tree::{PlainTree, Tree, TreeFault};
pub use smb_wire::NtStatus;
