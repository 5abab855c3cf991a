//! The peers of TCP listeners, in one thread, and the system's clock: what `serve` of smb_serving is given by the
//! program.
//!
//! [`TcpPeers`] are the streams of one or several, [`PeerFacts`] what is known of them beside their bytes, [`Logins`]
//! how logins of theirs ended, [`SystemClock`] tells the time. None keeps a record of its calls.
//! Proved of the peers is what the trait asks: each connection is opened once, under the next number, and a send is
//! refused only where a failure is counted. Of the clock it is, inside the crate, that no moment is before the last
//! one. Of a [`Network`] it is which addresses it has; that no others are let in is tested. Of wrong passwords it is
//! how many are in mind, and how long an address is kept back by them; that nothing is read of it meanwhile is tested.
#![tactic(auto)]

mod admission;
mod clock;
mod connection;
mod connections;
mod door;
mod facts;
mod lending;
mod login_delay;
mod logins;
mod network;
mod piece;
mod streams;
mod tcp;
mod wishes;

pub use admission::KeptOut;
pub use clock::SystemClock;
pub use door::MOST_LISTENERS;
pub use facts::{GivenUp, PeerFacts};
pub use logins::{KeptBack, Logins};
pub use network::{Network, NetworkFault};
pub use piece::PIECE_SIZE;
pub use streams::{DEFAULT_CONNECTIONS, MOST_CONNECTIONS};
pub use tcp::TcpPeers;
