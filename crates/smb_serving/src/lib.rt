//! A share that is served to its peers, in one thread and by turns.
//!
//! ```text
//! let mut share = Share::in_memory(alloc, config, users)?;
//! serve(&mut share, &mut peers, &mut clock, turns);
//! ```
//!
//! A turn is the next event of the [`Peers`] and what it has the share do, and then one send for each peer that is owed
//! bytes. The peers are those of the crate smb_tcp, or [`MemoryPeers`], which do what a script says.
//!
//! What [`serve`] comes to is a relation from one state to the next, `specs/Serving.antt`, over the definition of the share in
//! smb_engine. What that means for the peers is a law, of `specs/ServingLaws.antt`: [`laws_of_serving`].
#![tactic(auto)]

mod kept_noted;
mod laws;
mod memory_peers;
mod memory_record;
mod places;
mod served_peer;
mod served_peers;
mod serving;
mod taken;
mod watcher;

pub use laws::laws_of_serving;
pub use memory_peers::{MemoryPeers, PeerStep, SendStep};
pub use serving::{serve, serve_until, serve_until_observed, serve_until_watched};
pub use smb_peers::{Clock, ListClock, Observer, PeerEvent, Peers, SendFault, Stopping, Usage};
pub use taken::taken_from;
pub use watcher::Watcher;
