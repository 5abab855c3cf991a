//! Headers and chains: the payload of a frame as requests, and replies as a payload
//! ([MS-SMB2] 2.2.1, 3.3.5.2.7, 3.3.4.1.1, 3.3.4.1.3).
//!
//! A request or a reply begins with a [`Header`] of 64 bytes, which [`read_header`] and [`write_header`] read
//! and write: `specs/Headers.antt` has it as a table of fields, in the order of the standard. [`read_chain`]
//! reads a payload as a [`Chain`] of 1 to 16 requests, which it lends, copying nothing, or answers the first
//! [`HeadFault`] of the payload. What a chain is, and which fault is the first, is `specs/Chains.antt`; that
//! each payload is a chain in one way or has one first fault is the contract of [`laws_of_chains`].
//!
//! A [`ReplyChain`] takes replies one by one and gives the payload that joins them, by
//! `specs/Replies.antt`: each but the last padded, its NextCommand the distance to the next. A [`ReplyWriter`]
//! joins them where they are sent from. Those that have a key are signed there, each with its padding: once all are
//! joined they are [`Unsigned`] messages, of which four at a time are signed. That what is sent bears the signatures is
//! the contract of [`laws_of_replies`]. This layer knows nothing of bodies.
#![tactic(auto)]

mod chain;
mod fault;
mod header;
mod reply;
mod unsigned;
mod writer;

pub use chain::{Chain, laws_of_chains, read_chain};
pub use fault::{ChainFault, HeadFault};
pub use header::{
    Header, HeaderFlags, each_header_fits, laws_of_headers, read_header, write_header,
};
pub use reply::{ReplyChain, laws_of_replies};
pub use unsigned::{Unsigned, UnsignedMessage};
pub use writer::{OpenReply, ReplyWriter};
