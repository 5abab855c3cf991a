//! A share and its clients in memory, for trials.
//!
//! A [`Pair`] sends what a [`Client`](smb_client::Client) has to say to a share, and gives what the share answers. It is a
//! [`Line`](smb_client::Line), as whatever else carries frames to a share. The whole of this example is the crate smb_example, which the
//! gate runs:
//!
//! ```text
//! let mut pair = Pair::new(alloc, share, moment);
//! let mut client = pair.connect()?;
//! client.negotiate()?;
//! pair.exchange(&mut client)?;
//! client.session_setup(b"secret")?;
//! pair.exchange(&mut client)?;
//! client.tree_connect(r"\\server\data")?;
//! pair.exchange(&mut client)?;
//! client.create("plan.txt", CreateDisposition::Create)?;
//! let mut replies = pair.exchange(&mut client)?;
//! if let Some(reply) = replies.next_reply() {
//!     // reply.command(), reply.status(), reply.file_id(), reply.data()
//! }
//! ```
//!
//! Each request is exchanged before the next is made, since a reply may give what the next needs: a SESSION_SETUP the session, a
//! TREE_CONNECT the tree, a CREATE the FileId. Of requests that need nothing of each other several may be exchanged at once.
//!
//! Its calls have no clauses: that they are safe and return is proved, and what they do is tested (crate smb_tests).
#![tactic(auto)]

mod pair;

pub use pair::{Pair, carry_to, client_fault};
