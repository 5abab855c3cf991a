//! One request of a share: what all connections share, and what a request does to it ([MS-SMB2] 3.3.5).
//!
//! [`Server`] is the state: the configuration, the sessions with their authenticator, and the files with their opens.
//! [`perform`](Server::perform) performs one request of a chain. It reads the request once, into a `Call` and a body
//! (`call.rt`), checks that what it needs exists, in the standard's order, and takes its line of the table of commands
//! (`request.rt`). A command gives a `Response` or a `Refusal`, whose body is written in one place, straight where it is
//! sent from (`response.rt`). What a request leaves and what it is answered is one definition, `specs/Request.antt`, over
//! `specs/Call.antt`, `specs/Needs.antt` and the state of `specs/State.antt`, with the commands' own in
//! `specs/Session.antt`, `specs/Files.antt`, `specs/Bytes.antt`, `specs/Locks.antt`, `specs/QueryDirectory.antt`,
//! `specs/QueryInfo.antt` and `specs/SetInfo.antt`. It knows no stream, no chain and no frame: these are smb_engine's,
//! where the definition of the share goes on.
//!
//! Out of memory is a [`NoReply`], which reports whether the request was performed: the state is as after it, or as
//! before it. What was in the vector is kept, and more may be behind it.
#![tactic(auto)]

mod asked;
mod bytes;
mod call;
mod charge;
mod config;
mod context;
mod files;
mod information;
mod laws;
mod locks;
mod negotiate;
mod query_directory;
mod query_info;
mod request;
mod response;
mod server;
mod session;
mod set_info;
mod signature;
pub mod smb1;

pub use call::acting_on;
pub use charge::charge_of;
pub use config::Config;
pub use context::{Context, ContextOpen, HeaderIds};
pub use laws::laws_of_connections;
pub use response::{Answered, NoReply};
pub use server::Server;
