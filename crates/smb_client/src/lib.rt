//! A client of a share, for trials: it says in names what it asks, and reads in names what it is answered.
//!
//! A [`Client`] is one connection. Each of its calls makes one request ([`Client::negotiate`], [`Client::create`] and so on; any
//! other by [`Client::ask`]) and keeps its frame until it is sent. Whatever carries frames to a share and back is a [`Line`], as the
//! `Pair` of the crate smb_pair, which sends them to a share in memory. [`Replies`] are read from the frames that the share answers.
//! Over peers in memory [`Client::take_frames`] gives the bytes of a step.
//!
//! It asks for 256 credits with a NEGOTIATE, and then for as many as each request takes: in dialect 2.1 one for each 65,536 bytes
//! that the request sends or asks for. It takes the session and the tree of the last reply that gives one, and waits for
//! nothing. A request that none of its calls makes, as a CREATE that shares its file, is a [`Request`] for [`Client::ask`]. The
//! types of all that it says and hears are exported here.
//!
//! Its calls have no clauses: that they are safe and return is proved, and what they make and read is tested (crate smb_tests).
#![tactic(auto)]

mod client;
mod fault;
mod line;
mod reply;
mod status;
mod words;

pub use client::Client;
pub use fault::ClientFault;
pub use line::Line;
pub use reply::{Replies, Reply};
pub use smb_body::{
    AdditionalInformation, Capabilities, Channel, CloseFlags, CloseRequest, CreateRequest,
    Dialects, FlushRequest, Guid, ImpersonationLevel, InfoType, InformationClass, LockList,
    LockRequest, LockSequence, NegotiateRequest, OplockLevel, QueryDirectoryRequest,
    QueryInfoFlags, QueryInfoRequest, ReadFlags, ReadRequest, Request, ReservedRequest,
    SecurityFlags, SecurityMode, SessionSecurityMode, SessionSetupFlags, SessionSetupRequest,
    SetInfoRequest, SmbCreateFlags, TreeConnectRequest, WriteFlags, WriteRequest,
};
pub use smb_head::{Header, HeaderFlags};
pub use smb_wire::{
    Access, Command, CommandCode, CreateDisposition, CreateDispositionCode, CreateOptions, Dialect,
    FileAttributes, FileId, LockFlags, QueryDirectoryFlags, ShareAccess, Units,
};
pub use status::Status;
pub use words::units_of;
