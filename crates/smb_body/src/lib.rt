//! Bodies: what stands behind a header, as a value for each command ([MS-SMB2] 2.2).
//!
//! [`read_body`] reads a [`Request`] from the bytes of a whole request, its header among them, and borrows
//! from them all that is long: texts are [`Units`](smb_wire::Units), dialects [`Dialects`], elements of a LOCK
//! [`LockList`], other buffers slices. [`write_request`] and [`write_reply`] add a body to a vector; neither
//! looks at a header. [`read_smb1_negotiate`] reads the SMB_COM_NEGOTIATE that a connection may begin with.
//!
//! What bytes say which value is `specs/`, a file for each command: a table of fields as the standard prints it, and
//! the rules for the buffers. 16 commands have one; IOCTL, CHANGE_NOTIFY and OPLOCK_BREAK have none here. A request is
//! read exactly where its bytes say a value, and then that one; what was written is read behind any header of 64 bytes,
//! the same but for the offsets of checked buffers, where a NEGOTIATE has a dialect and a LOCK an element; a reply has
//! one spelling. `specs/Requests.antt` and `specs/Replies.antt` join the commands.
#![tactic(auto)]

mod buffer;
mod close;
mod create;
mod dialects;
mod error;
mod fault;
mod flush;
mod lock;
mod lock_element;
mod lock_list;
mod needs;
mod negotiate;
mod numbers;
mod query;
mod query_directory;
mod query_info;
mod read;
mod reply;
mod request;
mod reserved;
mod session_setup;
mod set_info;
mod smb1;
mod tree_connect;
mod types;
mod write;

pub use close::{CloseFlags, CloseRequest, CloseResponse};
pub use create::{
    CreateRequest, CreateResponse, ImpersonationLevel, OplockLevel, SecurityFlags, SmbCreateFlags,
};
pub use dialects::Dialects;
pub use fault::BodyFault;
pub use flush::FlushRequest;
pub use lock::{LockRequest, LockSequence};
pub use lock_element::LockElement;
pub use lock_list::LockList;
pub use needs::{Needs, RequestFacts};
pub use negotiate::{NegotiateRequest, NegotiateResponse, SecurityMode};
pub use query::{QueryResponse, close_query_response, open_query_response};
pub use query_directory::QueryDirectoryRequest;
pub use query_info::{QueryInfoFlags, QueryInfoRequest};
pub use read::{ReadFlags, ReadRequest, ReadResponse, put_read_head};
pub use reply::{Reply, write_reply};
pub use request::{Request, laws_of_requests, read_body, write_request};
pub use reserved::ReservedRequest;
pub use session_setup::{
    SessionFlags, SessionSecurityMode, SessionSetupFlags, SessionSetupRequest, SessionSetupResponse,
};
pub use set_info::SetInfoRequest;
pub use smb1::{Smb1Dialects, laws_of_smb1, read_smb1_negotiate};
pub use tree_connect::{ShareFlags, ShareType, TreeConnectRequest, TreeConnectResponse};
pub use types::{
    AdditionalInformation, Capabilities, Channel, DialectRevision, Guid, InfoType, InformationClass,
};
pub use write::{WriteFlags, WriteRequest, WriteResponse};
