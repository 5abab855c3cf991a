//! Why a request is refused, by name.
//!
//! ```text
//!    CreateRefusal, ReadRefusal, ..   the rows of one table, in the order in which they are looked at
//!    Refusal                          a row of any of the tables: its status, its label in docs/PROFILE.md
//!    RefusedBy                        a row, or out of memory
//!    LoginRefusal                     why a login by NTLM is denied
//! ```
//!
//! The definitions of the crates above have tables of conditions and refusals, of which the first whose condition holds
//! decides (`specs/Rows.antt`). [`Refusal::status`] is the definition `refusal_status`, [`Refusal::label`] the definition
//! `refusal_label`.
#![tactic(auto)]

mod conversions;
mod create;
mod file;
mod login;
mod query;
mod refusal;
mod refused_by;
mod request;
mod session;
mod set_info;

pub use create::CreateRefusal;
pub use file::{CloseRefusal, LockRefusal, ReadRefusal, WriteRefusal};
pub use login::LoginRefusal;
pub use query::{QueryDirectoryRefusal, QueryInfoRefusal};
pub use refusal::Refusal;
pub use refused_by::RefusedBy;
pub use request::{NegotiateRefusal, RequestRefusal};
pub use session::{LogoffRefusal, SetupRefusal, TreeConnectRefusal, TreeDisconnectRefusal};
pub use set_info::{
    RenameRefusal, SetBasicRefusal, SetDispositionRefusal, SetInfoRefusal, SetSizeRefusal,
};
