//! Who may use the share: the sessions of all connections, with their trees, and the message window of one.
//!
//! [`Sessions`] are made over an [`Authenticator`], which is asked once for each SESSION_SETUP that is not refused, and
//! never else. What each call gives and leaves is one definition: a table of connections and sessions
//! (`specs/Table.antt`, `Session.antt`), a SESSION_SETUP over it (`Setup.antt`), and both over the authenticator's
//! state (`Sessions.antt`). A refusal, the row of a table or a [`SessionFault`], leaves everything as it was. A denial
//! is none: [`Sessions::setup`] is then Ok, and reports it; why, [`Sessions::denial`] has of the authenticator, where
//! that keeps it. What holds of every table between calls is `Good.antt`, which
//! [`Sessions::good`] tells; that a session that ended is gone for good, and no session's number is given twice, is the
//! contract of [`laws_of_sessions`].
//!
//! What an authenticator means is three functions of its state (`specs/Authenticator.antt`). [`Scripted`]
//! gives answers in turn; [`Tokens`] knows users by their tokens.
//!
//! [`Window`] is the set of MessageIds that a client may use (`specs/Window.antt`).
//!
//! A session is found in logarithmic time, whatever the connection; a connection has 16 at most, and a
//! session 16 trees.
#![tactic(auto)]

mod authenticator;
mod dialect;
mod fault;
mod index;
mod laws;
mod path;
mod scripted;
mod session;
mod sessions;
mod setup;
mod signing;
mod table;
mod tokens;
mod window;

pub use authenticator::{Answer, Authenticator, Denial};
pub use fault::SessionFault;
pub use laws::{laws_of_sessions, laws_of_windows};
pub use scripted::Scripted;
pub use sessions::Sessions;
pub use setup::{SetupAsk, SetupDone, SetupStatus};
pub use signing::Signing;
pub use tokens::{Tokens, User};
pub use window::Window;
