//! The limits of the server, each once: what a message may hold, and what there may be of a client's. How much there may
//! be of what a share holds, `Limits` says.

mod share;

ghost use Rattle.std.specs.Prelude.{◌≡◌, ◌≤◌};
ghost use Rattle.smb_wire.specs.Limits.{most_at_once, most_in_any_dialect};

use super::dialect::Dialect;
pub use share::Limits;

/// The most bytes of a frame's payload, from a client.
pub const LONGEST_PAYLOAD: u32 = 1_048_576;

/// The most requests of a chain.
pub const MOST_REQUESTS: usize = 16;

/// The most MessageIds that a window holds.
pub const MOST_CREDITS: usize = 256;

/// The most sessions of a connection, finished or not.
pub const MOST_SESSIONS: usize = 16;

/// The most tree connects of a session.
pub const MOST_TREE_CONNECTS: usize = 16;

/// The most components of a path.
pub const MOST_COMPONENTS: usize = 32;

/// The most bytes of a token of an authenticator.
pub const LONGEST_TOKEN: usize = 4_096;

/// The most bytes of a user's name.
pub const LONGEST_USER_NAME: usize = 256;

/// How many bytes one READ, WRITE, QUERY_INFO or QUERY_DIRECTORY may ask for, by the dialect of its connection, where one
/// is established; what a NEGOTIATE response says of it ([MS-SMB2] 2.2.4: MaxReadSize, MaxWriteSize, MaxTransactSize).
pub fn most_at_once(dialect: Option<Dialect>) -> u32
    ensures value { result ≡ most_at_once dialect }
    ensures most { result ≤ most_in_any_dialect }
{
    match dialect {
        Some(Dialect::Smb202) | None => 65_536,
        Some(Dialect::Smb210) => 524_288,
    }
}
