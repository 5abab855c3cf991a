//! The response to a NEGOTIATE ([MS-SMB2] 3.3.5.4).

ghost use Rattle.std.specs.Prelude.{◌≡◌, if◌then◌else◌};
ghost use Rattle.smb_body.specs.Replies.{reply_value};
ghost use Rattle.smb_request.specs.Negotiate.{negotiate_answer};
ghost use Rattle.smb_request.specs.Parts.{capabilities_of};

use smb_body::{Capabilities, DialectRevision, Guid, NegotiateResponse, Reply, SecurityMode};
use smb_wire::Dialect;
use smb_wire::limits::most_at_once;

/// What the server can do in a dialect: SMB2_GLOBAL_CAP_LARGE_MTU in 2.1 ([MS-SMB2] 2.2.4).
fn capabilities_of(dialect: Option<Dialect>) -> Capabilities
    ensures { result ≡ record { 0 = capabilities_of dialect } }
{
    match dialect {
        None | Some(Dialect::Smb202) => Capabilities(0),
        Some(Dialect::Smb210) => Capabilities(4),
    }
}

/// SMB2_NEGOTIATE_SIGNING_ENABLED and SMB2_NEGOTIATE_SIGNING_REQUIRED ([MS-SMB2] 2.2.4).
const SIGNING_ENABLED: u16 = 1;

const SIGNING_REQUIRED: u16 = 2;

/// Whether signing is required; it is enabled in any case.
fn security_mode(required: bool) -> SecurityMode
    ensures { result ≡ record { 0 = if required then 3 else 1 } }
{
    SecurityMode(if required {
        SIGNING_ENABLED | SIGNING_REQUIRED
    } else {
        SIGNING_ENABLED
    })
}

/// The response that says a dialect's revision and what one request may ask for in the dialect that is established, with
/// the authenticator's hello.
pub(crate) fn response<'a>(
    required: bool,
    guid: [u8; 16],
    hello: &'a [u8],
    moment: u64,
    dialect: Option<Dialect>,
    dialect_revision: u16,
) -> Reply<'a>
    ensures { reply_value result ≡ negotiate_answer required guid hello.now moment dialect dialect_revision }
{
    let most = most_at_once(dialect);
    Reply::Negotiate(NegotiateResponse {
        security_mode: security_mode(required),
        dialect_revision: DialectRevision(dialect_revision),
        server_guid: Guid(guid),
        capabilities: capabilities_of(dialect),
        max_transact_size: most,
        max_read_size: most,
        max_write_size: most,
        system_time: moment,
        server_start_time: 0,
        security_buffer: hello,
    })
}
