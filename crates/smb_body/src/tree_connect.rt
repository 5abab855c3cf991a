//! TREE_CONNECT ([MS-SMB2] 2.2.9, 2.2.10).

ghost use Rattle.std.specs.Prelude.{◌≡◌, ◌++◌, ◌≤◌, length, take, is_some, IfSome, OnOk, IfErr, false};
ghost use Rattle.smb_wire.specs.Fields.{AllFit, joined};
ghost use Rattle.smb_body.specs.Refusals.{body_refusal};
ghost use Rattle.smb_body.specs.TreeConnect.{tree_connect_asked, tree_connect_fields, tree_connect_laid, tree_connect_spelling, FitsTreeConnect};
ghost use Rattle.smb_body.specs.Readings.{is_tree_connect_too_long, is_tree_connect, tree_connect_of};
ghost use Rattle.smb_body.specs.Replies.{answers_tree_connect, reply_fields};

use super::buffer::{body, text};
use super::fault::BodyFault;
use super::numbers::{Number, put_numbers};
use super::types::Capabilities;
use smb_wire::{Access, Units, WireFault, put_bytes, u16_in};

/// A TREE_CONNECT request ([MS-SMB2] 2.2.9).
#[derive(Clone, Copy)]
pub struct TreeConnectRequest<'a> {
    pub reserved: u16,
    pub path_offset: u16,
    pub path: Units<'a>,
}

/// What a TREE_CONNECT request says, or None where it says nothing.
pub(crate) fn read_tree_connect(request: &[u8]) -> Option<TreeConnectRequest<'_>>
    ensures some { is_some result ≡ is_tree_connect request.now }
    ensures value { IfSome result (λ r. tree_connect_asked r ≡ tree_connect_of request.now) }
{
    let body = body(request);
    if body.len() < 8 || u16_in(body, 0) != 9 {
        return None;
    }
    let path_offset = u16_in(body, 4);
    let path = text(request, 72, path_offset as usize, u16_in(body, 6) as usize)?;
    Some(TreeConnectRequest {
        reserved: u16_in(body, 2),
        path_offset,
        path,
    })
}

/// Adds the fixed part. After an error some of it stands there.
fn put_fixed(request: &TreeConnectRequest<'_>, out: &mut Vec<u8>) -> Result<(), WireFault>
    requires { length (tree_connect_asked request.now).path ≤ 32767 }
    ensures ok { OnOk result (out.new.items ≡
        out.old.items ++ joined (tree_connect_fields (tree_connect_laid (tree_connect_asked request.now)))) }
    ensures kept { take (length out.old.items) out.new.items ≡ out.old.items }
{
    put_numbers(
        &[
            Number::U16(9),
            Number::U16(request.reserved),
            Number::U16(72),
            Number::U16(2 * request.path.len() as u16),
        ],
        out,
    )
}

/// Adds the body. After an error some of it stands there.
pub(crate) fn put_tree_connect(
    request: TreeConnectRequest<'_>,
    out: &mut Vec<u8>,
) -> Result<(), BodyFault>
    ensures ok { OnOk result (out.new.items ≡
        out.old.items ++ tree_connect_spelling (tree_connect_asked request.entry)) }
    ensures fits { OnOk result (FitsTreeConnect (tree_connect_asked request.entry)) }
    ensures short { OnOk result
        (is_tree_connect_too_long (tree_connect_asked request.entry) ≡ false) }
    ensures fault { IfErr result (λ fault. fault ≡
        body_refusal (is_tree_connect_too_long (tree_connect_asked request.entry))) }
    ensures kept { take (length out.old.items) out.new.items ≡ out.old.items }
{
    if request.path.len() > 32_767 {
        return Err(BodyFault::TooLong);
    }
    put_fixed(&request, out)?;
    put_bytes(out, request.path.bytes())?;
    Ok(())
}

/// The kind of a share ([MS-SMB2] 2.2.10).
#[derive(Clone, Copy)]
pub struct ShareType(pub u8);

impl ShareType {
    pub const DISK: ShareType = ShareType(1);
}

/// Properties of a share ([MS-SMB2] 2.2.10).
#[derive(Clone, Copy)]
pub struct ShareFlags(pub u32);

/// A TREE_CONNECT response ([MS-SMB2] 2.2.10).
#[derive(Clone, Copy)]
pub struct TreeConnectResponse {
    pub share_type: ShareType,
    pub share_flags: ShareFlags,
    pub capabilities: Capabilities,
    pub maximal_access: Access,
}

/// Adds the body of a response. After an error some of it stands there.
pub(crate) fn put_tree_connect_response(
    response: TreeConnectResponse,
    out: &mut Vec<u8>,
) -> Result<(), WireFault>
    ensures ok { OnOk result (out.new.items ≡
        out.old.items ++ joined (reply_fields (answers_tree_connect response))) }
    ensures fits { OnOk result (AllFit (reply_fields (answers_tree_connect response))) }
    ensures kept { take (length out.old.items) out.new.items ≡ out.old.items }
{
    put_numbers(
        &[
            Number::U16(16),
            Number::U8(response.share_type.0),
            Number::U8(0),
            Number::U32(response.share_flags.0),
            Number::U32(response.capabilities.0),
            Number::U32(response.maximal_access.0),
        ],
        out,
    )
}
