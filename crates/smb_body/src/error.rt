//! The response of a request that failed ([MS-SMB2] 2.2.2).

ghost use Rattle.std.specs.Prelude.{◌≡◌, ◌++◌, length, take, OnOk};
ghost use Rattle.smb_wire.specs.Fields.{joined};
ghost use Rattle.smb_body.specs.Replies.{answers_error, reply_fields};

use smb_wire::{WireFault, put_bytes};

/// Adds the body of an error response, without error data. After an error some of it stands there.
#[tactic(auto, unfolding(smb_wire::specs::Number::spelling))]
pub(crate) fn put_error_response(out: &mut Vec<u8>) -> Result<(), WireFault>
    ensures ok { OnOk result (out.new.items ≡ out.old.items ++ joined (reply_fields answers_error)) }
    ensures kept { take (length out.old.items) out.new.items ≡ out.old.items }
{
    put_bytes(out, &[9, 0, 0, 0, 0, 0, 0, 0, 0])
}
