//! Which payloads are performed: chains that keep the rule about NEGOTIATE, and whose MessageIds may be used ([MS-SMB2]
//! 3.3.5.2).

ghost use Rattle.std.specs.Prelude.{ℕ, List, [], ◌≡◌, ◌≤◌, ◌<◌, Some, true, OnOk, OnErr, IfErr, length, slice_get};
ghost use Rattle.smb_head.specs.Chains.{chain_of};
ghost use Rattle.smb_head.specs.Headers.{header_of};
ghost use Rattle.smb_session.specs.Window.{without_ids};
ghost use Rattle.smb_engine.specs.Run.{message_ids, keeps_negotiate_rule, admitted, ending_of};
ghost use Rattle.smb_engine.specs.Parts.{runs_of};

use super::connection::Connection;
use super::ending::{ids_ending, negotiate_ending};
use arrayvec::ArrayVec;
use smb_head::{Chain, Header};
use smb_peers::Ending;
use smb_request::charge_of;
use smb_wire::limits::MOST_REQUESTS;
use smb_wire::{Command, Dialect};

/// A request of a chain, with its header.
pub(crate) fn request_at<'a>(chain: &'a Chain<'_>, i: usize) -> (Header, &'a [u8])
    requires { i < length chain.now }
    ensures header { result.0 ≡ header_of result.1.now }
    ensures request { slice_get chain.now i ≡ Some result.1.now }
{
    chain.get(i).unwrap()
}

/// Puts out the MessageIds that a chain uses in a dialect, by request: the first, and how many from there upward. CANCEL
/// uses none. False where the chain breaks the rule about NEGOTIATE, which is alone in its chain, and before the dialect is
/// known. The list is lent, since it is long to hand back.
fn put_runs(
    dialect: Option<Dialect>,
    chain: &Chain<'_>,
    runs: &mut ArrayVec<(u64, u16), MOST_REQUESTS>,
) -> bool
    requires empty { runs.old.items ≡ [] }
    requires few { length chain.now ≤ 16 }
    ensures keeps { result ≡ keeps_negotiate_rule dialect chain.now }
    ensures runs { runs.new.items ≡ runs_of dialect chain.now }
{
    let mut negotiates = false;
    for i in 0..chain.len() {
        let (header, _) = request_at(chain, i);
        let code = header.command.0;
        if code == Command::Negotiate.code().0 {
            negotiates = true;
        }
        if code != Command::Cancel.code().0 {
            let charge = charge_of(dialect, header.credit_charge);
            runs.push((header.message_id, charge));
        }
    }
    match dialect {
        None => negotiates && chain.len() == 1,
        Some(_) => !negotiates,
    }
}

/// Takes the MessageIds of a payload's requests from the window; or returns the rule by which the payload ends the
/// connection, which is then as it was.
pub(crate) fn admit(connection: &mut Connection, chain: &Chain<'_>) -> Result<(), Ending>
    requires { length chain.now ≤ 16 }
    ensures admitted { (payload : List ℕ) → chain_of payload ≡ Some chain.now →
        OnOk result (admitted connection.old payload ≡ Some chain.now) }
    ensures taken { OnOk result (connection.new
        ≡ record connection.old { payload_came = true; window = without_ids connection.old.window (message_ids connection.old.dialect chain.now) }) }
    ensures err { (payload : List ℕ) → chain_of payload ≡ Some chain.now →
        IfErr result (λ ending. ending_of connection.old payload ≡ Some ending) }
    ensures kept { OnErr result (connection.new ≡ connection.old) }
{
    let mut runs = ArrayVec::new();
    if !put_runs(connection.dialect, chain, &mut runs) {
        return Err(negotiate_ending(connection.dialect));
    }
    if !connection.window.take_runs(&runs) {
        return Err(ids_ending(&connection.window, &runs));
    }
    connection.payload_came = true;
    Ok(())
}
