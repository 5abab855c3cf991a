//! By which rule a payload ends its connection ([MS-SMB2] 3.3.5.2).

ghost use Rattle.std.specs.Prelude.{◌≡◌, Some, false};
ghost use Rattle.smb_session.specs.Window.{may_use, upward, numbers_of};
ghost use Rattle.smb_engine.specs.Run.{ending_by_fault, ending_by_negotiate, ending_by_ids};
ghost use Rattle.smb_engine.specs.Parts.{missing};

use super::connection::Connection;
use smb_head::HeadFault;
use smb_peers::Ending;
use smb_session::Window;
use smb_wire::Dialect;

/// By which rule a payload ends its connection that has this first fault of a chain.
pub(crate) fn fault_ending(connection: &Connection, payload: &[u8], fault: HeadFault) -> Ending
    ensures { result ≡ ending_by_fault connection.now payload.now fault }
{
    if !payload.starts_with(b"\xffSMBr".as_slice()) {
        return Ending::Chain(fault);
    }
    if connection.payload_came {
        Ending::Smb1Late
    } else {
        Ending::Smb1Misformed
    }
}

/// By which rule a chain ends its connection that breaks the one about NEGOTIATE.
pub(crate) fn negotiate_ending(dialect: Option<Dialect>) -> Ending
    ensures { result ≡ ending_by_negotiate dialect }
{
    match dialect {
        None => Ending::NegotiateAlone,
        Some(_) => Ending::NegotiateAgain,
    }
}

/// The first MessageId of a run that the window does not have.
fn missing_in(window: &Window, run: (u64, u16)) -> Option<u64>
    ensures { result ≡ missing window.now (upward run.0 run.1) }
{
    window.good();
    let (first, count) = run;
    let mut number = first;
    let mut left = count;
    while left > 0 {
        if !window.holds(number) {
            return Some(number);
        }
        number += 1;
        left -= 1;
    }
    None
}

/// The first MessageId of runs that the window does not have.
fn missing_of(window: &Window, runs: &[(u64, u16)]) -> Option<u64>
    ensures { result ≡ missing window.now (numbers_of runs.now) }
{
    let mut rest = runs;
    while let [run, others @ ..] = rest {
        match missing_in(window, *run) {
            Some(number) => return Some(number),
            None => rest = others,
        }
    }
    None
}

/// By which rule a chain ends its connection whose MessageIds may not be used.
#[tactic(auto, using(crate::proofs::Endings::ends_by_missing, crate::proofs::Endings::ends_by_twice))]
pub(crate) fn ids_ending(window: &Window, runs: &[(u64, u16)]) -> Ending
    requires { may_use window.now (numbers_of runs.now) ≡ false }
    ensures { ending_by_ids window.now (numbers_of runs.now) ≡ Some result }
{
    match missing_of(window, runs) {
        Some(number) => Ending::MessageIdNotInWindow(number),
        None => Ending::MessageIdTwice,
    }
}
