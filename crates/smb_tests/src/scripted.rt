//! A share whose authenticator follows a script.

ghost use Rattle.std.specs.Prelude.{IfSome};
ghost use Rattle.std.specs.List.{AllByRecursion};
ghost use Rattle.smb_session.specs.Authenticator.{IsLawful};
ghost use Rattle.smb_session.specs.Answers.{answered_by};

use smb_config::{BUILT_IN, Configuration};
use smb_engine::{Fate, Share};
use smb_handles::HandleTable;
use smb_layer_tests::words::{MOMENT, NEGOTIATE, NEGOTIATED, frames};
use smb_nodes::NodeTree;
use smb_session::{Answer, Scripted};
use std::alloc::Global;

type Told = Share<Scripted, NodeTree, HandleTable>;

/// A SESSION_SETUP with MessageId 1, SessionId 0 and the token `61`.
const SETUP: &str =
    "00000059 fe534d42 4000 z6 0100 0100 z8 0100000000000000 z32 1900 00 01 z8 5800 0100 z8 61";

/// STATUS_MORE_PROCESSING_REQUIRED, session 1 and the token `aabb`.
const MORE: &str =
    "0000004a fe534d42 4000 z2 160000c0 0100 0100 01000000 z4 0100000000000000 z8 0100000000000000 z16 0900 0000 4800 0200 aabb";

/// A SESSION_SETUP with MessageId 2 in session 1, with the token `63`.
const NEXT: &str =
    "00000059 fe534d42 4000 z6 0100 0100 z8 0200000000000000 z8 0100000000000000 z16 1900 00 01 z8 5800 0100 z8 63";

/// STATUS_LOGON_FAILURE.
const DENIED: &str =
    "00000049 fe534d42 4000 z2 6d0000c0 0100 0100 01000000 z4 0200000000000000 z8 0100000000000000 z16 0900 z7";

/// Two answers: a token, and no.
fn script(alloc: Global) -> Option<Vec<Answer>>
    ensures { IfSome result (λ answers. AllByRecursion (λ answer. IsLawful (answered_by answer)) answers.items) }
{
    let token = Vec::from_slice(alloc, &[0xaa, 0xbb]).ok()?;
    let mut answers = Vec::new(alloc);
    answers.push(Answer::Continue(token)).ok()?;
    answers.push(Answer::Deny).ok()?;
    Some(answers)
}

/// A share of a configuration, but for its authenticator.
fn share_of(alloc: Global, configuration: Configuration, authenticator: Scripted) -> Option<Told> {
    let config = configuration.config;
    let tree = NodeTree::new(alloc, config.created, config.capacity).ok()?;
    Share::new(alloc, config, authenticator, tree, HandleTable::new(alloc)).ok()
}

/// A share with the script: more is wanted, and then a denial.
fn told_share(alloc: Global) -> Option<Told> {
    let authenticator = Scripted::new(alloc, &[], script(alloc)?).ok()?;
    match Configuration::read(alloc, BUILT_IN) {
        Ok(configuration) => share_of(alloc, configuration, authenticator),
        Err(_) => None,
    }
}

/// Whether connection 1, which is open, takes a piece and stays open.
fn takes(share: &mut Told, piece: &[u8], out: &mut Vec<u8>) -> bool {
    if !share.is_open(1) {
        return false;
    }
    match share.feed(1, MOMENT, piece, out) {
        Ok(found) => found == Fate::Open,
        Err(_) => false,
    }
}

/// Whether a frame on connection 1 is answered by a frame.
fn answers(share: &mut Told, alloc: Global, request: &str, reply: &str) -> bool {
    let Some(piece) = frames(alloc, &[request]) else {
        return false;
    };
    let mut out = Vec::new(alloc);
    takes(share, &piece, &mut out) && frames(alloc, &[reply]) == Some(out)
}

/// Whether a client is asked for more, and then denied.
fn follows(share: &mut Told, alloc: Global) -> bool {
    share.opened() == Ok(1)
        && answers(share, alloc, NEGOTIATE, NEGOTIATED)
        && answers(share, alloc, SETUP, MORE)
        && answers(share, alloc, NEXT, DENIED)
}

#[test]
fn a_script_is_followed(rt: HostRuntime) {
    let alloc = rt.alloc();
    let is_so = match told_share(alloc) {
        Some(mut share) => follows(&mut share, alloc),
        None => false,
    };
    assert!(rt; is_so);
}
