//! That the peers know whether what a share has is kept.

ghost use Rattle.std.specs.Prelude.{◌≡◌, IfOk};
ghost use Rattle.smb_peers.specs.Record.{Keeping};

use smb_engine::Share;
use smb_opens::Opens;
use smb_peers::Peers;
use smb_reason::Reason;
use smb_session::Authenticator;
use smb_tree::{KeptContent, Tree};
use std::snapshot::Snapshot;

/// That the peers know whether what a share had is kept. Only [`note_kept`] makes one, and the sends of a turn take one
/// of the share as it is: no answer is sent before what it says is kept, or the peers know that it is not.
#[derive(Drop)]
pub(crate) struct KeptNoted<A: Authenticator + Drop, T: Tree + Drop, O: Opens + Drop> {
    share: Snapshot<Share<A, T, O>>,
}

/// Tells the peers whether what the share has is kept: that it is takes what its tree gave for this very content.
pub(crate) fn note_kept<A: Authenticator + Drop, T: Tree + Drop, O: Opens + Drop, P: Peers>(
    share: &Share<A, T, O>,
    peers: &mut P,
    kept: Result<KeptContent<T>, Reason>,
) -> KeptNoted<A, T, O>
    requires { IfOk kept (λ content. content ≡ share.now.server.store.tree) }
    ensures share { result.share.value ≡ share.now }
    ensures kept { Keeping (P.keeps peers.old) (P.keeps peers.new) (P.calls peers.new ≡ P.calls peers.old) }
    ensures opened { P.opened peers.new ≡ P.opened peers.old }
{
    match kept {
        Ok(_) => peers.note_kept(Ok(())),
        Err(reason) => peers.note_kept(Err(reason)),
    }
    KeptNoted {
        share: Snapshot::of(share),
    }
}
