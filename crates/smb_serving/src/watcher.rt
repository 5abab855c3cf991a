//! Who looks at a share while it is served.

use smb_engine::Share;
use smb_opens::Opens;
use smb_session::Authenticator;
use smb_tree::Tree;

/// Looks at a share that is served, at the end of each turn. `()` does not look.
pub trait Watcher<A: Authenticator + Drop, T: Tree + Drop, O: Opens + Drop> {
    /// Looks at the share behind a turn.
    fn look(&mut self, share: &Share<A, T, O>);
}

impl<A: Authenticator + Drop, T: Tree + Drop, O: Opens + Drop> Watcher<A, T, O> for () {
    fn look(&mut self, _share: &Share<A, T, O>) {}
}
