//! What an open is.

ghost use Rattle.std.specs.Prelude.{◌≡◌};
ghost use Rattle.smb_access.specs.Opens.{is_held_by};

use super::scan::Scan;
use smb_tree::EntryNo;
use smb_wire::{Access, ShareAccess};

/// The number of an open: 1, 2, 3 and so on, each once.
pub type OpenNo = u64;

/// Whose opens: those of a session, or those of one of its tree connects.
#[derive(Clone, Copy, Debug, PartialEq, Eq)]
pub enum Owner {
    /// All opens of the session of this number.
    Session(u64),
    /// The opens of a session under the tree connect of this number.
    Tree(u64, u32),
}

impl Owner {
    /// Whether an open is one of these.
    pub fn holds(self, row: &OpenRow) -> bool
        ensures { result ≡ is_held_by self row.now }
    {
        match self {
            Owner::Session(session) => row.session == session,
            Owner::Tree(session, tree) => row.session == session && row.tree == tree,
        }
    }
}

/// An open: an entry, who opened it, and what for ([MS-SMB2] 3.3.1.10).
#[derive(Clone, Copy)]
pub struct OpenRow {
    pub number: OpenNo,
    /// The number of the entry that is open.
    pub entry: EntryNo,
    /// The number of the session that opened it.
    pub session: u64,
    /// The number of the tree connect, in that session, under which it was opened.
    pub tree: u32,
    /// The access that was granted.
    pub access: Access,
    /// What others may do meanwhile.
    pub share: ShareAccess,
    /// The entry is to go when this open is closed.
    pub delete_on_close: bool,
    /// How far a scan of a directory has come through it.
    pub scan: Scan,
}
