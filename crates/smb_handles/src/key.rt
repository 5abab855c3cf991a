//! The names of the groups that opens are in.

ghost use Rattle.std.specs.Prelude.{◌≡◌};
ghost use Rattle.smb_handles.specs.Groups.{group_of};

use smb_access::Owner;
use smb_tree::EntryNo;

/// A group of opens. An open is in one of each kind.
#[derive(Clone, Copy, PartialEq, Eq, PartialOrd, Ord)]
pub enum GroupKey {
    /// Those of an entry.
    Entry(EntryNo),
    /// Those of the session of this number.
    Session(u64),
    /// Those of a session under its tree connect of this number.
    Tree(u64, u32),
}

impl GroupKey {
    /// That of an owner's opens.
    pub fn of_owner(owner: Owner) -> GroupKey
        ensures { result ≡ group_of owner }
    {
        match owner {
            Owner::Session(session) => GroupKey::Session(session),
            Owner::Tree(session, tree) => GroupKey::Tree(session, tree),
        }
    }
}
