//! A session and its trees.

ghost use Rattle.std.specs.Prelude.{◌≡◌, ◌<◌, ◌≤◌, ◌+◌, ◌++◌, ◌∷◌, [], ◌==◌, ◌&&◌, Some, is_some, false};
ghost use Rattle.std.specs.Option.{option_eq, option_map};
ghost use Rattle.std.specs.Str.{bytes_eq};
ghost use Rattle.smb_session.specs.Numbers.{contains, without_number};
ghost use Rattle.smb_session.specs.Parts.{fresh_session, finished_by, with_tree, without_tree, has_all_trees};

use super::signing::Signing;
use arrayvec::ArrayVec;
use smb_wire::limits::MOST_TREE_CONNECTS;
use std::marker::Model;

/// A session ([MS-SMB2] 3.3.1.8).
#[derive(Drop)]
pub(crate) struct Session {
    connection: u64,
    user: Option<Vec<u8>>,
    read_only: bool,
    signing: Option<Signing>,
    trees: ArrayVec<u32, MOST_TREE_CONNECTS>,
    next_tree: u32,
}

impl Model for Session {
    ghost use Rattle.std.specs.Option.{option_map};
    ghost use Rattle.smb_session.specs.Session.{SessionState};

    ghost Value = { SessionState };

    ghost view = { λ s. record { connection = s.connection; user = option_map (λ user. user.items) s.user; read_only = s.read_only; signing = s.signing; trees = s.trees.items; next_tree = s.next_tree } };
}

/// Takes a number out, in one pass.
fn take_out<const N: usize>(trees: &mut ArrayVec<u32, N>, tree: u32)
    ensures { trees.new.items ≡ without_number trees.old.items tree }
{
    trees.retain(|t| *t != tree);
}

impl Session {
    /// A session that has begun on a connection.
    pub(crate) fn fresh(connection: u64) -> Self
        ensures { result ≡ fresh_session connection }
    {
        Session {
            connection,
            user: None,
            read_only: false,
            signing: None,
            trees: ArrayVec::new(),
            next_tree: 1,
        }
    }

    pub(crate) fn connection(&self) -> u64
        ensures { result ≡ self.now.connection }
    {
        self.connection
    }

    pub(crate) fn is_finished(&self) -> bool
        ensures { result ≡ is_some self.now.user }
    {
        self.user.is_some()
    }

    /// The user of the session, where it is finished.
    pub(crate) fn user(&self) -> Option<&[u8]>
        ensures { option_map (λ user. user.now) result ≡ self.now.user }
    {
        match &self.user {
            Some(user) => Some(user.as_slice()),
            None => None,
        }
    }

    /// Whether the session is finished, by this user.
    pub(crate) fn is_of_user(&self, user: &[u8]) -> bool
        ensures { result ≡ option_eq bytes_eq self.now.user (Some user.now) }
    {
        match &self.user {
            Some(known) => known.as_slice() == user,
            None => false,
        }
    }

    /// Whether the session is connected to a tree.
    pub(crate) fn has_tree(&self, tree: u32) -> bool
        ensures { result ≡ contains self.now.trees tree }
    {
        self.trees.contains(&tree)
    }

    /// Whether the session can be given no tree more.
    pub(crate) fn has_all_trees(&self) -> bool
        ensures { result ≡ has_all_trees self.now }
    {
        self.trees.len() >= MOST_TREE_CONNECTS || self.next_tree == u32::MAX
    }

    /// Whether the session may only read.
    pub(crate) fn read_only(&self) -> bool
        ensures { result ≡ self.now.read_only }
    {
        self.read_only
    }

    /// How the session's messages are signed, if they are.
    pub(crate) fn signing(&self) -> Option<Signing>
        ensures { result ≡ self.now.signing }
    {
        self.signing
    }

    /// Finishes the session, by a user who may only read or who may write too, and signed so.
    pub(crate) fn finish(&mut self, user: Vec<u8>, read_only: bool, signing: Option<Signing>)
        ensures { self.new ≡ finished_by user.items read_only signing self.old }
    {
        self.user = Some(user);
        self.read_only = read_only;
        self.signing = signing;
    }

    /// Connects the session to its next tree, and tells the number.
    pub(crate) fn add_tree(&mut self) -> u32
        requires { has_all_trees self.old ≡ false }
        ensures number { result ≡ self.old.next_tree }
        ensures state { self.new ≡ with_tree self.old }
    {
        let tree = self.next_tree;
        self.trees.push(tree);
        self.next_tree = tree + 1;
        tree
    }

    /// Disconnects the session from a tree.
    pub(crate) fn drop_tree(&mut self, tree: u32)
        ensures { self.new ≡ without_tree tree self.old }
    {
        take_out(&mut self.trees, tree);
    }
}
