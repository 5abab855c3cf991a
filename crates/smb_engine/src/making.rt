//! How a share is made.

ghost use Rattle.std.specs.Prelude.{◌≡◌, [], true, OnOk, IfOk, IfErr, if◌then◌else◌};
ghost use Rattle.smb_tree.specs.Content.{new_content, new_content_within};
ghost use Rattle.smb_request.specs.Settings.{settings_of, settings_within, is_lawful};
ghost use Rattle.smb_opens.specs.Good.{UnmarkedTree};
ghost use Rattle.smb_engine.specs.State.{new_share, share_over};

use super::fault::ServeFault;
use super::share::Share;
use smb_handles::HandleTable;
use smb_nodes::NodeTree;
use smb_opens::Opens;
use smb_request::{Config, Server};
use smb_session::Authenticator;
use smb_tree::Tree;
use smb_wire::limits::Limits;
use std::alloc::Global;
use std::collections::BTreeMap;

impl<A: Authenticator + Drop> Share<A, NodeTree, HandleTable> {
    /// A share of this configuration over a new tree and a new list of opens, those that look-ups are fast in, under the
    /// default limits: what [`Share::new`] makes of them. No condition is asked of the caller.
    ///
    /// A configuration that breaks its rules is [`ServeFault::BadConfig`], before any memory is asked for; else
    /// memory may be wanting, [`ServeFault::NoMemory`]. Both drop what was passed in.
    pub fn in_memory(alloc: Global, config: Config, authenticator: A) -> Result<Self, ServeFault>
        ensures lawful { OnOk result (is_lawful (settings_of config) ≡ true) }
        ensures state { IfOk result (λ share. share ≡ new_share (settings_of config) authenticator) }
        ensures err { IfErr result (λ fault. fault ≡ (if is_lawful (settings_of config) then ServeFault.NoMemory 0 else ServeFault.BadConfig)) }
    {
        Share::in_memory_within(alloc, Limits::profile(), config, authenticator)
    }

    /// [`in_memory`](Self::in_memory) under these limits.
    pub fn in_memory_within(
        alloc: Global,
        limits: Limits,
        config: Config,
        authenticator: A,
    ) -> Result<Self, ServeFault>
        ensures lawful { OnOk result (is_lawful (settings_within limits config) ≡ true) }
        ensures state { IfOk result (λ share. share ≡ new_share (settings_within limits config) authenticator) }
        ensures err { IfErr result (λ fault. fault ≡ (if is_lawful (settings_within limits config) then ServeFault.NoMemory 0 else ServeFault.BadConfig)) }
    {
        if !config.is_lawful_within(limits) {
            return Err(ServeFault::BadConfig);
        }
        let Ok(tree) = NodeTree::within(alloc, limits, config.created, config.capacity) else {
            return Err(ServeFault::NoMemory { done: 0 });
        };
        let opens = HandleTable::new(alloc);
        Share::within(alloc, limits, config, authenticator, tree, opens)
    }
}

impl<A: Authenticator + Drop, T: Tree + Drop, O: Opens + Drop> Share<A, T, O> {
    /// A share of this configuration under the default limits, without a connection and without a session. Its
    /// authenticator decides who may come in. The tree holds the root alone, as newly made with the moment and the room of
    /// the configuration, and there are no opens.
    ///
    /// A configuration that breaks its rules is [`ServeFault::BadConfig`]; else memory may be wanting,
    /// [`ServeFault::NoMemory`]. Both drop what was passed in.
    pub fn new(
        alloc: Global,
        config: Config,
        authenticator: A,
        tree: T,
        opens: O,
    ) -> Result<Self, ServeFault>
        requires tree { T.content tree ≡ new_content config.created config.capacity }
        requires opens { O.content opens ≡ [] }
        ensures lawful { OnOk result (is_lawful (settings_of config) ≡ true) }
        ensures state { IfOk result (λ share. share ≡ new_share (settings_of config) authenticator) }
        ensures err { IfErr result (λ fault. fault ≡ (if is_lawful (settings_of config) then ServeFault.NoMemory 0 else ServeFault.BadConfig)) }
    {
        Share::within(alloc, Limits::profile(), config, authenticator, tree, opens)
    }

    /// [`new`](Self::new) under these limits, which the tree is made under too.
    pub fn within(
        alloc: Global,
        limits: Limits,
        config: Config,
        authenticator: A,
        tree: T,
        opens: O,
    ) -> Result<Self, ServeFault>
        requires tree { T.content tree ≡ new_content_within limits config.created config.capacity }
        requires opens { O.content opens ≡ [] }
        ensures lawful { OnOk result (is_lawful (settings_within limits config) ≡ true) }
        ensures state { IfOk result (λ share. share ≡ new_share (settings_within limits config) authenticator) }
        ensures err { IfErr result (λ fault. fault ≡ (if is_lawful (settings_within limits config) then ServeFault.NoMemory 0 else ServeFault.BadConfig)) }
    {
        Share::over(alloc, limits, config, authenticator, tree, opens)
    }

    /// [`within`](Self::within) over a tree that holds files, of which none is marked; it is made under these limits, with
    /// the room of the configuration.
    pub fn over(
        alloc: Global,
        limits: Limits,
        config: Config,
        authenticator: A,
        tree: T,
        opens: O,
    ) -> Result<Self, ServeFault>
        requires tree { UnmarkedTree (T.content tree) }
        requires room { (T.content tree).capacity ≡ config.capacity }
        requires limits { (T.content tree).limits ≡ limits }
        requires opens { O.content opens ≡ [] }
        ensures lawful { OnOk result (is_lawful (settings_within limits config) ≡ true) }
        ensures state { IfOk result (λ share. share ≡ share_over (settings_within limits config) authenticator (T.content tree)) }
        ensures err { IfErr result (λ fault. fault ≡ (if is_lawful (settings_within limits config) then ServeFault.NoMemory 0 else ServeFault.BadConfig)) }
    {
        if !config.is_lawful_within(limits) {
            return Err(ServeFault::BadConfig);
        }
        Share::made(alloc, limits, config, authenticator, tree, opens)
    }

    /// A share of a configuration that keeps its rules under these limits.
    fn made(
        alloc: Global,
        limits: Limits,
        config: Config,
        authenticator: A,
        tree: T,
        opens: O,
    ) -> Result<Self, ServeFault>
        requires lawful { is_lawful (settings_within limits config) ≡ true }
        requires tree { UnmarkedTree (T.content tree) }
        requires room { (T.content tree).capacity ≡ config.capacity }
        requires limits { (T.content tree).limits ≡ limits }
        requires opens { O.content opens ≡ [] }
        ensures state { IfOk result (λ share. share ≡ share_over (settings_within limits config) authenticator (T.content tree)) }
        ensures err { IfErr result (λ fault. fault ≡ ServeFault.NoMemory 0) }
    {
        let Ok(server) = Server::over(alloc, limits, config, authenticator, tree, opens) else {
            return Err(ServeFault::NoMemory { done: 0 });
        };
        Ok(Share {
            server,
            streams: BTreeMap::new(alloc),
            next: 1,
            most_connections: limits.connections,
        })
    }
}
