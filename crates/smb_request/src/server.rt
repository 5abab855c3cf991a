//! What all connections share ([MS-SMB2] 3.3.1.5).

ghost use Rattle.std.specs.Prelude.{◌≡◌, ◌==◌, ◌<◌, ◌≤◌, ◌+◌, ◌-◌, [], ◌++◌, true, None, Some, if◌then◌else◌, OnOk, OnErr, IfOk, IfSome, length, take, option_and_then};
ghost use Rattle.std.specs.Option.{option_map};
ghost use Rattle.std.specs.Bool.{OnTrue, OnFalse};
ghost use Rattle.smb_wire.specs.Limits.{longest_body, longest_token};
ghost use Rattle.smb_wire.specs.Number.{spelling};
ghost use Rattle.smb_wire.specs.Pairs.{unit_bytes, AreUnits};
ghost use Rattle.smb_session.specs.Table.{numbers_on, session_at};
ghost use Rattle.smb_access.specs.Opens.{open_of};
ghost use Rattle.smb_tree.specs.WholeNames.{entry_copied};
ghost use Rattle.smb_body.specs.Replies.{reply_value, reply_spelling};
ghost use Rattle.smb_session.specs.Good.{GoodTable};
ghost use Rattle.smb_session.specs.Sessions.{new_sessions};
ghost use Rattle.smb_tree.specs.Content.{new_content, new_content_within, used_space};
ghost use Rattle.smb_info.specs.FileSystemInformation.{is_volume_label};
ghost use Rattle.smb_info.specs.Volumes.{volume_facts};
ghost use Rattle.smb_opens.specs.Good.{GoodStore, UnmarkedTree};
ghost use Rattle.smb_request.specs.Settings.{settings_within, settings_of, is_lawful};
ghost use Rattle.smb_request.specs.Negotiate.{negotiate_answer};
ghost use Rattle.smb_request.specs.Parts.{volume_of, hello_of};
ghost use Rattle.smb_request.specs.State.{new_server, server_over, connection_added, connection_ended};
ghost use Rattle.smb_request.specs.Owners.{AreOwned};

use super::config::Config;
use super::context::HeaderIds;
use super::negotiate;
use super::smb1::Smb1Answer;
use smb_body::{Reply, write_reply};
use smb_info::Volume;
use smb_opens::{Opens, Owner, Store};
use smb_reason::Reason;
use smb_session::{Authenticator, Denial, Sessions};
use smb_tree::{KeptContent, Tree, Usage};
use smb_wire::limits::Limits;
use smb_wire::{Dialect, Units, put_u16};
use std::alloc::{AllocError, Global};
use std::marker::Model;

/// The configuration, the sessions with their authenticator, and the files with their opens.
#[derive(Drop)]
pub struct Server<A: Authenticator + Drop, T: Tree + Drop, O: Opens + Drop> {
    config: Config,
    limits: Limits,
    pub(crate) sessions: Sessions<A>,
    pub(crate) store: Store<T, O>,
    alloc: Global,
}

impl<A: Authenticator + Drop, T: Tree + Drop, O: Opens + Drop> Model for Server<A, T, O> {
    ghost use Rattle.smb_request.specs.Settings.{settings_within};
    ghost use Rattle.smb_request.specs.State.{ServerState};
    ghost use Rattle.smb_request.specs.Held.{IsServerKept};

    ghost Value = { ServerState A };

    ghost view = { λ s. record { settings = settings_within s.limits s.config; sessions = s.sessions; store = s.store } };

    ghost invariant = { λ s. IsServerKept (settings_within s.limits s.config) s.sessions.share s.sessions.table s.store.tree s.store.opens };
}

/// Adds the bytes of a unit.
fn put_unit(bytes: &mut Vec<u8>, unit: u16) -> Result<(), AllocError>
    ensures { OnOk result (bytes.new.items ≡ bytes.old.items ++ spelling 2 unit) }
{
    put_u16(bytes, unit).or(Err(AllocError))?;
    Ok(())
}

/// The bytes of units, each of which is a character of ASCII.
fn wide(alloc: Global, characters: &[u8]) -> Result<Vec<u8>, AllocError>
    ensures bytes { IfOk result (λ bytes. bytes.items ≡ unit_bytes characters.now) }
    ensures fits { AreUnits characters.now }
{
    let mut bytes = Vec::new(alloc);
    for character in characters {
        put_unit(&mut bytes, u16::from(*character))?;
    }
    Ok(bytes)
}

/// No session, for the share of a name in ASCII.
fn sessions_of<A: Authenticator + Drop>(
    alloc: Global,
    authenticator: A,
    name: &[u8],
) -> Result<Sessions<A>, AllocError>
    ensures { IfOk result (λ sessions. sessions ≡ new_sessions authenticator name.now) }
{
    let bytes = wide(alloc, name)?;
    let Some(share) = Units::of(&bytes) else {
        return Err(AllocError);
    };
    match Sessions::new(alloc, authenticator, share) {
        Ok(sessions) => Ok(sessions),
        Err(_) => Err(AllocError),
    }
}

impl<A: Authenticator + Drop, T: Tree + Drop, O: Opens + Drop> Server<A, T, O> {
    /// What connections share at first, under the default limits: no session, and the root alone.
    pub fn new(
        alloc: Global,
        config: Config,
        authenticator: A,
        tree: T,
        opens: O,
    ) -> Result<Self, AllocError>
        requires lawful { is_lawful (settings_of config) ≡ true }
        requires tree { T.content tree ≡ new_content config.created config.capacity }
        requires opens { O.content opens ≡ [] }
        ensures { IfOk result (λ server. server ≡ new_server (settings_of config) authenticator) }
    {
        Server::within(alloc, Limits::profile(), config, authenticator, tree, opens)
    }

    /// [`new`](Self::new) under these limits.
    #[tactic(auto, using(smb_opens::proofs::OnePath::new_tree))]
    pub fn within(
        alloc: Global,
        limits: Limits,
        config: Config,
        authenticator: A,
        tree: T,
        opens: O,
    ) -> Result<Self, AllocError>
        requires lawful { is_lawful (settings_within limits config) ≡ true }
        requires tree { T.content tree ≡ new_content_within limits config.created config.capacity }
        requires opens { O.content opens ≡ [] }
        ensures { IfOk result (λ server. server ≡ new_server (settings_within limits config) authenticator) }
    {
        Server::over(alloc, limits, config, authenticator, tree, opens)
    }

    /// What connections share at first over a tree that holds files, of which none is marked: no session.
    pub fn over(
        alloc: Global,
        limits: Limits,
        config: Config,
        authenticator: A,
        tree: T,
        opens: O,
    ) -> Result<Self, AllocError>
        requires lawful { is_lawful (settings_within limits config) ≡ true }
        requires tree { UnmarkedTree (T.content tree) }
        requires room { (T.content tree).capacity ≡ config.capacity }
        requires limits { (T.content tree).limits ≡ limits }
        requires opens { O.content opens ≡ [] }
        ensures { IfOk result (λ server. server ≡ server_over (settings_within limits config) authenticator (T.content tree)) }
    {
        let sessions = sessions_of(alloc, authenticator, config.share.as_bytes())?;
        Ok(Server {
            config,
            limits,
            sessions,
            store: Store::new(alloc, tree, opens),
            alloc,
        })
    }

    /// The limits that the share is under.
    pub fn limits(&self) -> Limits
        ensures { result ≡ self.now.settings.limits }
    {
        self.limits
    }

    /// The allocator of what the share makes.
    pub fn allocator(&self) -> Global {
        self.alloc
    }

    /// Why the authenticator denied the client of the last SESSION_SETUP, where it keeps that.
    pub fn denial(&self) -> Option<Denial<'_>> {
        self.sessions.denial()
    }

    /// The user of a finished session of the connection, as the authenticator named it; None where the number is that of none.
    pub fn user(&self, connection: u64, session_id: u64) -> Option<&[u8]>
        ensures { option_map (λ user. user.now) result ≡ option_and_then
            (λ state. if state.connection == connection then state.user else None)
            (session_at self.now.sessions.table session_id) }
    {
        self.sessions.user(connection, session_id)
    }

    /// The whole name of the file of the open of a number, as it is spelled now; None where no open of this session and tree
    /// connect has the number, or an allocation is refused.
    pub fn file_name(&self, ids: HeaderIds, open_number: u64) -> Option<Vec<u8>>
        ensures { IfSome result (λ name. option_and_then (λ row. option_map (λ copy. copy.name) (entry_copied self.now.store.tree.rows row.entry)) (open_of self.now.store.opens open_number) ≡ Some name.items) }
    {
        let row = self.store.opens().get(open_number)?;
        if !Owner::Tree(ids.session_id, ids.tree_id).holds(row) {
            return None;
        }
        self.store.open_name(self.alloc, open_number)
    }

    /// How many sessions there are, those that are not finished among them.
    pub fn session_count(&self) -> usize
        ensures { result ≡ length self.now.sessions.table.sessions }
    {
        self.sessions.len()
    }

    /// The sessions of all connections.
    pub fn sessions(&self) -> &Sessions<A>
        ensures { result.now ≡ self.now.sessions }
    {
        &self.sessions
    }

    /// The files, their opens and locks.
    pub fn store(&self) -> &Store<T, O>
        ensures { result.now ≡ self.now.store }
    {
        &self.store
    }

    /// Has the tree keep what changed ([`Tree::keep_changes`]). The server stays, whatever is returned.
    pub fn keep_changes(&mut self) -> Result<KeptContent<T>, Reason>
        ensures stays { self.new ≡ self.old }
        ensures kept { IfOk result (λ content. content ≡ self.new.store.tree) }
    {
        self.store.keep_changes()
    }

    /// How many opens there are.
    pub fn open_count(&self) -> usize
        ensures { result ≡ length self.now.store.opens }
    {
        self.store.open_count()
    }

    /// How much the share holds. It takes no time that grows with it.
    pub fn usage(&self) -> Usage
        ensures entries { result.entries ≡ length self.now.store.tree.rows - 1 }
        ensures used { result.used ≡ used_space self.now.store.tree.rows }
    {
        Usage {
            entries: self.store.entry_count().saturating_sub(1),
            used: self.store.tree().used(),
        }
    }

    /// A NEGOTIATE response that says a dialect's revision, where this dialect is established.
    pub(crate) fn negotiate_response(
        &self,
        moment: u64,
        dialect: Option<Dialect>,
        dialect_revision: u16,
    ) -> Reply<'_>
        ensures response { reply_value result ≡ negotiate_answer (A.meaning.requires_signing self.now.sessions.authenticator) self.now.settings.guid (A.meaning.hello self.now.sessions.authenticator) moment dialect dialect_revision }
        ensures short { length (A.meaning.hello self.now.sessions.authenticator) ≤ longest_token }
    {
        negotiate::response(
            self.sessions.requires_signing(),
            self.config.guid,
            self.sessions.hello(),
            moment,
            dialect,
            dialect_revision,
        )
    }

    /// The share as a volume.
    pub(crate) fn volume(&self) -> Volume<'_>
        ensures facts { volume_facts result ≡ volume_of self.now }
        ensures label { is_volume_label (volume_of self.now).label ≡ true }
        ensures used { (volume_of self.now).used ≤ (volume_of self.now).capacity }
    {
        self.good();
        Volume {
            created: self.config.created,
            label: self.config.label.as_str(),
            capacity: self.store.tree().capacity(),
            used: self.store.tree().used(),
        }
    }

    /// Lets a connection begin sessions from now on. An error changes nothing.
    pub fn connect(&mut self, connection: u64) -> Result<(), AllocError>
        ensures ok { OnOk result (self.new ≡ connection_added self.old connection) }
        ensures err { OnErr result (self.new ≡ self.old) }
    {
        let Ok(()) = self.sessions.connect(connection) else {
            return Err(AllocError);
        };
        Ok(())
    }

    /// Ends the least session of a connection, with its opens; false where it has none and is forgotten.
    #[tactic(auto, unfolding(crate::specs::State::connection_ended))]
    fn end_one(&mut self, connection: u64) -> bool
        ensures ended { OnTrue result (connection_ended self.new connection ≡ connection_ended self.old connection) }
        ensures fewer { OnTrue result (length (numbers_on self.new.sessions.table.sessions connection) < length (numbers_on self.old.sessions.table.sessions connection)) }
        ensures none { OnFalse result (self.new ≡ connection_ended self.old connection) }
    {
        self.sessions.good();
        let Some(session) = self.sessions.end_connection(connection) else {
            return false;
        };
        self.store.close_all(Owner::Session(session));
        true
    }

    /// Ends a connection's sessions in rising number, and forgets it. It takes no memory.
    pub fn disconnect(&mut self, connection: u64)
        ensures ended { self.new ≡ connection_ended self.old connection }
    {
        self.sessions.good();
        while self.end_one(connection) {}
    }

    /// Adds the body of this response to an SMB_COM_NEGOTIATE to `out`: an SMB2 NEGOTIATE response. After an error `out` is
    /// as it was.
    pub fn put_smb1_body(
        &self,
        moment: u64,
        answer: Smb1Answer,
        out: &mut Vec<u8>,
    ) -> Result<(), AllocError>
        ensures ok { OnOk result (out.new.items
            ≡ out.old.items ++ reply_spelling (negotiate_answer (A.meaning.requires_signing self.now.sessions.authenticator) self.now.settings.guid (A.meaning.hello self.now.sessions.authenticator) moment answer.dialect answer.dialect_revision)) }
        ensures len { OnOk result (length out.new.items ≤ length out.old.items + longest_body) }
        ensures err { OnErr result (out.new.items ≡ out.old.items) }
        ensures kept { take (length out.old.items) out.new.items ≡ out.old.items }
    {
        let reply = self.negotiate_response(moment, answer.dialect, answer.dialect_revision);
        write_reply(&reply, out).or(Err(AllocError))?;
        Ok(())
    }

    /// The configuration keeps its rules, the share has its name and its capacity, the sessions and the files are good,
    /// and each open is owned. (The body does nothing.)
    pub fn good(&self)
        ensures lawful { is_lawful self.now.settings ≡ true }
        ensures named { self.now.sessions.share ≡ self.now.settings.share }
        ensures room { self.now.store.tree.capacity ≡ self.now.settings.capacity }
        ensures limits { self.now.store.tree.limits ≡ self.now.settings.limits }
        ensures sessions { GoodTable self.now.sessions.table }
        ensures store { GoodStore self.now.store }
        ensures owned { AreOwned self.now.sessions.table self.now.store.opens }
    {
        let _ = &self.config;
        self.sessions.good();
        self.store.good();
    }
}
