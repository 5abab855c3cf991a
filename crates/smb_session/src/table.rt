//! The table of sessions, with their trees ([MS-SMB2] 3.3.1.5).

ghost use Rattle.std.specs.Prelude.{◌≡◌, ◌<◌, ◌≤◌, ◌++◌, ◌∷◌, [], true, false, Some, None, OnOk, OnErr, IfOk, is_some, length, if◌then◌else◌};
ghost use Rattle.std.specs.Option.{ForSome, option_map, option_map_or};
ghost use Rattle.std.specs.BTreeMap.{insert_entry, is_at};
ghost use Rattle.std.specs.Map.{lookup, remove_entry};
ghost use Rattle.std.specs.Ordering.{nat_cmp};
ghost use Rattle.smb_session.specs.Numbers.{contains, without_number};
ghost use Rattle.smb_session.specs.Parts.{fresh_session, finished_by, with_tree, without_tree, has_all_trees, begun, next_tree_of, has_all_sessions, is_of_user, known_session_refusal, accepted, tree_disconnected, tree_connected, user_on};
ghost use Rattle.smb_session.specs.Table.{no_sessions, numbers_on, session_at, connected, session_ended, session_changed, changed_at, knows, read_only_of, signing_of, end_connection_step};
ghost use Rattle.smb_session.specs.Setup.{setup_refusal, previous_ended};
ghost use Rattle.smb_session.specs.Good.{GoodTable};
ghost use Rattle.smb_session.specs.Held.{index_without, withdrawn};

use super::index::SessionNumbers;
use super::session::Session;
use super::signing::Signing;
use smb_refusals::SetupRefusal;
use smb_wire::limits::{LONGEST_USER_NAME, MOST_SESSIONS};
use std::alloc::{AllocError, Global};
use std::collections::BTreeMap;
use std::marker::Model;

/// The connections that are known, with the numbers of their sessions, and the sessions by number. A session
/// is found in logarithmic time.
#[derive(Drop)]
pub(crate) struct Table {
    index: BTreeMap<u64, SessionNumbers>,
    sessions: BTreeMap<u64, Session>,
    next: u64,
}

impl Model for Table {
    ghost use Rattle.smb_session.specs.Table.{TableState};
    ghost use Rattle.smb_session.specs.Held.{table_of, IsHeld};

    ghost Value = { TableState };

    ghost view = { λ t. table_of t.index.entries t.sessions.entries t.next };

    ghost invariant = { λ t. IsHeld t.index.entries t.sessions.entries t.next };
}

/// Adds a connection without sessions.
fn put_connection(
    index: &mut BTreeMap<u64, SessionNumbers>,
    connection: u64,
) -> Result<(), AllocError>
    ensures ok { OnOk result (index.new.entries ≡ insert_entry nat_cmp index.old.entries connection []) }
    ensures err { OnErr result (index.new.entries ≡ index.old.entries) }
{
    index.insert(connection, SessionNumbers::new())?;
    Ok(())
}

/// Adds a session that has begun on a connection.
fn put_session(
    sessions: &mut BTreeMap<u64, Session>,
    number: u64,
    connection: u64,
) -> Result<(), AllocError>
    ensures ok { OnOk result (sessions.new.entries ≡ insert_entry nat_cmp sessions.old.entries number (fresh_session connection)) }
    ensures err { OnErr result (sessions.new.entries ≡ sessions.old.entries) }
{
    sessions.insert(number, Session::fresh(connection))?;
    Ok(())
}

/// Adds a number to those of a connection, where it is known; it has room.
fn add_number(index: &mut BTreeMap<u64, SessionNumbers>, connection: u64, number: u64)
    requires { ForSome (lookup (is_at (nat_cmp connection)) index.old.entries) (λ numbers. length numbers < MOST_SESSIONS) }
    ensures { index.new.entries ≡ changed_at (λ numbers. numbers ++ number ∷ []) connection index.old.entries }
{
    if let Some(numbers) = index.get_mut(&connection) {
        numbers.push(number);
    }
}

/// Takes a number out of those of a connection.
fn drop_number(index: &mut BTreeMap<u64, SessionNumbers>, connection: u64, number: u64)
    ensures { index.new.entries ≡ changed_at (λ numbers. without_number numbers number) connection index.old.entries }
{
    if let Some(numbers) = index.get_mut(&connection) {
        numbers.remove(number);
    }
}

/// Takes a session out, and its number out of those of its connection.
fn take_session(
    index: &mut BTreeMap<u64, SessionNumbers>,
    sessions: &mut BTreeMap<u64, Session>,
    number: u64,
)
    ensures index { index.new.entries ≡ index_without index.old.entries sessions.old.entries number }
    ensures sessions { sessions.new.entries ≡ remove_entry (is_at (nat_cmp number)) sessions.old.entries }
{
    if let Some(session) = sessions.remove(&number) {
        drop_number(index, session.connection(), number);
    }
}

/// Finishes a session.
fn finish(
    sessions: &mut BTreeMap<u64, Session>,
    number: u64,
    user: Vec<u8>,
    read_only: bool,
    signing: Option<Signing>,
)
    ensures { sessions.new.entries ≡ changed_at (finished_by user.items read_only signing) number sessions.old.entries }
{
    if let Some(session) = sessions.get_mut(&number) {
        session.finish(user, read_only, signing);
    }
}

/// Connects a session that stands to its next tree, and tells the number.
fn add_tree(sessions: &mut BTreeMap<u64, Session>, number: u64) -> u32
    requires { option_map_or has_all_trees (lookup (is_at (nat_cmp number)) sessions.old.entries) true ≡ false }
    ensures number { result ≡ option_map_or (λ session. session.next_tree) (lookup (is_at (nat_cmp number)) sessions.old.entries) 0 }
    ensures state { sessions.new.entries ≡ changed_at with_tree number sessions.old.entries }
{
    match sessions.get_mut(&number) {
        Some(session) => session.add_tree(),
        None => 0,
    }
}

/// Disconnects a session from a tree.
fn drop_tree(sessions: &mut BTreeMap<u64, Session>, number: u64, tree: u32)
    ensures { sessions.new.entries ≡ changed_at (without_tree tree) number sessions.old.entries }
{
    if let Some(session) = sessions.get_mut(&number) {
        session.drop_tree(tree);
    }
}

impl Table {
    /// No connection and no session.
    pub(crate) fn new(alloc: Global) -> Self
        ensures { result ≡ no_sessions }
    {
        Table {
            index: BTreeMap::new(alloc),
            sessions: BTreeMap::new(alloc),
            next: 1,
        }
    }

    /// Adds a connection.
    pub(crate) fn connect(&mut self, connection: u64) -> Result<(), AllocError>
        ensures ok { OnOk result (self.new ≡ connected self.old connection) }
        ensures err { OnErr result (self.new ≡ self.old) }
    {
        if self.index.contains_key(&connection) {
            return Ok(());
        }
        put_connection(&mut self.index, connection)?;
        Ok(())
    }

    /// Whether a connection can begin no session.
    pub(crate) fn has_all_sessions(&self, connection: u64) -> bool
        ensures { result ≡ has_all_sessions self.now connection }
    {
        let numbers = match self.index.get(&connection) {
            Some(numbers) => numbers,
            None => return true,
        };
        numbers.len() >= MOST_SESSIONS || self.next == u64::MAX
    }

    /// Why a session is not set up further, or begun.
    pub(crate) fn setup_refusal(
        &self,
        connection: u64,
        number: u64,
        flags: u8,
    ) -> Option<SetupRefusal>
        ensures { result ≡ setup_refusal self.now connection number flags }
    {
        if flags & 1 != 0 {
            return Some(SetupRefusal::BindingAsked);
        }
        if number == 0 {
            return if self.has_all_sessions(connection) {
                Some(SetupRefusal::NoSessionLeft)
            } else {
                None
            };
        }
        match self.sessions.get(&number) {
            Some(session) if session.connection() != connection => {
                Some(SetupRefusal::UnknownSession)
            }
            Some(session) if session.is_finished() => Some(SetupRefusal::SessionFinished),
            Some(_) => None,
            None => Some(SetupRefusal::UnknownSession),
        }
    }

    /// Begins a session on a connection that can have one, and tells its number.
    pub(crate) fn begin(&mut self, connection: u64) -> Result<u64, AllocError>
        requires { has_all_sessions self.old connection ≡ false }
        ensures number { IfOk result (λ number. number ≡ self.old.next) }
        ensures state { OnOk result (self.new ≡ begun self.old connection) }
        ensures more { OnOk result (1 < self.new.next) }
        ensures back { OnOk result (withdrawn self.new ≡ self.old) }
        ensures err { OnErr result (self.new ≡ self.old) }
    {
        let number = self.next;
        put_session(&mut self.sessions, number, connection)?;
        add_number(&mut self.index, connection, number);
        self.next = number + 1;
        Ok(number)
    }

    /// Ends a session, where it stands.
    pub(crate) fn end(&mut self, number: u64)
        ensures { self.new ≡ session_ended self.old number }
    {
        take_session(&mut self.index, &mut self.sessions, number);
    }

    /// Takes back the session that began last, with its number.
    pub(crate) fn withdraw(&mut self)
        requires { 1 < self.old.next }
        ensures { self.new ≡ withdrawn self.old }
    {
        let number = self.next - 1;
        take_session(&mut self.index, &mut self.sessions, number);
        self.next = number;
    }

    /// The session that an accepted one ends.
    pub(crate) fn previous_ended(&self, user: &[u8], previous: u64) -> Option<u64>
        ensures { result ≡ previous_ended self.now user.now previous }
    {
        match self.sessions.get(&previous) {
            Some(session) if session.is_of_user(user) => Some(previous),
            _ => None,
        }
    }

    /// Finishes a session by a user, and ends the previous one where it is to end, which is told.
    pub(crate) fn accept(
        &mut self,
        number: u64,
        user: Vec<u8>,
        read_only: bool,
        signing: Option<Signing>,
        previous: u64,
    ) -> Option<u64>
        requires { length user.items ≤ LONGEST_USER_NAME }
        ensures ended { result ≡ previous_ended self.old user.items previous }
        ensures state { self.new ≡ accepted self.old number user.items read_only signing previous }
    {
        let ended = self.previous_ended(&user, previous);
        if let Some(previous) = ended {
            self.end(previous);
        }
        self.finish(number, user, read_only, signing);
        ended
    }

    /// Finishes a session.
    fn finish(&mut self, number: u64, user: Vec<u8>, read_only: bool, signing: Option<Signing>)
        requires { length user.items ≤ LONGEST_USER_NAME }
        ensures { self.new ≡ session_changed (finished_by user.items read_only signing) self.old number }
    {
        finish(&mut self.sessions, number, user, read_only, signing);
    }

    /// Whether this is a finished session of the connection, and where a tree is named has it.
    pub(crate) fn knows(&self, connection: u64, number: u64, tree: Option<u32>) -> bool
        ensures { result ≡ knows self.now connection number tree }
    {
        let session = match self.sessions.get(&number) {
            Some(session) => session,
            None => return false,
        };
        if session.connection() != connection || !session.is_finished() {
            return false;
        }
        match tree {
            Some(tree) => session.has_tree(tree),
            None => true,
        }
    }

    /// Whether a finished session of the connection may only read; None where the number is that of none.
    pub(crate) fn read_only(&self, connection: u64, number: u64) -> Option<bool>
        ensures { result ≡ read_only_of self.now connection number }
    {
        match self.sessions.get(&number) {
            Some(session) if session.connection() == connection && session.is_finished() => {
                Some(session.read_only())
            }
            _ => None,
        }
    }

    /// How the messages of a finished session of the connection are signed, if they are.
    pub(crate) fn signing(&self, connection: u64, number: u64) -> Option<Signing>
        ensures { result ≡ signing_of self.now connection number }
    {
        match self.sessions.get(&number) {
            Some(session) if session.connection() == connection && session.is_finished() => {
                session.signing()
            }
            _ => None,
        }
    }

    /// The user of a finished session of the connection; None where the number is that of none.
    pub(crate) fn user(&self, connection: u64, number: u64) -> Option<&[u8]>
        ensures { option_map (λ user. user.now) result ≡ user_on self.now connection number }
    {
        match self.sessions.get(&number) {
            Some(session) if session.connection() == connection => session.user(),
            _ => None,
        }
    }

    /// The numbers of a connection's sessions, in rising order; none where it is not known.
    pub(crate) fn of_connection(&self, connection: u64) -> &[u64]
        ensures { result.now ≡ (if contains self.now.connections connection then numbers_on self.now.sessions connection else []) }
    {
        match self.index.get(&connection) {
            Some(numbers) => numbers.as_slice(),
            None => &[],
        }
    }

    /// How many sessions there are.
    pub(crate) fn len(&self) -> usize
        ensures { result ≡ length self.now.sessions }
    {
        self.sessions.len()
    }

    /// Whether a session can be given no tree more, or does not stand.
    pub(crate) fn has_all_trees(&self, number: u64) -> bool
        ensures { result ≡ option_map_or has_all_trees (session_at self.now number) true }
    {
        match self.sessions.get(&number) {
            Some(session) => session.has_all_trees(),
            None => true,
        }
    }

    /// Connects a finished session to its next tree, and tells the number.
    pub(crate) fn add_tree(&mut self, number: u64) -> u32
        requires finished { option_map_or (λ session. is_some session.user) (session_at self.old number) false ≡ true }
        requires room { option_map_or has_all_trees (session_at self.old number) true ≡ false }
        ensures number { result ≡ next_tree_of self.old number }
        ensures state { self.new ≡ tree_connected self.old number }
    {
        add_tree(&mut self.sessions, number)
    }

    /// Disconnects a session from a tree.
    pub(crate) fn drop_tree(&mut self, number: u64, tree: u32)
        ensures { self.new ≡ tree_disconnected self.old number tree }
    {
        drop_tree(&mut self.sessions, number, tree);
    }

    /// Ends a connection's least session, and tells it; with none left the connection goes.
    pub(crate) fn end_connection(&mut self, connection: u64) -> Option<u64>
        ensures { record { table = self.new; told = result } ≡ end_connection_step self.old connection }
    {
        let least = match self.index.get(&connection) {
            Some(numbers) => numbers.first(),
            None => return None,
        };
        match least {
            Some(number) => {
                self.end(number);
                Some(number)
            }
            None => {
                self.index.remove(&connection);
                None
            }
        }
    }

    /// What holds of every table between calls. (The body does nothing.)
    pub(crate) fn good(&self)
        ensures { GoodTable self.now }
    {
        let _ = &self.next;
    }
}
