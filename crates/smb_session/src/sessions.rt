//! The sessions over an authenticator.

ghost use Rattle.std.specs.Prelude.{◌≡◌, ◌==◌, ◌≤◌, ◌+◌, ◌++◌, ◌∷◌, [], true, false, Some, None, OnOk, OnErr, IfOk, IfErr, length, if◌then◌else◌};
ghost use Rattle.std.specs.Option.{option_map, option_map_or, option_and_then};
ghost use Rattle.smb_wire.specs.Limits.{longest_token};
ghost use Rattle.smb_wire.specs.Pairs.{units_in};
ghost use Rattle.smb_wire.specs.Units.{units_of};
ghost use Rattle.smb_refusals.specs.Refused.{IsRefusedBy};
ghost use Rattle.smb_session.specs.Negotiate.{best_of};
ghost use Rattle.smb_session.specs.Parts.{has_all_trees, begun, has_all_sessions, asked_step};
ghost use Rattle.smb_session.specs.Numbers.{contains, without_number};
ghost use Rattle.smb_session.specs.Table.{numbers_on, session_changed, session_at, connected, session_ended, knows, read_only_of, signing_of, logoff_refusal, tree_disconnect_refusal, end_connection_step};
ghost use Rattle.smb_session.specs.Setup.{setup_refusal};
ghost use Rattle.smb_session.specs.Sessions.{new_sessions, setup_step, tree_connect_refusal, IsRefused};
ghost use Rattle.smb_session.specs.Refusals.{setup_refusal_fault, logoff_fault, tree_connect_fault, tree_disconnect_fault};
ghost use Rattle.smb_session.specs.Done.{setup_result_of};
ghost use Rattle.smb_session.specs.Good.{GoodTable};

use super::authenticator::{Answer, Authenticator, Denial};
use super::dialect::best_dialect;
use super::fault::SessionFault;
use super::path::leads_to;
use super::setup::{SetupAsk, SetupDone, SetupStatus};
use super::signing::{Signing, signing_asked};
use super::table::Table;
use smb_refusals::{
    LogoffRefusal, RefusedBy, SetupRefusal, TreeConnectRefusal, TreeDisconnectRefusal,
};
use smb_wire::{Dialect, Units};
use std::alloc::{AllocError, Global};
use std::marker::Model;

/// The sessions of all connections, with their trees, and the authenticator that lets clients in.
#[derive(Drop)]
pub struct Sessions<A: Authenticator + Drop> {
    alloc: Global,
    authenticator: A,
    share: Vec<u8>,
    table: Table,
}

impl<A: Authenticator + Drop> Model for Sessions<A> {
    ghost use Rattle.std.specs.Prelude.{◌≡◌, ◌%◌, length};
    ghost use Rattle.smb_wire.specs.Pairs.{units_in};
    ghost use Rattle.smb_session.specs.Sessions.{SessionsState};

    ghost Value = { SessionsState A };

    ghost view = { λ s. record { authenticator = s.authenticator; share = units_in s.share.items; table = s.table } };

    ghost invariant = { λ s. length s.share.items % 2 ≡ 0 };
}

impl<A: Authenticator + Drop> Sessions<A> {
    /// No connection and no session, for the share of this name.
    ///
    /// Fails where the name cannot be copied.
    pub fn new(alloc: Global, authenticator: A, share: Units<'_>) -> Result<Self, SessionFault>
        ensures ok { IfOk result (λ sessions. sessions ≡ new_sessions authenticator (units_of share.entry)) }
        ensures err { IfErr result (λ fault. fault ≡ SessionFault.NoMemory) }
    {
        let share = Vec::from_slice(alloc, share.bytes())?;
        Ok(Sessions {
            alloc,
            authenticator,
            share,
            table: Table::new(alloc),
        })
    }

    /// Makes a connection known; one that is known already stays as it is.
    ///
    /// [`SessionFault::NoMemory`], which changes nothing, is the only refusal.
    pub fn connect(&mut self, connection: u64) -> Result<(), SessionFault>
        ensures ok { OnOk result (self.new ≡ record self.old { table = connected self.old.table connection }) }
        ensures err { IfErr result (λ fault. fault ≡ SessionFault.NoMemory) }
        ensures kept { OnErr result (self.new ≡ self.old) }
    {
        self.table.connect(connection)?;
        Ok(())
    }

    /// The greatest dialect of the share among those that the bytes spell, two bytes each ([MS-SMB2]
    /// 3.3.5.4); a last odd byte is passed over. It is the same for every connection.
    ///
    /// [`SessionFault::NoDialect`] where none is spoken.
    pub fn negotiate(&self, _connection: u64, dialects: &[u8]) -> Result<Dialect, SessionFault>
        ensures { result ≡ option_map_or Ok (best_of (units_in dialects.now)) (Err SessionFault.NoDialect) }
    {
        match best_dialect(dialects) {
            Some(dialect) => Ok(dialect),
            None => Err(SessionFault::NoDialect),
        }
    }

    /// The token that the authenticator offers, of at most 4,096 bytes.
    pub fn hello(&self) -> &[u8]
        ensures value { result.now ≡ A.meaning.hello self.now.authenticator }
        ensures short { length result.now ≤ longest_token }
    {
        self.authenticator.hello()
    }

    /// Whether the authenticator has each session that it signs sign its requests.
    pub fn requires_signing(&self) -> bool
        ensures { result ≡ A.meaning.requires_signing self.now.authenticator }
    {
        self.authenticator.requires_signing()
    }

    /// Why the authenticator denied the client whom it was asked about last, where it keeps that.
    pub fn denial(&self) -> Option<Denial<'_>> {
        self.authenticator.denial()
    }

    /// Whether this is a finished session of the connection ([MS-SMB2] 3.3.5.2.9), and where a tree is named
    /// is connected to it ([MS-SMB2] 3.3.5.2.11).
    pub fn knows(&self, connection: u64, session: u64, tree: Option<u32>) -> bool
        ensures { result ≡ knows self.now.table connection session tree }
    {
        self.table.knows(connection, session, tree)
    }

    /// Whether a finished session of the connection may only read, as the authenticator said when it let its
    /// user in. None where the number is that of no finished session of the connection.
    pub fn read_only(&self, connection: u64, session: u64) -> Option<bool>
        ensures { result ≡ read_only_of self.now.table connection session }
    {
        self.table.read_only(connection, session)
    }

    /// How the messages of a finished session of the connection are signed. None where they are not, and where the number
    /// is that of no finished session of the connection.
    pub fn signing(&self, connection: u64, session: u64) -> Option<Signing>
        ensures { result ≡ signing_of self.now.table connection session }
    {
        self.table.signing(connection, session)
    }

    /// The user of a finished session of the connection, as the authenticator named it; None where the number is that of none.
    pub fn user(&self, connection: u64, session: u64) -> Option<&[u8]>
        ensures { option_map (λ user. user.now) result ≡ option_and_then
            (λ state. if state.connection == connection then state.user else None)
            (session_at self.now.table session) }
    {
        self.table.user(connection, session)
    }

    /// The numbers of a connection's sessions, in rising order, those that are not finished among them; none where it is not
    /// known.
    pub fn of_connection(&self, connection: u64) -> &[u64]
        ensures { result.now ≡ (if contains self.now.table.connections connection then numbers_on self.now.table.sessions connection else []) }
    {
        self.table.of_connection(connection)
    }

    /// How many sessions there are, those that are not finished among them. They are kept, and not counted.
    pub fn len(&self) -> usize
        ensures { result ≡ length self.now.table.sessions }
    {
        self.table.len()
    }

    /// Asks the authenticator about a session, and performs its answer.
    fn ask(&mut self, session: u64, ask: &SetupAsk<'_>) -> Result<SetupDone, AllocError>
        ensures step { IfOk result (λ done. record { state = self.new; told = setup_result_of done } ≡ asked_step A.meaning self.old session ask.now.previous_session ask.now.signing_required ask.now.token.now) }
        ensures flags { IfOk result (λ done. done.flags ≤ 3) }
        ensures token { IfOk result (λ done. length done.token.items ≤ longest_token) }
        ensures kept { OnErr result (self.new ≡ self.old) }
    {
        match self.authenticator.step(session, ask.token)? {
            Answer::Continue(token) => Ok(SetupDone {
                session,
                status: SetupStatus::MoreProcessingRequired,
                flags: 0,
                token,
                ended: None,
            }),
            Answer::Accept {
                user,
                flags,
                read_only,
                signing,
                token,
            } => {
                let signing = signing_asked(signing, ask.signing_required);
                let ended = self
                    .table
                    .accept(session, user, read_only, signing, ask.previous_session);
                Ok(SetupDone {
                    session,
                    status: SetupStatus::Success,
                    flags,
                    token,
                    ended,
                })
            }
            Answer::Deny => {
                self.table.end(session);
                Ok(SetupDone {
                    session,
                    status: SetupStatus::LogonFailure,
                    flags: 0,
                    token: Vec::new(self.alloc),
                    ended: None,
                })
            }
        }
    }

    /// Begins a session on a connection that can have one, and asks about it.
    fn begin(&mut self, connection: u64, ask: &SetupAsk<'_>) -> Result<SetupDone, AllocError>
        requires { has_all_sessions self.old.table connection ≡ false }
        ensures step { IfOk result (λ done. record { state = self.new; told = setup_result_of done }
            ≡ asked_step A.meaning (record self.old { table = begun self.old.table connection }) self.old.table.next ask.now.previous_session ask.now.signing_required ask.now.token.now) }
        ensures flags { IfOk result (λ done. done.flags ≤ 3) }
        ensures token { IfOk result (λ done. length done.token.items ≤ longest_token) }
        ensures kept { OnErr result (self.new ≡ self.old) }
    {
        let session = self.table.begin(connection)?;
        match self.ask(session, ask) {
            Ok(done) => Ok(done),
            Err(error) => {
                self.table.withdraw();
                Err(error)
            }
        }
    }

    /// A SESSION_SETUP ([MS-SMB2] 3.3.5.5): `session` is the header's SessionId, 0 for a new session. The
    /// authenticator is asked once, where nothing is refused. A denial is no refusal: it is told, and the
    /// session is gone.
    ///
    /// [`Row`](RefusedBy::Row) tells the first row of the table that holds. It, and
    /// [`NoMemory`](RefusedBy::NoMemory), change nothing.
    pub fn setup_by_row(
        &mut self,
        connection: u64,
        session: u64,
        ask: &SetupAsk<'_>,
    ) -> Result<SetupDone, RefusedBy<SetupRefusal>>
        ensures unrefused { OnOk result (setup_refusal self.old.table connection session ask.now.flags ≡ None) }
        ensures step { IfOk result (λ done. record { state = self.new; told = setup_result_of done }
            ≡ setup_step A.meaning self.old connection session ask.now.previous_session ask.now.signing_required ask.now.token.now) }
        ensures flags { IfOk result (λ done. done.flags ≤ 3) }
        ensures token { IfOk result (λ done. length done.token.items ≤ longest_token) }
        ensures err { IfErr result (IsRefusedBy (setup_refusal self.old.table connection session ask.now.flags)) }
        ensures kept { OnErr result (self.new ≡ self.old) }
    {
        if let Some(refusal) = self.table.setup_refusal(connection, session, ask.flags) {
            return Err(RefusedBy::Row(refusal));
        }
        let done = if session == 0 {
            self.begin(connection, ask)
        } else {
            self.ask(session, ask)
        };
        match done {
            Ok(done) => Ok(done),
            Err(_) => Err(RefusedBy::NoMemory),
        }
    }

    /// [`setup_by_row`](Sessions::setup_by_row), with a fault of the sessions in place of a row.
    #[tactic(auto, using(crate::proofs::Refusals::setup_refused))]
    pub fn setup(
        &mut self,
        connection: u64,
        session: u64,
        ask: &SetupAsk<'_>,
    ) -> Result<SetupDone, SessionFault>
        ensures unrefused { OnOk result (setup_refusal self.old.table connection session ask.now.flags ≡ None) }
        ensures step { IfOk result (λ done. record { state = self.new; told = setup_result_of done }
            ≡ setup_step A.meaning self.old connection session ask.now.previous_session ask.now.signing_required ask.now.token.now) }
        ensures flags { IfOk result (λ done. done.flags ≤ 3) }
        ensures token { IfOk result (λ done. length done.token.items ≤ longest_token) }
        ensures err { IfErr result (IsRefused (option_map setup_refusal_fault (setup_refusal self.old.table connection session ask.now.flags))) }
        ensures kept { OnErr result (self.new ≡ self.old) }
    {
        Ok(self.setup_by_row(connection, session, ask)?)
    }

    /// Ends a session of a connection, with its trees ([MS-SMB2] 3.3.5.6).
    ///
    /// A refusal is the first row of the table that holds, and changes nothing.
    pub fn logoff_by_row(&mut self, connection: u64, session: u64) -> Result<(), LogoffRefusal>
        ensures unrefused { OnOk result (logoff_refusal self.old.table connection session ≡ None) }
        ensures state { OnOk result (self.new ≡ record self.old { table = session_ended self.old.table session }) }
        ensures err { IfErr result (λ refusal. logoff_refusal self.old.table connection session ≡ Some refusal) }
        ensures kept { OnErr result (self.new ≡ self.old) }
    {
        let known = self.table.knows(connection, session, None);
        if !known {
            return Err(LogoffRefusal::UnknownSession);
        }
        self.table.end(session);
        Ok(())
    }

    /// [`logoff_by_row`](Sessions::logoff_by_row), with a fault of the sessions in place of a row.
    pub fn logoff(&mut self, connection: u64, session: u64) -> Result<(), SessionFault>
        ensures unrefused { OnOk result (logoff_refusal self.old.table connection session ≡ None) }
        ensures state { OnOk result (self.new ≡ record self.old { table = session_ended self.old.table session }) }
        ensures err { IfErr result (λ fault. option_map logoff_fault (logoff_refusal self.old.table connection session) ≡ Some fault) }
        ensures kept { OnErr result (self.new ≡ self.old) }
    {
        Ok(self.logoff_by_row(connection, session)?)
    }

    /// Connects a session to the share that a path names, `\\server\share`, and gives the tree's number: 1, 2,
    /// 3 and so on in each session, none twice ([MS-SMB2] 3.3.5.7).
    ///
    /// A refusal is the first row of the table that holds, and changes nothing.
    #[tactic(auto, using(crate::proofs::Steps::finished_known))]
    pub fn tree_connect_by_row(
        &mut self,
        connection: u64,
        session: u64,
        path: Units<'_>,
    ) -> Result<u32, TreeConnectRefusal>
        ensures unrefused { OnOk result (tree_connect_refusal self.old connection session (units_of path.entry) ≡ None) }
        ensures number { IfOk result (λ tree. tree ≡ option_map_or (λ state. state.next_tree) (session_at self.old.table session) 0) }
        ensures state { OnOk result (self.new ≡ record self.old {
          table = session_changed
              (λ state. record state { trees = state.trees ++ state.next_tree ∷ []; next_tree = state.next_tree + 1 }) self.old.table session;
        }) }
        ensures err { IfErr result (λ refusal. tree_connect_refusal self.old connection session (units_of path.entry) ≡ Some refusal) }
        ensures kept { OnErr result (self.new ≡ self.old) }
    {
        if !self.table.knows(connection, session, None) {
            return Err(TreeConnectRefusal::UnknownSession);
        }
        if !leads_to(&self.share, path) {
            return Err(TreeConnectRefusal::UnknownShare);
        }
        if self.table.has_all_trees(session) {
            return Err(TreeConnectRefusal::NoTreeConnectLeft);
        }
        Ok(self.table.add_tree(session))
    }

    /// [`tree_connect_by_row`](Sessions::tree_connect_by_row), with a fault of the sessions in place of a row.
    pub fn tree_connect(
        &mut self,
        connection: u64,
        session: u64,
        path: Units<'_>,
    ) -> Result<u32, SessionFault>
        ensures unrefused { OnOk result (tree_connect_refusal self.old connection session (units_of path.entry) ≡ None) }
        ensures number { IfOk result (λ tree. tree ≡ option_map_or (λ state. state.next_tree) (session_at self.old.table session) 0) }
        ensures state { OnOk result (self.new ≡ record self.old {
          table = session_changed
              (λ state. record state { trees = state.trees ++ state.next_tree ∷ []; next_tree = state.next_tree + 1 }) self.old.table session;
        }) }
        ensures err { IfErr result (λ fault. option_map tree_connect_fault (tree_connect_refusal self.old connection session (units_of path.entry)) ≡ Some fault) }
        ensures kept { OnErr result (self.new ≡ self.old) }
    {
        Ok(self.tree_connect_by_row(connection, session, path)?)
    }

    /// Disconnects a session from a tree ([MS-SMB2] 3.3.5.8).
    ///
    /// A refusal is the first row of the table that holds, and changes nothing.
    pub fn tree_disconnect_by_row(
        &mut self,
        connection: u64,
        session: u64,
        tree: u32,
    ) -> Result<(), TreeDisconnectRefusal>
        ensures unrefused { OnOk result (tree_disconnect_refusal self.old.table connection session tree ≡ None) }
        ensures state { OnOk result (self.new ≡ record self.old {
          table = session_changed
              (λ state. record state { trees = without_number state.trees tree }) self.old.table session;
        }) }
        ensures err { IfErr result (λ refusal. tree_disconnect_refusal self.old.table connection session tree ≡ Some refusal) }
        ensures kept { OnErr result (self.new ≡ self.old) }
    {
        if !self.table.knows(connection, session, None) {
            return Err(TreeDisconnectRefusal::UnknownSession);
        }
        if !self.table.knows(connection, session, Some(tree)) {
            return Err(TreeDisconnectRefusal::UnknownTreeConnect);
        }
        self.table.drop_tree(session, tree);
        Ok(())
    }

    /// [`tree_disconnect_by_row`](Sessions::tree_disconnect_by_row), with a fault of the sessions in place of a row.
    pub fn tree_disconnect(
        &mut self,
        connection: u64,
        session: u64,
        tree: u32,
    ) -> Result<(), SessionFault>
        ensures unrefused { OnOk result (tree_disconnect_refusal self.old.table connection session tree ≡ None) }
        ensures state { OnOk result (self.new ≡ record self.old {
          table = session_changed
              (λ state. record state { trees = without_number state.trees tree }) self.old.table session;
        }) }
        ensures err { IfErr result (λ fault. option_map tree_disconnect_fault (tree_disconnect_refusal self.old.table connection session tree) ≡ Some fault) }
        ensures kept { OnErr result (self.new ≡ self.old) }
    {
        Ok(self.tree_disconnect_by_row(connection, session, tree)?)
    }

    /// Ends a connection's least session, finished or not, and tells its number. With none left the
    /// connection is known no longer, and the answer is None.
    pub fn end_connection(&mut self, connection: u64) -> Option<u64>
        ensures table { record { table = self.new.table; told = result } ≡ end_connection_step self.old.table connection }
        ensures kept { self.new ≡ record self.old { table = self.new.table } }
    {
        self.table.end_connection(connection)
    }

    /// What holds of the sessions between calls. (The body does nothing.)
    pub fn good(&self)
        ensures { GoodTable self.now.table }
    {
        self.table.good();
    }
}
