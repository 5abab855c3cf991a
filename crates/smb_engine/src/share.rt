//! The share over its connections.

ghost use Rattle.std.specs.Prelude.{◌≡◌, ◌<◌, ◌+◌, ◌-◌, ◌^◌, ◌++◌, [], true, false, Some, None, OnOk, OnErr, IfOk, IfErr, IfSome, IfNone, length, map, option_and_then, slice_get, unwrap_or, ℕ, if◌then◌else◌};
ghost use Rattle.std.specs.Bool.{OnTrue};
ghost use Rattle.std.specs.Option.{option_map};
ghost use Rattle.std.specs.List.{flat_map};
ghost use Rattle.smb_tree.specs.Content.{used_space};
ghost use Rattle.smb_opens.specs.Readers.{LeavesFiles};
ghost use Rattle.smb_peers.specs.Event.{brings, text_of, connection_of};
ghost use Rattle.smb_engine.specs.Parts.{events_of, unknown_refusal, EventStopped};
ghost use Rattle.smb_engine.specs.Output.{AreShort, output_bytes, outputs_of};
ghost use Rattle.smb_engine.specs.Refusals.{EventOutOfMemory, run_behind, RunStopped, opening_refusal};
ghost use Rattle.smb_engine.specs.Rest.{ends_of, IsAtRest};
ghost use Rattle.smb_engine.specs.State.{StreamState, stream_of, is_open, opened, ended};
ghost use Rattle.smb_engine.specs.Run.{bytes_step, event_refusal, event_step, run};
ghost use Rattle.smb_engine.specs.Stream.{unread};
ghost use Rattle.smb_engine.specs.Good.{GoodState};
ghost use Rattle.smb_peers.specs.Record.{Keeping};
ghost use Rattle.smb_engine.specs.Observed.{event_observed, run_observed};

use super::arrival::Arrival;
use super::connection::{ConnectionStream, add_connection, new_stream, remove_stream};
use super::fault::{CutShort, RunFault, ServeFault};
use super::output::Sink;
use super::stream::take_piece;
use super::unsealed::Unsealed;
use smb_opens::Opens;
use smb_peers::{Answer, Event, Fate, Observer, Usage};
use smb_reason::Reason;
use smb_request::Server;
use smb_session::Authenticator;
use smb_tree::{KeptContent, Tree};
use smb_wire::Dialect;
use std::alloc::Global;
use std::collections::BTreeMap;
use std::marker::Model;
use std::{fmt, mem};

/// A piece has fewer requests than this.
const ALL_REQUESTS: usize = usize::MAX;

/// A share and its open connections. Who may come in, its authenticator decides; its files and their opens are
/// kept in a tree and a list of opens of any kind.
#[derive(Drop)]
pub struct Share<A: Authenticator + Drop, T: Tree + Drop, O: Opens + Drop> {
    pub(crate) server: Server<A, T, O>,
    pub(crate) streams: BTreeMap<u64, ConnectionStream>,
    pub(crate) next: u64,
    pub(crate) most_connections: usize,
}

impl<A: Authenticator + Drop, T: Tree + Drop, O: Opens + Drop> fmt::Debug for Share<A, T, O> {
    fn fmt<W: fmt::Write>(&self, f: &mut fmt::Formatter<W>) -> fmt::Result {
        write!(f, "Share {{ connections: {}, .. }}", self.streams.len())
    }
}

impl<A: Authenticator + Drop, T: Tree + Drop, O: Opens + Drop> Model for Share<A, T, O> {
    ghost use Rattle.smb_engine.specs.State.{ShareState};
    ghost use Rattle.smb_engine.specs.Held.{AreKept};

    ghost Value = { ShareState A };

    ghost view = { λ s. record { server = s.server; streams = s.streams.entries; next = s.next; most_connections = s.most_connections } };

    ghost invariant = { λ s. AreKept s.server.sessions.table.connections s.streams.entries s.next s.most_connections };
}

impl<A: Authenticator + Drop, T: Tree + Drop, O: Opens + Drop> Share<A, T, O> {
    /// The allocator of what the share makes.
    pub fn allocator(&self) -> Global {
        self.server.allocator()
    }

    /// Whether the share has room for another connection, and a number.
    pub fn has_room(&self) -> bool
        ensures refusal { opening_refusal self.now ≡ (if result then None else Some ServeFault.TooManyConnections) }
        ensures few { result ≡ true → length self.now.streams < self.now.most_connections }
        ensures next { result ≡ true → self.now.next < 2 ^ 64 - 1 }
    {
        self.streams.len() < self.most_connections && self.next < u64::MAX
    }

    /// Opens a connection, and gives its number: 1, 2, 3 and so on, none twice.
    ///
    /// [`ServeFault::TooManyConnections`] where as many are open as the limits let be, or the numbers are spent, and else
    /// [`ServeFault::NoMemory`], where memory ran out. After either nothing has changed.
    pub fn opened(&mut self) -> Result<u64, ServeFault>
        ensures number { IfOk result (λ number. number ≡ self.old.next) }
        ensures state { OnOk result (self.new ≡ opened self.old) }
        ensures room { OnOk result (opening_refusal self.old ≡ None) }
        ensures err { IfErr result (λ fault. fault ≡ unwrap_or (opening_refusal self.old) (ServeFault.NoMemory 0)) }
        ensures kept { OnErr result (self.new ≡ self.old) }
    {
        if !self.has_room() {
            return Err(ServeFault::TooManyConnections);
        }
        let connection = self.next;
        let stream = new_stream(self.server.allocator());
        let Ok(()) = add_connection(&mut self.server, &mut self.streams, connection, stream) else {
            return Err(ServeFault::NoMemory { done: 0 });
        };
        self.next = connection + 1;
        Ok(connection)
    }

    /// Whether a connection is open.
    pub fn is_open(&self, connection: u64) -> bool
        ensures { result ≡ is_open self.now connection }
    {
        self.streams.contains_key(&connection)
    }

    /// The dialect that a connection has agreed on. None before it has, and where it is not open.
    pub fn dialect(&self, connection: u64) -> Option<Dialect>
        ensures { result ≡ option_and_then (λ s. s.connection.dialect) (stream_of connection self.now.streams) }
    {
        match self.streams.get(&connection) {
            Some(stream) => stream.connection.dialect,
            None => None,
        }
    }

    /// Takes a piece of a connection's stream, and puts out the replies. On a connection that is not open it is
    /// passed over, and there is no error. An error says how many requests were performed, those of a piece that has
    /// `most` or more at most so many; the connection has ended after them.
    #[tactic(auto, unfolding(crate::specs::Run::bytes_step))]
    fn take<K: Sink, W: Observer>(
        &mut self,
        connection: u64,
        moment: u64,
        piece: &[u8],
        most: usize,
        out: &mut K,
        observer: &mut W,
    ) -> Result<Fate, CutShort>
        ensures state { OnOk result (self.new ≡ unread (bytes_step A.meaning self.old connection moment piece.now).state) }
        ensures outputs { OnOk result (K.content out.new ≡ K.content out.old ++ flat_map K.hears
            (bytes_step A.meaning self.old connection moment piece.now).outputs) }
        ensures fate { IfOk result (λ fate. fate ≡ (if is_open self.new connection then Fate.Open else Fate.Ended)) }
        ensures short { OnOk result (AreShort (bytes_step A.meaning self.old connection moment piece.now).outputs) }
        ensures observed { OnOk result (Keeping (W.keeps observer.old) (W.keeps observer.new)
            (W.observed observer.new ≡ W.observed observer.old ++ event_observed A.meaning self.old (brings connection moment piece.now))) }
        ensures err { IfErr result (λ ran_out. EventOutOfMemory A.meaning self.old
            (brings connection moment piece.now) ran_out.done self.new) }
        ensures kept { OnErr result (K.content out.new ≡ K.content out.old) }
    {
        let stream = match self.streams.get_mut(&connection) {
            Some(stream) => stream,
            None => return Ok(Fate::Ended),
        };
        let arrival = Arrival {
            connection_id: connection,
            moment,
        };
        match take_piece(
            &mut self.server,
            arrival,
            stream,
            piece,
            most,
            out,
            observer,
        ) {
            Ok(true) => Ok(Fate::Open),
            Ok(false) => {
                self.server.good();
                self.server.disconnect(connection);
                remove_stream(&mut self.streams, connection);
                Ok(Fate::Ended)
            }
            Err(ran_out) => {
                self.server.good();
                self.server.disconnect(connection);
                remove_stream(&mut self.streams, connection);
                Err(ran_out)
            }
        }
    }

    /// Ends a connection, and its sessions with it; on one that is not open it does nothing. It takes no
    /// memory.
    pub fn ended(&mut self, connection: u64)
        ensures state { self.new ≡ ended self.old connection }
        ensures good { GoodState self.new }
    {
        self.server.good();
        self.server.disconnect(connection);
        remove_stream(&mut self.streams, connection);
        self.good();
    }

    /// Takes a piece of a connection's stream, and adds the bytes of the frames that reply to it.
    ///
    /// `moment` is in units of 100 ns since 1601. On a connection that is not open the piece is passed over:
    /// nothing changes, and the connection is [`Fate::Ended`]. After [`ServeFault::NoMemory`], the only refusal,
    /// the connection was open and `out` is as it was; the first `done` requests of the piece were performed,
    /// and then the connection has ended. One that was performed and found no memory for its response counts.
    ///
    /// The payload of a frame that is added has at most 8,389,888 bytes, fewer than 2^24.
    pub fn feed(
        &mut self,
        connection: u64,
        moment: u64,
        piece: &[u8],
        out: &mut Vec<u8>,
    ) -> Result<Fate, ServeFault>
        ensures state { OnOk result (self.new ≡ unread (bytes_step A.meaning self.old connection moment piece.now).state) }
        ensures outputs { OnOk result (out.new.items ≡ out.old.items ++ flat_map output_bytes
            (bytes_step A.meaning self.old connection moment piece.now).outputs) }
        ensures fate { IfOk result (λ fate. fate ≡ (if is_open self.new connection then Fate.Open else Fate.Ended)) }
        ensures short { OnOk result (AreShort (bytes_step A.meaning self.old connection moment piece.now).outputs) }
        ensures err { IfErr result (λ fault. (done : ℕ) × (fault ≡ ServeFault.NoMemory done)
            × EventOutOfMemory A.meaning self.old (brings connection moment piece.now) done self.new) }
        ensures kept { OnErr result (out.new.items ≡ out.old.items) }
        ensures passed { OnOk result (stream_of connection self.old.streams ≡ None → self.new ≡ self.old) }
        ensures good { GoodState self.new }
    {
        self.feed_observed(connection, moment, piece, out, &mut ())
    }

    /// The same as [`feed`](Share::feed), and an observer hears which requests are performed, how they are responded to, and which rule ends the connection.
    pub fn feed_observed<W: Observer>(
        &mut self,
        connection: u64,
        moment: u64,
        piece: &[u8],
        out: &mut Vec<u8>,
        observer: &mut W,
    ) -> Result<Fate, ServeFault>
        ensures state { OnOk result (self.new ≡ unread (bytes_step A.meaning self.old connection moment piece.now).state) }
        ensures outputs { OnOk result (out.new.items ≡ out.old.items ++ flat_map output_bytes
            (bytes_step A.meaning self.old connection moment piece.now).outputs) }
        ensures fate { IfOk result (λ fate. fate ≡ (if is_open self.new connection then Fate.Open else Fate.Ended)) }
        ensures short { OnOk result (AreShort (bytes_step A.meaning self.old connection moment piece.now).outputs) }
        ensures observed { OnOk result (Keeping (W.keeps observer.old) (W.keeps observer.new)
            (W.observed observer.new ≡ W.observed observer.old ++ event_observed A.meaning self.old (brings connection moment piece.now))) }
        ensures err { IfErr result (λ fault. (done : ℕ) × (fault ≡ ServeFault.NoMemory done)
            × EventOutOfMemory A.meaning self.old (brings connection moment piece.now) done self.new) }
        ensures kept { OnErr result (out.new.items ≡ out.old.items) }
        ensures passed { OnOk result (stream_of connection self.old.streams ≡ None → self.new ≡ self.old) }
        ensures good { GoodState self.new }
    {
        let _ = &self.streams;
        let mut bytes = Unsealed::new(mem::replace(out, Vec::new(self.allocator())));
        let taken = self.take(
            connection,
            moment,
            piece,
            ALL_REQUESTS,
            &mut bytes,
            observer,
        );
        *out = bytes.into_bytes();
        self.good();
        match taken {
            Ok(fate) => Ok(fate),
            Err(CutShort { done }) => Err(ServeFault::NoMemory { done }),
        }
    }

    /// What its connections share: its settings, the sessions, and the files with their opens.
    pub fn server(&self) -> &Server<A, T, O>
        ensures { result.now ≡ self.now.server }
    {
        &self.server
    }

    /// Has the tree keep what changed ([`Tree::keep_changes`]). The share stays, whatever is returned.
    pub fn keep_changes(&mut self) -> Result<KeptContent<T>, Reason>
        ensures stays { self.new ≡ self.old }
        ensures kept { IfOk result (λ content. content ≡ self.new.server.store.tree) }
    {
        self.server.keep_changes()
    }

    /// How much the share holds. It takes no time that grows with it.
    pub fn usage(&self) -> Usage
        ensures entries { result.entries ≡ length self.now.server.store.tree.rows - 1 }
        ensures used { result.used ≡ used_space self.now.server.store.tree.rows }
        ensures sessions { result.sessions ≡ length self.now.server.sessions.table.sessions }
        ensures opens { result.opens ≡ length self.now.server.store.opens }
    {
        let files = self.server.usage();
        Usage {
            entries: files.entries,
            used: files.used,
            sessions: self.server.session_count(),
            opens: self.server.open_count(),
        }
    }

    /// The open connection of the least number.
    fn first_open(&self) -> Option<u64>
        ensures some { IfSome result (λ connection. (stream : StreamState) × (slice_get self.now.streams 0 ≡ Some (connection, stream))) }
        ensures none { IfNone result (self.now.streams ≡ []) }
    {
        match self.streams.first_key_value() {
            Some((connection, _)) => Some(*connection),
            None => None,
        }
    }

    /// Ends all connections that are open, one after the other: no session, open or lock is left. Each file and folder is as it
    /// was, but for those that go with their last open. It takes no memory.
    pub fn end_all(&mut self)
        ensures run { run A.meaning self.old (ends_of self.old.streams) ≡ record { state = self.new; outputs = []; stop = None } }
        ensures rest { IsAtRest self.new }
        ensures files { LeavesFiles self.old.server.store self.new.server.store }
        ensures good { GoodState self.new }
    {
        self.good();
        while let Some(connection) = self.first_open() {
            self.ended(connection);
        }
    }

    /// Performs the first `done` requests of a piece of an open connection's stream, and then ends the connection: what a
    /// share does whose memory runs out behind them. Nothing is put out.
    ///
    /// False where the connection is not open; or where the piece has fewer requests, or memory runs out before so many:
    /// then as many were performed as could be, and the connection has ended too.
    pub fn cut_short(&mut self, connection: u64, moment: u64, piece: &[u8], done: usize) -> bool
        ensures done { OnTrue result (EventOutOfMemory A.meaning self.old (brings connection moment piece.now) done self.new) }
        ensures good { GoodState self.new }
    {
        let mut replies = Unsealed::new(Vec::new(self.allocator()));
        match self.take(connection, moment, piece, done, &mut replies, &mut ()) {
            Ok(_) => {
                self.ended(connection);
                false
            }
            Err(cut) => {
                self.good();
                cut.done == done
            }
        }
    }

    /// Whether a number was given to a connection, which may have ended since.
    fn was_opened(&self, connection: u64) -> bool
        ensures { unknown_refusal self.now connection ≡ (if result then None else Some ServeFault.BadEvent) }
    {
        0 < connection && connection < self.next
    }

    /// Takes one event.
    fn event<W: Observer>(
        &mut self,
        event: &Event,
        answers: &mut Vec<Answer>,
        observer: &mut W,
    ) -> Result<(), ServeFault>
        ensures unrefused { OnOk result (event_refusal self.old (text_of event.now) ≡ None) }
        ensures state { OnOk result (self.new ≡ unread (event_step A.meaning self.old (text_of event.now)).state) }
        ensures outputs { OnOk result (outputs_of answers.new.items ≡ outputs_of answers.old.items ++
            (event_step A.meaning self.old (text_of event.now)).outputs) }
        ensures short { OnOk result (AreShort (event_step A.meaning self.old (text_of event.now)).outputs) }
        ensures observed { OnOk result (Keeping (W.keeps observer.old) (W.keeps observer.new)
            (W.observed observer.new ≡ W.observed observer.old ++ event_observed A.meaning self.old (text_of event.now))) }
        ensures err { IfErr result (λ fault. EventStopped A.meaning self.old (text_of event.now) fault self.new) }
        ensures kept { OnErr result (outputs_of answers.new.items ≡ outputs_of answers.old.items) }
    {
        let _ = &self.server;
        match event {
            Event::Opened(connection) => {
                if *connection != self.next {
                    return Err(ServeFault::BadEvent);
                }
                match self.opened() {
                    Ok(_) => Ok(()),
                    Err(fault) => Err(fault),
                }
            }
            Event::Bytes {
                connection,
                moment,
                piece,
            } => {
                if !self.was_opened(*connection) {
                    return Err(ServeFault::BadEvent);
                }
                match self.take(*connection, *moment, piece, ALL_REQUESTS, answers, observer) {
                    Ok(_) => Ok(()),
                    Err(CutShort { done }) => Err(ServeFault::NoMemory { done }),
                }
            }
            Event::Ended(connection) => {
                if !self.was_opened(*connection) {
                    return Err(ServeFault::BadEvent);
                }
                self.ended(*connection);
                Ok(())
            }
        }
    }

    /// Takes events in order, up to one that is refused.
    fn run_events<W: Observer>(
        &mut self,
        events: &[Event],
        answers: &mut Vec<Answer>,
        observer: &mut W,
    ) -> Result<(), RunFault>
        ensures ok { OnOk result (record { state = self.new; outputs = outputs_of answers.new.items; stop = None }
            ≡ run_behind (outputs_of answers.old.items) (run A.meaning self.old (events_of events.now))) }
        ensures observed { OnOk result (Keeping (W.keeps observer.old) (W.keeps observer.new)
            (W.observed observer.new ≡ W.observed observer.old ++ run_observed A.meaning self.old (events_of events.now))) }
        ensures err { IfErr result (λ e. RunStopped A.meaning self.old (events_of events.now) e.place e.fault self.new
            (outputs_of answers.old.items) (outputs_of answers.new.items)) }
        ensures connection { IfErr result (λ e. option_map connection_of (slice_get (events_of events.now) e.place) ≡ Some e.connection) }
        ensures short { AreShort (outputs_of answers.old.items) → AreShort (outputs_of answers.new.items) }
    {
        let _ = &self.server;
        let mut place = 0;
        for event in events {
            match self.event(event, answers, observer) {
                Ok(()) => {}
                Err(fault) => {
                    let connection = event.connection();
                    return Err(RunFault {
                        place,
                        connection,
                        fault,
                    });
                }
            }
            place += 1;
        }
        Ok(())
    }

    /// Takes events in order, up to one that is refused, and adds the answers.
    ///
    /// A fault says the place of the event that it stopped at, and its connection; the events before it were
    /// performed, and their answers added. A refused event ([`ServeFault::BadEvent`],
    /// [`ServeFault::TooManyConnections`]) changes nothing. After [`ServeFault::NoMemory`] the first `done` requests of
    /// the event were performed, without a reply, and then its connection has ended; an opening changed nothing. Memory
    /// never runs out at the end of a connection, nor at a piece on one that is not open. The payload of a frame that is
    /// added has at most 8,389,888 bytes, fewer than 2^24.
    pub fn run(&mut self, events: &[Event], answers: &mut Vec<Answer>) -> Result<(), RunFault>
        ensures ok { OnOk result (record { state = self.new; outputs = outputs_of answers.new.items; stop = None }
            ≡ run_behind (outputs_of answers.old.items) (run A.meaning self.old (map text_of events.now))) }
        ensures err { IfErr result (λ e. RunStopped A.meaning self.old (map text_of events.now) e.place e.fault self.new
            (outputs_of answers.old.items) (outputs_of answers.new.items)) }
        ensures connection { IfErr result (λ e. option_map connection_of (slice_get (map text_of events.now) e.place) ≡ Some e.connection) }
        ensures short { AreShort (outputs_of answers.old.items) → AreShort (outputs_of answers.new.items) }
        ensures good { GoodState self.new }
    {
        self.run_observed(events, answers, &mut ())
    }

    /// The same as [`run`](Share::run), and an observer hears which requests are performed, how they are responded to, and which rules end connections.
    pub fn run_observed<W: Observer>(
        &mut self,
        events: &[Event],
        answers: &mut Vec<Answer>,
        observer: &mut W,
    ) -> Result<(), RunFault>
        ensures ok { OnOk result (record { state = self.new; outputs = outputs_of answers.new.items; stop = None }
            ≡ run_behind (outputs_of answers.old.items) (run A.meaning self.old (map text_of events.now))) }
        ensures observed { OnOk result (Keeping (W.keeps observer.old) (W.keeps observer.new)
            (W.observed observer.new ≡ W.observed observer.old ++ run_observed A.meaning self.old (map text_of events.now))) }
        ensures err { IfErr result (λ e. RunStopped A.meaning self.old (map text_of events.now) e.place e.fault self.new
            (outputs_of answers.old.items) (outputs_of answers.new.items)) }
        ensures connection { IfErr result (λ e. option_map connection_of (slice_get (map text_of events.now) e.place) ≡ Some e.connection) }
        ensures short { AreShort (outputs_of answers.old.items) → AreShort (outputs_of answers.new.items) }
        ensures good { GoodState self.new }
    {
        let result = self.run_events(events, answers, observer);
        self.good();
        result
    }

    /// What holds of every share between calls. (The body does nothing.)
    pub fn good(&self)
        ensures { GoodState self.now }
    {
        self.server.good();
        let _ = &self.streams;
    }
}
