//! The log of a share.

use crate::ending::Ending;
use crate::kept_back::KeptBack;
use crate::kept_out::KeptOut;
use crate::level::Level;
use crate::minute::{Counts, Minute, add};
use crate::request::LoggedRequest;
use smb_head::read_header;
use smb_log_text::{Lines, Outcome, Subject};
use smb_peers::{Acting, Answer, Event, Observer, Responded, Usage};
use smb_refusals::LoginRefusal;
use smb_wire::limits::Limits;
use smb_wire::{Command, CommandCode, NtStatus};
use std::alloc::{AllocError, Global};
use std::collections::BTreeMap;
use std::io::Write;

/// A connection.
#[derive(Drop)]
struct Connection {
    address: String,
    /// When the last piece of its stream came, where its moment was noted.
    came: Option<u64>,
    /// Who was let in last, until that user logs off; empty for none.
    user: Vec<u8>,
    /// Why the share ends it, where that is known.
    cause: Option<Ending>,
}

/// The log of what happens to one share, in lines that are written to `W` as the events come. Connections have the share's numbers.
/// No call fails; a connection costs logarithmic time to find.
///
/// It observes the share. Moments are in units of 100 ns since 1601: that of an event is the one that was noted last.
#[derive(Drop)]
pub struct Log<W: Write + Drop> {
    alloc: Global,
    level: Level,
    lines: Lines<W>,
    /// How many connections the share lets be open.
    most: usize,
    moment: u64,
    connections: BTreeMap<u64, Connection>,
    request: LoggedRequest,
    counts: Counts,
}

/// The command of a request, by its bytes: one without a header is an SMB_COM_NEGOTIATE.
fn command_of(request: &[u8]) -> CommandCode {
    match read_header(request) {
        Ok(header) => header.command,
        Err(_) => Command::Negotiate.code(),
    }
}

impl<W: Write + Drop> Log<W> {
    /// A log of a share without connections that begins at a moment. The line that names the fields is written.
    pub fn new(alloc: Global, writer: W, level: Level, moment: u64) -> Self {
        Log {
            alloc,
            level,
            lines: Lines::new(alloc, writer),
            most: Limits::profile().connections,
            moment,
            connections: BTreeMap::new(alloc),
            request: LoggedRequest::none(alloc),
            counts: Counts::default(),
        }
    }

    /// The same log, of a share that lets so many connections be open; as many as by default where nothing is said.
    pub fn with_connections(mut self, most: usize) -> Self {
        self.most = most;
        self
    }

    /// Whether a write failed; nothing is written behind it.
    pub fn has_failed(&self) -> bool {
        self.lines.has_failed()
    }

    /// Takes note that what later lines need was lost for want of memory.
    pub(crate) fn lose(&mut self) {
        self.lines.lose();
    }

    /// Notes the moment of what happens next.
    pub fn note_moment(&mut self, moment: u64) {
        self.moment = moment;
    }

    /// Takes note of what happens to the server itself, which has no TAB and no line feed in it: `started`, `stopped`, or a failure.
    pub fn note(&mut self, event: &str) {
        let _ = self.lines.put(self.moment, Subject::at(""), event, None);
    }

    /// What is kept of a connection that opens.
    fn keep(&mut self, connection: u64, address: &str) -> Result<(), AllocError> {
        let opened = Connection {
            address: String::from_str(self.alloc, address)?,
            came: None,
            user: Vec::new(self.alloc),
            cause: None,
        };
        self.connections.insert(connection, opened)?;
        Ok(())
    }

    /// Takes note that a connection was opened to a peer of this address, as it is to be shown.
    pub fn opened(&mut self, connection: u64, address: &str) {
        let subject = Subject {
            connection: Some(connection),
            ..Subject::at(address)
        };
        let _ = self.lines.put(self.moment, subject, "opened", None);
        if self.keep(connection, address).is_err() {
            self.lines.lose();
        }
    }

    /// Takes note that no connection was opened to a peer of this address: too many are open, or memory ran out.
    pub fn refused(&mut self, address: &str) {
        let (moment, most, subject) = (self.moment, self.most, Subject::at(address));
        let _ = if self.connections.len() >= most {
            let event = format_args!("refused: {most} connections are open");
            self.lines.put(moment, subject, event, None)
        } else {
            add(&mut self.counts.ran_out, 1);
            self.lines.put(moment, subject, "refused: memory", None)
        };
    }

    /// Takes note that a connection to a peer of this address was closed as it was accepted, and so many before it of which nothing is
    /// written.
    pub fn kept_out(&mut self, address: &str, why: KeptOut, before: u64) {
        let (moment, subject) = (self.moment, Subject::at(address));
        let _ = if before == 0 {
            let event = format_args!("refused: {why}");
            self.lines.put(moment, subject, event, None)
        } else {
            let event = format_args!("refused: {why}, and {before} before it");
            self.lines.put(moment, subject, event, None)
        };
    }

    /// Takes note that nothing is read for a time of the connections without a session of a peer's address.
    pub fn kept_back(&mut self, address: &str, why: KeptBack) {
        let (moment, subject) = (self.moment, Subject::at(address));
        let event = format_args!("kept back: {why}");
        let _ = self.lines.put(moment, subject, event, None);
    }

    /// Takes note that a piece of so many bytes of a client's stream came.
    pub fn came(&mut self, connection: u64, length: usize) {
        add(&mut self.counts.bytes_in, length);
        if let Some(connection) = self.connections.get_mut(&connection) {
            connection.came = Some(self.moment);
        }
    }

    /// Takes note that so many bytes of the share's streams were taken.
    pub fn sent(&mut self, length: usize) {
        add(&mut self.counts.bytes_out, length);
    }

    /// Takes note that memory ran out in a piece of a connection's stream: the share ends the connection.
    pub fn ran_out(&mut self, connection: u64) {
        add(&mut self.counts.ran_out, 1);
        self.note_cause(connection, Ending::Memory);
    }

    /// Takes note of why a connection is going to end.
    pub fn note_cause(&mut self, connection: u64, cause: Ending) {
        if let Some(connection) = self.connections.get_mut(&connection) {
            connection.cause = Some(cause);
        }
    }

    /// Takes note that an open connection has ended: for the cause that was noted, or for this one.
    pub fn end(&mut self, connection: u64, why: Ending) {
        let Some(known) = self.connections.remove(&connection) else {
            return;
        };
        let subject = Subject {
            connection: Some(connection),
            address: known.address.as_str(),
            user: known.user.as_slice(),
        };
        let why = known.cause.unwrap_or(why);
        let event = format_args!("ended: {why}");
        let _ = self.lines.put(self.moment, subject, event, None);
    }

    /// Writes the line of the request that was performed last.
    fn put_request(&mut self, connection: u64, outcome: Option<Outcome>) {
        if self.request.is_lost {
            self.lines.lose();
            return;
        }
        let address = match self.connections.get(&connection) {
            Some(known) => known.address.as_str(),
            None => "",
        };
        let subject = Subject {
            connection: Some(connection),
            address,
            user: self.request.user.as_slice(),
        };
        let event = self.request.event.as_str();
        let _ = self.lines.put(self.moment, subject, event, outcome);
    }

    /// Takes note that the user of the present request has logged off.
    fn log_off(&mut self, connection: u64) {
        if let Some(connection) = self.connections.get_mut(&connection) {
            if connection.user.as_slice() == self.request.user.as_slice() {
                connection.user.clear();
            }
        }
    }

    /// Writes the line of a minute: what there is, with or without how much the files hold, and what was counted since the last.
    pub fn minute(&mut self, usage: Usage, with_files: bool) {
        let minute = Minute {
            connections: self.connections.len(),
            usage,
            counts: self.counts,
            with_files,
        };
        if self.lines.put(self.moment, Subject::at(""), minute, None) {
            self.counts = Counts::default();
        }
    }

    /// The writer, to which all lines were written.
    pub fn into_writer(self) -> W {
        self.lines.into_writer()
    }
}

/// What a replay has beside what the share does.
impl<W: Write + Drop> Log<W> {
    /// Takes an event of a replay that the share performed, and what it answered to it. What happens behind a piece has the moment of
    /// the piece.
    pub fn hear(&mut self, event: &Event, answers: &[Answer]) {
        match event {
            Event::Opened(connection) => self.opened(*connection, ""),
            Event::Bytes { moment, piece, .. } => {
                self.moment = *moment;
                add(&mut self.counts.bytes_in, piece.len());
            }
            Event::Ended(connection) => self.end(*connection, Ending::ByClient),
        }
        for answer in answers {
            match answer {
                Answer::Frame(_, frame) => self.sent(frame.len()),
                Answer::End(connection) => self.end(*connection, Ending::ByShare),
            }
        }
    }

    /// Takes note that a connection of a replay ended where memory had run out in a piece of its stream.
    pub fn cut_short(&mut self, connection: u64) {
        self.ran_out(connection);
        self.end(connection, Ending::ByShare);
    }
}

impl<W: Write + Drop> Observer for Log<W> {
    ghost use Rattle.std.specs.Prelude.{[], false};

    ghost observed = { λ log. [] };

    ghost keeps = { λ log. false };

    fn listens(&self) -> bool {
        true
    }

    fn note_subject(&mut self, user: &[u8], file: Option<&[u8]>) {
        self.request.begin(user, file);
    }

    fn performed(&mut self, connection: u64, moment: u64, request: &[u8], acting: Acting) {
        add(&mut self.counts.requests, 1);
        if acting.session_id == 0 {
            self.request.begin(&[], None);
        }
        let came = self.connections.get(&connection).and_then(|it| it.came);
        if came.is_none() {
            self.moment = moment;
        }
        self.request.came = came.unwrap_or(moment);
        self.request.lacks_name &= acting.open_number != 0;
        let command = command_of(request);
        if self.level.may_show(command) {
            self.request.describe(command, request);
        }
        if command == Command::Cancel.code() && self.level.shows(command, NtStatus::Success) {
            self.put_request(connection, None);
        }
    }

    fn denied(&mut self, _connection: u64, reason: LoginRefusal, name: &[u8]) {
        self.request.deny(reason, name);
    }

    fn let_in(&mut self, connection: u64, _session_id: u64, user: &[u8]) {
        self.request.set_user(user);
        if let Some(connection) = self.connections.get_mut(&connection) {
            connection.user.clear();
            if connection.user.extend_from_slice(user).is_err() {
                self.lines.lose();
            }
        }
    }

    fn responded(&mut self, connection: u64, response: Responded) {
        let (command, status) = (response.command, response.status);
        if command == Command::Logoff.code() && status == NtStatus::Success {
            self.log_off(connection);
        }
        self.request.conclude(&response);
        if self.level.shows(command, status) {
            let outcome = self.request.outcome(self.moment, &response);
            self.put_request(connection, Some(outcome));
        }
    }

    fn ended(&mut self, connection: u64, ending: smb_peers::Ending) {
        self.note_cause(connection, Ending::ByRule(ending));
    }
}
