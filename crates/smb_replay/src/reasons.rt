//! Why a share refuses requests and ends connections in a replay, event by event.

use smb_engine::Answer;
use smb_head::read_header;
use smb_peers::{Acting, Ending, Observer, Responded};
use smb_refusal_texts::Why;
use smb_refusals::LoginRefusal;
use smb_wire::limits::MOST_REQUESTS;
use std::alloc::Global;
use std::fmt::Display;
use std::io::Write;
use std::{fmt, io};

/// The bytes of a frame before its payload.
const FRAME_HEAD: usize = 4;

/// A reason, and what it is of.
#[derive(Clone, Copy)]
struct Reported {
    connection: u64,
    /// The MessageId of a request that was refused.
    message_id: Option<u64>,
    why: Why,
}

impl Reported {
    /// Whether it is of the request with this MessageId.
    fn is_of(&self, message_id: u64) -> bool {
        self.message_id == Some(message_id)
    }
}

/// The line of a reason: the mark of the answer that it is of, the connection, the event's line in the text, and why.
#[derive(Clone, Copy)]
struct ReasonLine {
    reported: Reported,
    line: u64,
}

impl Display for ReasonLine {
    fn fmt<W: fmt::Write>(&self, f: &mut fmt::Formatter<W>) -> fmt::Result {
        let ReasonLine { reported, line } = *self;
        let mark = match reported.why {
            Why::Connection(_) => "x",
            Why::Request(_) | Why::Login(_) => "<",
        };
        let (connection, why) = (reported.connection, reported.why);
        write!(f, "{mark} {connection}, line {line}: {why}")
    }
}

/// The reasons of an event, in the order in which the share gave them.
#[derive(Drop)]
pub(crate) struct Reasons {
    reported: Vec<Reported>,
    /// Why the login was denied whose response comes next.
    denied: Option<LoginRefusal>,
    /// How many of them are written.
    written: usize,
    /// There was no memory for one.
    is_lost: bool,
}

impl Reasons {
    /// None so far.
    pub(crate) fn new(alloc: Global) -> Self {
        Reasons {
            reported: Vec::new(alloc),
            denied: None,
            written: 0,
            is_lost: false,
        }
    }

    /// Forgets those of the event before.
    pub(crate) fn clear(&mut self) {
        self.reported.clear();
        self.denied = None;
        self.written = 0;
    }

    /// Whether there was no memory for one.
    pub(crate) fn is_lost(&self) -> bool {
        self.is_lost
    }

    /// Whether there is none.
    pub(crate) fn is_empty(&self) -> bool {
        self.reported.is_empty()
    }

    /// Keeps a reason.
    fn keep(&mut self, connection: u64, message_id: Option<u64>, why: Why) {
        let reported = Reported {
            connection,
            message_id,
            why,
        };
        if self.reported.push(reported).is_err() {
            self.is_lost = true;
        }
    }

    /// Keeps why the share refused a request, where it did, and behind it why a login was denied.
    fn keep_refusal(&mut self, connection: u64, response: &Responded) {
        let denied = self.denied.take();
        if let Some(refusal) = response.refusal {
            self.keep(connection, Some(response.message_id), Why::Request(refusal));
            if let Some(reason) = denied {
                self.keep(connection, None, Why::Login(reason));
            }
        }
    }

    /// Writes all of an event of this line.
    pub(crate) fn write_all<W: Write>(&self, line: u64, errors: &mut W) -> io::Result<()> {
        for reported in &self.reported {
            let reason = ReasonLine {
                reported: *reported,
                line,
            };
            writeln!(errors, "{reason}")?;
        }
        Ok(())
    }

    /// The next that is not written.
    fn next(&self) -> Option<Reported> {
        self.reported.get(self.written).copied()
    }

    /// Writes one as a comment, which is the next.
    fn write_comment<W: Write>(
        &mut self,
        reported: Reported,
        line: u64,
        output: &mut W,
    ) -> io::Result<()> {
        self.written = self.written.saturating_add(1);
        let reason = ReasonLine { reported, line };
        writeln!(output, "# {reason}")
    }

    /// Writes that of a response, where its request was refused, and behind it that of a login.
    fn write_response<W: Write>(
        &mut self,
        message_id: u64,
        line: u64,
        output: &mut W,
    ) -> io::Result<()> {
        match self.next() {
            Some(reported) if reported.is_of(message_id) => {
                self.write_comment(reported, line, output)?;
            }
            _ => return Ok(()),
        }
        match self.next() {
            Some(reported) if matches!(reported.why, Why::Login(_)) => {
                self.write_comment(reported, line, output)
            }
            _ => Ok(()),
        }
    }

    /// Writes that of an end.
    fn write_end<W: Write>(&mut self, line: u64, output: &mut W) -> io::Result<()> {
        match self.next() {
            Some(reported) if matches!(reported.why, Why::Connection(_)) => {
                self.write_comment(reported, line, output)
            }
            _ => Ok(()),
        }
    }

    /// Writes those of the responses in a frame as comments.
    fn write_frame<W: Write>(&mut self, frame: &[u8], line: u64, output: &mut W) -> io::Result<()> {
        let mut payload = frame.get(FRAME_HEAD..).unwrap_or(&[]);
        for _ in 0..MOST_REQUESTS {
            let Ok(header) = read_header(payload) else {
                break;
            };
            self.write_response(header.message_id, line, output)?;
            if header.next_command == 0 {
                break;
            }
            payload = payload.get(header.next_command as usize..).unwrap_or(&[]);
        }
        Ok(())
    }

    /// Writes those of an answer to an event of this line, as comments.
    pub(crate) fn write_comments<W: Write>(
        &mut self,
        answer: &Answer,
        line: u64,
        output: &mut W,
    ) -> io::Result<()> {
        match answer {
            Answer::Frame(_, frame) => self.write_frame(frame, line, output),
            Answer::End(_) => self.write_end(line, output),
        }
    }
}

/// Keeps the reasons of a share, and has another observer hear what it does.
#[derive(Drop)]
pub(crate) struct Reasoning<'a, H: Observer> {
    reasons: &'a mut Reasons,
    heard: &'a mut H,
}

impl<'a, H: Observer> Reasoning<'a, H> {
    /// Keeps them here, beside this observer.
    pub(crate) fn new(reasons: &'a mut Reasons, heard: &'a mut H) -> Self {
        Reasoning { reasons, heard }
    }
}

impl<H: Observer> Observer for Reasoning<'_, H> {
    ghost use Rattle.std.specs.Prelude.{[], false};

    ghost observed = { λ reasoning. [] };

    ghost keeps = { λ reasoning. false };

    fn listens(&self) -> bool {
        true
    }

    fn note_subject(&mut self, user: &[u8], file: Option<&[u8]>) {
        if self.heard.listens() {
            self.heard.note_subject(user, file);
        }
    }

    fn performed(&mut self, connection: u64, moment: u64, request: &[u8], acting: Acting) {
        if self.heard.listens() {
            self.heard.performed(connection, moment, request, acting);
        }
    }

    fn responded(&mut self, connection: u64, response: Responded) {
        self.reasons.keep_refusal(connection, &response);
        if self.heard.listens() {
            self.heard.responded(connection, response);
        }
    }

    fn denied(&mut self, connection: u64, reason: LoginRefusal, name: &[u8]) {
        self.reasons.denied = Some(reason);
        if self.heard.listens() {
            self.heard.denied(connection, reason, name);
        }
    }

    fn let_in(&mut self, connection: u64, session_id: u64, user: &[u8]) {
        if self.heard.listens() {
            self.heard.let_in(connection, session_id, user);
        }
    }

    fn ended(&mut self, connection: u64, ending: Ending) {
        self.reasons.keep(connection, None, Why::Connection(ending));
        self.heard.ended(connection, ending);
    }
}
