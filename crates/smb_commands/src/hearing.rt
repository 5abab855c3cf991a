//! What hears a replay.

use smb_command_parts::{Fault, LogOutput, LogWords, log_of};
use smb_engine::{Answer, Event};
use smb_log::Log;
use smb_peers::{Acting, Ending, Observer, Responded, Usage};
use smb_refusals::LoginRefusal;
use smb_replay::Hears;
use smb_wire::limits::Limits;

/// What hears a replay: its log, where there is one.
#[derive(Drop)]
pub struct Hearing<'a> {
    log: Option<Log<LogOutput<'a>>>,
}

impl<'a> Hearing<'a> {
    /// The log that the words ask for, of a share of these limits that was made at this moment.
    pub fn open(
        rt: &'a HostRuntime,
        words: Option<LogWords<'a>>,
        limits: Limits,
        created: u64,
    ) -> Result<Self, Fault> {
        let log = log_of(rt, words, limits, created)?;
        Ok(Hearing { log })
    }

    /// Takes note that memory ran out in what came last on a connection, which has ended with it.
    pub fn cut_short(&mut self, connection: u64) {
        if let Some(log) = &mut self.log {
            log.cut_short(connection);
        }
    }

    /// Writes a last line, with the sessions and the opens that are left. Where a line could not be written standard
    /// error says so already.
    pub fn finish(mut self, usage: Usage) {
        if let Some(log) = &mut self.log {
            log.minute(usage, false);
        }
    }
}

impl Observer for Hearing<'_> {
    ghost use Rattle.std.specs.Prelude.{[], false};

    ghost observed = { λ hearing. [] };

    ghost keeps = { λ hearing. false };

    fn listens(&self) -> bool {
        self.log.is_some()
    }

    fn note_subject(&mut self, user: &[u8], file: Option<&[u8]>) {
        if let Some(log) = &mut self.log {
            log.note_subject(user, file);
        }
    }

    fn performed(&mut self, connection: u64, moment: u64, request: &[u8], acting: Acting) {
        if let Some(log) = &mut self.log {
            log.performed(connection, moment, request, acting);
        }
    }

    fn responded(&mut self, connection: u64, response: Responded) {
        if let Some(log) = &mut self.log {
            log.responded(connection, response);
        }
    }

    fn denied(&mut self, connection: u64, reason: LoginRefusal, name: &[u8]) {
        if let Some(log) = &mut self.log {
            log.denied(connection, reason, name);
        }
    }

    fn let_in(&mut self, connection: u64, session_id: u64, user: &[u8]) {
        if let Some(log) = &mut self.log {
            log.let_in(connection, session_id, user);
        }
    }

    fn ended(&mut self, connection: u64, ending: Ending) {
        if let Some(log) = &mut self.log {
            log.ended(connection, ending);
        }
    }
}

impl Hears for Hearing<'_> {
    fn hear(&mut self, event: &Event, answers: &[Answer]) {
        if let Some(log) = &mut self.log {
            log.hear(event, answers);
        }
    }
}
