//! What hears a served share for its log.

use crate::log::Log;
use smb_peers::{Acting, Clock, Ending, Observer, Responded};
use smb_refusals::LoginRefusal;
use std::cell::{RefCell, RefMut};
use std::io::Write;

/// A log that is lent, where there is one.
pub(crate) fn borrowed<W: Write + Drop>(
    log: Option<&RefCell<Log<W>>>,
) -> Option<RefMut<'_, Log<W>>> {
    log?.try_borrow_mut().ok()
}

/// Has a log, where there is one, hear what a served share does. Its clock has the moments of the responses.
#[derive(Drop)]
pub struct LogObserver<'a, C: Clock + Drop, W: Write + Drop> {
    log: Option<&'a RefCell<Log<W>>>,
    clock: C,
}

impl<'a, C: Clock + Drop, W: Write + Drop> LogObserver<'a, C, W> {
    /// The observer for this log.
    pub fn new(log: Option<&'a RefCell<Log<W>>>, clock: C) -> Self {
        LogObserver { log, clock }
    }
}

impl<C: Clock + Drop, W: Write + Drop> Observer for LogObserver<'_, C, W> {
    ghost use Rattle.std.specs.Prelude.{[], false};

    ghost observed = { λ observer. [] };

    ghost keeps = { λ observer. false };

    fn listens(&self) -> bool {
        self.log.is_some()
    }

    fn note_subject(&mut self, user: &[u8], file: Option<&[u8]>) {
        if let Some(mut log) = borrowed(self.log) {
            log.note_subject(user, file);
        }
    }

    fn performed(&mut self, connection: u64, moment: u64, request: &[u8], acting: Acting) {
        if let Some(mut log) = borrowed(self.log) {
            log.performed(connection, moment, request, acting);
        }
    }

    fn responded(&mut self, connection: u64, response: Responded) {
        if let Some(mut log) = borrowed(self.log) {
            log.note_moment(self.clock.moment());
            log.responded(connection, response);
        }
    }

    fn denied(&mut self, connection: u64, reason: LoginRefusal, name: &[u8]) {
        if let Some(mut log) = borrowed(self.log) {
            log.denied(connection, reason, name);
        }
    }

    fn let_in(&mut self, connection: u64, session_id: u64, user: &[u8]) {
        if let Some(mut log) = borrowed(self.log) {
            log.let_in(connection, session_id, user);
        }
    }

    fn ended(&mut self, connection: u64, ending: Ending) {
        if let Some(mut log) = borrowed(self.log) {
            log.ended(connection, ending);
        }
    }
}
