//! The observer that counts what a share does.

use crate::watch::{Watch, borrowed};
use smb_head::read_header;
use smb_peers::{Acting, Ending, Observer, Responded};
use smb_refusals::LoginRefusal;
use smb_wire::{Command, CommandCode};
use std::cell::RefCell;

/// Counts what a share does, where something is noted of it, and passes it on to another observer.
#[derive(Drop)]
pub struct WatchObserver<'a, W: Observer + Drop> {
    other: W,
    watch: Option<&'a RefCell<Watch>>,
}

impl<'a, W: Observer + Drop> WatchObserver<'a, W> {
    /// The observer for what is noted, beside another one; for nobody, `()`.
    pub fn new(other: W, watch: Option<&'a RefCell<Watch>>) -> Self {
        WatchObserver { other, watch }
    }
}

/// The command of a request, by its bytes: one without a header is an SMB_COM_NEGOTIATE.
fn command_of(request: &[u8]) -> CommandCode {
    match read_header(request) {
        Ok(header) => header.command,
        Err(_) => Command::Negotiate.code(),
    }
}

impl<W: Observer + Drop> Observer for WatchObserver<'_, W> {
    ghost use Rattle.std.specs.Prelude.{[], false};

    ghost observed = { λ observer. [] };

    ghost keeps = { λ observer. false };

    fn listens(&self) -> bool {
        self.watch.is_some() || self.other.listens()
    }

    fn note_subject(&mut self, user: &[u8], file: Option<&[u8]>) {
        if self.other.listens() {
            self.other.note_subject(user, file);
        }
    }

    fn performed(&mut self, connection: u64, moment: u64, request: &[u8], acting: Acting) {
        if let Some(mut watch) = borrowed(self.watch) {
            watch.counts.count_request(command_of(request));
        }
        if self.other.listens() {
            self.other.performed(connection, moment, request, acting);
        }
    }

    fn responded(&mut self, connection: u64, response: Responded) {
        if let Some(mut watch) = borrowed(self.watch) {
            watch.counts.count_refusal(response.status);
        }
        if self.other.listens() {
            self.other.responded(connection, response);
        }
    }

    fn denied(&mut self, connection: u64, reason: LoginRefusal, name: &[u8]) {
        if self.other.listens() {
            self.other.denied(connection, reason, name);
        }
    }

    fn let_in(&mut self, connection: u64, session_id: u64, user: &[u8]) {
        if self.other.listens() {
            self.other.let_in(connection, session_id, user);
        }
    }

    fn ended(&mut self, connection: u64, ending: Ending) {
        if let Some(mut watch) = borrowed(self.watch) {
            watch.counts.count_ending(ending);
        }
        self.other.ended(connection, ending);
    }
}
