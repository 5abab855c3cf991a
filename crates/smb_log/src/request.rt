//! The request that was performed last.

use crate::level::is_refusal;
use smb_log_text::{Outcome, put_file_name, put_request, put_typed};
use smb_peers::Responded;
use smb_refusal_texts::{Why, WithoutComma};
use smb_refusals::{LoginRefusal, Refusal};
use smb_wire::CommandCode;
use std::alloc::{AllocError, Global};

/// A request, until the share responds to it. The next one has its texts in the same memory.
#[derive(Drop)]
pub(crate) struct LoggedRequest {
    /// As the authenticator names it; empty for none.
    pub(crate) user: Vec<u8>,
    /// The name of the file of the open that it names, as it is shown.
    file: String,
    /// What it asks, as it is shown.
    pub(crate) event: String,
    /// When its piece came.
    pub(crate) came: u64,
    /// Why the login was denied, where it was.
    denied: Option<LoginRefusal>,
    /// It names an open, and no name of its file came.
    pub(crate) lacks_name: bool,
    /// There was no memory for its line.
    pub(crate) is_lost: bool,
}

impl LoggedRequest {
    /// No request so far.
    pub(crate) fn none(alloc: Global) -> Self {
        LoggedRequest {
            user: Vec::new(alloc),
            file: String::new(alloc),
            event: String::new(alloc),
            came: 0,
            denied: None,
            lacks_name: false,
            is_lost: false,
        }
    }

    /// Takes another user.
    pub(crate) fn set_user(&mut self, user: &[u8]) {
        self.user.clear();
        self.is_lost |= self.user.extend_from_slice(user).is_err();
    }

    /// Begins with the next request, of this user and of a file of this name in UTF-16LE.
    pub(crate) fn begin(&mut self, user: &[u8], file: Option<&[u8]>) {
        self.is_lost = false;
        self.denied = None;
        self.event.clear();
        self.set_user(user);
        self.file.clear();
        self.lacks_name = file.is_none();
        self.is_lost |= put_file_name(file, &mut self.file).is_err();
    }

    /// Takes its response. One that was not refused by a check of what it needs has an open, whose file has a name: where none
    /// came, memory ran out for it.
    pub(crate) fn conclude(&mut self, response: &Responded) {
        let has_open = !matches!(response.refusal, Some(Refusal::Request(_)));
        self.is_lost |= self.lacks_name && has_open;
    }

    /// Puts its bytes into words.
    pub(crate) fn describe(&mut self, command: CommandCode, request: &[u8]) {
        let put = put_request(command, request, self.file.as_str(), &mut self.event);
        self.is_lost |= put.is_err();
    }

    /// Adds the name that the client of a login typed.
    fn put_name(&mut self, name: &[u8]) -> Result<(), AllocError> {
        self.event.push_str(" name=")?;
        put_typed(name, &mut self.event)
    }

    /// Notes why a login was denied, and the name that the client typed.
    pub(crate) fn deny(&mut self, reason: LoginRefusal, name: &[u8]) {
        self.denied = Some(reason);
        self.is_lost |= self.put_name(name).is_err();
    }

    /// How it ended, by its response at this moment. The end of a listing or of a file is no refusal.
    pub(crate) fn outcome(&self, moment: u64, response: &Responded) -> Outcome {
        let why = match (response.refusal, self.denied) {
            _ if !is_refusal(response.status) => None,
            (None, _) => None,
            (Some(_), Some(reason)) => Some(Why::Login(reason)),
            (Some(refusal), None) => Some(Why::Request(refusal)),
        };
        Outcome {
            status: response.status,
            microseconds: moment.saturating_sub(self.came) / 10,
            why: why.map(WithoutComma),
        }
    }
}
