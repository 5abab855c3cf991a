//! Files that the program's own client puts into a new share.

use crate::fault::KeptFault;
use crate::own_client::log_in;
use crate::progress::TerminalProgress;
use smb_client::{Client, ClientFault, Line};
use smb_engine::{Authenticator, Opens, Share, Tree};
use smb_folder::{Put, put_folder_noted};
use smb_journal::{Mailbox, Recorder};
use smb_pair::client_fault;
use smb_peers::Clock;
use smb_reason::Reason;
use smb_session::Answer;
use smb_wire::limits::Limits;
use std::fs::File;

/// How a connection of the program's own is recorded.
#[derive(Drop)]
pub struct OwnRecord<'a> {
    recorder: &'a mut Recorder<File>,
    mailbox: &'a Mailbox,
    /// The answer that lets the client in, until its second exchange, its SESSION_SETUP, is recorded.
    answer: Option<Answer>,
    exchanges: u64,
}

impl<'a> OwnRecord<'a> {
    /// Records what happens, with the answer that lets the client in.
    pub fn new(
        recorder: &'a mut Recorder<File>,
        mailbox: &'a Mailbox,
        answer: Answer,
    ) -> OwnRecord<'a> {
        OwnRecord {
            recorder,
            mailbox,
            answer: Some(answer),
            exchanges: 0,
        }
    }

    /// Records the answer that lets the client in, behind the piece that it answers.
    fn answered(&mut self) -> Result<(), ClientFault> {
        self.exchanges = self.exchanges.saturating_add(1);
        if self.exchanges == 2
            && let Some(answer) = self.answer.take()
        {
            self.mailbox.make_room()?;
            self.mailbox.put(&answer);
        }
        self.recorder.take_answers(self.mailbox);
        Ok(())
    }

    /// Records the end of the connection, and returns why not all of it is recorded; None where all of it is.
    fn ended(&mut self, connection: u64) -> Option<Reason> {
        self.recorder.ended(connection);
        let _ = self.recorder.settle();
        self.recorder.failure()
    }
}

/// A connection of the program's own to a share: each piece is recorded before the share takes it, where that is
/// asked for, and what it changes is kept before it is answered, where the share's tree keeps that.
#[derive(Drop)]
pub struct OwnLine<'a, A: Authenticator + Drop, T: Tree + Drop, O: Opens + Drop, C: Clock> {
    share: &'a mut Share<A, T, O>,
    clock: &'a mut C,
    record: Option<OwnRecord<'a>>,
    /// Why what changed could not be kept.
    failure: Option<Reason>,
}

impl<'a, A: Authenticator + Drop, T: Tree + Drop, O: Opens + Drop, C: Clock> OwnLine<
    'a,
    A,
    T,
    O,
    C,
> {
    /// A connection to a share whose authenticator lets the program's own client in first.
    pub fn new(
        share: &'a mut Share<A, T, O>,
        clock: &'a mut C,
        record: Option<OwnRecord<'a>>,
    ) -> Self {
        OwnLine {
            share,
            clock,
            record,
            failure: None,
        }
    }

    /// Opens the connection.
    fn open(&mut self) -> Result<u64, KeptFault> {
        let Ok(connection) = self.share.opened() else {
            return Err(KeptFault::NoMemory);
        };
        if let Some(record) = &mut self.record {
            record.recorder.opened(connection);
        }
        Ok(connection)
    }

    /// Ends the connection, and returns why not all of it is kept; None where all of it is.
    fn end(&mut self, connection: u64) -> Option<Reason> {
        self.share.ended(connection);
        self.keep();
        match &mut self.record {
            Some(record) => record.ended(connection).or(self.failure),
            None => self.failure,
        }
    }

    /// Has the tree keep what changed.
    fn keep(&mut self) {
        if let Err(reason) = self.share.keep_changes()
            && self.failure.is_none()
        {
            self.failure = Some(reason);
        }
    }

    /// Whether a change or an event of the share is not kept.
    fn has_failed(&self) -> bool {
        let is_unrecorded = match &self.record {
            Some(record) => record.recorder.has_failed(),
            None => false,
        };
        is_unrecorded || self.failure.is_some()
    }
}

impl<A: Authenticator + Drop, T: Tree + Drop, O: Opens + Drop, C: Clock> Line
    for OwnLine<'_, A, T, O, C> {
    fn carry(&mut self, client: &mut Client, heard: &mut Vec<u8>) -> Result<(), ClientFault> {
        let connection = client.number();
        let frames = client.take_frames();
        if !self.share.is_open(connection) || self.has_failed() {
            return Err(ClientFault::Ended);
        }
        let moment = self.clock.moment();
        if let Some(record) = &mut self.record {
            record.recorder.piece(connection, moment, &frames);
        }
        heard.clear();
        if let Err(fault) = self.share.feed(connection, moment, &frames, heard) {
            return Err(client_fault(fault));
        }
        if let Some(record) = &mut self.record {
            record.answered()?;
        }
        self.keep();
        client.hear(heard);
        Ok(())
    }
}

/// Logs a client in, and puts the files of a folder in.
fn put_by<L: Line>(
    rt: &HostRuntime,
    limits: Limits,
    folder: &str,
    path: &str,
    line: &mut L,
    client: &mut Client,
) -> Result<Put, KeptFault> {
    log_in(rt.alloc(), line, client, path)?;
    let progress = TerminalProgress::new(rt, folder);
    Ok(put_folder_noted(rt, limits, folder, line, client, progress)?)
}

/// Puts the files of a folder of the system into a new share of this path and these limits, whose authenticator lets
/// the program's own client in first. On a terminal standard error has a line a second of how far it is. What can't
/// be in the share is a fault of what was [`Put`].
///
/// A folder that can't be read is a [`KeptFault::Folder`].
pub fn put_folder_in<A: Authenticator + Drop, T: Tree + Drop, O: Opens + Drop, C: Clock>(
    rt: &HostRuntime,
    limits: Limits,
    folder: &str,
    path: &str,
    line: &mut OwnLine<'_, A, T, O, C>,
) -> Result<Put, KeptFault> {
    let connection = line.open()?;
    let mut client = Client::new(rt.alloc(), connection);
    let put = put_by(rt, limits, folder, path, line, &mut client);
    match line.end(connection) {
        None => put,
        Some(reason) => Err(KeptFault::RecordFailed(reason)),
    }
}
