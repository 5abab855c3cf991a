//! A client, and what it asks.

use super::fault::ClientFault;
use super::reply::Replies;
use super::words::units_of;
use smb_body::{
    Capabilities, Channel, CloseFlags, CloseRequest, CreateRequest, Dialects, Guid,
    ImpersonationLevel, NegotiateRequest, OplockLevel, ReadFlags, ReadRequest, Request,
    ReservedRequest, SecurityFlags, SecurityMode, SessionSecurityMode, SessionSetupFlags,
    SessionSetupRequest, SmbCreateFlags, TreeConnectRequest, WriteFlags, WriteRequest,
    write_request,
};
use smb_frame::put_frame;
use smb_head::{Header, HeaderFlags, write_header};
use smb_wire::limits::MOST_CREDITS;
use smb_wire::{
    Access, Command, CreateDisposition, CreateOptions, Dialect, FileAttributes, FileId,
    ShareAccess, Units,
};
use std::alloc::Global;
use std::mem;

/// A client of a share: one connection. What it asks becomes frames, which wait in it until they are sent.
#[derive(Debug, Drop)]
pub struct Client {
    alloc: Global,
    number: u64,
    dialect: Option<Dialect>,
    message_id: u64,
    session_id: u64,
    tree_id: u32,
    frames: Vec<u8>,
}

/// The command of a request.
fn command_of(request: &Request<'_>) -> Command {
    match request {
        Request::Negotiate(_) => Command::Negotiate,
        Request::SessionSetup(_) => Command::SessionSetup,
        Request::Logoff(_) => Command::Logoff,
        Request::TreeConnect(_) => Command::TreeConnect,
        Request::TreeDisconnect(_) => Command::TreeDisconnect,
        Request::Create(_) => Command::Create,
        Request::Close(_) => Command::Close,
        Request::Flush(_) => Command::Flush,
        Request::Read(_) => Command::Read,
        Request::Write(_) => Command::Write,
        Request::Lock(_) => Command::Lock,
        Request::Cancel(_) => Command::Cancel,
        Request::Echo(_) => Command::Echo,
        Request::QueryDirectory(_) => Command::QueryDirectory,
        Request::QueryInfo(_) => Command::QueryInfo,
        Request::SetInfo(_) => Command::SetInfo,
    }
}

/// How many MessageIds a request has to take in dialect 2.1: one for each 65,536 bytes that it sends or asks for, one at
/// least ([MS-SMB2] 3.2.4.1.5).
fn due_of(request: &Request<'_>) -> u16 {
    let due = request.facts().payload.saturating_sub(1) / 65_536 + 1;
    due.min(65_535) as u16
}

impl Client {
    /// A client of the connection of a number, which has said nothing.
    pub fn new(alloc: Global, number: u64) -> Client {
        Client {
            alloc,
            number,
            dialect: None,
            message_id: 0,
            session_id: 0,
            tree_id: 0,
            frames: Vec::new(alloc),
        }
    }

    /// Its connection's number.
    pub fn number(&self) -> u64 {
        self.number
    }

    /// The frames that it has to send.
    pub fn frames(&self) -> &[u8] {
        &self.frames
    }

    /// How many MessageIds a request takes in the dialect that was agreed on.
    fn charge(&self, request: &Request<'_>) -> u16 {
        match self.dialect {
            Some(Dialect::Smb210) => due_of(request),
            Some(Dialect::Smb202) | None => 1,
        }
    }

    /// The CreditCharge of a request that takes so many MessageIds: 0 where the dialect has none.
    fn credit_charge(&self, charge: u16) -> u16 {
        match self.dialect {
            Some(Dialect::Smb210) => charge,
            Some(Dialect::Smb202) | None => 0,
        }
    }

    /// How many credits a request asks for: a NEGOTIATE for all that a window holds, any other for as many as it takes.
    fn credits(&self, command: Command, charge: u16) -> u16 {
        match command {
            Command::Negotiate => MOST_CREDITS as u16,
            _ => charge,
        }
    }

    /// The header of its next request, which takes so many MessageIds.
    fn header(&self, command: Command, charge: u16) -> Header {
        Header {
            credit_charge: self.credit_charge(charge),
            status: 0,
            command: command.code(),
            credits: self.credits(command, charge),
            flags: HeaderFlags(0),
            next_command: 0,
            message_id: self.message_id,
            reserved: 0,
            tree_id: self.tree_id,
            session_id: self.session_id,
            signature: [0; 16],
        }
    }

    /// Asks for something, under the session and the tree that it was given last, and with the CreditCharge that is due in
    /// the dialect that was agreed on. After a refusal it has asked for nothing.
    pub fn ask(&mut self, request: &Request<'_>) -> Result<(), ClientFault> {
        let charge = self.charge(request);
        let mut bytes = Vec::new(self.alloc);
        write_header(&self.header(command_of(request), charge), &mut bytes)?;
        write_request(request, &mut bytes)?;
        put_frame(&bytes, &mut self.frames)?;
        self.message_id = self.message_id.saturating_add(u64::from(charge));
        Ok(())
    }

    /// Offers the dialects 2.0.2 and 2.1.
    pub fn negotiate(&mut self) -> Result<(), ClientFault> {
        let Some(dialects) = Dialects::of(&[0x02, 0x02, 0x10, 0x02]) else {
            return Err(ClientFault::TooLong);
        };
        self.ask(&Request::Negotiate(NegotiateRequest {
            security_mode: SecurityMode(1),
            reserved: 0,
            capabilities: Capabilities(0),
            client_guid: Guid([0; 16]),
            client_start_time: 0,
            dialects,
        }))
    }

    /// Sets up a session by a token.
    pub fn session_setup(&mut self, token: &[u8]) -> Result<(), ClientFault> {
        self.ask(&Request::SessionSetup(SessionSetupRequest {
            flags: SessionSetupFlags(0),
            security_mode: SessionSecurityMode(1),
            capabilities: Capabilities(0),
            channel: Channel(0),
            security_buffer_offset: 0,
            security_buffer: token,
            previous_session_id: 0,
        }))
    }

    /// Connects to the share of a path, such as `\\server\data`.
    pub fn tree_connect(&mut self, path: &str) -> Result<(), ClientFault> {
        let bytes = units_of(self.alloc, path)?;
        let Some(path) = Units::of(&bytes) else {
            return Err(ClientFault::TooLong);
        };
        self.ask(&Request::TreeConnect(TreeConnectRequest {
            reserved: 0,
            path_offset: 0,
            path,
        }))
    }

    /// Opens the file of a name for itself alone, with all access.
    pub fn create(
        &mut self,
        name: &str,
        disposition: CreateDisposition,
    ) -> Result<(), ClientFault> {
        let bytes = units_of(self.alloc, name)?;
        let Some(name) = Units::of(&bytes) else {
            return Err(ClientFault::TooLong);
        };
        self.ask(&Request::Create(CreateRequest {
            security_flags: SecurityFlags(0),
            requested_oplock_level: OplockLevel::NONE,
            impersonation_level: ImpersonationLevel(2),
            smb_create_flags: SmbCreateFlags(0),
            reserved: 0,
            desired_access: Access::FILE_ALL_ACCESS,
            file_attributes: FileAttributes(0),
            share_access: ShareAccess(0),
            create_disposition: disposition.code(),
            create_options: CreateOptions::NON_DIRECTORY_FILE,
            name_offset: 0,
            name,
            create_contexts_offset: 0,
            create_contexts: &[],
        }))
    }

    /// Writes bytes of an open file, from an offset on.
    pub fn write(
        &mut self,
        file_id: FileId,
        offset: u64,
        buffer: &[u8],
    ) -> Result<(), ClientFault> {
        self.ask(&Request::Write(WriteRequest {
            data_offset: 0,
            buffer,
            offset,
            file_id,
            channel: Channel(0),
            remaining_bytes: 0,
            write_channel_info_offset: 0,
            write_channel_info_length: 0,
            flags: WriteFlags(0),
        }))
    }

    /// Reads so many bytes of an open file, from an offset on.
    pub fn read(&mut self, file_id: FileId, offset: u64, length: u32) -> Result<(), ClientFault> {
        self.ask(&Request::Read(ReadRequest {
            padding: 0,
            flags: ReadFlags(0),
            length,
            offset,
            file_id,
            minimum_count: 0,
            channel: Channel(0),
            remaining_bytes: 0,
            read_channel_info_offset: 0,
            read_channel_info_length: 0,
        }))
    }

    /// Closes an open file.
    pub fn close(&mut self, file_id: FileId) -> Result<(), ClientFault> {
        self.ask(&Request::Close(CloseRequest {
            flags: CloseFlags(0),
            reserved: 0,
            file_id,
        }))
    }

    /// Asks whether the share is there.
    pub fn echo(&mut self) -> Result<(), ClientFault> {
        self.ask(&Request::Echo(ReservedRequest { reserved: 0 }))
    }

    /// The frames that it has to send; it has nothing more to send then.
    pub fn take_frames(&mut self) -> Vec<u8> {
        mem::replace(&mut self.frames, Vec::new(self.alloc))
    }

    /// What it had to send was sent.
    pub fn sent(&mut self) {
        self.frames.clear();
    }

    /// Takes the dialect, the session and the tree that replies give it.
    pub fn hear(&mut self, frames: &[u8]) {
        let mut replies = Replies::of(frames);
        for _ in 0..frames.len() {
            let Some(reply) = replies.next_reply() else {
                return;
            };
            self.session_id = reply.header.session_id;
            if reply.header.command == Command::Negotiate.code() {
                self.dialect = reply.dialect();
            }
            if reply.header.command == Command::TreeConnect.code() {
                self.tree_id = reply.header.tree_id;
            }
        }
    }
}
