//! What is asked of a share, and what it answers.

use super::fault::{FolderRule, Trouble};
use super::grouped::Grouped;
use super::names::share_path;
use smb_client::{
    Access, AdditionalInformation, Client, CreateDisposition, CreateOptions, CreateRequest,
    FileAttributes, FileId, ImpersonationLevel, InfoType, InformationClass, Line, OplockLevel,
    Replies, Reply, Request, SecurityFlags, SetInfoRequest, ShareAccess, SmbCreateFlags, Status,
    Units, units_of,
};
use smb_tree::{Basic, Kind};
use smb_wire::NtStatus;
use smb_wire::limits::{Limits, MOST_COMPONENTS};
use std::alloc::{AllocError, Global};

/// How many bytes one request writes at most: with its head it stays below 65,536 bytes.
pub(crate) const PART: u32 = 61_440;

/// FileBasicInformation ([MS-FSCC] 2.4.7).
const BASIC_INFORMATION: InformationClass = InformationClass(4);

/// FileDispositionInformation ([MS-FSCC] 2.4.11).
const DISPOSITION_INFORMATION: InformationClass = InformationClass(13);

/// What is between the names of a path.
const SEPARATOR: u16 = 0x5C;

/// What an open is for.
#[derive(Clone, Copy, PartialEq, Eq)]
enum Purpose {
    /// To make a new file, and to write it.
    NewFile,
    NewFolder,
    /// To set times and attributes of a folder.
    MarkFolder,
}

impl Purpose {
    fn access(self) -> Access {
        match self {
            Purpose::NewFile | Purpose::NewFolder => Access::FILE_ALL_ACCESS,
            Purpose::MarkFolder => Access::WRITE_ATTRIBUTES,
        }
    }

    fn disposition(self) -> CreateDisposition {
        match self {
            Purpose::NewFile | Purpose::NewFolder => CreateDisposition::Create,
            Purpose::MarkFolder => CreateDisposition::Open,
        }
    }

    fn options(self) -> CreateOptions {
        match self {
            Purpose::NewFile => CreateOptions::NON_DIRECTORY_FILE,
            Purpose::NewFolder | Purpose::MarkFolder => CreateOptions::DIRECTORY_FILE,
        }
    }
}

/// The CREATE of a name, which shares all that it opens.
fn create_request(name: Units<'_>, purpose: Purpose) -> Request<'_> {
    Request::Create(CreateRequest {
        security_flags: SecurityFlags(0),
        requested_oplock_level: OplockLevel::NONE,
        impersonation_level: ImpersonationLevel(2),
        smb_create_flags: SmbCreateFlags(0),
        reserved: 0,
        desired_access: purpose.access(),
        file_attributes: FileAttributes(0),
        share_access: ShareAccess(7),
        create_disposition: purpose.disposition().code(),
        create_options: purpose.options(),
        name_offset: 0,
        name,
        create_contexts_offset: 0,
        create_contexts: &[],
    })
}

/// How many names a path of a share has.
fn depth_of(path: &[u8]) -> usize {
    let (units, _) = path.as_chunks::<2>();
    units
        .split(|unit| u16::from_le_bytes(*unit) == SEPARATOR)
        .count()
}

/// The rule that a CREATE breaks which a share of these limits refuses by a status.
fn rule_of_create(limits: Limits, path: &[u8], status: Status) -> FolderRule {
    match NtStatus::from(status.0) {
        NtStatus::ObjectNameInvalid if depth_of(path) > MOST_COMPONENTS => FolderRule::TooDeep,
        NtStatus::ObjectNameInvalid => FolderRule::NotForTheShare,
        NtStatus::ObjectNameCollision => FolderRule::SameName,
        NtStatus::DiskFull => FolderRule::TooMany(Grouped(limits.entries as u64)),
        _ => FolderRule::Refused(status),
    }
}

/// The rule that a WRITE breaks, up to this end, which a share of these limits refuses by a status.
fn rule_of_write(limits: Limits, end: u64, status: Status) -> FolderRule {
    match NtStatus::from(status.0) {
        NtStatus::DiskFull if end > limits.file_bytes => {
            FolderRule::TooLong(Grouped(limits.file_bytes))
        }
        NtStatus::DiskFull => FolderRule::NoRoom,
        _ => FolderRule::Refused(status),
    }
}

/// Whether a reply says success.
fn is_success(reply: &Reply<'_>) -> bool {
    reply.status().0 == NtStatus::Success.code()
}

/// Success, or the status of a reply as a rule.
fn accept(reply: &Reply<'_>) -> Result<(), Trouble> {
    if is_success(reply) {
        Ok(())
    } else {
        Err(Trouble::Rule(FolderRule::Refused(reply.status())))
    }
}

/// FileBasicInformation ([MS-FSCC] 2.4.7) that sets all of an entry of this kind.
fn basic_information(alloc: Global, kind: Kind, basic: Basic) -> Result<Vec<u8>, AllocError> {
    let Basic {
        creation_time,
        last_access_time,
        last_write_time,
        change_time,
        attributes,
    } = basic;
    let mut bytes = Vec::new(alloc);
    for time in [
        creation_time,
        last_access_time,
        last_write_time,
        change_time,
    ] {
        bytes.extend_from_slice(&time.to_le_bytes())?;
    }
    let shown = kind.shown_attributes(attributes);
    bytes.extend_from_slice(&shown.0.to_le_bytes())?;
    bytes.extend_from_slice(&[0; 4])?;
    Ok(bytes)
}

/// A client that has its tree, and the line that carries what it asks. Each request is answered before the next.
#[derive(Drop)]
pub(crate) struct Talk<'l, 'c, L: Line> {
    alloc: Global,
    /// How much there may be of everything in the share.
    limits: Limits,
    line: &'l mut L,
    client: &'c mut Client,
    /// The frames that were answered last.
    heard: Vec<u8>,
}

impl<'l, 'c, L: Line> Talk<'l, 'c, L> {
    pub(crate) fn new(
        alloc: Global,
        limits: Limits,
        line: &'l mut L,
        client: &'c mut Client,
    ) -> Self {
        Talk {
            alloc,
            limits,
            line,
            client,
            heard: Vec::new(alloc),
        }
    }

    /// The reply to what the client has asked.
    fn reply(&mut self) -> Result<Reply<'_>, Trouble> {
        self.line.carry(self.client, &mut self.heard)?;
        match Replies::of(&self.heard).next_reply() {
            Some(reply) => Ok(reply),
            None => Err(Trouble::Rule(FolderRule::Unanswered)),
        }
    }

    /// Opens what is at a path below the share's root, for a purpose.
    fn open(&mut self, relative: &str, purpose: Purpose) -> Result<FileId, Trouble> {
        let path = share_path(self.alloc, relative)?;
        let path = units_of(self.alloc, &path)?;
        let limits = self.limits;
        let name = Units::of(&path).ok_or(FolderRule::NotForTheShare)?;
        self.client.ask(&create_request(name, purpose))?;
        let reply = self.reply()?;
        if !is_success(&reply) {
            return Err(Trouble::Rule(rule_of_create(limits, &path, reply.status())));
        }
        match reply.file_id() {
            Some(file_id) => Ok(file_id),
            None => Err(Trouble::Rule(FolderRule::Unanswered)),
        }
    }

    /// Closes what is open.
    fn close(&mut self, file_id: FileId) -> Result<(), Trouble> {
        self.client.close(file_id)?;
        accept(&self.reply()?)
    }

    /// Sets what an information class has of what is open.
    fn set_info(
        &mut self,
        file_id: FileId,
        class: InformationClass,
        information: &[u8],
    ) -> Result<(), Trouble> {
        self.client.ask(&Request::SetInfo(SetInfoRequest {
            info_type: InfoType::FILE,
            file_info_class: class,
            buffer: information,
            buffer_offset: 0,
            reserved: 0,
            additional_information: AdditionalInformation(0),
            file_id,
        }))?;
        accept(&self.reply()?)
    }

    /// Sets the times and attributes of what is open.
    fn set_basic(&mut self, file_id: FileId, kind: Kind, basic: Basic) -> Result<(), Trouble> {
        let information = basic_information(self.alloc, kind, basic)?;
        self.set_info(file_id, BASIC_INFORMATION, &information)
    }

    /// Makes a folder at a path below the share's root.
    pub(crate) fn make_folder(&mut self, relative: &str) -> Result<(), Trouble> {
        let file_id = self.open(relative, Purpose::NewFolder)?;
        self.close(file_id)
    }

    /// Sets the times and attributes of a folder.
    pub(crate) fn mark_folder(&mut self, relative: &str, basic: Basic) -> Result<(), Trouble> {
        let file_id = self.open(relative, Purpose::MarkFolder)?;
        self.set_basic(file_id, Kind::Folder, basic)?;
        self.close(file_id)
    }

    /// Makes a file at a path below the share's root, which is open then.
    pub(crate) fn make_file(&mut self, relative: &str) -> Result<FileId, Trouble> {
        self.open(relative, Purpose::NewFile)
    }

    /// Writes a part of a file that is open, at an offset in bytes.
    pub(crate) fn write(
        &mut self,
        file_id: FileId,
        offset: u64,
        part: &[u8],
    ) -> Result<(), Trouble> {
        let limits = self.limits;
        self.client.write(file_id, offset, part)?;
        let reply = self.reply()?;
        if is_success(&reply) {
            return Ok(());
        }
        let end = offset.saturating_add(part.len() as u64);
        Err(Trouble::Rule(rule_of_write(limits, end, reply.status())))
    }

    /// Sets the times and attributes of a file that has all its bytes, and closes it.
    pub(crate) fn finish_file(&mut self, file_id: FileId, basic: Basic) -> Result<(), Trouble> {
        self.set_basic(file_id, Kind::File, basic)?;
        self.close(file_id)
    }

    /// Takes away a file that was made, and is open.
    pub(crate) fn discard_file(&mut self, file_id: FileId) -> Result<(), Trouble> {
        self.set_info(file_id, DISPOSITION_INFORMATION, &[1])?;
        self.close(file_id)
    }
}
