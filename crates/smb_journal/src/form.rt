//! The two forms of a recording, and its first line.

use crate::fault::JournalFault;
use crate::limits::{read_limits, up_to_blank, write_limits};
use crate::text::{at_last, number_of, token_of, write_hex};
use smb_request::Config;
use smb_wire::limits::Limits;
use std::alloc::Global;
use std::io;
use std::io::Write;

/// How a recording is spelled.
#[derive(Clone, Copy, Debug, PartialEq, Eq)]
pub enum Form {
    /// As text, which a replay reads: the bytes of a piece are hex. So all are written.
    Recording,
    /// As an older program wrote its journals: with the bytes of a piece as they are, and a check on each line.
    Journal,
}

impl Form {
    /// The word for a file of this form, as it is said what is wrong with one.
    pub fn word(self) -> &'static str {
        match self {
            Form::Recording => "record",
            Form::Journal => "journal",
        }
    }
}

/// What the first line of each form begins with.
const RECORDING: &[u8] = b"# smbshare recording 1 ";

const JOURNAL: &[u8] = b"# smbshare journal 1 ";

/// The form of a file that begins like this; None where it is no recording.
pub fn form_of(line: &[u8]) -> Option<Form> {
    if line.starts_with(RECORDING) {
        Some(Form::Recording)
    } else if line.starts_with(JOURNAL) {
        Some(Form::Journal)
    } else {
        None
    }
}

/// The words before each of the other fields, behind the share's name.
const LABEL: &[u8] = b" label=\"";

const GUID: &[u8] = b"\" guid=";

const CAPACITY: &[u8] = b" capacity=";

const CREATED: &[u8] = b" created=";

/// The words that say that each session that is signed has to sign its requests.
const SIGNING_REQUIRED: &[u8] = b" signing=required";

/// The word before the authenticator's first token.
const HELLO: &[u8] = b" hello=";

/// The first line of a recording: its form, what share it is of, and the first token of who let its clients in.
#[derive(Debug, Drop)]
pub struct Header {
    pub form: Form,
    /// The share's name, label, GUID, capacity, moment and limits, as they are in the line.
    share: Vec<u8>,
    /// Whether each session that is signed has to sign its requests, which a NEGOTIATE response says.
    pub signing_required: bool,
    /// At most 4,096 bytes.
    pub hello: Vec<u8>,
}

/// A configuration, and the limits under which its share is.
#[derive(Debug, Drop)]
pub struct LimitedConfig {
    pub limits: Limits,
    pub config: Config,
}

/// Writes what share a configuration is of. Under the default limits none is named.
fn write_share(limited: &LimitedConfig, out: &mut Vec<u8>) -> io::Result<()> {
    let Config {
        share,
        label,
        guid,
        capacity,
        created,
    } = &limited.config;
    write!(out, "share={share} label=\"{label}\" guid=")?;
    write_hex(guid, out)?;
    write!(out, " capacity={capacity} created={created}")?;
    write_limits(limited.limits, out)
}

/// What a first line says of a share.
#[derive(Clone, Copy)]
struct ShareText<'a> {
    name: &'a str,
    label: &'a str,
    guid: [u8; 16],
    capacity: u64,
    created: u64,
    limits: Limits,
}

/// Reads what a share is.
fn read_share(text: &[u8]) -> Option<ShareText<'_>> {
    let (text, tail) = at_last(CREATED, text)?;
    let (created, limits) = up_to_blank(tail);
    let (text, capacity) = at_last(CAPACITY, text)?;
    let (text, digits) = at_last(GUID, text)?;
    let (text, label) = at_last(LABEL, text)?;
    let mut guid = [0u8; 16];
    hex::decode_to_slice(digits, &mut guid).ok()?;
    Some(ShareText {
        name: str::from_utf8(text.strip_prefix(b"share=")?).ok()?,
        label: str::from_utf8(label).ok()?,
        guid,
        capacity: number_of(capacity)?,
        created: number_of(created)?,
        limits: read_limits(limits)?,
    })
}

impl Header {
    /// The configuration of its share, with its limits.
    ///
    /// [`JournalFault::NoRecording`] where it can't be read, or [`JournalFault::NoMemory`].
    pub fn config(&self, alloc: Global) -> Result<LimitedConfig, JournalFault> {
        let Some(read) = read_share(&self.share) else {
            return Err(JournalFault::NoRecording);
        };
        let config = Config {
            share: String::from_str(alloc, read.name)?,
            label: String::from_str(alloc, read.label)?,
            guid: read.guid,
            capacity: read.capacity,
            created: read.created,
        };
        Ok(LimitedConfig {
            limits: read.limits,
            config,
        })
    }

    /// The first line of a recording of a share of this configuration.
    pub fn of(
        alloc: Global,
        limited: &LimitedConfig,
        signing_required: bool,
        hello: &[u8],
    ) -> Result<Header, JournalFault> {
        let mut share = Vec::new(alloc);
        write_share(limited, &mut share).map_err(JournalFault::of_write)?;
        Ok(Header {
            form: Form::Recording,
            share,
            signing_required,
            hello: Vec::from_slice(alloc, hello)?,
        })
    }

    /// Reads a line.
    ///
    /// [`JournalFault::NoRecording`] where it is none, or [`JournalFault::NoMemory`].
    pub fn read(alloc: Global, line: &[u8]) -> Result<Header, JournalFault> {
        let (form, text) = if let Some(text) = line.strip_prefix(RECORDING) {
            (Form::Recording, text)
        } else if let Some(text) = line.strip_prefix(JOURNAL) {
            (Form::Journal, text)
        } else {
            return Err(JournalFault::NoRecording);
        };
        let Some((share, digits)) = at_last(HELLO, text) else {
            return Err(JournalFault::NoRecording);
        };
        let Some(hello) = token_of(alloc, digits)? else {
            return Err(JournalFault::NoRecording);
        };
        let (share, signing_required) = match share.strip_suffix(SIGNING_REQUIRED) {
            Some(share) => (share, true),
            None => (share, false),
        };
        Ok(Header {
            form,
            share: Vec::from_slice(alloc, share)?,
            signing_required,
            hello,
        })
    }

    /// The line of a recording, with its line feed.
    pub fn line(&self, alloc: Global) -> Result<Vec<u8>, JournalFault> {
        let mut line = Vec::new(alloc);
        line.extend_from_slice(RECORDING)?;
        line.extend_from_slice(&self.share)?;
        if self.signing_required {
            line.extend_from_slice(SIGNING_REQUIRED)?;
        }
        line.extend_from_slice(HELLO)?;
        line.append(&mut hex::encode(alloc, &self.hello)?.into_bytes())?;
        line.push(b'\n')?;
        Ok(line)
    }
}
