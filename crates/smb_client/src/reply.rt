//! What a share answers.

use super::status::Status;
use smb_head::{Header, read_header};
use smb_wire::{Command, Dialect, FileId, u16_at, u32_at, u64_at};

/// A reply: its header, and its bytes from the header's first on.
#[derive(Clone, Copy, Debug)]
pub struct Reply<'a> {
    pub header: Header,
    pub bytes: &'a [u8],
}

impl<'a> Reply<'a> {
    /// The command that it answers; None of a code that is no command's.
    pub fn command(&self) -> Option<Command> {
        self.header.command.known()
    }

    /// How the request ended.
    pub fn status(&self) -> Status {
        Status(self.header.status)
    }

    /// The dialect that a response to a NEGOTIATE names ([MS-SMB2] 2.2.4); None where its DialectRevision is neither 0x0202
    /// nor 0x0210 (0x02FF in the response to an SMB_COM_NEGOTIATE, say).
    pub fn dialect(&self) -> Option<Dialect> {
        let revision = u16_at(self.bytes, 68)?;
        if revision == Dialect::Smb210.revision() {
            Some(Dialect::Smb210)
        } else if revision == Dialect::Smb202.revision() {
            Some(Dialect::Smb202)
        } else {
            None
        }
    }

    /// The FileId that stands in the response to a CREATE ([MS-SMB2] 2.2.14), where it is long enough.
    pub fn file_id(&self) -> Option<FileId> {
        Some(FileId {
            persistent: u64_at(self.bytes, 128)?,
            volatile: u64_at(self.bytes, 136)?,
        })
    }

    /// The bytes that the response to a READ, a QUERY_INFO or a QUERY_DIRECTORY brings ([MS-SMB2] 2.2.20, 2.2.38, 2.2.34): they
    /// stand where its first two numbers say.
    pub fn data(&self) -> Option<&'a [u8]> {
        let offset = u16_at(self.bytes, 66)? as usize;
        let length = u32_at(self.bytes, 68)? as usize;
        self.bytes.get(offset..offset + length)
    }
}

/// The replies that stand in frames, one behind the other. It ends where bytes are no frame or no reply.
#[derive(Clone, Copy, Debug)]
pub struct Replies<'a> {
    payload: &'a [u8],
    frames: &'a [u8],
}

/// The payload of the first frame, and the frames behind it, where a whole one does.
fn first_frame(frames: &[u8]) -> Option<(&[u8], &[u8])> {
    match frames {
        [0, high, middle, low, rest @ ..] => {
            let length = 65_536 * *high as usize + 256 * *middle as usize + *low as usize;
            rest.split_at_checked(length)
        }
        _ => None,
    }
}

impl<'a> Replies<'a> {
    /// The replies in these frames.
    pub fn of(frames: &'a [u8]) -> Replies<'a> {
        Replies {
            payload: &[],
            frames,
        }
    }

    /// The next reply.
    pub fn next_reply(&mut self) -> Option<Reply<'a>> {
        if self.payload.is_empty() {
            let (payload, frames) = first_frame(self.frames)?;
            self.payload = payload;
            self.frames = frames;
        }
        let header = read_header(self.payload).ok()?;
        let next = header.next_command as usize;
        let end = if next == 0 { self.payload.len() } else { next };
        let (bytes, others) = self.payload.split_at_checked(end)?;
        self.payload = others;
        Some(Reply { header, bytes })
    }
}
