//! A reply of each command, spelled by hand.

use smb_body::{
    Capabilities, CloseFlags, CloseResponse, CreateResponse, DialectRevision, Guid,
    NegotiateResponse, OplockLevel, QueryResponse, ReadResponse, Reply, SecurityMode, SessionFlags,
    SessionSetupResponse, ShareFlags, ShareType, TreeConnectResponse, WriteResponse, put_read_head,
    write_reply,
};
use smb_wire::{Access, CreateAction, FileAttributes, FileId};
use std::alloc::Global;

/// 1970, in 100 ns since 1601.
const M: u64 = 116_444_736_000_000_000;

/// Whether a reply is written as this body.
fn is_written(alloc: Global, reply: &Reply<'_>, body: &[u8]) -> bool {
    let mut written = Vec::new(alloc);
    write_reply(reply, &mut written).is_ok() && written.as_slice() == body
}

/// NEGOTIATE.
const NEGOTIATE: [u8; 64] = [
    0x41, 0x00, 0x01, 0x00, 0x02, 0x02, 0x00, 0x00, 0x00, 0x01, 0x02, 0x03, 0x04, 0x05, 0x06, 0x07,
    0x08, 0x09, 0x0a, 0x0b, 0x0c, 0x0d, 0x0e, 0x0f, 0x00, 0x00, 0x00, 0x00, 0x00, 0x00, 0x01, 0x00,
    0x00, 0x00, 0x01, 0x00, 0x00, 0x00, 0x01, 0x00, 0x00, 0x80, 0x3e, 0xd5, 0xde, 0xb1, 0x9d, 0x01,
    0x00, 0x00, 0x00, 0x00, 0x00, 0x00, 0x00, 0x00, 0x80, 0x00, 0x00, 0x00, 0x00, 0x00, 0x00, 0x00,
];

/// SESSION_SETUP.
const SESSION_SETUP: [u8; 10] = [0x09, 0x00, 0x01, 0x00, 0x48, 0x00, 0x02, 0x00, 0xaa, 0xbb];

/// TREE_CONNECT.
const TREE_CONNECT: [u8; 16] = [
    0x10, 0x00, 0x01, 0x00, 0x00, 0x00, 0x00, 0x00, 0x00, 0x00, 0x00, 0x00, 0xff, 0x01, 0x1f, 0x00,
];

/// CREATE.
const CREATE: [u8; 88] = [
    0x59, 0x00, 0x00, 0x00, 0x02, 0x00, 0x00, 0x00, 0x00, 0x80, 0x3e, 0xd5, 0xde, 0xb1, 0x9d, 0x01,
    0x01, 0x80, 0x3e, 0xd5, 0xde, 0xb1, 0x9d, 0x01, 0x02, 0x80, 0x3e, 0xd5, 0xde, 0xb1, 0x9d, 0x01,
    0x03, 0x80, 0x3e, 0xd5, 0xde, 0xb1, 0x9d, 0x01, 0x00, 0x10, 0x00, 0x00, 0x00, 0x00, 0x00, 0x00,
    0x03, 0x00, 0x00, 0x00, 0x00, 0x00, 0x00, 0x00, 0x20, 0x00, 0x00, 0x00, 0x00, 0x00, 0x00, 0x00,
    0x01, 0x00, 0x00, 0x00, 0x00, 0x00, 0x00, 0x00, 0x01, 0x02, 0x03, 0x04, 0x05, 0x06, 0x07, 0x08,
    0x00, 0x00, 0x00, 0x00, 0x00, 0x00, 0x00, 0x00,
];

/// CLOSE.
const CLOSE: [u8; 60] = [
    0x3c, 0x00, 0x01, 0x00, 0x00, 0x00, 0x00, 0x00, 0x00, 0x80, 0x3e, 0xd5, 0xde, 0xb1, 0x9d, 0x01,
    0x01, 0x80, 0x3e, 0xd5, 0xde, 0xb1, 0x9d, 0x01, 0x02, 0x80, 0x3e, 0xd5, 0xde, 0xb1, 0x9d, 0x01,
    0x03, 0x80, 0x3e, 0xd5, 0xde, 0xb1, 0x9d, 0x01, 0x00, 0x10, 0x00, 0x00, 0x00, 0x00, 0x00, 0x00,
    0x03, 0x00, 0x00, 0x00, 0x00, 0x00, 0x00, 0x00, 0x80, 0x00, 0x00, 0x00,
];

/// READ.
const READ: [u8; 19] = [
    0x11, 0x00, 0x50, 0x00, 0x03, 0x00, 0x00, 0x00, 0x00, 0x00, 0x00, 0x00, 0x00, 0x00, 0x00, 0x00,
    0x61, 0x62, 0x63,
];

/// WRITE.
const WRITE: [u8; 16] = [
    0x11, 0x00, 0x00, 0x00, 0x02, 0x00, 0x00, 0x00, 0x00, 0x00, 0x00, 0x00, 0x00, 0x00, 0x00, 0x00,
];

/// QUERY_DIRECTORY.
const QUERY_DIRECTORY: [u8; 12] = [
    0x09, 0x00, 0x48, 0x00, 0x04, 0x00, 0x00, 0x00, 0x61, 0x62, 0x63, 0x64,
];

/// QUERY_INFO.
const QUERY_INFO: [u8; 8] = [0x09, 0x00, 0x48, 0x00, 0x00, 0x00, 0x00, 0x00];

/// A reply, and the body that it is written as.
type Row = (Reply<'static>, &'static [u8]);

/// A reply of each kind.
static REPLIES: [Row; 16] = [
    (
        Reply::Negotiate(NegotiateResponse {
            security_mode: SecurityMode(1),
            dialect_revision: DialectRevision(0x0202),
            server_guid: Guid([0, 1, 2, 3, 4, 5, 6, 7, 8, 9, 10, 11, 12, 13, 14, 15]),
            capabilities: Capabilities(0),
            max_transact_size: 65_536,
            max_read_size: 65_536,
            max_write_size: 65_536,
            system_time: M,
            server_start_time: 0,
            security_buffer: &[],
        }),
        &NEGOTIATE,
    ),
    (
        Reply::SessionSetup(SessionSetupResponse {
            session_flags: SessionFlags::IS_GUEST,
            security_buffer: b"\xaa\xbb",
        }),
        &SESSION_SETUP,
    ),
    (
        Reply::TreeConnect(TreeConnectResponse {
            share_type: ShareType::DISK,
            share_flags: ShareFlags(0),
            capabilities: Capabilities(0),
            maximal_access: Access(0x001f_01ff),
        }),
        &TREE_CONNECT,
    ),
    (Reply::Error, &[9, 0, 0, 0, 0, 0, 0, 0, 0]),
    (
        Reply::Create(CreateResponse {
            oplock_level: OplockLevel::NONE,
            create_action: CreateAction::Created,
            creation_time: M,
            last_access_time: M + 1,
            last_write_time: M + 2,
            change_time: M + 3,
            allocation_size: 4_096,
            end_of_file: 3,
            file_attributes: FileAttributes::ARCHIVE,
            file_id: FileId {
                persistent: 1,
                volatile: 0x0807_0605_0403_0201,
            },
        }),
        &CREATE,
    ),
    (
        Reply::Close(CloseResponse {
            flags: CloseFlags::POSTQUERY_ATTRIB,
            creation_time: M,
            last_access_time: M + 1,
            last_write_time: M + 2,
            change_time: M + 3,
            allocation_size: 4_096,
            end_of_file: 3,
            file_attributes: FileAttributes::NORMAL,
        }),
        &CLOSE,
    ),
    (Reply::Read(ReadResponse { buffer: b"abc" }), &READ),
    (Reply::Write(WriteResponse { count: 2 }), &WRITE),
    (
        Reply::QueryDirectory(QueryResponse {
            output_buffer: b"abcd",
        }),
        &QUERY_DIRECTORY,
    ),
    (
        Reply::QueryInfo(QueryResponse { output_buffer: &[] }),
        &QUERY_INFO,
    ),
    (Reply::Logoff, &[4, 0, 0, 0]),
    (Reply::TreeDisconnect, &[4, 0, 0, 0]),
    (Reply::Flush, &[4, 0, 0, 0]),
    (Reply::Lock, &[4, 0, 0, 0]),
    (Reply::Echo, &[4, 0, 0, 0]),
    (Reply::SetInfo, &[2, 0]),
];

/// The place of the first reply that is not written as its body.
fn written_otherwise(alloc: Global) -> Option<usize> {
    for (place, (reply, body)) in REPLIES.iter().enumerate() {
        if !is_written(alloc, reply, body) {
            return Some(place);
        }
    }
    None
}

#[test]
fn replies(rt: HostRuntime) {
    assert_eq!(rt; written_otherwise(rt.alloc()), None);
}

/// What a READ's fixed part and its data are, written one behind the other.
fn read_in_parts(alloc: Global) -> Option<Vec<u8>> {
    let mut written = Vec::new(alloc);
    put_read_head(3, &mut written).ok()?;
    written.extend_from_slice(b"abc").ok()?;
    Some(written)
}

#[test]
fn a_read_head_stands_before_its_data(rt: HostRuntime) {
    let is_same = match read_in_parts(rt.alloc()) {
        Some(written) => written.as_slice() == READ.as_slice(),
        None => false,
    };
    assert!(rt; is_same);
}
