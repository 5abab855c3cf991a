//! A request of each command, spelled by hand: what is written, and what is read behind a header.

use smb_body::{
    AdditionalInformation, Capabilities, Channel, CloseFlags, CloseRequest, CreateRequest,
    Dialects, FlushRequest, Guid, ImpersonationLevel, InfoType, InformationClass, LockList,
    LockRequest, LockSequence, NegotiateRequest, OplockLevel, QueryDirectoryRequest,
    QueryInfoFlags, QueryInfoRequest, ReadFlags, ReadRequest, Request, ReservedRequest,
    SecurityFlags, SecurityMode, SessionSecurityMode, SessionSetupFlags, SessionSetupRequest,
    SetInfoRequest, SmbCreateFlags, TreeConnectRequest, WriteFlags, WriteRequest, laws_of_requests,
    read_body, write_request,
};
use smb_wire::{
    Access, CreateDisposition, CreateOptions, FileAttributes, FileId, QueryDirectoryFlags,
    ShareAccess, Units,
};
use std::alloc::Global;

const FILE_ID: FileId = FileId {
    persistent: 1,
    volatile: 0x0807_0605_0403_0201,
};

/// Whether a request is written as this body.
fn is_written(alloc: Global, request: &Request<'_>, body: &[u8]) -> bool {
    let mut written = Vec::new(alloc);
    write_request(request, &mut written).is_ok() && written.as_slice() == body
}

/// A body behind 64 bytes.
fn behind_header(alloc: Global, body: &[u8]) -> Option<Vec<u8>> {
    let mut whole = vec![in alloc; 0u8; 64].ok()?;
    whole.extend_from_slice(body).ok()?;
    Some(whole)
}

/// Whether a body behind a header is read, and what was read is written as the body.
fn is_read(alloc: Global, command: u16, body: &[u8]) -> bool {
    let Some(whole) = behind_header(alloc, body) else {
        return false;
    };
    match read_body(command, &whole) {
        Ok(request) => is_written(alloc, &request, body),
        Err(_) => false,
    }
}

/// Whether a request is written as this body, and the body is read.
fn is_spelled(alloc: Global, command: u16, request: &Request<'_>, body: &[u8]) -> bool {
    is_written(alloc, request, body) && is_read(alloc, command, body)
}

/// NEGOTIATE.
const NEGOTIATE: [u8; 40] = [
    0x24, 0x00, 0x02, 0x00, 0x03, 0x00, 0x05, 0x06, 0x7f, 0x00, 0x00, 0x00, 0x00, 0x01, 0x02, 0x03,
    0x04, 0x05, 0x06, 0x07, 0x08, 0x09, 0x0a, 0x0b, 0x0c, 0x0d, 0x0e, 0x0f, 0x01, 0x02, 0x03, 0x04,
    0x05, 0x06, 0x07, 0x08, 0x02, 0x02, 0x10, 0x02,
];

/// SESSION_SETUP.
const SESSION_SETUP: [u8; 28] = [
    0x19, 0x00, 0x01, 0x02, 0x03, 0x00, 0x00, 0x00, 0x04, 0x00, 0x00, 0x00, 0x58, 0x00, 0x04, 0x00,
    0x01, 0x02, 0x03, 0x04, 0x05, 0x06, 0x07, 0x08, 0x61, 0x62, 0x63, 0x64,
];

/// TREE_CONNECT.
const TREE_CONNECT: [u8; 24] = [
    0x09, 0x00, 0x00, 0x00, 0x48, 0x00, 0x10, 0x00, 0x5c, 0x00, 0x5c, 0x00, 0x73, 0x00, 0x5c, 0x00,
    0x64, 0x00, 0x61, 0x00, 0x74, 0x00, 0x61, 0x00,
];

/// CREATE.
const CREATE: [u8; 72] = [
    0x39, 0x00, 0x01, 0x08, 0x02, 0x00, 0x00, 0x00, 0x03, 0x00, 0x00, 0x00, 0x00, 0x00, 0x00, 0x00,
    0x04, 0x00, 0x00, 0x00, 0x00, 0x00, 0x00, 0x00, 0xff, 0x01, 0x1f, 0x00, 0x80, 0x00, 0x00, 0x00,
    0x07, 0x00, 0x00, 0x00, 0x03, 0x00, 0x00, 0x00, 0x40, 0x00, 0x00, 0x00, 0x78, 0x00, 0x02, 0x00,
    0x80, 0x00, 0x00, 0x00, 0x08, 0x00, 0x00, 0x00, 0x61, 0x00, 0x00, 0x00, 0x00, 0x00, 0x00, 0x00,
    0x63, 0x6f, 0x6e, 0x74, 0x65, 0x78, 0x74, 0x73,
];

/// CLOSE.
const CLOSE: [u8; 24] = [
    0x18, 0x00, 0x01, 0x00, 0x02, 0x00, 0x00, 0x00, 0x01, 0x00, 0x00, 0x00, 0x00, 0x00, 0x00, 0x00,
    0x01, 0x02, 0x03, 0x04, 0x05, 0x06, 0x07, 0x08,
];

/// FLUSH.
const FLUSH: [u8; 24] = [
    0x18, 0x00, 0x01, 0x00, 0x02, 0x00, 0x00, 0x00, 0x01, 0x00, 0x00, 0x00, 0x00, 0x00, 0x00, 0x00,
    0x01, 0x02, 0x03, 0x04, 0x05, 0x06, 0x07, 0x08,
];

/// READ.
const READ: [u8; 48] = [
    0x31, 0x00, 0x50, 0x01, 0x00, 0x00, 0x01, 0x00, 0x01, 0x02, 0x03, 0x04, 0x05, 0x06, 0x07, 0x08,
    0x01, 0x00, 0x00, 0x00, 0x00, 0x00, 0x00, 0x00, 0x01, 0x02, 0x03, 0x04, 0x05, 0x06, 0x07, 0x08,
    0x02, 0x00, 0x00, 0x00, 0x03, 0x00, 0x00, 0x00, 0x04, 0x00, 0x00, 0x00, 0x05, 0x00, 0x06, 0x00,
];

/// WRITE.
const WRITE: [u8; 51] = [
    0x31, 0x00, 0x70, 0x00, 0x03, 0x00, 0x00, 0x00, 0x0e, 0x00, 0x00, 0x00, 0x00, 0x00, 0x00, 0x00,
    0x01, 0x00, 0x00, 0x00, 0x00, 0x00, 0x00, 0x00, 0x01, 0x02, 0x03, 0x04, 0x05, 0x06, 0x07, 0x08,
    0x01, 0x00, 0x00, 0x00, 0x02, 0x00, 0x00, 0x00, 0x03, 0x00, 0x04, 0x00, 0x05, 0x00, 0x00, 0x00,
    0x61, 0x62, 0x63,
];

/// LOCK, with two elements.
const LOCK: [u8; 72] = [
    0x30, 0x00, 0x02, 0x00, 0x01, 0x00, 0x00, 0x00, 0x01, 0x00, 0x00, 0x00, 0x00, 0x00, 0x00, 0x00,
    0x01, 0x02, 0x03, 0x04, 0x05, 0x06, 0x07, 0x08, 0x64, 0x00, 0x00, 0x00, 0x00, 0x00, 0x00, 0x00,
    0x0a, 0x00, 0x00, 0x00, 0x00, 0x00, 0x00, 0x00, 0x12, 0x00, 0x00, 0x00, 0x00, 0x00, 0x00, 0x00,
    0x69, 0x00, 0x00, 0x00, 0x00, 0x00, 0x00, 0x00, 0x01, 0x00, 0x00, 0x00, 0x00, 0x00, 0x00, 0x00,
    0x11, 0x00, 0x00, 0x00, 0x07, 0x00, 0x00, 0x00,
];

/// QUERY_DIRECTORY.
const QUERY_DIRECTORY: [u8; 34] = [
    0x21, 0x00, 0x25, 0x01, 0x02, 0x00, 0x00, 0x00, 0x01, 0x00, 0x00, 0x00, 0x00, 0x00, 0x00, 0x00,
    0x01, 0x02, 0x03, 0x04, 0x05, 0x06, 0x07, 0x08, 0x60, 0x00, 0x02, 0x00, 0x00, 0x00, 0x01, 0x00,
    0x2a, 0x00,
];

/// QUERY_INFO.
const QUERY_INFO: [u8; 40] = [
    0x29, 0x00, 0x01, 0x05, 0x18, 0x00, 0x00, 0x00, 0x01, 0x00, 0x02, 0x00, 0x03, 0x00, 0x00, 0x00,
    0x04, 0x00, 0x00, 0x00, 0x05, 0x00, 0x00, 0x00, 0x01, 0x00, 0x00, 0x00, 0x00, 0x00, 0x00, 0x00,
    0x01, 0x02, 0x03, 0x04, 0x05, 0x06, 0x07, 0x08,
];

/// SET_INFO.
const SET_INFO: [u8; 40] = [
    0x21, 0x00, 0x01, 0x14, 0x08, 0x00, 0x00, 0x00, 0x60, 0x00, 0x01, 0x00, 0x02, 0x00, 0x00, 0x00,
    0x01, 0x00, 0x00, 0x00, 0x00, 0x00, 0x00, 0x00, 0x01, 0x02, 0x03, 0x04, 0x05, 0x06, 0x07, 0x08,
    0x00, 0x10, 0x00, 0x00, 0x00, 0x00, 0x00, 0x00,
];

/// The request of `NEGOTIATE`.
fn negotiate() -> Option<Request<'static>> {
    let dialects = Dialects::of(b"\x02\x02\x10\x02")?;
    Some(Request::Negotiate(NegotiateRequest {
        security_mode: SecurityMode(3),
        reserved: 0x0605,
        capabilities: Capabilities(0x7f),
        client_guid: Guid([0, 1, 2, 3, 4, 5, 6, 7, 8, 9, 10, 11, 12, 13, 14, 15]),
        client_start_time: 0x0807_0605_0403_0201,
        dialects,
    }))
}

/// The request of `TREE_CONNECT`.
fn tree_connect() -> Option<Request<'static>> {
    let path = Units::of(b"\\\0\\\0s\0\\\0d\0a\0t\0a\0")?;
    Some(Request::TreeConnect(TreeConnectRequest {
        reserved: 0,
        path_offset: 72,
        path,
    }))
}

/// The request of `CREATE`.
fn create() -> Option<Request<'static>> {
    let name = Units::of(b"a\0")?;
    Some(Request::Create(CreateRequest {
        security_flags: SecurityFlags(1),
        requested_oplock_level: OplockLevel(8),
        impersonation_level: ImpersonationLevel(2),
        smb_create_flags: SmbCreateFlags(3),
        reserved: 4,
        desired_access: Access(0x001f_01ff),
        file_attributes: FileAttributes::NORMAL,
        share_access: ShareAccess(7),
        create_disposition: CreateDisposition::OpenIf.code(),
        create_options: CreateOptions(0x40),
        name_offset: 120,
        name,
        create_contexts_offset: 128,
        create_contexts: b"contexts",
    }))
}

/// The request of `LOCK`.
fn lock() -> Option<Request<'static>> {
    let locks = LockList::of(&LOCK[24..])?;
    Some(Request::Lock(LockRequest {
        lock_sequence: LockSequence(1),
        file_id: FILE_ID,
        locks,
    }))
}

/// The request of `QUERY_DIRECTORY`.
fn query_directory() -> Option<Request<'static>> {
    let file_name = Units::of(b"*\0")?;
    Some(Request::QueryDirectory(QueryDirectoryRequest {
        file_information_class: InformationClass(37),
        flags: QueryDirectoryFlags::RESTART_SCANS,
        file_index: 2,
        file_id: FILE_ID,
        file_name_offset: 96,
        file_name,
        output_buffer_length: 0x0001_0000,
    }))
}

/// Whether a request with a text or a list is made, and spelled so.
fn is_made(alloc: Global, command: u16, request: Option<Request<'_>>, body: &[u8]) -> bool {
    match request {
        Some(request) => is_spelled(alloc, command, &request, body),
        None => false,
    }
}

/// Whether each request with a text or a list is made, and spelled so.
fn are_made(alloc: Global) -> bool {
    is_made(alloc, 0, negotiate(), &NEGOTIATE)
        && is_made(alloc, 3, tree_connect(), &TREE_CONNECT)
        && is_made(alloc, 5, create(), &CREATE)
        && is_made(alloc, 0xa, lock(), &LOCK)
        && is_made(alloc, 0xe, query_directory(), &QUERY_DIRECTORY)
}

#[test]
fn requests_with_texts_and_lists(rt: HostRuntime) {
    assert!(rt; are_made(rt.alloc()));
    laws_of_requests();
}

/// Whether CLOSE, FLUSH and READ are spelled.
fn spells_close_flush_and_read(alloc: Global) -> bool {
    let close = Request::Close(CloseRequest {
        flags: CloseFlags::POSTQUERY_ATTRIB,
        reserved: 2,
        file_id: FILE_ID,
    });
    let flush = Request::Flush(FlushRequest {
        reserved1: 1,
        reserved2: 2,
        file_id: FILE_ID,
    });
    let read = Request::Read(ReadRequest {
        padding: 0x50,
        flags: ReadFlags(1),
        length: 0x0001_0000,
        offset: 0x0807_0605_0403_0201,
        file_id: FILE_ID,
        minimum_count: 2,
        channel: Channel(3),
        remaining_bytes: 4,
        read_channel_info_offset: 5,
        read_channel_info_length: 6,
    });
    is_spelled(alloc, 6, &close, &CLOSE)
        && is_spelled(alloc, 7, &flush, &FLUSH)
        && is_spelled(alloc, 8, &read, &READ)
}

/// Whether WRITE and SESSION_SETUP are.
fn spells_write_and_session_setup(alloc: Global) -> bool {
    let write = Request::Write(WriteRequest {
        data_offset: 112,
        buffer: b"abc",
        offset: 14,
        file_id: FILE_ID,
        channel: Channel(1),
        remaining_bytes: 2,
        write_channel_info_offset: 3,
        write_channel_info_length: 4,
        flags: WriteFlags(5),
    });
    let setup = Request::SessionSetup(SessionSetupRequest {
        flags: SessionSetupFlags(1),
        security_mode: SessionSecurityMode(2),
        capabilities: Capabilities(3),
        channel: Channel(4),
        security_buffer_offset: 88,
        security_buffer: b"abcd",
        previous_session_id: 0x0807_0605_0403_0201,
    });
    is_spelled(alloc, 9, &write, &WRITE) && is_spelled(alloc, 1, &setup, &SESSION_SETUP)
}

/// Whether QUERY_INFO and SET_INFO are.
fn spells_query_and_set_info(alloc: Global) -> bool {
    let query = Request::QueryInfo(QueryInfoRequest {
        info_type: InfoType::FILE,
        file_info_class: InformationClass(5),
        output_buffer_length: 24,
        input_buffer_offset: 1,
        reserved: 2,
        input_buffer_length: 3,
        additional_information: AdditionalInformation(4),
        flags: QueryInfoFlags(5),
        file_id: FILE_ID,
    });
    let set = Request::SetInfo(SetInfoRequest {
        info_type: InfoType::FILE,
        file_info_class: InformationClass(20),
        buffer: b"\0\x10\0\0\0\0\0\0",
        buffer_offset: 96,
        reserved: 1,
        additional_information: AdditionalInformation(2),
        file_id: FILE_ID,
    });
    is_spelled(alloc, 0x10, &query, &QUERY_INFO) && is_spelled(alloc, 0x11, &set, &SET_INFO)
}

/// Whether each request without fields is.
fn spells_reserved(alloc: Global) -> bool {
    let request = ReservedRequest { reserved: 0x1234 };
    let body = [4, 0, 0x34, 0x12];
    is_spelled(alloc, 2, &Request::Logoff(request), &body)
        && is_spelled(alloc, 4, &Request::TreeDisconnect(request), &body)
        && is_spelled(alloc, 0xc, &Request::Cancel(request), &body)
        && is_spelled(alloc, 0xd, &Request::Echo(request), &body)
}

#[test]
fn other_requests(rt: HostRuntime) {
    let alloc = rt.alloc();
    let are_spelled = spells_close_flush_and_read(alloc)
        && spells_write_and_session_setup(alloc)
        && spells_query_and_set_info(alloc)
        && spells_reserved(alloc);
    assert!(rt; are_spelled);
}
