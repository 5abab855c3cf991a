//! Requests of several credits. One client calls by names, and its requests take as many MessageIds as are due; the other
//! sends bytes over memory: READs for its whole window in one piece, or for more bytes than it may be owed.

ghost use Rattle.std.specs.Prelude.{IfSome, IsTrue};
ghost use Rattle.smb_serving.specs.MemoryPeers.{are_distinct, opened_by};

use super::reads::{OPENING, byte_at};
use super::serving::serves_anew;
use super::talk::{Talk, comes_in, is_told, logs_in, made, new_pair};
use smb_client::{
    AdditionalInformation, Capabilities, Client, ClientFault, Dialects, Guid, InfoType,
    InformationClass, NegotiateRequest, Replies, Reply, Request, SecurityMode, SetInfoRequest,
};
use smb_layer_tests::words::{MOMENT, frames};
use smb_serving::{MemoryPeers, PeerStep, taken_from};
use smb_wire::{FileId, NtStatus};
use std::alloc::Global;

/// How many bytes a READ asks for at most, and how many MessageIds it takes then.
const LENGTH: u32 = 524_288;

const CHARGE: u16 = 8;

/// The MessageId of the first READ, how many READs a window allows, and to how many a client would be owed too much.
const FIRST: u64 = 12;

const AT_ONCE: usize = 32;

const TOO_MANY: usize = 64;

/// A NEGOTIATE of dialect 2.1 that asks for 256 credits.
const NEGOTIATE: &str = "00000066 fe534d42 4000 z8 0001 z48 2400 0100 0100 z30 1002";

/// The front of a WRITE of 524,288 bytes, and a READ of as many, both from the first byte on, with CreditCharge 8.
const WRITE: &str =
    "00080070 fe534d42 4000 0800 z4 0900 0800 z8 0400000000000000 z4 01000000 0100000000000000 z16 3100 7000 00000800 z8 01000000000000000100000000000000 z16";

const READ: &str =
    "00000070 fe534d42 4000 0800 z4 0800 0800 z8 z8 z4 01000000 0100000000000000 z16 3100 z2 00000800 z8 01000000000000000100000000000000 z16";

/// The first bytes of a file.
fn bytes_of(alloc: Global, length: u32) -> Option<Vec<u8>> {
    let mut bytes = Vec::new(alloc);
    for offset in 0..length as usize {
        bytes.push(byte_at(offset)).ok()?;
    }
    Some(bytes)
}

/// The requests before the READs.
fn opening(alloc: Global) -> Option<Vec<u8>> {
    let mut bytes = frames(alloc, &[NEGOTIATE])?;
    bytes.extend_from_slice(&frames(alloc, &OPENING)?).ok()?;
    bytes.extend_from_slice(&frames(alloc, &[WRITE])?).ok()?;
    bytes.extend_from_slice(&bytes_of(alloc, LENGTH)?).ok()?;
    Some(bytes)
}

/// So many READs, one behind the other.
fn reads(alloc: Global, count: usize) -> Option<Vec<u8>> {
    let one = frames(alloc, &[READ])?;
    let (front, rest) = one.split_at_checked(28)?;
    let (_, back) = rest.split_at_checked(8)?;
    let mut bytes = Vec::new(alloc);
    let mut id = FIRST;
    for _ in 0..count {
        bytes.extend_from_slice(front).ok()?;
        bytes.extend_from_slice(&id.to_le_bytes()).ok()?;
        bytes.extend_from_slice(back).ok()?;
        id = id.saturating_add(u64::from(CHARGE));
    }
    Some(bytes)
}

/// A client opens, sends what opens a file in one piece and so many READs in another, and says nothing more.
fn script(alloc: Global, count: usize) -> Option<Vec<PeerStep>>
    ensures { IfSome result (λ script. IsTrue (are_distinct (opened_by script.items))) }
{
    let opening = opening(alloc)?;
    let reads = reads(alloc, count)?;
    let script = vec![in alloc;
        PeerStep::Opened(1),
        PeerStep::Bytes(1, opening),
        PeerStep::Bytes(1, reads),
    ];
    script.ok()
}

/// That client.
fn client(alloc: Global, count: usize) -> Option<MemoryPeers> {
    let script = script(alloc, count)?;
    MemoryPeers::new(alloc, script, Vec::new(alloc), 100, 17_000_000).ok()
}

/// Whether a reply to a READ took so many MessageIds from this one on, and brings these bytes.
fn is_read(reply: &Reply<'_>, id: u64, charge: u16, data: &[u8]) -> bool {
    reply.header.status == NtStatus::Success.code()
        && reply.header.message_id == id
        && reply.header.credit_charge == charge
        && reply.data() == Some(data)
}

/// Whether five replies are before so many to the READs, and nothing behind these.
fn are_read(heard: &[u8], count: usize, file: &[u8]) -> bool {
    let mut replies = Replies::of(heard);
    for _ in 0..5 {
        if replies.next_reply().is_none() {
            return false;
        }
    }
    let mut id = FIRST;
    for _ in 0..count {
        match replies.next_reply() {
            Some(reply) if is_read(&reply, id, CHARGE, file) => {}
            _ => return false,
        }
        id = id.saturating_add(u64::from(CHARGE));
    }
    replies.next_reply().is_none()
}

/// Whether the client took five replies and so many to the READs.
fn took_reads(alloc: Global, peers: &MemoryPeers, count: usize, file: &[u8]) -> bool {
    match taken_from(alloc, peers, 1) {
        Ok(heard) => are_read(&heard, count, file),
        Err(_) => false,
    }
}

/// What a client met: how often it was closed, and how many READs were answered.
#[derive(Clone, Copy)]
struct Met {
    closed: u64,
    count: usize,
}

/// Whether the client meets this of a new share.
fn meets(alloc: Global, peers: &mut MemoryPeers, met: Met, file: &[u8]) -> bool {
    serves_anew(alloc, peers, MOMENT, 8)
        && peers.closed(1) == met.closed
        && took_reads(alloc, peers, met.count, file)
}

/// Whether one with so many READs does.
fn meets_by(alloc: Global, count: usize, met: Met, file: &[u8]) -> bool {
    match client(alloc, count) {
        Some(mut peers) => meets(alloc, &mut peers, met, file),
        None => false,
    }
}

#[test]
fn reads_a_whole_window_by_eight_credits(rt: HostRuntime) {
    let met = Met {
        closed: 0,
        count: AT_ONCE,
    };
    let is_so = match bytes_of(rt.alloc(), LENGTH) {
        Some(file) => meets_by(rt.alloc(), AT_ONCE, met, &file),
        None => false,
    };
    assert!(rt; is_so);
}

#[test]
fn ends_one_that_is_owed_too_much(rt: HostRuntime) {
    let met = Met {
        closed: 1,
        count: 0,
    };
    assert!(rt; meets_by(rt.alloc(), TOO_MANY, met, &[]));
}

/// A READ, and the CreditCharge, the status and the data of the response that it must get.
#[derive(Clone, Copy)]
struct Wanted<'a> {
    offset: u64,
    length: u32,
    charge: u16,
    status: NtStatus,
    data: &'a [u8],
}

/// Whether the response to a READ has the CreditCharge, the status and the data that are wanted. Where `data` is empty, any
/// data will do.
fn reads_so(pair: &mut Talk, client: &mut Client, file_id: FileId, wanted: Wanted<'_>) -> bool {
    if client.read(file_id, wanted.offset, wanted.length).is_err() {
        return false;
    }
    match pair.exchange(client) {
        Ok(mut replies) => match replies.next_reply() {
            Some(reply) => {
                reply.header.credit_charge == wanted.charge
                    && reply.header.status == wanted.status.code()
                    && (wanted.data.is_empty() || reply.data() == Some(wanted.data))
            }
            None => false,
        },
        Err(_) => false,
    }
}

/// Whether what a client asked for is answered with a status, and took so many MessageIds.
fn is_met(
    pair: &mut Talk,
    client: &mut Client,
    asked: Result<(), ClientFault>,
    charge: u16,
    status: NtStatus,
) -> bool {
    if asked.is_err() {
        return false;
    }
    match pair.exchange(client) {
        Ok(mut replies) => match replies.next_reply() {
            Some(reply) => {
                reply.header.credit_charge == charge && reply.header.status == status.code()
            }
            None => false,
        },
        Err(_) => false,
    }
}

/// Whether a WRITE has a greatest length, and a SET_INFO of the size none but what is due.
fn writes_by_what_is_due(pair: &mut Talk, client: &mut Client, bytes: &[u8]) -> bool {
    let Some(file_id) = made(pair, client, "draft.txt") else {
        return false;
    };
    let most = bytes.get(..524_288).unwrap_or(&[]);
    let asked = client.write(file_id, 0, most);
    if !is_met(pair, client, asked, CHARGE, NtStatus::Success) {
        return false;
    }
    let one_more = bytes.get(..524_289).unwrap_or(&[]);
    let asked = client.write(file_id, 0, one_more);
    if !is_met(pair, client, asked, 9, NtStatus::InvalidParameter) {
        return false;
    }
    let asked = client.ask(&Request::SetInfo(SetInfoRequest {
        info_type: InfoType(1),
        file_info_class: InformationClass(20),
        buffer: bytes,
        buffer_offset: 0,
        reserved: 0,
        additional_information: AdditionalInformation(0),
        file_id,
    }));
    is_met(pair, client, asked, 10, NtStatus::Success)
}

/// Whether a client of dialect 2.1 writes and reads 131,073 bytes by three credits, and goes on by more than a window has.
fn reads_by_what_is_due(pair: &mut Talk, client: &mut Client, file: &[u8]) -> bool {
    let Some(file_id) = made(pair, client, "plan.txt") else {
        return false;
    };
    let asked = client.write(file_id, 0, file);
    if !is_told(pair, client, asked) {
        return false;
    }
    let whole = Wanted {
        offset: 0,
        length: 131_073,
        charge: 3,
        status: NtStatus::Success,
        data: file,
    };
    let last = Wanted {
        offset: 131_072,
        length: LENGTH,
        charge: CHARGE,
        data: file.get(131_072..).unwrap_or(&[]),
        ..whole
    };
    let mut are_so = reads_so(pair, client, file_id, whole);
    for _ in 0..40 {
        are_so = are_so && reads_so(pair, client, file_id, last);
    }
    are_so
}

/// Whether a client of dialect 2.0.2 writes and reads 65,536 bytes by one MessageId each, and is refused one more.
fn reads_by_one(pair: &mut Talk, client: &mut Client, file: &[u8]) -> bool {
    let Some(file_id) = made(pair, client, "plan.txt") else {
        return false;
    };
    let asked = client.write(file_id, 0, file);
    if !is_told(pair, client, asked) {
        return false;
    }
    let whole = Wanted {
        offset: 0,
        length: 65_536,
        charge: 0,
        status: NtStatus::Success,
        data: file,
    };
    let longer = Wanted {
        length: 65_537,
        status: NtStatus::InvalidParameter,
        data: &[],
        ..whole
    };
    reads_so(pair, client, file_id, whole)
        && reads_so(pair, client, file_id, longer)
        && reads_so(pair, client, file_id, whole)
}

/// Whether a client agrees on dialect 2.0.2.
fn agrees_on_2_0_2(pair: &mut Talk, client: &mut Client) -> bool {
    let Some(dialects) = Dialects::of(&[0x02, 0x02]) else {
        return false;
    };
    let asked = client.ask(&Request::Negotiate(NegotiateRequest {
        security_mode: SecurityMode(1),
        reserved: 0,
        capabilities: Capabilities(0),
        client_guid: Guid([0; 16]),
        client_start_time: 0,
        dialects,
    }));
    is_told(pair, client, asked)
}

/// What a client of a new share does.
#[derive(Clone, Copy)]
enum Way {
    /// It reads by what is due, in dialect 2.1.
    ByWhatIsDue,
    /// It writes as much as it may, in dialect 2.1.
    AsMuchAsItMay,
    /// It reads by one MessageId each, in dialect 2.0.2.
    ByOne,
}

/// Whether a client is answered as it should be that does so with these bytes.
fn is_answered(pair: &mut Talk, client: &mut Client, way: Way, bytes: &[u8]) -> bool {
    match way {
        Way::ByWhatIsDue => comes_in(pair, client) && reads_by_what_is_due(pair, client, bytes),
        Way::AsMuchAsItMay => comes_in(pair, client) && writes_by_what_is_due(pair, client, bytes),
        Way::ByOne => {
            agrees_on_2_0_2(pair, client)
                && logs_in(pair, client)
                && reads_by_one(pair, client, bytes)
        }
    }
}

/// Whether a new client of a share is.
fn talks_so(pair: &mut Talk, way: Way, bytes: &[u8]) -> bool {
    match pair.connect() {
        Ok(mut client) => is_answered(pair, &mut client, way, bytes),
        Err(_) => false,
    }
}

/// Whether a client of a new share is.
fn is_answered_anew(alloc: Global, way: Way, bytes: &[u8]) -> bool {
    match new_pair(alloc) {
        Some(mut pair) => talks_so(&mut pair, way, bytes),
        None => false,
    }
}

#[test]
fn a_client_takes_what_is_due(rt: HostRuntime) {
    let is_so = match bytes_of(rt.alloc(), 131_073) {
        Some(file) => is_answered_anew(rt.alloc(), Way::ByWhatIsDue, &file),
        None => false,
    };
    assert!(rt; is_so);
}

#[test]
fn a_write_has_a_greatest_length(rt: HostRuntime) {
    let is_so = match vec![in rt.alloc(); 0u8; 589_825] {
        Ok(bytes) => is_answered_anew(rt.alloc(), Way::AsMuchAsItMay, &bytes),
        Err(_) => false,
    };
    assert!(rt; is_so);
}

#[test]
fn a_client_of_dialect_2_0_2_takes_one(rt: HostRuntime) {
    let is_so = match bytes_of(rt.alloc(), 65_536) {
        Some(file) => is_answered_anew(rt.alloc(), Way::ByOne, &file),
        None => false,
    };
    assert!(rt; is_so);
}
