//! What a log says that no replay brings about: ends of all kinds, users of all names, moments, a write that fails,
//! and peers.

use smb_engine::{Config, HandleTable, NodeTree, Share, Tokens, User};
use smb_log::{ConnectionFacts, Ending, KeptOut, Level, Log, LogObserver, LoggedPeers};
use smb_log_text::{put_moment, put_user};
use smb_peers::{ListClock, Usage};
use smb_serving::{MemoryPeers, PeerStep, SendStep, serve_until_observed};
use std::alloc::{AllocError, Global};
use std::cell::RefCell;
use std::io;
use std::io::{Error, ErrorKind, Write};

/// The moment of each event: 2025-12-08 06:11:07.123.
const NOW: u64 = 134_096_478_671_230_000;

/// The text of a log.
fn text_of(log: Log<Vec<u8>>) -> Option<String> {
    String::from_utf8(log.into_writer()).ok()
}

/// Whether a text is another.
fn is_same(text: Option<String>, wanted: &str) -> bool {
    text.is_some_and(|text| text.as_str() == wanted)
}

/// How much a share holds that has a session with two opens.
const USAGE: Usage = Usage {
    entries: 3,
    used: 4_096,
    sessions: 1,
    opens: 2,
};

/// The log of connections that end in each way.
fn endings(alloc: Global) -> Option<String> {
    let mut log = Log::new(alloc, Vec::new(alloc), Level::Sessions, NOW);
    for connection in 1..4u64 {
        log.opened(connection, "");
    }
    log.ran_out(3);
    log.end(1, Ending::Owed);
    log.end(2, Ending::Silence);
    log.end(3, Ending::ByShare);
    log.end(3, Ending::ByClient);
    log.refused("192.0.2.8:1");
    log.minute(USAGE, false);
    log.minute(USAGE, true);
    text_of(log)
}

/// The lines of ends, of a refusal and of a minute.
#[test]
fn shows_ends(rt: HostRuntime) {
    let is_right = is_same(
        endings(rt.alloc()),
        "moment\tconnection\tpeer\tuser\tevent\tstatus\tmicroseconds\n\
         2025-12-08 06:11:07.123\t1\t-\t-\topened\t-\t-\n\
         2025-12-08 06:11:07.123\t2\t-\t-\topened\t-\t-\n\
         2025-12-08 06:11:07.123\t3\t-\t-\topened\t-\t-\n\
         2025-12-08 06:11:07.123\t1\t-\t-\tended: owed more than 33,554,432 bytes\t-\t-\n\
         2025-12-08 06:11:07.123\t2\t-\t-\tended: silence\t-\t-\n\
         2025-12-08 06:11:07.123\t3\t-\t-\tended: memory\t-\t-\n\
         2025-12-08 06:11:07.123\t-\t192.0.2.8:1\t-\trefused: memory\t-\t-\n\
         2025-12-08 06:11:07.123\t-\t-\t-\tminute connections=0 sessions=1 opens=2 requests=0 bytes_in=0 bytes_out=0 out_of_memory=2\t-\t-\n\
         2025-12-08 06:11:07.123\t-\t-\t-\tminute connections=0 sessions=1 opens=2 requests=0 bytes_in=0 bytes_out=0 out_of_memory=0 files=3 used_bytes=4096\t-\t-\n",
    );
    assert!(rt; is_right);
}

/// How users are shown, apart by line feeds.
fn users(alloc: Global) -> Option<String> {
    let mut text = String::new(alloc);
    let names: [&[u8]; 4] = [b"guest\x0017", b"a\tb\\c\xff", b"a\tb\\c", b""];
    for name in names {
        put_user(name, &mut text).ok()?;
        text.push_str("\n").ok()?;
    }
    Some(text)
}

/// Users are shown as text, guests without their numbers.
#[test]
fn shows_users(rt: HostRuntime) {
    let is_right = is_same(
        users(rt.alloc()),
        "guest\na\\u{9}b\\u{5C}c\u{FFFD}\na\\u{9}b\\u{5C}c\n-\n",
    );
    assert!(rt; is_right);
}

/// Moments as dates, one a line.
fn dates(alloc: Global) -> Option<String> {
    let mut text = String::new(alloc);
    for moment in [
        0,
        94_405_824_000_000_000,
        125_911_583_999_990_000,
        125_962_560_000_000_000,
        126_227_376_000_000_000,
        133_800_768_000_000_000,
        157_520_160_000_000_000,
    ] {
        put_moment(moment, &mut text).ok()?;
        text.push_str("\n").ok()?;
    }
    Some(text)
}

/// Centuries without a leap day, with one, and ends of years.
#[test]
fn shows_dates(rt: HostRuntime) {
    let is_right = is_same(
        dates(rt.alloc()),
        "1601-01-01 00:00:00.000\n\
         1900-03-01 00:00:00.000\n\
         1999-12-31 23:59:59.999\n\
         2000-02-29 00:00:00.000\n\
         2000-12-31 12:00:00.000\n\
         2024-12-31 00:00:00.000\n\
         2100-03-01 00:00:00.000\n",
    );
    assert!(rt; is_right);
}

/// A writer that takes one write, and then fails.
#[derive(Drop)]
struct Full {
    has_room: bool,
}

impl Write for Full {
    fn write(&mut self, bytes: &[u8]) -> io::Result<usize> {
        if !self.has_room {
            return Err(Error::from(ErrorKind::StorageFull));
        }
        self.has_room = false;
        Ok(bytes.len())
    }

    fn flush(&mut self) -> io::Result<()> {
        Ok(())
    }
}

/// A write that fails is noted.
#[test]
fn notes_a_failed_write(rt: HostRuntime) {
    let mut log = Log::new(rt.alloc(), Full { has_room: true }, Level::Requests, NOW);
    let before = log.has_failed();
    log.opened(1, "");
    assert!(rt; !before && log.has_failed());
}

/// A NEGOTIATE of dialect 2.0.2 and a SESSION_SETUP with the token 61, in their frames.
const ASKED: &[u8] = b"\0\0\0f\xFESMB@\0\0\0\0\0\0\0\0\0\x1F\0\0\0\0\0\0\0\0\0\0\0\0\0\0\0\0\0\0\0\
    \0\0\0\0\0\0\0\0\0\0\0\0\0\0\0\0\0\0\0\0\0\0\0\0\0\0\0\0\0\0$\0\x01\0\x01\0\
    \0\0\0\0\0\0\0\0\0\0\0\0\0\0\0\0\0\0\0\0\0\0\0\0\0\0\0\0\0\0\x02\x02\
    \0\0\0Y\xFESMB@\0\0\0\0\0\0\0\x01\0\x01\0\0\0\0\0\0\0\0\0\x01\0\0\0\0\0\0\0\
    \0\0\0\0\0\0\0\0\0\0\0\0\0\0\0\0\0\0\0\0\0\0\0\0\0\0\0\0\0\0\0\0\x19\0\0\x01\
    \0\0\0\0\0\0\0\0X\0\x01\0\0\0\0\0\0\0\0\0a";

/// A share `data` of 1 MiB.
fn config(alloc: Global) -> Result<Config, AllocError> {
    Ok(Config {
        share: String::from_str(alloc, "data")?,
        label: String::from_str(alloc, "DATA")?,
        guid: [0; 16],
        capacity: 1_048_576,
        created: NOW,
    })
}

/// The user ann, whose token is 61.
fn ann(alloc: Global) -> Result<Tokens, AllocError> {
    let ann = User {
        name: Vec::from_slice(alloc, b"ann")?,
        token: Vec::from_slice(alloc, b"a")?,
        read_only: false,
    };
    Tokens::new(alloc, b"", false, false, vec![in alloc; ann]?)
}

/// A share of which all is logged.
type LoggedShare = Share<Tokens, NodeTree, HandleTable>;

/// A share which ann may use.
fn new_share(alloc: Global) -> Option<LoggedShare> {
    match (config(alloc), ann(alloc)) {
        (Ok(config), Ok(users)) => Share::in_memory(alloc, config, users).ok(),
        _ => None,
    }
}

/// Peers that bring this client, and take the first bytes for it in two parts.
fn client(alloc: Global) -> Result<MemoryPeers, AllocError> {
    let asked = PeerStep::Bytes(1, Vec::from_slice(alloc, ASKED)?);
    let script = vec![in alloc;
        PeerStep::Opened(1),
        asked,
        PeerStep::Idle,
        PeerStep::Ended(1),
    ]?;
    let sends = vec![in alloc; SendStep::Takes(70)]?;
    MemoryPeers::new(alloc, script, sends, 16, 4_096)
}

/// Nothing is known of any connection.
struct NoFacts;

impl ConnectionFacts for NoFacts {
    fn put_address(&self, _number: u64, _text: &mut String) -> Result<(), AllocError> {
        Ok(())
    }

    fn ending(&self, _number: u64) -> Ending {
        Ending::ByClient
    }

    fn take_kept_out(&self, _address: &mut String) -> Option<KeptOut> {
        None
    }
}

/// The clocks of what is served: of the events, of the share, and of who looks on.
#[derive(Drop)]
struct Clocks {
    events: ListClock,
    share: ListClock,
    observer: ListClock,
}

/// Clocks of which the first has these moments, and then the last of them.
fn clocks_of(alloc: Global, moments: &[u64]) -> Result<Clocks, AllocError> {
    Ok(Clocks {
        events: ListClock::new(alloc, moments)?,
        share: ListClock::new(alloc, &[NOW])?,
        observer: ListClock::new(alloc, &[NOW + 520])?,
    })
}

/// Serves a share to this client, of which all is logged.
fn serve_by(
    alloc: Global,
    share: &mut LoggedShare,
    log: &RefCell<Log<Vec<u8>>>,
    client: MemoryPeers,
    clocks: Clocks,
) {
    let mut peers = LoggedPeers::new(alloc, client, &NoFacts, clocks.events, Some(log), false, 1);
    let mut clock = clocks.share;
    let mut observer = LogObserver::new(Some(log), clocks.observer);
    let _ = serve_until_observed(share, &mut peers, &mut clock, 5, &mut observer);
    let _ = peers.finish(share.usage());
}

/// Serves a share to this client: the events at these moments, and the rest at the last of them. Says whether there
/// was memory.
fn serve_logged(
    alloc: Global,
    share: &mut LoggedShare,
    log: &RefCell<Log<Vec<u8>>>,
    moments: &[u64],
) -> bool {
    match (client(alloc), clocks_of(alloc, moments)) {
        (Ok(client), Ok(clocks)) => {
            serve_by(alloc, share, log, client, clocks);
            true
        }
        _ => false,
    }
}

/// Serves this client a new share so.
fn serve_anew(alloc: Global, log: &RefCell<Log<Vec<u8>>>, moments: &[u64]) -> bool {
    match new_share(alloc) {
        Some(mut share) => serve_logged(alloc, &mut share, log, moments),
        None => false,
    }
}

/// The log of the share that this client is served, whose events have these moments.
fn served(alloc: Global, level: Level, moments: &[u64]) -> Option<String> {
    let log = RefCell::new(Log::new(alloc, Vec::new(alloc), level, 0));
    if serve_anew(alloc, &log, moments) {
        text_of(log.into_inner())
    } else {
        None
    }
}

/// What a share does is what its log says.
#[test]
fn logs_a_served_share(rt: HostRuntime) {
    let is_right = is_same(
        served(rt.alloc(), Level::Requests, &[NOW]),
        "moment\tconnection\tpeer\tuser\tevent\tstatus\tmicroseconds\n\
         2025-12-08 06:11:07.123\t1\t-\t-\topened\t-\t-\n\
         2025-12-08 06:11:07.123\t1\t-\t-\tNEGOTIATE 2.0.2\tSTATUS_SUCCESS\t52\n\
         2025-12-08 06:11:07.123\t1\t-\tann\tSESSION_SETUP\tSTATUS_SUCCESS\t52\n\
         2025-12-08 06:11:07.123\t1\t-\tann\tended: by the client\t-\t-\n\
         2025-12-08 06:11:07.123\t-\t-\t-\tminute connections=0 sessions=0 opens=0 requests=2 bytes_in=199 bytes_out=208 out_of_memory=0 files=0 used_bytes=0\t-\t-\n\
         2025-12-08 06:11:07.123\t-\t-\t-\tstopped\t-\t-\n",
    );
    assert!(rt; is_right);
}

/// Where a minute has passed, a line says what there is, and what happened since the last; a minute after `NOW` is
/// 06:12:07.123.
#[test]
fn counts_each_minute(rt: HostRuntime) {
    let is_right = is_same(
        served(rt.alloc(), Level::Refusals, &[NOW, NOW + 600_000_000]),
        "moment\tconnection\tpeer\tuser\tevent\tstatus\tmicroseconds\n\
         2025-12-08 06:11:07.123\t1\t-\t-\topened\t-\t-\n\
         2025-12-08 06:11:07.123\t1\t-\tann\tSESSION_SETUP\tSTATUS_SUCCESS\t0\n\
         2025-12-08 06:12:07.123\t-\t-\t-\tminute connections=1 sessions=1 opens=0 requests=2 bytes_in=199 bytes_out=70 out_of_memory=0 files=0 used_bytes=0\t-\t-\n\
         2025-12-08 06:12:07.123\t1\t-\tann\tended: by the client\t-\t-\n\
         2025-12-08 06:12:07.123\t-\t-\t-\tminute connections=0 sessions=0 opens=0 requests=0 bytes_in=0 bytes_out=138 out_of_memory=0 files=0 used_bytes=0\t-\t-\n\
         2025-12-08 06:12:07.123\t-\t-\t-\tstopped\t-\t-\n",
    );
    assert!(rt; is_right);
}
