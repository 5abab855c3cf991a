//! The command `serve`: a share to clients over TCP.

use crate::clock::ServeClock;
use crate::filling::serve_folder;
use crate::heard_login::HeardLogin;
use crate::host_peers::HostPeers;
use crate::logging::TcpFacts;
use crate::served_journal::{say_not_read, serve_journal, serve_journal_folder};
use crate::served_peers::ServedPeers;
use crate::served_record::{serve_recorded, serve_recorded_folder};
use crate::sight::Sight;
use crate::status_door::{StatusWords, status_listener};
use mio::net::TcpListener;
use smb_command_line::{Login, NtlmWords, Texts};
use smb_command_parts::{
    Entrance, Fault, LogWords, SERVED_SIGNING, Severity, StandardError, hosts_of, ntlm_of,
    read_accounts, say, say_notices,
};
use smb_config::Configuration;
use smb_engine::{Authenticator, Opens, Share, Tree};
use smb_journal::{Form, LimitedConfig};
use smb_kept::{JournalWords, KeepWords, KeptFault, share_of};
use smb_peers::{Clock, Peers, Stopping, Usage};
use smb_reason::Reason;
use smb_replay::{CommandFault, ListenFault, check_unsigned};
use smb_serving::{Watcher, serve_until_watched};
use smb_sharing::Said;
use smb_tcp::{MOST_LISTENERS, TcpPeers};
use smb_wire::limits::Limits;
use std::alloc::{AllocError, Global};
use std::io::ErrorKind;
use std::net::SocketAddr;
use std::time::Duration;
use std::{io, net};

/// How many milliseconds a turn waits at most where no client has anything to say; and with a status, which is looked
/// at behind each turn.
const LONGEST_WAIT: u64 = 1_000;

const LONGEST_WAIT_WITH_STATUS: u64 = 100;

/// What the words of the command say.
#[derive(Clone, Copy)]
pub struct ServeWords<'a> {
    /// The texts of the files that they name.
    pub texts: &'a Texts,
    pub login: Login,
    /// IP addresses with a port.
    pub listen: &'a [&'a str],
    /// Who may connect, IP addresses and networks apart by commas; everyone where there is none.
    pub hosts: Option<&'a str>,
    /// How many clients of one address may be connected, where that is limited.
    pub per_address: Option<u64>,
    pub turns: u64,
    /// After how many seconds a connection ends that says nothing and takes nothing; 0: after none.
    pub idle_seconds: u64,
    /// After how many seconds a connection ends that was never answered; 0: after none.
    pub unanswered_seconds: u64,
    /// How many bytes all connections together may be owed.
    pub most_owed: u64,
    /// Where the share is recorded, if it is.
    pub record: Option<KeepWords<'a>>,
    /// Where its files are kept, if they are.
    pub journal: Option<JournalWords<'a>>,
    /// The folder whose files a new share begins with.
    pub from: Option<&'a str>,
    /// Whether what of it can't be in the share is left out.
    pub skips: bool,
    /// The moment of the first piece, for tests.
    pub clock: Option<u64>,
    /// Where the share is logged, if it is.
    pub log: Option<LogWords<'a>>,
    /// Where its status is answered, if it is.
    pub status: Option<StatusWords<'a>>,
    /// What is known of the connections of its clients.
    pub facts: &'a TcpFacts,
    /// What is said of a folder that is shared, once it listens.
    pub said: Option<&'a Said>,
}

/// What is served, and how.
#[derive(Clone, Copy)]
pub struct Serving<'a, 'w> {
    pub rt: &'a HostRuntime,
    pub words: &'w ServeWords<'a>,
    pub entrance: Entrance,
    /// The limits of the share.
    pub limits: Limits,
}

/// Why a call of the system failed that makes a listener or its peers.
pub fn fault_of(error: io::Error) -> CommandFault {
    match error.kind() {
        ErrorKind::OutOfMemory => CommandFault::NoMemory,
        kind => CommandFault::ListenFailed(ListenFault::from(kind)),
    }
}

/// A listener at an address.
fn listen(rt: &HostRuntime, address: &str) -> Result<net::TcpListener, CommandFault> {
    let Ok(address) = address.parse::<SocketAddr>() else {
        return Err(CommandFault::ListenFailed(ListenFault::NotAnAddress));
    };
    match TcpListener::bind(rt, address) {
        Ok(listener) => Ok(net::TcpListener::from(listener)),
        Err(error) => Err(fault_of(error)),
    }
}

/// A listener at each of these addresses, of which there are 16 at most. A fault names the address that it is of.
fn listen_all(rt: &HostRuntime, addresses: &[&str]) -> Result<Vec<net::TcpListener>, Fault> {
    if addresses.len() > MOST_LISTENERS {
        return Err(Fault::TooManyAddresses);
    }
    let mut listeners = Vec::new(rt.alloc());
    for address in addresses {
        match listen(rt, address) {
            Ok(listener) => listeners.push(listener).map_err(AllocError::from)?,
            Err(fault) => return Err(Fault::from(fault).of_address(rt.alloc(), address)),
        }
    }
    Ok(listeners)
}

/// Says on standard error where listeners are, with the port that the system gave for port 0, and of a folder what is
/// shared there: at the first address that other machines reach, or the first one.
fn announce(rt: &HostRuntime, listeners: &[net::TcpListener], said: Option<&Said>) {
    let mut shown: Option<SocketAddr> = None;
    for listener in listeners {
        let Ok(address) = listener.local_addr() else {
            continue;
        };
        say(
            rt,
            Severity::Informational,
            format_args!("listening on {address}"),
        );
        shown = Some(match shown {
            Some(shown) if address.ip().is_loopback() || !shown.ip().is_loopback() => shown,
            _ => address,
        });
    }
    if let (Some(said), Some(address)) = (said, shown) {
        let mut errors = StandardError::new(rt, Severity::Informational);
        let _ = said.write(address, &mut errors);
    }
}

/// Listeners at the addresses of the words, once the share is ready. Standard error has a line for each address, and
/// each reason why somebody can't log in.
fn begin_to_listen(
    rt: &HostRuntime,
    words: &ServeWords<'_>,
    entrance: Entrance,
) -> Result<Vec<net::TcpListener>, Fault> {
    let listeners = listen_all(rt, words.listen)?;
    announce(rt, &listeners, words.said);
    say_notices(rt, words.texts, words.login, entrance);
    Ok(listeners)
}

/// The peers of listeners, as many as there may be connections.
fn waiting_peers<'a>(
    rt: &'a HostRuntime,
    wait: Duration,
    connections: u64,
    listeners: Vec<net::TcpListener>,
) -> io::Result<TcpPeers<'a, HostRuntime>> {
    let mut listeners = listeners.into_iter();
    let Some(first) = listeners.next() else {
        return Err(io::Error::from(ErrorKind::InvalidInput));
    };
    let mut peers = TcpPeers::waiting_within(rt, rt.alloc(), first, wait, connections as usize)?;
    for listener in listeners {
        peers = peers.with_listener(listener)?;
    }
    Ok(peers)
}

/// The peers of listeners, as many as there may be connections, with the limits that the words say. Wrong passwords are
/// slowed down, but by a clock for tests.
fn peers_of<'a>(
    rt: &'a HostRuntime,
    words: &ServeWords<'a>,
    connections: u64,
    listeners: Vec<net::TcpListener>,
) -> Result<TcpPeers<'a, HostRuntime>, Fault> {
    let wait = Duration::from_millis(match words.status {
        Some(_) => LONGEST_WAIT_WITH_STATUS,
        None => LONGEST_WAIT,
    });
    let mut peers = match waiting_peers(rt, wait, connections, listeners) {
        Ok(peers) => peers,
        Err(error) => return Err(Fault::from(fault_of(error))),
    };
    if let Some(networks) = hosts_of(rt.alloc(), words.hosts)? {
        peers = peers.with_networks(networks);
    }
    if let Some(limit) = words.per_address {
        peers = peers.with_address_limit(limit as usize);
    }
    if words.idle_seconds > 0 {
        peers = peers.with_idle_limit(Duration::from_secs(words.idle_seconds));
    }
    if words.unanswered_seconds > 0 {
        peers = peers.with_unanswered_limit(Duration::from_secs(words.unanswered_seconds));
    }
    peers = peers.with_owed_limit(words.most_owed as usize);
    if words.log.is_some() || words.status.is_some() {
        peers = peers.with_facts(&words.facts.peers);
    }
    if words.clock.is_none() {
        peers = peers.with_login_delay(&words.facts.logins)?;
    }
    Ok(peers)
}

/// The peers of a share whose next connection has the number `next`, once it listens: all of them are logged, where
/// there is a log, and noted, where there is a status.
pub fn listening_peers<'l, 'a: 'l>(
    rt: &'a HostRuntime,
    words: &ServeWords<'a>,
    entrance: Entrance,
    sight: &'l Sight<'a>,
    next: u64,
) -> Result<ServedPeers<'l, 'a>, Fault> {
    let listeners = begin_to_listen(rt, words, entrance)?;
    let peers = peers_of(rt, words, entrance.connections, listeners)?;
    let sync = match words.journal {
        Some(journal) if journal.settles => Some(&words.facts.sync),
        _ => None,
    };
    Ok(sight.peers(rt, words, HostPeers::new(peers, sync), next))
}

/// What came of serving, once all is said of it that is logged: also that its file, a journal or a record, can't be
/// written, where it can't.
pub fn end_of(
    alloc: Global,
    peers: ServedPeers<'_, '_>,
    usage: Usage,
    file: &str,
    failure: Option<Reason>,
) -> Result<(), Fault> {
    let mut logged = peers.finish();
    if let Some(reason) = failure
        && let Ok(event) = format!(in alloc; "failed: the {file} can't be written: {reason}")
    {
        logged.note(event.as_str());
    }
    let is_logged = logged.finish(usage);
    match failure {
        Some(reason) => Err(Fault::Kept(KeptFault::RecordFailed(reason))),
        None if is_logged => Ok(()),
        None => Err(Fault::LogFailed),
    }
}

/// Serves a share to peers for as many turns as the words say. It is seen meanwhile as they ask for.
pub fn serve_seen<
    'a,
    A: Authenticator + Drop,
    T: Tree + Drop,
    O: Opens + Drop,
    P: Peers + Stopping,
    C: Clock,
>(
    serving: Serving<'a, '_>,
    share: &mut Share<A, T, O>,
    peers: &mut P,
    clock: &mut C,
    sight: &Sight<'a>,
) -> Result<(), Fault> {
    let mut door = sight.door(serving.rt, serving.words)?;
    serve_watched(serving, share, peers, clock, sight, &mut door);
    Ok(())
}

/// The same, and a watcher looks at the share behind each turn.
pub fn serve_watched<
    'a,
    A: Authenticator + Drop,
    T: Tree + Drop,
    O: Opens + Drop,
    P: Peers + Stopping,
    C: Clock,
    L: Watcher<A, T, O>,
>(
    serving: Serving<'a, '_>,
    share: &mut Share<A, T, O>,
    peers: &mut P,
    clock: &mut C,
    sight: &Sight<'a>,
    watcher: &mut L,
) {
    let Serving { rt, words, .. } = serving;
    let mut observer = sight.observer(rt, words);
    let _ = serve_until_watched(share, peers, clock, words.turns, &mut observer, watcher);
}

/// Serves a share whose next connection has the number `next`, for as many turns as the words say.
pub fn serve_peers<A: Authenticator + Drop, T: Tree + Drop, O: Opens + Drop>(
    serving: Serving<'_, '_>,
    share: &mut Share<A, T, O>,
    clock: &mut ServeClock<'_>,
    next: u64,
) -> Result<(), Fault> {
    let Serving {
        rt,
        words,
        entrance,
        ..
    } = serving;
    let sight = Sight::of(serving)?;
    match listening_peers(rt, words, entrance, &sight, next) {
        Ok(mut peers) => {
            serve_seen(serving, share, &mut peers, clock, &sight)?;
            end_of(rt.alloc(), peers, share.usage(), "", None)
        }
        Err(fault) => Err(fault),
    }
}

/// Serves a share of which nothing is kept, and which no connection came to yet.
fn serve_unkept<A: Authenticator + Drop, T: Tree + Drop, O: Opens + Drop>(
    serving: Serving<'_, '_>,
    mut share: Share<A, T, O>,
) -> Result<(), Fault> {
    let mut clock = ServeClock::new(serving.rt, serving.words.clock);
    serve_peers(serving, &mut share, &mut clock, 1)
}

/// Serves a new share of which nothing is kept.
fn serve_new<A: Authenticator + Drop>(
    serving: Serving<'_, '_>,
    limited: LimitedConfig,
    authenticator: A,
) -> Result<(), Fault> {
    match share_of(serving.rt.alloc(), limited, authenticator) {
        Ok(share) => serve_unkept(serving, share),
        Err(fault) => Err(Fault::Kept(fault)),
    }
}

/// Serves a share. Who may connect is looked at, and whether it can listen tried, before anything is made.
fn serve_by<A: Authenticator + Drop>(
    rt: &HostRuntime,
    words: &ServeWords<'_>,
    entrance: Entrance,
    limited: LimitedConfig,
    authenticator: A,
) -> Result<(), Fault> {
    let serving = Serving {
        rt,
        words,
        entrance,
        limits: limited.limits,
    };
    drop(hosts_of(rt.alloc(), words.hosts)?);
    drop(listen_all(rt, words.listen)?);
    if let Some(status) = words.status {
        drop(status_listener(rt, status)?);
    }
    let authenticator = HeardLogin::new(authenticator, &words.facts.logins);
    match (words.journal, words.record, words.from) {
        (Some(journal), _, Some(folder)) if !journal.has_bytes(rt)? => {
            serve_journal_folder(serving, journal, folder, limited, authenticator)
        }
        (Some(journal), _, folder) => {
            if let Some(folder) = folder {
                say_not_read(rt, folder, journal);
            }
            serve_journal(serving, journal, limited, authenticator)
        }
        (None, Some(record), Some(folder)) => {
            serve_recorded_folder(serving, record, folder, limited, authenticator)
        }
        (None, Some(record), None) => serve_recorded(serving, record, limited, authenticator),
        (None, None, Some(folder)) => serve_folder(serving, folder, limited, authenticator),
        (None, None, None) => serve_new(serving, limited, authenticator),
    }
}

/// Serves a share to which clients log in by tokens.
fn serve_by_token(
    rt: &HostRuntime,
    words: &ServeWords<'_>,
    entrance: Entrance,
    configuration: Configuration,
) -> Result<(), Fault> {
    check_unsigned(&configuration)?;
    let Configuration {
        limits,
        config,
        authenticator,
        ..
    } = configuration;
    let limited = LimitedConfig { limits, config };
    serve_by(rt, words, entrance, limited, authenticator)
}

/// Serves a share to which clients log in by NTLM.
fn serve_by_ntlm(
    rt: &HostRuntime,
    words: &ServeWords<'_>,
    mut entrance: Entrance,
    configuration: Configuration,
    ntlm_words: NtlmWords,
) -> Result<(), Fault> {
    let alloc = rt.alloc();
    let accounts = read_accounts(alloc, words.texts.accounts())?;
    entrance.accounts = accounts.list.len();
    let ntlm = ntlm_of(alloc, &configuration, accounts, ntlm_words, SERVED_SIGNING)?;
    entrance.requires_signing = ntlm.requires_signing();
    let Configuration { limits, config, .. } = configuration;
    serve_by(rt, words, entrance, LimitedConfig { limits, config }, ntlm)
}

/// Serves a share of a configuration, for so many turns.
fn serve_configured(rt: &HostRuntime, words: &ServeWords<'_>) -> Result<(), Fault> {
    let configuration = Configuration::read(rt.alloc(), words.texts.config.as_str())?;
    let entrance = Entrance::of(&configuration, 0);
    match words.login {
        Login::Token => serve_by_token(rt, words, entrance, configuration),
        Login::Ntlm(ntlm_words) => serve_by_ntlm(rt, words, entrance, configuration, ntlm_words),
    }
}

/// Serves a share of a configuration, for so many turns. A fault of the file that it is kept in has the file's name.
pub fn serve_share(rt: &HostRuntime, words: &ServeWords<'_>) -> Result<(), Fault> {
    match (serve_configured(rt, words), words.journal, words.record) {
        (Err(fault), Some(journal), _) => Err(fault.of_journal(rt.alloc(), journal.path)),
        (Err(fault), None, Some(record)) => {
            Err(fault.of_file(rt.alloc(), Form::Recording, record.path))
        }
        (served, _, _) => served,
    }
}
