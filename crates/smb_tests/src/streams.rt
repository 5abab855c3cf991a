//! Many streams of one listener.

use smb_peers::{PeerEvent, Peers};
use smb_tcp::TcpPeers;
use std::alloc::Global;
use std::io;
use std::io::Write;
use std::net::{SocketAddr, TcpListener, TcpStream};
use std::time::Duration;

/// For how many connections the listener is made, and how many clients come.
const CONNECTIONS: usize = 120;

const CLIENTS: usize = 100;

/// The most calls of `next` that a test takes.
const MOST_CALLS: usize = 10_000;

/// What the peers of a listener brought.
#[derive(Drop)]
struct Brought {
    /// The numbers of the connections that were opened, in the order of the events.
    opened: Vec<u64>,
    /// The numbers of those of which bytes came, and of those that ended.
    heard: Vec<u64>,
    ended: Vec<u64>,
}

impl Brought {
    /// Notes an event. One for which there is no memory is passed over, and missed by who looks for it.
    fn note(&mut self, event: PeerEvent) {
        let _ = match event {
            PeerEvent::Opened(number) => self.opened.push(number),
            PeerEvent::Bytes(number) => self.heard.push(number),
            PeerEvent::Ended(number) => self.ended.push(number),
            PeerEvent::Idle => Ok(()),
        };
    }
}

/// Notes events, up to so many of them of which each brings something.
fn take_events<P: Peers>(alloc: Global, peers: &mut P, events: usize) -> Brought {
    let mut brought = Brought {
        opened: Vec::new(alloc),
        heard: Vec::new(alloc),
        ended: Vec::new(alloc),
    };
    let mut count = 0usize;
    for _ in 0..MOST_CALLS {
        if count == events {
            break;
        }
        let event = peers.next();
        if event != PeerEvent::Idle {
            brought.note(event);
            count = count.saturating_add(1);
        }
    }
    brought
}

/// Whether these numbers begin with 1, rise by this step, and are as many as `count`.
fn rise_by(numbers: &[u64], step: u64, count: usize) -> bool {
    let mut next = 1u64;
    for number in numbers {
        if *number != next {
            return false;
        }
        next = next.saturating_add(step);
    }
    numbers.len() == count
}

/// So many clients that come one after the other, or fewer where one of them can't.
fn clients_of(rt: &HostRuntime, address: SocketAddr, count: usize) -> Vec<TcpStream> {
    let mut clients = Vec::new(rt.alloc());
    for _ in 0..count {
        if let Ok(client) = TcpStream::connect(rt, address) {
            let _ = clients.push(client);
        }
    }
    clients
}

/// Whether each is opened once, in rising number.
fn are_opened<P: Peers>(alloc: Global, peers: &mut P) -> bool {
    rise_by(&take_events(alloc, peers, CLIENTS).opened, 1, CLIENTS)
}

/// Has each client send a byte, the last one first, and says whether all could.
fn send_backwards(clients: &mut [TcpStream]) -> bool {
    let mut are_sent = true;
    for client in clients.iter_mut().rev() {
        are_sent = are_sent && client.write_all(&[1]).is_ok();
    }
    are_sent
}

/// Whether bytes of each come once, in rising number.
fn are_heard<P: Peers>(alloc: Global, peers: &mut P) -> bool {
    rise_by(&take_events(alloc, peers, CLIENTS).heard, 1, CLIENTS)
}

/// Has every second client go, from the first on, and gives those that stay.
fn staying_of(alloc: Global, clients: Vec<TcpStream>) -> Vec<TcpStream> {
    let mut staying = Vec::new(alloc);
    for (place, client) in clients.into_iter().enumerate() {
        if place % 2 == 1 {
            let _ = staying.push(client);
        }
    }
    staying
}

/// Whether every second one has ended, once and in rising number. Closes those.
fn have_ended<P: Peers>(alloc: Global, peers: &mut P) -> bool {
    let going = take_events(alloc, peers, CLIENTS / 2);
    for number in going.ended.iter() {
        peers.close(*number);
    }
    rise_by(&going.ended, 2, CLIENTS / 2)
}

/// Whether another client gets the next number.
fn brings_another<P: Peers>(rt: &HostRuntime, peers: &mut P, address: SocketAddr) -> bool {
    match TcpStream::connect(rt, address) {
        Ok(_another) => {
            let later = take_events(rt.alloc(), peers, 1);
            later.opened.first() == Some(&(CLIENTS as u64 + 1))
        }
        Err(_) => false,
    }
}

/// Whether every second one of these clients goes, and another one comes.
fn go_and_another_comes<P: Peers>(
    rt: &HostRuntime,
    peers: &mut P,
    address: SocketAddr,
    clients: Vec<TcpStream>,
) -> bool {
    let staying = staying_of(rt.alloc(), clients);
    staying.len() == CLIENTS / 2
        && have_ended(rt.alloc(), peers)
        && brings_another(rt, peers, address)
}

/// Whether these clients, which came one after the other, are opened and send, each once and in rising number.
fn come_and_send<P: Peers>(alloc: Global, peers: &mut P, clients: &mut [TcpStream]) -> bool {
    clients.len() == CLIENTS
        && are_opened(alloc, peers)
        && send_backwards(clients)
        && are_heard(alloc, peers)
}

/// Has clients come one after the other, send a byte each, the last one first, and every second one of them go. Tells
/// whether each is opened, heard and ended once, in rising number, and whether another one gets the next number.
fn brings_in_turn<P: Peers>(rt: &HostRuntime, peers: &mut P, address: SocketAddr) -> bool {
    let mut clients = clients_of(rt, address, CLIENTS);
    let come = come_and_send(rt.alloc(), peers, &mut clients);
    let go = go_and_another_comes(rt, peers, address, clients);
    come && go
}

/// Whether the peers of a listener bring them so.
fn are_brought_in_turn(rt: &HostRuntime) -> io::Result<bool> {
    let listener = TcpListener::bind(rt, "127.0.0.1:0")?;
    let address = listener.local_addr()?;
    let wait = Duration::from_millis(10);
    let mut peers = TcpPeers::waiting_within(rt, rt.alloc(), listener, wait, CONNECTIONS)?;
    Ok(brings_in_turn(rt, &mut peers, address))
}

#[test]
fn many_streams_are_brought_in_turn(rt: HostRuntime) {
    let is_so = matches!(are_brought_in_turn(&rt), Ok(true));
    assert!(rt; is_so);
}

/// How many bytes three clients may be owed together, and how many each is sent.
const MOST_OWED: usize = 24_000_000;

const SENT: [usize; 3] = [10_000_000, 16_000_000, 12_000_000];

/// Sends a client this number of bytes, and says whether there was memory for them.
fn sends<P: Peers>(alloc: Global, peers: &mut P, number: u64, count: usize) -> bool {
    match Vec::from_elem(alloc, 0u8, count) {
        Ok(bytes) => {
            let _ = peers.send(number, &bytes);
            true
        }
        Err(_) => false,
    }
}

/// Sends to the three clients that were opened, and says whether there are three, and there was memory.
fn sends_to_three<P: Peers>(alloc: Global, peers: &mut P) -> bool {
    let coming = take_events(alloc, peers, SENT.len());
    let mut are_sent = coming.opened.len() == SENT.len();
    for (number, count) in coming.opened.iter().zip(SENT.iter()) {
        are_sent = are_sent && sends(alloc, peers, *number, *count);
    }
    are_sent
}

/// Whether the second client has ended, and no other one.
fn ends_the_second<P: Peers>(peers: &mut P) -> bool {
    let first = peers.next();
    peers.close(2);
    first == PeerEvent::Ended(2) && peers.next() == PeerEvent::Idle
}

/// Sends to three clients that take nothing, and returns whether the one that is owed most has ended, and no other one.
fn ends_who_is_owed_most<P: Peers>(rt: &HostRuntime, peers: &mut P, address: SocketAddr) -> bool {
    let clients = clients_of(rt, address, SENT.len());
    clients.len() == SENT.len() && sends_to_three(rt.alloc(), peers) && ends_the_second(peers)
}

/// Whether the peers of a listener end that client.
fn the_most_owed_ends(rt: &HostRuntime) -> io::Result<bool> {
    let listener = TcpListener::bind(rt, "127.0.0.1:0")?;
    let address = listener.local_addr()?;
    let wait = Duration::from_millis(10);
    let mut peers = TcpPeers::waiting(rt, rt.alloc(), listener, wait)?.with_owed_limit(MOST_OWED);
    Ok(ends_who_is_owed_most(rt, &mut peers, address))
}

#[test]
fn who_is_owed_most_ends_where_all_are_owed_too_much(rt: HostRuntime) {
    let has_ended = matches!(the_most_owed_ends(&rt), Ok(true));
    assert!(rt; has_ended);
}
