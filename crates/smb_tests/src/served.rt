//! A share that is served over TCP, with its client in the same thread.

use super::serving::{Served, built_in};
use smb_layer_tests::words::{NEGOTIATE, NEGOTIATED, frames};
use smb_serving::serve;
use smb_tcp::{SystemClock, TcpPeers};
use std::alloc::Global;
use std::io;
use std::io::{Read, Write};
use std::net::{TcpListener, TcpStream};

/// Where the moment is in the frame that answers a NEGOTIATE.
const MOMENT_AT: usize = 108;

/// A client of a listener, which has sent a frame.
fn client_of(rt: &HostRuntime, listener: &TcpListener, frame: &[u8]) -> io::Result<TcpStream> {
    let mut client = TcpStream::connect(rt, listener.local_addr()?)?;
    client.write_all(frame)?;
    Ok(client)
}

/// Serves a share to the peers of a listener, and gives how often memory ran out.
fn serve_at(rt: &HostRuntime, share: &mut Served, listener: TcpListener) -> io::Result<u64> {
    let mut peers = TcpPeers::new(rt, rt.alloc(), listener)?;
    let mut clock = SystemClock::new(rt);
    Ok(serve(share, &mut peers, &mut clock, 100_000))
}

/// Serves a share to one client, which has sent a frame before, and gives the first bytes of what it is answered.
fn served(
    rt: &HostRuntime,
    share: &mut Served,
    frame: &[u8],
    answer: &mut [u8],
) -> io::Result<u64> {
    let listener = TcpListener::bind(rt, "127.0.0.1:0")?;
    let mut client = client_of(rt, &listener, frame)?;
    let ran_out = serve_at(rt, share, listener)?;
    client.read_exact(answer)?;
    Ok(ran_out)
}

/// What a client of a new share is answered that sends a NEGOTIATE, where memory did not run out.
fn answered(rt: &HostRuntime) -> Option<[u8; 132]> {
    let frame = frames(rt.alloc(), &[NEGOTIATE])?;
    let mut answer = [0u8; 132];
    let ran_out = match built_in(rt.alloc()) {
        Some(mut share) => served(rt, &mut share, &frame, &mut answer),
        None => return None,
    };
    match ran_out {
        Ok(0) => Some(answer),
        _ => None,
    }
}

/// Whether two answers to a NEGOTIATE are the same, but for the moment.
fn same_but_for_the_moment(alloc: Global, found: &[u8; 132]) -> bool {
    match frames(alloc, &[NEGOTIATED]) {
        Some(wanted) => {
            found.get(..MOMENT_AT) == wanted.get(..MOMENT_AT)
                && found.get(MOMENT_AT + 8..) == wanted.get(MOMENT_AT + 8..)
        }
        None => false,
    }
}

#[test]
fn answers_over_tcp(rt: HostRuntime) {
    let is_so = match answered(&rt) {
        Some(found) => same_but_for_the_moment(rt.alloc(), &found),
        None => false,
    };
    assert!(rt; is_so);
}
