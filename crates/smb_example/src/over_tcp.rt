//! A share that is served over TCP, and to which clients log in by NTLM.

use smb_engine::{Config, FILETIME_OF_1970, HandleTable, NodeTree, Share};
use smb_ntlm::{Account, Ntlm, account_fault, nt_hash_of};
use smb_serving::serve;
use smb_tcp::{SystemClock, TcpPeers};
use std::alloc::Global;
use std::net::TcpListener;
use std::time::Duration;

/// Lets in ann by her password, and guests, who may only read. The seed has to be random, and another one in each run.
fn login(alloc: Global, seed: [u8; 16]) -> anyhow::Result<Ntlm> {
    let ann = Account {
        name: Vec::from_slice(alloc, b"ann")?,
        nt_hash: nt_hash_of(alloc, "Password")?,
        read_only: false,
    };
    let accounts = vec![in alloc; ann]?;
    match account_fault(&accounts) {
        None => Ok(Ntlm::new(alloc, seed, accounts, true, true)?),
        Some(fault) => Err(anyhow::Error::from(fault)),
    }
}

/// A share `data` of 1 MiB.
fn new_share(alloc: Global, login: Ntlm) -> anyhow::Result<Share<Ntlm, NodeTree, HandleTable>> {
    let config = Config {
        share: String::from_str(alloc, "data")?,
        label: String::from_str(alloc, "DATA")?,
        guid: [0; 16],
        capacity: 1_048_576,
        created: FILETIME_OF_1970,
    };
    Ok(Share::in_memory(alloc, config, login)?)
}

/// Serves a share at a free port for a number of turns, each of which waits a millisecond for clients.
pub(crate) fn run(rt: &HostRuntime, turns: u64) -> anyhow::Result<()> {
    let alloc = rt.alloc();
    let listener = TcpListener::bind(rt, "127.0.0.1:0")?;
    let mut peers = TcpPeers::waiting(rt, alloc, listener, Duration::from_millis(1))?;
    let mut share = new_share(alloc, login(alloc, [7; 16])?)?;
    serve(&mut share, &mut peers, &mut SystemClock::new(rt), turns);
    println!(rt; "served for {turns} turns")?;
    Ok(())
}
