//! The share of both parts, and how a reply is printed.

use smb_client::Reply;
use smb_engine::{Config, FILETIME_OF_1970, HandleTable, NodeTree, Share, Tokens, User};
use std::alloc::Global;
use std::io;

/// A share `data` of 1 MiB, which ann may use.
pub(crate) fn new_share(alloc: Global) -> anyhow::Result<Share<Tokens, NodeTree, HandleTable>> {
    let config = Config {
        share: String::from_str(alloc, "data")?,
        label: String::from_str(alloc, "DATA")?,
        guid: [0; 16],
        capacity: 1_048_576,
        created: FILETIME_OF_1970,
    };
    let ann = User {
        name: Vec::from_slice(alloc, b"ann")?,
        token: Vec::from_slice(alloc, b"secret")?,
        read_only: false,
    };
    let users = Tokens::new(alloc, b"", false, false, vec![in alloc; ann]?)?;
    Ok(Share::in_memory(alloc, config, users)?)
}

/// Prints what a client was answered: the command and the status.
pub(crate) fn print_reply(rt: &impl Print, client: u64, reply: &Reply<'_>) -> io::Result<()> {
    let status = reply.status();
    match reply.command() {
        Some(command) => println!(rt; "client {client}: {command:?}, {status}"),
        None => println!(rt; "client {client}: no command, {status}"),
    }
}
