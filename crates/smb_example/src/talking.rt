//! A share and two clients that talk to it, each request answered before the next. The first keeps a file for itself: as long as it
//! has it open, the other one is kept out.

use super::share::{new_share, print_reply};
use anyhow::Context;
use smb_client::{Client, CreateDisposition, FileId, Reply};
use smb_engine::{FILETIME_OF_1970, HandleTable, NodeTree, Tokens};
use smb_pair::Pair;

type Talk = Pair<Tokens, NodeTree, HandleTable>;

/// Sends what a client has asked for, and prints and gives the reply.
fn reply_to<'a>(
    rt: &impl Print,
    pair: &'a mut Talk,
    client: &mut Client,
) -> anyhow::Result<Reply<'a>> {
    let mut replies = pair.exchange(client)?;
    let reply = replies.next_reply().context("no reply")?;
    print_reply(rt, client.number(), &reply)?;
    Ok(reply)
}

/// A client comes in: it negotiates, sets up a session and connects to the share.
fn come_in(rt: &impl Print, pair: &mut Talk, client: &mut Client) -> anyhow::Result<()> {
    client.negotiate()?;
    reply_to(rt, pair, client)?;
    client.session_setup(b"secret")?;
    reply_to(rt, pair, client)?;
    client.tree_connect(r"\\server\data")?;
    reply_to(rt, pair, client)?;
    Ok(())
}

/// A client opens the file for itself alone. None where it is refused.
fn open(
    rt: &impl Print,
    pair: &mut Talk,
    client: &mut Client,
    disposition: CreateDisposition,
) -> anyhow::Result<Option<FileId>> {
    client.create("plan.txt", disposition)?;
    Ok(reply_to(rt, pair, client)?.file_id())
}

/// A client closes the file.
fn close(
    rt: &impl Print,
    pair: &mut Talk,
    client: &mut Client,
    file_id: FileId,
) -> anyhow::Result<()> {
    client.close(file_id)?;
    reply_to(rt, pair, client)?;
    Ok(())
}

/// A client makes the file, writes it and closes it.
fn write(rt: &impl Print, pair: &mut Talk, client: &mut Client) -> anyhow::Result<()> {
    let file_id = open(rt, pair, client, CreateDisposition::Create)?.context("no new file")?;
    client.write(file_id, 0, b"first draft")?;
    reply_to(rt, pair, client)?;
    close(rt, pair, client, file_id)
}

/// Prints the bytes that a reply brings, as text.
fn print_data(rt: &impl Print, reply: &Reply<'_>) -> anyhow::Result<()> {
    let text = str::from_utf8(reply.data().context("no bytes")?)?;
    println!(rt; "read: {text}")?;
    Ok(())
}

/// A client opens the file again and reads it, and keeps it open.
fn read(rt: &impl Print, pair: &mut Talk, client: &mut Client) -> anyhow::Result<FileId> {
    let file_id = open(rt, pair, client, CreateDisposition::Open)?.context("no file")?;
    client.read(file_id, 0, 64)?;
    print_data(rt, &reply_to(rt, pair, client)?)?;
    Ok(file_id)
}

/// A second client comes in. It tries to open the file while the first one has it open, and again when that has closed it.
fn keep_out(
    rt: &impl Print,
    pair: &mut Talk,
    first: &mut Client,
    file_id: FileId,
) -> anyhow::Result<()> {
    let mut second = pair.connect()?;
    come_in(rt, pair, &mut second)?;
    open(rt, pair, &mut second, CreateDisposition::Open)?;
    close(rt, pair, first, file_id)?;
    open(rt, pair, &mut second, CreateDisposition::Open)?;
    Ok(())
}

/// Two clients talk to a share: the first writes the file, reads it and keeps it open.
fn talk(rt: &impl Print, pair: &mut Talk) -> anyhow::Result<()> {
    let mut first = pair.connect()?;
    come_in(rt, pair, &mut first)?;
    write(rt, pair, &mut first)?;
    let file_id = read(rt, pair, &mut first)?;
    keep_out(rt, pair, &mut first, file_id)
}

/// Two clients talk to a new share.
pub(crate) fn run<R: Print + AllocGlobal>(rt: &R) -> anyhow::Result<()> {
    let alloc = rt.alloc();
    let mut pair = Pair::new(alloc, new_share(alloc)?, FILETIME_OF_1970);
    talk(rt, &mut pair)
}
