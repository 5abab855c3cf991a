//! The program's own client of a share: how it comes in.

use crate::fault::KeptFault;
use smb_client::{Client, ClientFault, Line};
use smb_journal::{GivenAnswer, JournalFault};
use smb_session::Answer;
use std::alloc::{AllocError, Global};
use std::collections::VecDeque;

/// The user whose session it is.
const USER: &[u8] = b"smbshare";

/// What it asks with: a recorded answer lets it in, whatever it asks with.
const TOKEN: &[u8] = b"smbshare";

/// The answer that lets the program's own client in.
pub fn own_answer(alloc: Global) -> Result<Answer, AllocError> {
    Ok(Answer::Accept {
        user: Vec::from_slice(alloc, USER)?,
        flags: 0,
        read_only: false,
        signing: None,
        token: Vec::new(alloc),
    })
}

/// The same, as an authenticator gives it that has it recorded.
fn own_given(alloc: Global) -> Result<GivenAnswer, KeptFault> {
    match GivenAnswer::of(own_answer(alloc)?) {
        Some(given) => Ok(given),
        None => Err(KeptFault::Recording(JournalFault::NoMemory)),
    }
}

/// The answers of an authenticator that lets the program's own client in first.
pub fn own_answers(alloc: Global) -> Result<VecDeque<GivenAnswer>, KeptFault> {
    let mut given = VecDeque::new(alloc);
    match given.push_back(own_given(alloc)?) {
        Ok(()) => Ok(given),
        Err(_) => Err(KeptFault::NoMemory),
    }
}

/// The path of a share, as a client names it.
pub fn path_of(alloc: Global, share: &str) -> Result<String, AllocError> {
    format!(in alloc; "\\\\smbshare\\{share}")
}

/// Logs a client in, and connects it to the share of a path.
pub(crate) fn log_in<L: Line>(
    alloc: Global,
    line: &mut L,
    client: &mut Client,
    path: &str,
) -> Result<(), ClientFault> {
    let mut heard = Vec::new(alloc);
    client.negotiate()?;
    line.carry(client, &mut heard)?;
    client.session_setup(TOKEN)?;
    line.carry(client, &mut heard)?;
    client.tree_connect(path)?;
    line.carry(client, &mut heard)
}
