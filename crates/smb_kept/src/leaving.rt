//! A share as a recording leaves it, once all connections have ended.

use crate::fault::KeptFault;
use crate::performed::Deaf;
use crate::performing::{perform_file, read_recording};
use crate::share::{RecordedShare, nobody, recorded_share};
use smb_engine::Tokens;
use smb_journal::{GivenAnswer, Header, Mailbox};
use std::alloc::Global;
use std::collections::VecDeque;

/// A share that performed a recording, and has no connection.
#[derive(Drop)]
pub(crate) struct Left<'m> {
    pub(crate) share: RecordedShare<'m, Tokens>,
    /// How many bytes of a cut last line were left out.
    pub(crate) left_out: u64,
}

/// A new share of a recording, whose authenticator gives these answers first.
fn share_of_header<'m>(
    alloc: Global,
    header: &Header,
    given: VecDeque<GivenAnswer>,
    mailbox: &'m Mailbox,
) -> Result<RecordedShare<'m, Tokens>, KeptFault> {
    let limited = header.config(alloc)?;
    let hello = Vec::from_slice(alloc, &header.hello)?;
    let behind = nobody(alloc)?;
    recorded_share(
        alloc,
        limited,
        hello,
        header.signing_required,
        given,
        behind,
        mailbox,
    )
}

/// The share of a recording, which performed all of it; all connections have ended. Nothing of what its authenticator
/// answers is put into the mailbox.
pub(crate) fn leave<'m>(
    rt: &HostRuntime,
    file: &str,
    mailbox: &'m Mailbox,
) -> Result<Left<'m>, KeptFault> {
    mailbox.close();
    let (header, given) = read_recording(rt, file)?;
    let mut share = share_of_header(rt.alloc(), &header, given, mailbox)?;
    let left_out = perform_file(rt, file, &mut share, &mut Deaf)?;
    share.end_all();
    Ok(Left { share, left_out })
}
