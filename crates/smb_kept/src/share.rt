//! A share whose authenticator gives recorded answers first.

use crate::fault::KeptFault;
use smb_engine::{Authenticator, HandleTable, NodeTree, ServeFault, Share, Tokens};
use smb_journal::{GivenAnswer, JournalFault, LimitedConfig, Mailbox, RecordedLogin};
use std::alloc::{AllocError, Global};
use std::collections::VecDeque;

/// A share whose clients are let in by recorded answers first.
pub type RecordedShare<'m, A> = Share<RecordedLogin<'m, A>, NodeTree, HandleTable>;

/// A new share of a configuration, under its limits.
///
/// [`KeptFault::BadConfig`] where the share refuses it, or [`KeptFault::NoMemory`].
pub fn share_of<A: Authenticator + Drop>(
    alloc: Global,
    limited: LimitedConfig,
    authenticator: A,
) -> Result<Share<A, NodeTree, HandleTable>, KeptFault> {
    let LimitedConfig { limits, config } = limited;
    match Share::in_memory_within(alloc, limits, config, authenticator) {
        Ok(share) => Ok(share),
        Err(ServeFault::NoMemory { .. }) => Err(KeptFault::NoMemory),
        Err(_) => Err(KeptFault::BadConfig),
    }
}

/// An authenticator that offers `hello` first, of at most 4,096 bytes, gives these answers, and then asks the one
/// behind.
///
/// [`JournalFault::NoRecording`] where `hello` is longer.
pub fn recorded_login<'m, A: Authenticator + Drop>(
    hello: Vec<u8>,
    requires_signing: bool,
    given: VecDeque<GivenAnswer>,
    behind: A,
    mailbox: &'m Mailbox,
) -> Result<RecordedLogin<'m, A>, KeptFault> {
    match RecordedLogin::new(hello, requires_signing, given, behind, mailbox) {
        Some(login) => Ok(login),
        None => Err(KeptFault::Recording(JournalFault::NoRecording)),
    }
}

/// A new share of a configuration whose authenticator is a [`recorded_login`].
pub fn recorded_share<'m, A: Authenticator + Drop>(
    alloc: Global,
    limited: LimitedConfig,
    hello: Vec<u8>,
    requires_signing: bool,
    given: VecDeque<GivenAnswer>,
    behind: A,
    mailbox: &'m Mailbox,
) -> Result<RecordedShare<'m, A>, KeptFault> {
    let login = recorded_login(hello, requires_signing, given, behind, mailbox)?;
    share_of(alloc, limited, login)
}

/// An authenticator that lets nobody in: behind the recorded answers nobody is asked who would be.
pub fn nobody(alloc: Global) -> Result<Tokens, AllocError> {
    Tokens::new(alloc, b"", false, false, Vec::new(alloc))
}
