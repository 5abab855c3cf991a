//! The log of a served share, and what is known of its clients.

use smb_command_parts::{Fault, LogOutput, LogWords, log_of};
use smb_journal_file::SharedSync;
use smb_log::{ConnectionFacts, Ending, KeptBack, KeptOut, Log};
use smb_tcp::{GivenUp, Logins, PeerFacts};
use smb_wire::limits::Limits;
use std::alloc::{AllocError, Global};
use std::cell::RefCell;

/// What is known of the connections of TCP peers, how their logins ended, and whether what changed waits until it
/// lasts.
#[derive(Drop)]
pub struct TcpFacts {
    pub peers: PeerFacts,
    pub logins: Logins,
    pub sync: SharedSync,
}

impl ConnectionFacts for TcpFacts {
    fn put_address(&self, number: u64, text: &mut String) -> Result<(), AllocError> {
        match self.peers.address(number) {
            Some(address) => write!(text, "{address}"),
            None => Ok(()),
        }
    }

    fn ending(&self, number: u64) -> Ending {
        match self.peers.given_up(number) {
            Some(GivenUp::Silent) => Ending::Silence,
            Some(GivenUp::OwedMost) => Ending::OwedMost,
            None => Ending::ByClient,
        }
    }

    fn take_kept_out(&self, text: &mut String) -> Option<KeptOut> {
        let (address, why) = self.peers.take_kept_out()?;
        if write!(text, "{address}").is_err() {
            text.clear();
        }
        Some(match why {
            smb_tcp::KeptOut::Network => KeptOut::Hosts,
            smb_tcp::KeptOut::Address(most) => KeptOut::Address(most),
        })
    }

    fn take_kept_back(&self, text: &mut String) -> Option<KeptBack> {
        let (address, why) = self.peers.take_kept_back()?;
        if write!(text, "{address}").is_err() {
            text.clear();
        }
        Some(KeptBack {
            wrong: why.wrong,
            seconds: why.seconds,
        })
    }
}

impl TcpFacts {
    /// Of no peers.
    pub fn new(alloc: Global) -> Result<Self, AllocError> {
        Ok(TcpFacts {
            peers: PeerFacts::new(alloc)?,
            logins: Logins::new(),
            sync: SharedSync::new(),
        })
    }
}

/// The log of a served share, where there is one: its peers and its observer borrow it in turn.
pub type ServedLog<'a> = Option<RefCell<Log<LogOutput<'a>>>>;

/// The log that the words ask for, of a share of these limits that is to be served.
pub fn served_log<'a>(
    rt: &'a HostRuntime,
    words: Option<LogWords<'a>>,
    limits: Limits,
) -> Result<ServedLog<'a>, Fault> {
    Ok(log_of(rt, words, limits, 0)?.map(RefCell::new))
}
