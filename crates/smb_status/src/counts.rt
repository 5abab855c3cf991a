//! What is counted of a share while it is served.

use smb_frame::FrameFault;
use smb_head::HeadFault;
use smb_peers::Ending;
use smb_wire::{CommandCode, NtStatus};
use std::time::Duration;

/// The names of the commands in the order of their codes, and what a code past them is called.
pub(crate) const COMMAND_NAMES: [&str; 20] = [
    "NEGOTIATE",
    "SESSION_SETUP",
    "LOGOFF",
    "TREE_CONNECT",
    "TREE_DISCONNECT",
    "CREATE",
    "CLOSE",
    "FLUSH",
    "READ",
    "WRITE",
    "LOCK",
    "IOCTL",
    "CANCEL",
    "ECHO",
    "QUERY_DIRECTORY",
    "CHANGE_NOTIFY",
    "QUERY_INFO",
    "SET_INFO",
    "OPLOCK_BREAK",
    "unknown",
];

/// The place of a code that no command has.
const UNKNOWN: usize = 19;

/// The statuses that refuse a request. The end of a file or of a listing is no refusal.
pub(crate) const REFUSALS: [NtStatus; 31] = [
    NtStatus::BufferOverflow,
    NtStatus::InvalidInfoClass,
    NtStatus::InfoLengthMismatch,
    NtStatus::InvalidParameter,
    NtStatus::NoSuchFile,
    NtStatus::InvalidDeviceRequest,
    NtStatus::AccessDenied,
    NtStatus::ObjectNameInvalid,
    NtStatus::ObjectNameNotFound,
    NtStatus::ObjectNameCollision,
    NtStatus::ObjectPathNotFound,
    NtStatus::SharingViolation,
    NtStatus::FileLockConflict,
    NtStatus::LockNotGranted,
    NtStatus::DeletePending,
    NtStatus::LogonFailure,
    NtStatus::RangeNotLocked,
    NtStatus::DiskFull,
    NtStatus::FileIsADirectory,
    NtStatus::NotSupported,
    NtStatus::NetworkNameDeleted,
    NtStatus::BadNetworkName,
    NtStatus::RequestNotAccepted,
    NtStatus::DirectoryNotEmpty,
    NtStatus::NotADirectory,
    NtStatus::TooManyOpenedFiles,
    NtStatus::CannotDelete,
    NtStatus::FileClosed,
    NtStatus::InvalidLockRange,
    NtStatus::UserSessionDeleted,
    NtStatus::Unsuccessful,
];

/// The rules by which connections end, each with any number that its case has.
pub(crate) const RULES: [Ending; 19] = [
    Ending::Frame(FrameFault::FirstByte),
    Ending::Frame(FrameFault::TooLong),
    Ending::Frame(FrameFault::PayloadTooLong),
    Ending::Frame(FrameFault::NoMemory),
    Ending::Chain(HeadFault::Short),
    Ending::Chain(HeadFault::Protocol),
    Ending::Chain(HeadFault::Size),
    Ending::Chain(HeadFault::Next),
    Ending::Chain(HeadFault::TooMany),
    Ending::Chain(HeadFault::FromServer),
    Ending::Chain(HeadFault::RelatedFirst),
    Ending::Chain(HeadFault::NoMemory),
    Ending::NegotiateAlone,
    Ending::NegotiateAgain,
    Ending::MessageIdNotInWindow(0),
    Ending::MessageIdTwice,
    Ending::Smb1Misformed,
    Ending::Smb1Late,
    Ending::Smb1NoDialect,
];

/// What is counted of a share since it is served. A count that can't grow any more stays. No call takes memory.
#[derive(Clone, Copy, Debug, PartialEq, Eq)]
pub struct Counts {
    // By command, in the order of their names.
    pub(crate) requests: [u64; 20],
    // By status, in the order of the refusals.
    pub(crate) refusals: [u64; 31],
    // By rule, in their order.
    pub(crate) endings: [u64; 19],
    pub(crate) received: u64,
    pub(crate) sent: u64,
    pub(crate) longest_turn: Duration,
}

/// Adds one to the count at a place, where there is one.
fn count_at(counts: &mut [u64], place: Option<usize>) {
    if let Some(place) = place
        && let Some(count) = counts.get_mut(place)
    {
        *count = count.saturating_add(1);
    }
}

/// The rule of an ending, whatever the number of its case.
fn is_of_rule(rule: Ending, ending: Ending) -> bool {
    match (rule, ending) {
        (Ending::MessageIdNotInWindow(_), Ending::MessageIdNotInWindow(_)) => true,
        _ => rule == ending,
    }
}

impl Counts {
    /// Nothing so far.
    pub const fn none() -> Self {
        Counts {
            requests: [0; 20],
            refusals: [0; 31],
            endings: [0; 19],
            received: 0,
            sent: 0,
            longest_turn: Duration::ZERO,
        }
    }

    /// Counts a request that was performed, by its command. All codes that no command has count as one.
    pub fn count_request(&mut self, command: CommandCode) {
        let place = usize::from(command.0).min(UNKNOWN);
        count_at(&mut self.requests, Some(place));
    }

    /// Counts a request that was refused, by its status. A status that refuses nothing is passed over.
    pub fn count_refusal(&mut self, status: NtStatus) {
        let place = REFUSALS.iter().position(|refusal| *refusal == status);
        count_at(&mut self.refusals, place);
    }

    /// Counts a connection that the share ended, by the rule that its client broke.
    pub fn count_ending(&mut self, ending: Ending) {
        let place = RULES.iter().position(|rule| is_of_rule(*rule, ending));
        count_at(&mut self.endings, place);
    }

    /// Counts bytes that came of clients.
    pub fn count_received(&mut self, bytes: usize) {
        self.received = self.received.saturating_add(bytes as u64);
    }

    /// Counts bytes that were taken of those that were sent to clients.
    pub fn count_sent(&mut self, bytes: usize) {
        self.sent = self.sent.saturating_add(bytes as u64);
    }

    /// Notes how long a turn took: the longest one is kept.
    pub fn count_turn(&mut self, took: Duration) {
        self.longest_turn = self.longest_turn.max(took);
    }
}
