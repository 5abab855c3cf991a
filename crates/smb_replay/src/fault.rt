//! What ends a command, and what is printed of it.

use crate::script::Expected;
use smb_config::{ConfigFault, ConfigRule, write_place};
use smb_reason::{Reason, Shown};
use std::alloc::{AllocError, Global};
use std::io;
use std::io::{ErrorKind, Write};
use thiserror::Error;

/// Why a share cannot listen.
#[derive(Clone, Copy, Debug, PartialEq, Eq, Error)]
pub enum ListenFault {
    #[error("not ADDR:PORT, an IP address with a port, such as 127.0.0.1:4450")]
    NotAnAddress,
    #[error("in use: another program listens there; end that one, or name another port")]
    InUse,
    #[error("not an address of this machine; name one of its own, or 0.0.0.0 for all of them")]
    NotHere,
    #[error("no right to the port: those below 1024 are the system's; name a higher one, or give the program CAP_NET_BIND_SERVICE")]
    NotAllowed,
    #[error("the system refuses it; name another address or port")]
    Refused,
}

impl From<ErrorKind> for ListenFault {
    fn from(kind: ErrorKind) -> ListenFault {
        match kind {
            ErrorKind::AddrInUse => ListenFault::InUse,
            ErrorKind::AddrNotAvailable => ListenFault::NotHere,
            ErrorKind::PermissionDenied => ListenFault::NotAllowed,
            _ => ListenFault::Refused,
        }
    }
}

/// What ends a command. Its text is what is printed.
#[derive(Clone, Copy, Debug, PartialEq, Eq, Error)]
pub enum CommandFault {
    /// The configuration's file cannot be opened or read, for this reason.
    #[error("config: cannot be read")]
    ConfigUnread(Reason),
    /// The configuration breaks this rule; None where the share itself refuses it.
    #[error("config: refused")]
    ConfigRefused(Option<ConfigRule>),
    /// The file of accounts cannot be opened or read, for this reason.
    #[error("accounts: cannot be read")]
    AccountsUnread(Reason),
    /// The accounts break this rule.
    #[error("accounts: refused")]
    AccountsRefused(ConfigRule),
    #[error("listen: failed")]
    ListenFailed(ListenFault),
    /// The system gave no random bytes for the logins of a served share.
    #[error("seed: failed")]
    SeedFailed,
    #[error("input: failed")]
    InputFailed,
    #[error("input too long")]
    InputTooLong,
    #[error("input: unreadable")]
    InputUnreadable,
    #[error("output: failed")]
    OutputFailed,
    /// The line of this number is no event; its mark says what was expected.
    #[error("line {0}: unreadable")]
    Unreadable(u64, Expected),
    /// The line of this number opens a connection out of turn, or names one that was never opened; the second is the number
    /// of the next connection to open.
    #[error("line {0}: bad event")]
    BadEvent(u64, u64),
    /// The line of this number opens a connection where as many are open as there may be: the second number.
    #[error("line {0}: too many connections")]
    TooManyConnections(u64, usize),
    #[error("no memory")]
    NoMemory,
}

/// What a command was given, as its words name it: what is said more of a fault speaks of it.
#[derive(Clone, Copy, Debug)]
pub struct Given<'a> {
    /// The name of the configuration's file, as it can be shown.
    pub file: &'a str,
    /// The configuration's text.
    pub document: &'a str,
    /// The name of the accounts' file, as it can be shown; empty where there is none.
    pub accounts_file: &'a str,
    /// The accounts' text; empty where there is none. Of its hashes nothing is printed.
    pub accounts: &'a str,
    /// Where the share was to listen.
    pub address: &'a str,
}

/// How much is printed of a fault.
#[derive(Clone, Copy, Debug)]
pub enum Detail<'a> {
    /// Its line alone.
    Brief,
    /// A second line, where there is more to say; and in a replay a line for each request that the share refuses, and each connection that
    /// it ends.
    Explained(Given<'a>),
}

/// Writes the rule that a text breaks, and where, in one line.
fn write_rule<E: Write>(
    alloc: Global,
    document: &str,
    rule: ConfigRule,
    errors: &mut E,
) -> io::Result<()> {
    write!(errors, "{rule}")?;
    write_place(alloc, document, rule, errors)?;
    writeln!(errors)
}

impl CommandFault {
    /// What a fault of a file of accounts is to a command.
    pub fn of_accounts(fault: ConfigFault) -> CommandFault {
        match fault {
            ConfigFault::Unread(reason) => CommandFault::AccountsUnread(reason),
            ConfigFault::Refused(rule) => CommandFault::AccountsRefused(rule),
            ConfigFault::NoMemory => CommandFault::NoMemory,
        }
    }

    /// The exit status: 3 for want of memory, else 1.
    pub fn status(self) -> u8 {
        match self {
            CommandFault::NoMemory => 3,
            _ => 1,
        }
    }

    /// What is said more of standard input or output that fails; None of another fault.
    fn of_stream(self) -> Option<&'static str> {
        match self {
            CommandFault::InputFailed => {
                Some("standard input can't be read to its end: give it from a file, by <")
            }
            CommandFault::InputTooLong => {
                Some("standard input has more than 67108864 bytes: give it in parts")
            }
            CommandFault::OutputFailed => {
                Some(
                    "standard output takes no more: give it a file with room, or a reader that stays",
                )
            }
            _ => None,
        }
    }

    /// Writes what was wrong, in one line, where there is more to say than the fault's own line.
    fn explain<E: Write>(self, alloc: Global, given: Given<'_>, errors: &mut E) -> io::Result<()> {
        let (file, accounts_file) = (
            Shown(given.file.as_bytes()),
            Shown(given.accounts_file.as_bytes()),
        );
        match self {
            CommandFault::ConfigUnread(reason) => writeln!(errors, "{file}: {reason}"),
            CommandFault::ConfigRefused(Some(rule)) => {
                write_rule(alloc, given.document, rule, errors)
            }
            CommandFault::AccountsUnread(reason) => writeln!(errors, "{accounts_file}: {reason}"),
            CommandFault::AccountsRefused(rule) => write_rule(alloc, given.accounts, rule, errors),
            CommandFault::ListenFailed(reason) => writeln!(errors, "{}: {reason}", given.address),
            CommandFault::Unreadable(_, expected) => writeln!(errors, "{}", expected.text()),
            CommandFault::BadEvent(_, next) => {
                let opened = next.saturating_sub(1);
                writeln!(
                    errors,
                    "connections are numbered as they open: the next to open is {next}, and {opened} were opened before"
                )
            }
            CommandFault::TooManyConnections(_, most) => {
                writeln!(errors, "at most {most} connections are open at a time")
            }
            _ => match self.of_stream() {
                Some(text) => writeln!(errors, "{text}"),
                None => Ok(()),
            },
        }
    }

    /// Writes what is printed of it, and gives the exit status. That the writer fails is passed over.
    pub fn report<E: Write>(self, alloc: Global, detail: Detail<'_>, errors: &mut E) -> u8 {
        let _ = writeln!(errors, "{self}");
        if let Detail::Explained(given) = detail {
            let _ = self.explain(alloc, given, errors);
        }
        let _ = errors.flush();
        self.status()
    }
}

impl From<AllocError> for CommandFault {
    fn from(_error: AllocError) -> CommandFault {
        CommandFault::NoMemory
    }
}

impl From<ConfigFault> for CommandFault {
    fn from(fault: ConfigFault) -> CommandFault {
        match fault {
            ConfigFault::Unread(reason) => CommandFault::ConfigUnread(reason),
            ConfigFault::Refused(rule) => CommandFault::ConfigRefused(Some(rule)),
            ConfigFault::NoMemory => CommandFault::NoMemory,
        }
    }
}
