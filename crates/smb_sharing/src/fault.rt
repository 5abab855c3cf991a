//! Why a folder is not shared.

use smb_ntlm::AccountFault;
use smb_reason::{Reason, Shown};
use std::alloc::{AllocError, Global};
use std::io;
use std::io::ErrorKind;
use thiserror::Error;

/// A rule that a word of the command, a folder or passwords break, and what to do.
#[derive(Clone, Copy, Debug, PartialEq, Eq, Error)]
pub enum SharingRule {
    #[error("not a size: say a number of bytes above 0, or of KiB, MiB, GiB or TiB, such as 1073741824 or 10GiB")]
    NotASize,
    #[error("more than a share can have: say at most 64TiB")]
    TooGreat,
    /// The files of the folder or the journal take so many bytes.
    #[error("too little: the files take {0} bytes; say more, or leave --capacity out")]
    TooLittle(u64),
    #[error("the share can't have the folder's name, but 1 to 80 characters from ! to ~, none of them one of \" * / : < > ? \\ |; name it by --name NAME")]
    FolderName,
    #[error("not a name of a share: say 1 to 80 characters from ! to ~, none of them one of \" * / : < > ? \\ |")]
    ShareName,
    #[error("not ADDR:PORT: say an IP address with a port, such as 127.0.0.1:4450")]
    NotAnAddress,
    #[error("others can reach it, and nobody is named: say --account NAME for each who may come in, --guests to let in everyone, or listen at 127.0.0.1")]
    Open,
    #[error("{}", account_text(*.0))]
    Account(AccountFault),
    #[error("there is no account for them: say --account NAME for each line")]
    NoAccount,
    #[error("none: give one for each --account, each in a line of its own")]
    NoPassword,
    /// So many lines for so many accounts.
    #[error("{0} lines for {1} accounts: give one for each --account, in their order, each in a line of its own")]
    OtherNumber(usize, usize),
    /// The line of this number has none.
    #[error("line {0} is empty: give one for each --account, in their order, each in a line of its own")]
    EmptyPassword(usize),
    #[error("not a text in UTF-8: write them in UTF-8, one a line")]
    NotText,
    #[error("more than 1048576 bytes: give one line for each --account")]
    TooLong,
    #[error("cannot be read: {0}; name a file that you may read, or leave --passwords out")]
    PasswordsUnread(Reason),
    #[error("cannot be read: {0}; name a folder that you may read")]
    FolderUnread(Reason),
}

/// What an account's name is to be.
fn account_text(fault: AccountFault) -> &'static str {
    match fault {
        AccountFault::NameLength(_) => "not an account's name: say 1 to 256 characters",
        AccountFault::NameCharacter(_) => {
            "not an account's name: say no characters but those from blank to ~"
        }
        AccountFault::NameIsGuest(_) => {
            "the name of guests, who have no password: say another one, or --guests to let them in"
        }
        AccountFault::NameTaken(_) => {
            "an account before it has this name, whatever the case of its letters: say each once"
        }
    }
}

/// Why a folder is not shared.
#[derive(Debug, Drop, Error)]
pub enum SharingFault {
    #[error("no memory")]
    NoMemory,
    /// What was asked for, its control characters escaped, and the rule that it breaks.
    #[error("share: {what}: {rule}")]
    Refused { what: String, rule: SharingRule },
}

impl From<AllocError> for SharingFault {
    fn from(_error: AllocError) -> SharingFault {
        SharingFault::NoMemory
    }
}

impl SharingFault {
    /// The fault of a word of the command, with its value.
    pub(crate) fn of_word(
        alloc: Global,
        word: &str,
        value: &str,
        rule: SharingRule,
    ) -> SharingFault {
        match format!(in alloc; "{word} {}", Shown(value.as_bytes())) {
            Ok(what) => SharingFault::Refused { what, rule },
            Err(_) => SharingFault::NoMemory,
        }
    }

    /// The fault of a file or a folder.
    pub(crate) fn of_name(alloc: Global, name: &str, rule: SharingRule) -> SharingFault {
        match format!(in alloc; "{}", Shown(name.as_bytes())) {
            Ok(what) => SharingFault::Refused { what, rule },
            Err(_) => SharingFault::NoMemory,
        }
    }

    /// What a failed read of a folder is.
    pub(crate) fn of_folder(alloc: Global, folder: &str, error: io::Error) -> SharingFault {
        match error.kind() {
            ErrorKind::OutOfMemory => SharingFault::NoMemory,
            kind => {
                SharingFault::of_name(alloc, folder, SharingRule::FolderUnread(Reason(kind)))
            }
        }
    }
}
