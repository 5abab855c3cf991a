//! What ends the program, and what is printed of it.

use crate::hosts::HostsFault;
use smb_accounts_file::{AccountsFault, PasswordFault};
use smb_config::ConfigFault;
use smb_folder::FolderFault;
use smb_journal::{Form, JournalFault};
use smb_kept::{FileFault, KeptFault};
use smb_reason::{Reason, Shown};
use smb_replay::{CommandFault, Detail, Given, ListenFault};
use smb_sharing::SharingFault;
use smb_tcp::MOST_LISTENERS;
use std::alloc::{AllocError, Global};
use std::io::{ErrorKind, Write};

/// What ends a command.
#[derive(Debug, Drop)]
pub enum Fault {
    Command(CommandFault),
    /// A share cannot be kept in a file, or not be made of one.
    Kept(KeptFault),
    /// The share cannot listen at an address.
    Listen(AddressFault),
    /// The share cannot listen at so many addresses.
    TooManyAddresses,
    /// The address of a status is one that others reach.
    StatusIsOpen,
    /// A list of who may connect is not taken.
    Hosts(HostsFault),
    /// A folder cannot be shared.
    Sharing(SharingFault),
    /// A file that a share is recorded in can't be read or written.
    Recording(RecordingFault),
    /// A journal can't be read, begun with or written.
    Journal(JournalFileFault),
    /// The file of a log can't be opened or made.
    Log(LogFault),
    /// A line of the log could not be written, which had to be. Standard error has its line already.
    LogFailed,
    /// Files could not be taken out of a recording. Standard error has a line for each already.
    NotExtracted,
    /// Files of a folder can't be in a share. Standard error has a line for each already.
    NotPut,
    /// A journal is not whole. Standard output has its line already.
    NotWhole,
    /// A file of accounts is not changed or not listed.
    Accounts(AccountsFileFault),
    /// A password is not taken.
    Password(PasswordFault),
}

/// Why a file of accounts is not changed or not listed.
#[derive(Debug, Drop)]
pub struct AccountsFileFault {
    /// The file's name, as it was given.
    path: String,
    fault: AccountsFault,
}

/// Why the share cannot listen at an address.
#[derive(Debug, Drop)]
pub struct AddressFault {
    /// As it was given.
    address: String,
    fault: ListenFault,
}

/// Why a file can't be read or written that a share is recorded in.
#[derive(Debug, Drop)]
pub struct RecordingFault {
    form: Form,
    /// The file's name, as it was given.
    path: String,
    fault: JournalFault,
}

/// Why the file of a log can't be opened or made.
#[derive(Debug, Drop)]
pub struct LogFault {
    /// The file's name, as it was given.
    path: String,
    reason: Reason,
}

/// Why a share can't be kept in a journal.
#[derive(Debug, Drop)]
pub struct JournalFileFault {
    /// The file's name, as it was given.
    path: String,
    fault: FileFault,
}

/// Writes what is printed of a share that cannot be kept, where there is memory and the configuration is none of its
/// faults.
fn report_kept<E: Write>(fault: &KeptFault, errors: &mut E) {
    let _ = match fault {
        KeptFault::NoMemory | KeptFault::BadConfig => Ok(()),
        KeptFault::Recording(fault) => writeln!(errors, "journal: {fault}"),
        KeptFault::RecordFailed(reason) => writeln!(errors, "record: cannot be written: {reason}"),
        KeptFault::Folder(fault) => writeln!(errors, "folder: {fault}"),
        KeptFault::File(fault) => writeln!(errors, "journal: {fault}"),
    };
}

/// What a share that cannot be kept is among the faults of commands, where it is one: want of memory, or a
/// configuration.
fn command_fault_of(fault: &KeptFault) -> Option<CommandFault> {
    match fault {
        KeptFault::NoMemory
        | KeptFault::Recording(JournalFault::NoMemory)
        | KeptFault::Folder(FolderFault::NoMemory) => Some(CommandFault::NoMemory),
        KeptFault::BadConfig => Some(CommandFault::ConfigRefused(None)),
        _ => None,
    }
}

/// What a share that cannot be kept is among the faults of recordings, where it is that their file can't be read or
/// written.
fn file_fault_of(fault: &KeptFault) -> Option<JournalFault> {
    match fault {
        KeptFault::Recording(JournalFault::Unread(reason)) => Some(JournalFault::Unread(*reason)),
        KeptFault::Recording(JournalFault::Exists) => Some(JournalFault::Exists),
        KeptFault::Recording(JournalFault::InUse) => Some(JournalFault::InUse),
        KeptFault::Recording(JournalFault::Unwritten(reason)) | KeptFault::RecordFailed(reason) => {
            Some(JournalFault::Unwritten(*reason))
        }
        _ => None,
    }
}

/// What a share that cannot be kept is among the faults of a journal, where it is one.
fn journal_fault_of(fault: &KeptFault) -> Option<FileFault> {
    match fault {
        KeptFault::File(fault) => Some(*fault),
        KeptFault::Recording(JournalFault::NoMemory) => None,
        KeptFault::Recording(fault) => Some(FileFault::System(*fault)),
        KeptFault::RecordFailed(reason) => {
            Some(FileFault::System(JournalFault::Unwritten(*reason)))
        }
        _ => None,
    }
}

impl AccountsFileFault {
    /// A fault with the name of its file; of want of memory the fault of commands.
    pub fn of(alloc: Global, path: &str, fault: AccountsFault) -> Fault {
        match (String::from_str(alloc, path), fault) {
            (_, AccountsFault::NoMemory) | (Err(_), _) => Fault::Command(CommandFault::NoMemory),
            (Ok(path), fault) => Fault::Accounts(AccountsFileFault { path, fault }),
        }
    }

    /// Writes what is printed of it, in one line.
    fn report<E: Write>(&self, errors: &mut E) {
        let path = Shown(self.path.as_bytes());
        let _ = writeln!(errors, "account: {path}: {}", self.fault);
    }
}

impl AddressFault {
    /// Writes what is printed of it, and gives the exit status.
    fn report<E: Write>(&self, alloc: Global, detail: Detail<'_>, errors: &mut E) -> u8 {
        let address = self.address.as_str();
        let detail = match detail {
            Detail::Brief => Detail::Brief,
            Detail::Explained(given) => Detail::Explained(Given { address, ..given }),
        };
        CommandFault::ListenFailed(self.fault).report(alloc, detail, errors)
    }
}

impl JournalFileFault {
    /// Writes what is printed of it, in one line.
    fn report<E: Write>(&self, errors: &mut E) {
        let path = Shown(self.path.as_bytes());
        let _ = writeln!(errors, "journal: {path}: {}", self.fault);
    }
}

impl LogFault {
    /// A fault with the name of its file.
    pub(crate) fn of(alloc: Global, path: &str, reason: Reason) -> Fault {
        match String::from_str(alloc, path) {
            Ok(path) => Fault::Log(LogFault { path, reason }),
            Err(error) => Fault::from(error),
        }
    }

    /// Writes what is printed of it, in one line.
    fn report<E: Write>(&self, errors: &mut E) {
        let (path, reason) = (Shown(self.path.as_bytes()), self.reason);
        let _ = writeln!(
            errors,
            "log: cannot be written: {reason}: {path}; name a file that you may write to"
        );
    }
}

impl RecordingFault {
    /// What is to be done, where its reason does not say it.
    fn remedy(&self) -> &'static str {
        match self.fault {
            JournalFault::Unwritten(Reason(ErrorKind::AlreadyExists)) => "; name a new file",
            _ => "",
        }
    }

    /// Writes what is printed of it, in one line.
    fn report<E: Write>(&self, errors: &mut E) {
        let (word, path) = (self.form.word(), Shown(self.path.as_bytes()));
        let _ = writeln!(errors, "{word}: {path}: {}{}", self.fault, self.remedy());
    }
}

impl Fault {
    /// The same fault with the name of its file, where it is that the file of a recording can't be read or written.
    pub fn of_file(self, alloc: Global, form: Form, path: &str) -> Fault {
        let Fault::Kept(kept) = &self else {
            return self;
        };
        let Some(fault) = file_fault_of(kept) else {
            return self;
        };
        match String::from_str(alloc, path) {
            Ok(path) => Fault::Recording(RecordingFault { form, path, fault }),
            Err(error) => Fault::from(error),
        }
    }

    /// The same fault with the name of its file, where it is that a share can't be kept in a journal.
    pub fn of_journal(self, alloc: Global, path: &str) -> Fault {
        let Fault::Kept(kept) = &self else {
            return self;
        };
        let Some(fault) = journal_fault_of(kept) else {
            return self;
        };
        match String::from_str(alloc, path) {
            Ok(path) => Fault::Journal(JournalFileFault { path, fault }),
            Err(error) => Fault::from(error),
        }
    }

    /// The same fault with the address that it is of, where it is that the share cannot listen.
    pub fn of_address(self, alloc: Global, address: &str) -> Fault {
        let Fault::Command(CommandFault::ListenFailed(fault)) = &self else {
            return self;
        };
        match String::from_str(alloc, address) {
            Ok(address) => Fault::Listen(AddressFault {
                address,
                fault: *fault,
            }),
            Err(error) => Fault::from(error),
        }
    }

    /// Writes what is printed of it, and gives the exit status: 3 for want of memory, else 1. That the writer fails is
    /// passed over.
    pub fn report<E: Write>(&self, alloc: Global, detail: Detail<'_>, errors: &mut E) -> u8 {
        match self {
            Fault::Command(fault) => fault.report(alloc, detail, errors),
            Fault::Kept(fault) => match command_fault_of(fault) {
                Some(fault) => fault.report(alloc, detail, errors),
                None => {
                    report_kept(fault, errors);
                    1
                }
            },
            Fault::Listen(fault) => fault.report(alloc, detail, errors),
            Fault::TooManyAddresses => {
                let _ = writeln!(
                    errors,
                    "listen: too many addresses: give at most {MOST_LISTENERS}"
                );
                1
            }
            Fault::StatusIsOpen => {
                let _ = writeln!(
                    errors,
                    "status: others can reach it: name a loopback address, as 127.0.0.1:9100, or say --status-anywhere"
                );
                1
            }
            Fault::Hosts(fault) => {
                fault.report(errors);
                1
            }
            Fault::Sharing(SharingFault::NoMemory) => {
                CommandFault::NoMemory.report(alloc, detail, errors)
            }
            Fault::Sharing(fault) => {
                let _ = writeln!(errors, "{fault}");
                1
            }
            Fault::Recording(fault) => {
                fault.report(errors);
                1
            }
            Fault::Journal(fault) => {
                fault.report(errors);
                1
            }
            Fault::Log(fault) => {
                fault.report(errors);
                1
            }
            Fault::LogFailed | Fault::NotExtracted | Fault::NotPut | Fault::NotWhole => 1,
            Fault::Accounts(fault) => {
                fault.report(errors);
                1
            }
            Fault::Password(PasswordFault::NoMemory) => {
                CommandFault::NoMemory.report(alloc, detail, errors)
            }
            Fault::Password(fault) => {
                let _ = writeln!(errors, "password: {fault}");
                1
            }
        }
    }
}

impl From<CommandFault> for Fault {
    fn from(fault: CommandFault) -> Fault {
        Fault::Command(fault)
    }
}

impl From<ConfigFault> for Fault {
    fn from(fault: ConfigFault) -> Fault {
        Fault::Command(CommandFault::from(fault))
    }
}

impl From<KeptFault> for Fault {
    fn from(fault: KeptFault) -> Fault {
        Fault::Kept(fault)
    }
}

impl From<SharingFault> for Fault {
    fn from(fault: SharingFault) -> Fault {
        Fault::Sharing(fault)
    }
}

impl From<AllocError> for Fault {
    fn from(_error: AllocError) -> Fault {
        Fault::Command(CommandFault::NoMemory)
    }
}
