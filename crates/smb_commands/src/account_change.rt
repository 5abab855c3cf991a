//! The command `account`: changes a file of accounts, or lists it.

use smb_accounts_file::{Change, change_accounts, list_accounts, read_password};
use smb_command_line::{AccountAction, AccountWords};
use smb_command_parts::{AccountsFileFault, Fault};
use smb_ntlm::{Account, nt_hash_of};
use smb_replay::CommandFault;
use std::io::{BufWriter, IsTerminal, Write};
use std::{io, str};

/// What is said of a password where somebody types it.
const TYPED: &str = "password: what is typed is seen here; smbshare-account asks for it unseen";

/// What is said of a password whose last character is one that nobody types.
const CARRIAGE_RETURN: &str =
    "password: it ends in a carriage return, which is taken as a part of it; give it without where it is not meant";

/// The hash of the password on standard input.
fn read_hash(rt: &HostRuntime) -> Result<[u8; 16], Fault> {
    let mut input = rt.stdin();
    let is_typed = input.is_terminal();
    if is_typed {
        let _ = eprintln!(rt; "{TYPED}");
    }
    let password = match read_password(rt.alloc(), &mut input, is_typed) {
        Ok(password) => password,
        Err(fault) => return Err(Fault::Password(fault)),
    };
    if password.as_str().ends_with('\r') {
        let _ = eprintln!(rt; "{CARRIAGE_RETURN}");
    }
    Ok(nt_hash_of(rt.alloc(), password.as_str())?)
}

/// Writes a line for each account.
fn write_list<W: Write>(accounts: &[Account], output: &mut W) -> io::Result<()> {
    for account in accounts {
        let name = str::from_utf8(&account.name).unwrap_or("?");
        let right = if account.read_only {
            ", to read only"
        } else {
            ""
        };
        writeln!(output, "{name}{right}")?;
    }
    output.flush()
}

/// Prints the accounts of a file.
fn print_list(rt: &HostRuntime, file: &str) -> Result<(), Fault> {
    let accounts = match list_accounts(rt, file) {
        Ok(accounts) => accounts,
        Err(fault) => return Err(AccountsFileFault::of(rt.alloc(), file, fault)),
    };
    let Ok(mut output) = BufWriter::new(rt.alloc(), rt.stdout()) else {
        return Err(Fault::Command(CommandFault::NoMemory));
    };
    if write_list(&accounts, &mut output).is_err() {
        return Err(Fault::Command(CommandFault::OutputFailed));
    }
    Ok(())
}

/// Changes a file.
fn change(rt: &HostRuntime, file: &str, change: Change<'_>) -> Result<(), Fault> {
    match change_accounts(rt, file, change) {
        Ok(()) => Ok(()),
        Err(fault) => Err(AccountsFileFault::of(rt.alloc(), file, fault)),
    }
}

/// Adds an account to a file.
fn add(rt: &HostRuntime, file: &str, name: &str, read_only: bool) -> Result<(), Fault> {
    let account = Account {
        name: Vec::from_slice(rt.alloc(), name.as_bytes())?,
        nt_hash: read_hash(rt)?,
        read_only,
    };
    change(rt, file, Change::Add(&account))
}

/// Does what the words ask for with a file of accounts. A password is read from standard input.
pub fn account(rt: &HostRuntime, words: &AccountWords<'_>) -> Result<(), Fault> {
    match words.action {
        AccountAction::Add { name, read_only } => add(rt, words.file, name, read_only),
        AccountAction::Remove { name } => change(rt, words.file, Change::Remove(name)),
        AccountAction::Password { name } => {
            let hash = read_hash(rt)?;
            change(rt, words.file, Change::Password(name, hash))
        }
        AccountAction::List => print_list(rt, words.file),
    }
}
