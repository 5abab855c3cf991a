//! The command `check`: what `serve` would serve by a configuration and accounts, for whom, and within which limits.

use smb_command_line::{Login, Texts};
use smb_command_parts::{Entrance, Fault, SERVED_SIGNING, read_accounts, say_notices};
use smb_config::{Accounts, Configuration};
use smb_ntlm::SigningMode;
use smb_replay::{CommandFault, check_unsigned, signing_of};
use std::io::{BufWriter, Write};
use std::{io, str};

/// What is written behind the name of somebody who may only read.
fn right_of(read_only: bool) -> &'static str {
    if read_only { ", to read only" } else { "" }
}

/// Writes what is served: the share and its limits.
fn write_share<W: Write>(configuration: &Configuration, output: &mut W) -> io::Result<()> {
    let config = &configuration.config;
    writeln!(output, "share: {}", config.share)?;
    writeln!(output, "label: {}", config.label)?;
    writeln!(output, "capacity: {} bytes", config.capacity)?;
    let limits = configuration.limits;
    writeln!(
        output,
        "limits: {} clients, {} opens, {} locks of a file, {} files and folders, {} bytes a file",
        limits.connections, limits.opens, limits.locks, limits.entries, limits.file_bytes,
    )
}

/// Writes a line for each account, of its name alone.
fn write_accounts<W: Write>(accounts: &Accounts, output: &mut W) -> io::Result<()> {
    for account in accounts.list.iter() {
        let name = str::from_utf8(&account.name).unwrap_or("?");
        writeln!(output, "account: {name}{}", right_of(account.read_only))?;
    }
    Ok(())
}

/// How the sessions of a login are signed: those of tokens never, those of accounts by the configuration.
fn signing_for(
    configuration: &Configuration,
    accounts: &Accounts,
    login: Login,
) -> Result<SigningMode, CommandFault> {
    match login {
        Login::Token => {
            check_unsigned(configuration)?;
            Ok(SigningMode::Off)
        }
        Login::Ntlm(words) => signing_of(configuration, accounts, words.signing, SERVED_SIGNING),
    }
}

/// Writes whether accounts may sign what they send, or have to; nothing where they can't.
fn write_signing<W: Write>(signing: SigningMode, output: &mut W) -> io::Result<()> {
    match signing {
        SigningMode::Off => Ok(()),
        SigningMode::Offered => writeln!(output, "signing: offered"),
        SigningMode::Required => writeln!(output, "signing: required of accounts"),
    }
}

/// Writes how clients log in, and whether guests may come.
fn write_logins<W: Write>(
    configuration: &Configuration,
    accounts: &Accounts,
    login: Login,
    output: &mut W,
) -> io::Result<()> {
    match login {
        Login::Token => writeln!(output, "login: token, users: {}", configuration.users)?,
        Login::Ntlm(_) => writeln!(output, "login: ntlm, accounts: {}", accounts.list.len())?,
    }
    write_accounts(accounts, output)?;
    if configuration.guest {
        writeln!(
            output,
            "guests: yes{}",
            right_of(configuration.guest_read_only)
        )
    } else {
        writeln!(output, "guests: no")
    }
}

/// Writes all of it.
fn write_all<W: Write>(
    configuration: &Configuration,
    accounts: &Accounts,
    login: Login,
    signing: SigningMode,
    output: &mut W,
) -> io::Result<()> {
    write_share(configuration, output)?;
    write_logins(configuration, accounts, login, output)?;
    write_signing(signing, output)?;
    output.flush()
}

/// Prints what `serve` would serve by these texts, and for whom; standard error has what `serve` would say beside. A
/// text that it would refuse is the fault that it would end with.
pub fn check(rt: &HostRuntime, texts: &Texts, login: Login) -> Result<(), Fault> {
    let alloc = rt.alloc();
    let configuration = Configuration::read(alloc, texts.config.as_str())?;
    let accounts = read_accounts(alloc, texts.accounts())?;
    let signing = signing_for(&configuration, &accounts, login)?;
    let Ok(mut output) = BufWriter::new(alloc, rt.stdout()) else {
        return Err(Fault::Command(CommandFault::NoMemory));
    };
    if write_all(&configuration, &accounts, login, signing, &mut output).is_err() {
        return Err(Fault::Command(CommandFault::OutputFailed));
    }
    let mut entrance = Entrance::of(&configuration, accounts.list.len());
    entrance.requires_signing = matches!(signing, SigningMode::Required);
    say_notices(rt, texts, login, entrance);
    Ok(())
}
