//! The command `share`: a folder's files to clients over TCP, by a configuration and accounts that are made for them.

use crate::logging::TcpFacts;
use crate::serve::{ServeWords, serve_share};
use smb_command_line::{Login, NtlmWords, Texts};
use smb_command_parts::{Fault, Severity, hosts_of, memory, random_seed, say};
use smb_engine::Tree;
use smb_journal_start::Space;
use smb_kept::{JournalFiles, JournalWords, KeptFault, journal_files};
use smb_ntlm::Account;
use smb_reason::Shown;
use smb_sharing::{
    Found, Measured, Passwords, Plan, Said, SharingWords, Wanted, accounts_of, accounts_text,
    measure, read_passwords, share_name,
};
use std::fs;
use std::fs::File;
use std::io::IsTerminal;
use std::os::unix::fs::MetadataExt;

/// After how many seconds a connection ends that says nothing and takes nothing, and one that was never answered.
const IDLE_SECONDS: u64 = 3_600;

const UNANSWERED_SECONDS: u64 = 30;

/// How many bytes all connections together may be owed.
const MOST_OWED: u64 = 1_073_741_824;

/// The rights of all but the owner, in the bits of a file's mode.
const NOT_THE_OWNERS: u32 = 0o077;

/// What is said of passwords of which one ends in a character that nobody types.
const CARRIAGE_RETURN: &str =
    "a password ends in a carriage return, which is taken as a part of it; give it without where it is not meant";

/// What is said where passwords are typed.
const ARE_TYPED: &str =
    "the passwords of the accounts, each in a line of its own, then Ctrl-D; what is typed is seen";

/// How much there is in a journal; None where there is no such file, or nothing in it.
fn measured_journal(rt: &HostRuntime, path: &str) -> Result<Option<Measured>, KeptFault> {
    let words = JournalWords {
        path,
        settles: false,
    };
    if !words.has_bytes(rt)? {
        return Ok(None);
    }
    let JournalFiles { tree, numbers, .. } = journal_files(rt, path, Space::greatest())?;
    let mut measured = Measured::default();
    for number in numbers.iter() {
        if let Some(view) = tree.entry(*number) {
            measured.entries = measured.entries.saturating_add(1);
            measured.longest = measured.longest.max(view.size);
        }
    }
    measured.bytes = tree.used();
    Ok(Some(measured))
}

/// Says on standard error that the files of a folder take more bytes than the machine has. Nothing is said where the
/// system does not say how many it has.
fn say_memory(rt: &HostRuntime, folder: &str, measured: Measured) {
    if let Some(memory) = memory(rt)
        && measured.bytes > memory
    {
        let (folder, bytes) = (Shown(folder.as_bytes()), measured.bytes);
        let line = format_args!(
            "{folder}: its files take {bytes} bytes, more than the {memory} of this machine's memory: share a part of them, or have more"
        );
        say(rt, Severity::Warning, line);
    }
}

/// What the share begins with: the files of its journal, where there is one, else those of the folder.
fn found_for(rt: &HostRuntime, words: SharingWords<'_>) -> Result<Found, Fault> {
    let journal = match words.journal {
        Some(path) => match measured_journal(rt, path) {
            Ok(journal) => journal,
            Err(fault) => return Err(Fault::Kept(fault).of_journal(rt.alloc(), path)),
        },
        None => None,
    };
    let name = share_name(rt, words.folder, words.name)?;
    if let Some(measured) = journal {
        return Ok(Found {
            name,
            measured,
            goes_on: true,
        });
    }
    let measured = measure(rt, words.folder)?;
    say_memory(rt, words.folder, measured);
    Ok(Found {
        name,
        measured,
        goes_on: false,
    })
}

/// Says on standard error that others than its owner have a right to a file of passwords.
fn say_others(rt: &HostRuntime, name: &str, file: &File) {
    if let Ok(metadata) = file.metadata()
        && metadata.mode() & NOT_THE_OWNERS != 0
    {
        let name = Shown(name.as_bytes());
        let line = format_args!(
            "passwords of {name}: others than its owner have a right to it (chmod 600)"
        );
        say(rt, Severity::Warning, line);
    }
}

/// What a file of passwords has.
fn passwords_in(rt: &HostRuntime, name: &str) -> Result<Vec<u8>, Fault> {
    let (alloc, from) = (rt.alloc(), Passwords::File(name));
    match fs::open(rt, name) {
        Ok(file) => {
            say_others(rt, name, &file);
            Ok(read_passwords(alloc, from, file)?)
        }
        Err(error) => Err(Fault::Sharing(from.unread(alloc, error.kind()))),
    }
}

/// What standard input has of passwords.
fn passwords_of_input(rt: &HostRuntime) -> Result<Vec<u8>, Fault> {
    if rt.stdin().is_terminal() {
        say(rt, Severity::Informational, ARE_TYPED);
    }
    Ok(read_passwords(rt.alloc(), Passwords::StandardInput, rt.stdin())?)
}

/// Whether a line ends in a carriage return.
fn has_return(read: &[u8]) -> bool {
    let mut lines = read.split(|byte| *byte == b'\n');
    lines.any(|line| line.ends_with(b"\r"))
}

/// The accounts with their passwords, which are read where there are accounts.
fn with_passwords(
    rt: &HostRuntime,
    words: SharingWords<'_>,
    accounts: Vec<Account>,
) -> Result<Vec<Account>, Fault> {
    if accounts.is_empty() {
        return Ok(accounts);
    }
    let (from, read) = match words.passwords {
        Some(name) => (Passwords::File(name), passwords_in(rt, name)?),
        None => (Passwords::StandardInput, passwords_of_input(rt)?),
    };
    let accounts = accounts_of(rt.alloc(), from, &read, accounts)?;
    if has_return(&read) {
        say(rt, Severity::Warning, CARRIAGE_RETURN);
    }
    Ok(accounts)
}

/// The words by which `serve` serves it: with the files of the folder, unless the journal goes on.
fn serve_words<'a>(
    words: SharingWords<'a>,
    texts: &'a Texts,
    said: &'a Said,
    goes_on: bool,
    facts: &'a TcpFacts,
) -> ServeWords<'a> {
    let journal = match words.journal {
        Some(path) => Some(JournalWords {
            path,
            settles: false,
        }),
        None => None,
    };
    ServeWords {
        texts,
        login: Login::Ntlm(NtlmWords {
            seed: None,
            signing: None,
        }),
        listen: words.listen,
        hosts: words.hosts,
        per_address: words.per_address,
        turns: u64::MAX,
        idle_seconds: IDLE_SECONDS,
        unanswered_seconds: UNANSWERED_SECONDS,
        most_owed: MOST_OWED,
        record: None,
        journal,
        from: if goes_on { None } else { Some(words.folder) },
        skips: words.skips,
        clock: None,
        log: None,
        status: None,
        facts,
        said: Some(said),
    }
}

/// Serves a folder's files as the words say, by the configuration and the accounts that are made for them, until it is
/// ended. Where their journal is there, it goes on with its files, and the folder is not looked at. All that the words
/// ask for is looked at before passwords are read.
pub fn share_folder(
    rt: &HostRuntime,
    words: SharingWords<'_>,
    facts: &TcpFacts,
) -> Result<(), Fault> {
    let alloc = rt.alloc();
    let wanted = Wanted::of(alloc, words)?;
    drop(hosts_of(alloc, words.hosts)?);
    let found = found_for(rt, words)?;
    let goes_on = found.goes_on;
    let Plan { config, said } = Plan::new(alloc, words, &wanted, found, random_seed()?)?;
    let accounts = with_passwords(rt, words, wanted.accounts)?;
    let texts = Texts {
        config,
        is_built_in: false,
        everyone_writes: false,
        accounts: Some(accounts_text(alloc, &accounts)?),
    };
    serve_share(rt, &serve_words(words, &texts, &said, goes_on, facts))
}
