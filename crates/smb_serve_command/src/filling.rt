//! A share that begins with the files of a folder.

use crate::clock::ServeClock;
use crate::serve::{Serving, serve_peers};
use smb_command_parts::{Fault, Severity, say};
use smb_engine::{Authenticator, Opens, Share, Tree};
use smb_journal::{LimitedConfig, Mailbox, RecordedLogin};
use smb_kept::{
    KeptFault, OwnLine, OwnRecord, Put, own_answers, path_of, put_folder_in, recorded_login,
    share_of,
};
use smb_reason::Shown;
use std::alloc::Global;

/// An authenticator that lets the program's own client in first.
pub fn with_own_client<'m, A: Authenticator + Drop>(
    alloc: Global,
    authenticator: A,
    mailbox: &'m Mailbox,
) -> Result<RecordedLogin<'m, A>, KeptFault> {
    let hello = Vec::from_slice(alloc, authenticator.hello())?;
    let requires_signing = authenticator.requires_signing();
    let given = own_answers(alloc)?;
    recorded_login(hello, requires_signing, given, authenticator, mailbox)
}

/// Says on standard error how many lines of the list beside a folder are of other files.
fn say_others(rt: &HostRuntime, folder: &str, others: u64) {
    if others > 0 {
        let folder = Shown(folder.trim_end_matches('/').as_bytes());
        let line = format_args!(
            "{folder}.attributes: {others} lines are of other files than the folder has: passed over"
        );
        say(rt, Severity::Warning, line);
    }
}

/// Says on standard error what can't be in the share: what is left out, or why it isn't served.
fn say_refused(rt: &HostRuntime, put: &Put, skips: bool) {
    let (severity, end) = if skips {
        (Severity::Warning, ": left out")
    } else {
        (Severity::Error, "")
    };
    for fault in put.refused.iter() {
        say(rt, severity, format_args!("folder: {fault}{end}"));
    }
    if put.more > 0 {
        let more = put.more;
        say(rt, severity, format_args!("folder: and {more} more{end}"));
    }
}

/// Says what of a folder can't be in the share, and ends there, unless the words say that it is left out.
pub fn check_put(serving: Serving<'_, '_>, folder: &str, put: &Put) -> Result<(), Fault> {
    let skips = serving.words.skips;
    say_others(serving.rt, folder, put.others);
    say_refused(serving.rt, put, skips);
    if skips || (put.refused.is_empty() && put.more == 0) {
        Ok(())
    } else {
        Err(Fault::NotPut)
    }
}

/// Puts the files of a folder into a new share of a path, which lets the program's own client in first.
pub fn put_in<A: Authenticator + Drop, T: Tree + Drop, O: Opens + Drop>(
    serving: Serving<'_, '_>,
    folder: &str,
    path: &str,
    share: &mut Share<A, T, O>,
    clock: &mut ServeClock<'_>,
    record: Option<OwnRecord<'_>>,
) -> Result<Put, KeptFault> {
    let mut line = OwnLine::new(share, clock, record);
    put_folder_in(serving.rt, serving.limits, folder, path, &mut line)
}

/// Serves a share of which nothing is kept, once the files of a folder are put in.
fn serve_filled<A: Authenticator + Drop, T: Tree + Drop, O: Opens + Drop>(
    serving: Serving<'_, '_>,
    folder: &str,
    path: &str,
    mut share: Share<A, T, O>,
) -> Result<(), Fault> {
    let mut clock = ServeClock::new(serving.rt, serving.words.clock);
    let put = put_in(serving, folder, path, &mut share, &mut clock, None)?;
    check_put(serving, folder, &put)?;
    serve_peers(serving, &mut share, &mut clock, 2)
}

/// Serves a new share that begins with the files of a folder, of which nothing is kept.
pub fn serve_folder<A: Authenticator + Drop>(
    serving: Serving<'_, '_>,
    folder: &str,
    limited: LimitedConfig,
    authenticator: A,
) -> Result<(), Fault> {
    let alloc = serving.rt.alloc();
    let path = path_of(alloc, limited.config.share.as_str())?;
    let mailbox = Mailbox::new(alloc);
    mailbox.close();
    let login = with_own_client(alloc, authenticator, &mailbox)?;
    match share_of(alloc, limited, login) {
        Ok(share) => serve_filled(serving, folder, path.as_str(), share),
        Err(fault) => Err(Fault::Kept(fault)),
    }
}
