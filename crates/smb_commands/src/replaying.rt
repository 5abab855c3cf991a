//! Events performed without serving a share: those of standard input, and those of a recording, whose answers are
//! printed or whose files are taken out.

use crate::hearing::Hearing;
use smb_command_line::{Login, NtlmWords, Texts};
use smb_command_parts::{Fault, LogWords, ntlm_of, read_accounts, say_cut, say_cut_batch};
use smb_config::Configuration;
use smb_engine::{Answer, Authenticator, Event, HandleTable, NodeTree, Share, Tokens};
use smb_journal::{Form, JournalFault, LimitedConfig, Mailbox, RecordedLogin};
use smb_kept::{
    Hears, KeptFault, Kind, SalvageReport, nobody, perform_file, read_recording, recorded_login,
    share_of,
};
use smb_ntlm::SigningMode;
use smb_peers::{Acting, Ending, Observer, Responded};
use smb_reason::{Reason, Shown};
use smb_refusals::LoginRefusal;
use smb_replay::{CommandFault, ReplayWords, check_unsigned, replay_heard, write_answers};
use smb_wire::limits::Limits;
use std::fs;
use std::io::{BufWriter, ErrorKind, Write};

/// Where standard input is read again from its start, where it is a file.
pub const STANDARD_INPUT: &str = "/dev/stdin";

/// Replays standard input on a share, and gives the exit status.
fn replay_by<A: Authenticator + Drop>(
    rt: &HostRuntime,
    limited: LimitedConfig,
    authenticator: A,
    mut hearing: Hearing<'_>,
    words: ReplayWords<'_>,
) -> Result<u8, Fault> {
    let alloc = rt.alloc();
    let Ok(mut output) = BufWriter::new(alloc, rt.stdout()) else {
        return Err(Fault::Command(CommandFault::NoMemory));
    };
    let mut errors = rt.stderr();
    let mut share = share_of(alloc, limited, authenticator)?;
    let status = replay_heard(
        alloc,
        &mut share,
        words,
        rt.stdin(),
        &mut output,
        &mut errors,
        &mut hearing,
    );
    hearing.finish(share.usage());
    Ok(status)
}

/// Replays standard input on a share to which clients log in by NTLM, and gives the exit status.
fn replay_by_ntlm(
    rt: &HostRuntime,
    texts: &Texts,
    configuration: Configuration,
    ntlm_words: NtlmWords,
    log: Option<LogWords<'_>>,
    words: ReplayWords<'_>,
) -> Result<u8, Fault> {
    let accounts = read_accounts(rt.alloc(), texts.accounts())?;
    let ntlm = ntlm_of(
        rt.alloc(),
        &configuration,
        accounts,
        ntlm_words,
        SigningMode::Off,
    )?;
    let Configuration { limits, config, .. } = configuration;
    let hearing = Hearing::open(rt, log, limits, config.created)?;
    replay_by(rt, LimitedConfig { limits, config }, ntlm, hearing, words)
}

/// Replays standard input on a share to which clients log in by tokens, and gives the exit status.
fn replay_by_token(
    rt: &HostRuntime,
    configuration: Configuration,
    log: Option<LogWords<'_>>,
    words: ReplayWords<'_>,
) -> Result<u8, Fault> {
    check_unsigned(&configuration)?;
    let Configuration {
        limits,
        config,
        authenticator,
        ..
    } = configuration;
    let hearing = Hearing::open(rt, log, limits, config.created)?;
    let limited = LimitedConfig { limits, config };
    replay_by(rt, limited, authenticator, hearing, words)
}

/// Replays standard input on a share of these texts, and gives the exit status.
pub fn replay_input(
    rt: &HostRuntime,
    texts: &Texts,
    login: Login,
    log: Option<LogWords<'_>>,
    words: ReplayWords<'_>,
) -> Result<u8, Fault> {
    let configuration = Configuration::read(rt.alloc(), texts.config.as_str())?;
    match login {
        Login::Token => replay_by_token(rt, configuration, log, words),
        Login::Ntlm(ntlm_words) => replay_by_ntlm(rt, texts, configuration, ntlm_words, log, words),
    }
}

/// Writes what the share answers, and logs it, up to a piece in which somebody was asked: it was never answered.
#[derive(Drop)]
struct Printer<'m, W: Write + Drop> {
    output: W,
    mailbox: &'m Mailbox,
    hearing: Hearing<'m>,
    has_failed: bool,
}

impl<W: Write + Drop> Observer for Printer<'_, W> {
    ghost use Rattle.std.specs.Prelude.{[], false};

    ghost observed = { λ printer. [] };

    ghost keeps = { λ printer. false };

    fn listens(&self) -> bool {
        self.hearing.listens()
    }

    fn note_subject(&mut self, user: &[u8], file: Option<&[u8]>) {
        self.hearing.note_subject(user, file);
    }

    fn performed(&mut self, connection: u64, moment: u64, request: &[u8], acting: Acting) {
        if !self.mailbox.has_asked() {
            self.hearing.performed(connection, moment, request, acting);
        }
    }

    fn responded(&mut self, connection: u64, response: Responded) {
        if !self.mailbox.has_asked() {
            self.hearing.responded(connection, response);
        }
    }

    fn denied(&mut self, connection: u64, reason: LoginRefusal, name: &[u8]) {
        if !self.mailbox.has_asked() {
            self.hearing.denied(connection, reason, name);
        }
    }

    fn let_in(&mut self, connection: u64, session_id: u64, user: &[u8]) {
        if !self.mailbox.has_asked() {
            self.hearing.let_in(connection, session_id, user);
        }
    }

    fn ended(&mut self, connection: u64, ending: Ending) {
        self.hearing.ended(connection, ending);
    }
}

impl<W: Write + Drop> Hears for Printer<'_, W> {
    fn hear(&mut self, event: &Event, answers: &[Answer]) -> Result<(), JournalFault> {
        if self.mailbox.has_asked() {
            return Ok(());
        }
        smb_replay::Hears::hear(&mut self.hearing, event, answers);
        if !answers.is_empty() && write_answers(answers, &mut self.output).is_err() {
            self.has_failed = true;
            return Err(JournalFault::Unwritten(Reason(ErrorKind::BrokenPipe)));
        }
        Ok(())
    }

    fn cut_short(&mut self, connection: u64) {
        self.hearing.cut_short(connection);
    }
}

/// A share whose recording is printed: its clients are let in by the recorded answers.
#[derive(Drop)]
struct Printed<'m> {
    share: Share<RecordedLogin<'m, Tokens>, NodeTree, HandleTable>,
    limits: Limits,
    /// When it was made, in units of 100 ns since 1601.
    created: u64,
}

/// The share of a recording, on which nothing is performed yet.
fn printed_of<'m>(
    rt: &HostRuntime,
    path: &str,
    mailbox: &'m Mailbox,
) -> Result<Printed<'m>, Fault> {
    let alloc = rt.alloc();
    let (header, given) = read_recording(rt, path)?;
    let limited = header.config(alloc).map_err(KeptFault::Recording)?;
    let (limits, created) = (limited.limits, limited.config.created);
    let login = recorded_login(
        header.hello,
        header.signing_required,
        given,
        nobody(alloc)?,
        mailbox,
    )?;
    let share = share_of(alloc, limited, login)?;
    Ok(Printed {
        share,
        limits,
        created,
    })
}

/// Performs a recording on its share, and prints what it answers.
fn print_events<A: Authenticator + Drop>(
    rt: &HostRuntime,
    path: &str,
    share: &mut Share<A, NodeTree, HandleTable>,
    mailbox: &Mailbox,
    hearing: Hearing<'_>,
) -> Result<(), Fault> {
    let Ok(output) = BufWriter::new(rt.alloc(), rt.stdout()) else {
        return Err(Fault::Command(CommandFault::NoMemory));
    };
    let mut printer = Printer {
        output,
        mailbox,
        hearing,
        has_failed: false,
    };
    let performed = perform_file(rt, path, share, &mut printer);
    let has_failed = printer.has_failed;
    printer.hearing.finish(share.usage());
    match performed {
        Ok(_) => Ok(()),
        Err(_) if has_failed => Err(Fault::Command(CommandFault::OutputFailed)),
        Err(fault) => Err(Fault::Kept(fault)),
    }
}

/// Prints what a share answered that is recorded in a file, and logs it where the words ask for it.
fn print_logged(rt: &HostRuntime, path: &str, log: Option<LogWords<'_>>) -> Result<(), Fault> {
    let mailbox = Mailbox::new(rt.alloc());
    mailbox.close();
    match printed_of(rt, path, &mailbox) {
        Ok(mut printed) => {
            let hearing = Hearing::open(rt, log, printed.limits, printed.created)?;
            print_events(rt, path, &mut printed.share, &mailbox, hearing)
        }
        Err(fault) => Err(fault),
    }
}

/// Prints what a share answered that is recorded in a file, a line for each frame, and for each connection that it
/// ended.
pub fn print_recording(
    rt: &HostRuntime,
    path: &str,
    log: Option<LogWords<'_>>,
) -> Result<(), Fault> {
    match print_logged(rt, path, log) {
        Ok(()) => Ok(()),
        Err(fault) => Err(fault.of_file(rt.alloc(), Form::Journal, path)),
    }
}

/// Refuses a standard input that can't be read twice.
pub fn check_input(rt: &HostRuntime) -> Result<(), Fault> {
    match fs::metadata(rt, STANDARD_INPUT) {
        Ok(found) if found.is_file() => Ok(()),
        _ => Err(Fault::Kept(KeptFault::Recording(JournalFault::NoFile))),
    }
}

/// Says on standard error that the end of what was read on standard input was cut, where bytes of it are left out.
pub fn say_left_out(rt: &HostRuntime, kind: Kind, left_out: u64) {
    match kind {
        Kind::Journal => say_cut_batch(rt, "standard input", left_out),
        Kind::Recording(form) => say_cut(rt, form, "standard input", left_out),
    }
}

/// Says on standard error what is not there of a journal that was salvaged into a folder.
fn say_salvage(rt: &HostRuntime, folder: &str, salvage: &SalvageReport) {
    let folder = folder.trim_end_matches('/');
    for damage in salvage.damage.iter() {
        let _ = eprintln!(rt;
            "journal: standard input: bytes {} to {} are damaged",
            damage.from, damage.to
        );
    }
    for loss in salvage.losses.iter() {
        let _ = eprintln!(rt;
            "folder: {}/{}: {}",
            Shown(folder.as_bytes()),
            loss.path,
            loss.missing
        );
    }
    let _ = if salvage.damage.is_empty() {
        eprintln!(rt; "journal: {}", salvage.fault)
    } else {
        eprintln!(rt; "journal: standard input: of what lay wholly in the damage nothing is known")
    };
}

/// Makes a new folder of the files and folders that the journal or recording on standard input leaves. Standard error
/// says where its end was cut, and has a line for each file or folder that was not taken out whole. Of a journal that
/// is damaged what is whole is salvaged, where that is asked for.
pub fn extract(rt: &HostRuntime, folder: &str, salvages: bool) -> Result<(), Fault> {
    check_input(rt)?;
    let extracted = if salvages {
        smb_kept::salvage(rt, STANDARD_INPUT, folder)?
    } else {
        smb_kept::extract(rt, STANDARD_INPUT, folder)?
    };
    say_left_out(rt, extracted.kind, extracted.left_out);
    if let Some(salvage) = &extracted.salvage {
        say_salvage(rt, folder, salvage);
    }
    for fault in extracted.refused.iter() {
        let _ = eprintln!(rt; "folder: {fault}");
    }
    if extracted.refused.is_empty() && extracted.salvage.is_none() {
        Ok(())
    } else {
        Err(Fault::NotExtracted)
    }
}
