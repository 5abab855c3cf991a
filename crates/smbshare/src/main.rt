//! The command `smbshare`: a proved SMB2 file share.
#![tactic(auto)]

use clap::ArgMatches;
use clap::error::ErrorKind as WordFault;
use smb_command_line::{CommandLine, Login, Texts, account_of, command, login_of};
use smb_command_parts::{Fault, Level, LogWords, Severity, StandardError};
use smb_commands::{
    account, check, check_journal, compact, extract, print_recording, replay_input,
};
use smb_config::BUILT_IN;
use smb_replay::{CommandFault, Detail, Given, ReplayWords, hash_password, show_fields, show_text};
use smb_serve_command::{
    JournalWords, KeepWords, ServeWords, SharingWords, StatusWords, TcpFacts, serve_share,
    share_folder,
};
use std::io::{BufWriter, ErrorKind, IsTerminal};
use std::process::ExitCode;

/// Where `share` listens where its words say nothing of it.
const SHARED_AT: &[&str] = &["127.0.0.1:4450"];

/// Prints a fault on standard error, and gives its exit status.
fn report(rt: &HostRuntime, fault: CommandFault, detail: Detail<'_>) -> ExitCode {
    let mut errors = StandardError::new(rt, Severity::Error);
    ExitCode::from(fault.report(rt.alloc(), detail, &mut errors))
}

/// The exit status of a command that ended so, whose fault is printed on standard error.
fn status_of(rt: &HostRuntime, ended: Result<(), Fault>, detail: Detail<'_>) -> ExitCode {
    match ended {
        Ok(()) => ExitCode::SUCCESS,
        Err(fault) => {
            let mut errors = StandardError::new(rt, Severity::Error);
            ExitCode::from(fault.report(rt.alloc(), detail, &mut errors))
        }
    }
}

/// The value of an option, or nothing.
fn word_of<'a>(words: &'a ArgMatches<'_>, option: &str) -> &'a str {
    match words.get_str(option) {
        Some(word) => word,
        None => "",
    }
}

/// What the words of a command give, with the texts of their files, once these are read.
fn given_of<'a>(words: &'a ArgMatches<'_>, texts: Option<&'a Texts>) -> Given<'a> {
    Given {
        file: word_of(words, "config"),
        document: texts.map(|texts| texts.config.as_str()).unwrap_or(""),
        accounts_file: word_of(words, "accounts"),
        accounts: texts.and_then(Texts::accounts).unwrap_or(""),
        address: word_of(words, "listen"),
    }
}

/// How much is said of a fault: all where the words ask for it, and where a person reads it.
fn detail_of<'a>(
    rt: &HostRuntime,
    words: &'a ArgMatches<'_>,
    texts: Option<&'a Texts>,
) -> Detail<'a> {
    if words.get_flag("explain") || rt.stderr().is_terminal() {
        Detail::Explained(given_of(words, texts))
    } else {
        Detail::Brief
    }
}

/// How much is said of a fault where there are no words.
fn detail_without_words(rt: &HostRuntime) -> Detail<'static> {
    if rt.stderr().is_terminal() {
        Detail::Explained(Given {
            file: "",
            document: BUILT_IN,
            accounts_file: "",
            accounts: "",
            address: "",
        })
    } else {
        Detail::Brief
    }
}

/// Replays standard input on a share of these texts, and gives the exit status.
fn replay_texts(
    rt: &HostRuntime,
    texts: &Texts,
    login: Login,
    log: Option<LogWords<'_>>,
    words: ReplayWords<'_>,
) -> ExitCode {
    match replay_input(rt, texts, login, log, words) {
        Ok(status) => ExitCode::from(status),
        Err(fault) => status_of(rt, Err(fault), words.detail),
    }
}

/// Replays standard input on a share of the configuration that is built in, and gives the exit status.
fn replay_without_words(rt: &HostRuntime) -> ExitCode {
    let detail = detail_without_words(rt);
    match Texts::built_in(rt.alloc()) {
        Ok(texts) => replay_texts(rt, &texts, Login::Token, None, ReplayWords::of(detail)),
        Err(_) => report(rt, CommandFault::NoMemory, detail),
    }
}

/// Shows the stream of standard input, with fields or without, and gives the exit status.
fn show_input(rt: &HostRuntime, with_fields: bool) -> ExitCode {
    let Ok(mut output) = BufWriter::new(rt.alloc(), rt.stdout()) else {
        return report(rt, CommandFault::NoMemory, Detail::Brief);
    };
    let (alloc, mut errors) = (rt.alloc(), StandardError::new(rt, Severity::Error));
    ExitCode::from(if with_fields {
        show_fields(alloc, rt.stdin(), &mut output, &mut errors)
    } else {
        show_text(alloc, rt.stdin(), &mut output, &mut errors)
    })
}

/// Prints the hash of the password on standard input, and gives the exit status.
fn hash_input(rt: &HostRuntime) -> ExitCode {
    let (mut output, mut errors) = (rt.stdout(), StandardError::new(rt, Severity::Error));
    let status = hash_password(rt.alloc(), rt.stdin(), &mut output, &mut errors);
    ExitCode::from(status)
}

/// Where a share is recorded, and how, where the words say that it is.
fn record_of<'a>(words: &'a ArgMatches<'_>) -> Option<KeepWords<'a>> {
    Some(KeepWords {
        path: words.get_str("record")?,
        settles: words.get_flag("sync"),
    })
}

/// Where a share's files are kept, and how, where the words say that they are.
fn journal_of<'a>(words: &'a ArgMatches<'_>) -> Option<JournalWords<'a>> {
    Some(JournalWords {
        path: words.get_str("journal")?,
        settles: words.get_flag("sync"),
    })
}

/// Where a share is logged, and how, where the words say that it is. With `must` it ends where a line can't be written.
fn log_words_of<'a>(words: &'a ArgMatches<'_>, must: bool) -> Option<LogWords<'a>> {
    let level = match words.get_str("log-level") {
        Some("sessions") => Level::Sessions,
        Some("requests") => Level::Requests,
        _ => Level::Refusals,
    };
    Some(LogWords {
        path: words.get_str("log")?,
        level,
        must,
    })
}

/// Where a share's status is answered, where the words say that it is.
fn status_of_words<'a>(words: &'a ArgMatches<'_>) -> Option<StatusWords<'a>> {
    Some(StatusWords {
        address: words.get_str("status")?,
        anywhere: words.get_flag("status-anywhere"),
        shows_names: words.get_flag("status-names"),
    })
}

/// The words by which a share is served.
fn serve_words<'a>(
    texts: &'a Texts,
    login: Login,
    words: &'a ArgMatches<'_>,
    facts: &'a TcpFacts,
) -> ServeWords<'a> {
    ServeWords {
        texts,
        login,
        listen: words.get_strs("listen").unwrap_or(&[]),
        hosts: words.get_str("hosts"),
        per_address: words.get_one("per-address"),
        turns: words.get_one("turns").unwrap_or(u64::MAX),
        idle_seconds: words.get_one("idle").unwrap_or(3600),
        unanswered_seconds: words.get_one("idle-new").unwrap_or(30),
        most_owed: words.get_one("owed").unwrap_or(1_073_741_824),
        record: record_of(words),
        journal: journal_of(words),
        from: words.get_str("from"),
        skips: words.get_flag("skip"),
        clock: words.get_one("clock"),
        log: log_words_of(words, words.get_flag("log-must")),
        status: status_of_words(words),
        facts,
        said: None,
    }
}

/// Serves a share by the words of the command, and gives the exit status.
fn serve_clients<'a>(
    rt: &HostRuntime,
    texts: &'a Texts,
    login: Login,
    words: &'a ArgMatches<'_>,
    facts: &'a TcpFacts,
) -> ExitCode {
    let ended = serve_share(rt, &serve_words(texts, login, words, facts));
    status_of(rt, ended, detail_of(rt, words, Some(texts)))
}

/// Shares a folder by the words of the command, and gives the exit status. Of a fault all is said.
fn share_with_clients(rt: &HostRuntime, words: &ArgMatches<'_>) -> ExitCode {
    let Ok(facts) = TcpFacts::new(rt.alloc()) else {
        return report(rt, CommandFault::NoMemory, Detail::Brief);
    };
    let sharing = SharingWords {
        folder: word_of(words, "folder"),
        skips: words.get_flag("skip"),
        name: words.get_str("name"),
        accounts: words.get_strs("account").unwrap_or(&[]),
        passwords: words.get_str("passwords"),
        guests: words.get_flag("guests"),
        capacity: words.get_str("capacity"),
        listen: words.get_strs("listen").unwrap_or(SHARED_AT),
        hosts: words.get_str("hosts"),
        per_address: words.get_one("per-address"),
        journal: words.get_str("journal"),
    };
    let ended = share_folder(rt, sharing, &facts);
    let given = Given {
        file: "",
        document: "",
        accounts_file: "",
        accounts: "",
        address: "",
    };
    status_of(rt, ended, Detail::Explained(given))
}

/// Runs a command that has a share.
fn run_with_share(
    rt: &HostRuntime,
    name: &str,
    line: &CommandLine,
    words: &ArgMatches<'_>,
    login: Login,
) -> ExitCode {
    if name == "replay"
        && let Some(path) = words.get_str("recording")
    {
        let printed = print_recording(rt, path, log_words_of(words, false));
        return status_of(rt, printed, detail_of(rt, words, None));
    }
    let texts = match Texts::read(rt, line, words) {
        Ok(texts) => texts,
        Err(fault) => return report(rt, fault, detail_of(rt, words, None)),
    };
    if name == "serve" {
        return match TcpFacts::new(rt.alloc()) {
            Ok(facts) => serve_clients(rt, &texts, login, words, &facts),
            Err(_) => report(rt, CommandFault::NoMemory, Detail::Brief),
        };
    }
    if name == "check" {
        let checked = check(rt, &texts, login);
        return status_of(rt, checked, detail_of(rt, words, Some(&texts)));
    }
    let replay_words = ReplayWords {
        detail: detail_of(rt, words, Some(&texts)),
        with_reasons: words.get_flag("reasons"),
    };
    let log = log_words_of(words, false);
    replay_texts(rt, &texts, login, log, replay_words)
}

/// Runs the command that was asked for.
fn run_command(
    rt: &HostRuntime,
    line: &CommandLine,
    command: Option<(&str, &ArgMatches<'_>)>,
    login: Login,
) -> ExitCode {
    match command {
        Some(("share", words)) => share_with_clients(rt, words),
        Some(("show", words)) => show_input(rt, words.get_flag("fields")),
        Some(("nt-hash", _)) => hash_input(rt),
        Some(("extract", words)) => {
            let ended = extract(rt, word_of(words, "folder"), words.get_flag("salvage"));
            status_of(rt, ended, Detail::Brief)
        }
        Some(("compact", _)) => status_of(rt, compact(rt), Detail::Brief),
        Some(("check-journal", words)) => {
            let checked = check_journal(rt, word_of(words, "file"));
            status_of(rt, checked, Detail::Brief)
        }
        Some((name, words)) => run_with_share(rt, name, line, words, login),
        None => replay_without_words(rt),
    }
}

/// Prints the help, the version or what is wrong with the words, and gives the exit status.
fn print_instead(rt: &HostRuntime, instead: &clap::Error) -> Result<ExitCode, CommandFault> {
    if instead.kind() == WordFault::OutOfMemory {
        return Err(CommandFault::NoMemory);
    }
    match instead.print(rt) {
        Err(error) if error.kind() == ErrorKind::OutOfMemory => Err(CommandFault::NoMemory),
        Err(_) if !instead.use_stderr() => Err(CommandFault::OutputFailed),
        _ => Ok(ExitCode::from(instead.exit_code() as u8)),
    }
}

/// Prints what is wrong with the words of the command line, and gives the exit status.
fn refuse_words(
    rt: &HostRuntime,
    kind: WordFault,
    message: &str,
) -> Result<ExitCode, CommandFault> {
    let mut command = command(rt.alloc())?;
    let error = command.error(kind, message)?;
    print_instead(rt, &error)
}

/// Runs the command `account`, where its words go together.
fn run_account(rt: &HostRuntime, words: &ArgMatches<'_>) -> Result<ExitCode, CommandFault> {
    match account_of(words) {
        Ok(words) => Ok(status_of(rt, account(rt, &words), Detail::Brief)),
        Err(message) => refuse_words(rt, WordFault::ArgumentConflict, message),
    }
}

/// Runs the command of words that are taken one by one, where they go together.
fn run_matched(
    rt: &HostRuntime,
    line: &CommandLine,
    matches: &ArgMatches<'_>,
) -> Result<ExitCode, CommandFault> {
    if let Some(("account", words)) = matches.subcommand() {
        return run_account(rt, words);
    }
    match login_of(matches.subcommand()) {
        Ok(login) => Ok(run_command(rt, line, matches.subcommand(), login)),
        Err(message) => refuse_words(rt, WordFault::ArgumentConflict, message),
    }
}

/// Runs the command of the command line.
fn run(rt: &HostRuntime) -> Result<ExitCode, CommandFault> {
    let Some(line) = CommandLine::read(rt)? else {
        let message = "a word of the command line is not UTF-8";
        return refuse_words(rt, WordFault::ValueValidation, message);
    };
    let command = command(rt.alloc())?;
    match command.try_get_matches_from(line.words.as_slice()) {
        Ok(matches) => run_matched(rt, &line, &matches),
        Err(error) => print_instead(rt, &error),
    }
}

fn main(rt: HostRuntime) -> ExitCode {
    match run(&rt) {
        Ok(status) => status,
        Err(fault) => report(&rt, fault, Detail::Brief),
    }
}
