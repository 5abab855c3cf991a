//! Plays the rows of standard input: each is a text of events, in bytes, and the answers to it, set by hand from the
//! standard's tables. Prints `ok NAME` for each row whose answers are those that a share gives, over the tree and the opens
//! that the program serves and over the plain ones, and else what is wrong with it; then the status is 1.
//!
//! docs/TESTING.md says how a row is written. With the word `plain` it replays a text of events over the plain pair, as smbshare
//! does over its own, and with the word `reasons` it prints of each row why requests are refused (reasons.rt). With the word `refusals`
//! it plays events on a share that goes on where memory runs out (refusals.rt).
#![tactic(auto)]

mod book;
mod differ;
mod fault;
mod one_by_one;
mod reasons;
mod refusals;
mod row;
mod served;
mod steps;
mod unopened;
mod words;

use book::Book;
use differ::tell;
use fault::PlayFault;
use reasons::print_reasons;
use refusals::play_events;
use row::{Kind, Row};
use smb_config::BUILT_IN;
use smb_replay::{replay_ntlm_text, replay_plain_text, replay_text, show_text};
use std::alloc::{AllocError, Global};
use std::io::{BufWriter, Read};
use std::process::ExitCode;

/// What a row's input gave: its exit status, standard output and standard error.
#[derive(Drop)]
struct Played {
    status: u8,
    output: Vec<u8>,
    errors: Vec<u8>,
}

/// Over which tree and opens a row is played.
#[derive(Clone, Copy)]
enum Pair {
    /// Those that the program serves.
    Slots,
    Plain,
}

/// The pairs over which a row of a kind is played: a login changes no tree and no opens.
fn pairs_of(kind: Kind) -> &'static [Pair] {
    match kind {
        Kind::Ntlm(_) => &[Pair::Slots],
        Kind::Replay | Kind::Show => &[Pair::Slots, Pair::Plain],
    }
}

/// Plays a row on a new share.
fn play(alloc: Global, row: &Row, pair: Pair) -> Played {
    let mut output = Vec::new(alloc);
    let mut errors = Vec::new(alloc);
    let (config, accounts) = (row.config.as_str(), row.accounts.as_str());
    let input = row.input.as_bytes();
    let status = match row.kind {
        Kind::Replay => match pair {
            Pair::Slots => replay_text(alloc, config, input, &mut output, &mut errors),
            Pair::Plain => replay_plain_text(alloc, config, input, &mut output, &mut errors),
        },
        Kind::Ntlm(seed) => {
            let (output, errors) = (&mut output, &mut errors);
            replay_ntlm_text(alloc, config, accounts, seed, input, output, errors)
        }
        Kind::Show => show_text(alloc, input, &mut output, &mut errors),
    };
    Played {
        status,
        output,
        errors,
    }
}

/// Whether a row gave what it says; where it did not, prints what differs.
fn is_as_said(rt: &HostRuntime, row: &Row, played: &Played) -> bool {
    let output = std::str::from_utf8(&played.output).unwrap_or("?");
    let errors = std::str::from_utf8(&played.errors).unwrap_or("?");
    if output == row.output.as_str()
        && errors == row.errors.as_str()
        && played.status == row.status
    {
        return true;
    }
    tell(rt, "answer", row.output.as_str(), output);
    tell(rt, "error", row.errors.as_str(), errors);
    let (wanted, found) = (row.status, played.status);
    if wanted != found {
        let _ = println!(rt; "  status wanted {wanted}, found {found}");
    }
    false
}

/// Prints whether a row is as it says over each of its pairs, and tells it.
fn is_well(rt: &HostRuntime, row: &Row) -> bool {
    let name = row.name.as_str();
    if let Some(fault) = row.standing_fault() {
        let _ = println!(rt; "{name}: {fault}");
        return false;
    }
    for pair in pairs_of(row.kind) {
        let played = play(rt.alloc(), row, *pair);
        if !is_as_said(rt, row, &played) {
            let _ = println!(rt; "{name} differs");
            return false;
        }
    }
    let _ = println!(rt; "ok {name}");
    true
}

/// What is printed of rows.
#[derive(Clone, Copy, PartialEq, Eq)]
enum Printing {
    /// Whether they are as they say.
    Results,
    /// Why their requests are refused.
    Reasons,
}

/// Plays the rows of a text, and returns whether all are well.
fn play_rows(rt: &HostRuntime, text: &str, printing: Printing) -> Result<bool, AllocError> {
    let book = Book::read(rt.alloc(), text)?;
    if let Some((line, fault)) = book.fault {
        let _ = println!(rt; "line {line}: {fault}");
        return Ok(false);
    }
    if book.rows.is_empty() {
        let _ = println!(rt; "no rows");
        return Ok(false);
    }
    let mut all = true;
    for row in &book.rows {
        match printing {
            Printing::Results => {
                let well = is_well(rt, row);
                all = all && well;
            }
            Printing::Reasons => print_reasons(rt, row),
        }
    }
    Ok(all)
}

/// Plays the rows of standard input, and gives the exit status.
fn play_input(rt: &HostRuntime, printing: Printing) -> Result<ExitCode, AllocError> {
    let mut input = Vec::new(rt.alloc());
    if rt.stdin().read_to_end(&mut input).is_err() {
        return Err(AllocError);
    }
    match std::str::from_utf8(&input) {
        Ok(text) => Ok(ExitCode::from(u8::from(!play_rows(rt, text, printing)?))),
        Err(_) => {
            let _ = println!(rt; "not text");
            Ok(ExitCode::FAILURE)
        }
    }
}

/// Replays the events of standard input on a share over the plain pair, as the program does over its own.
fn replay_input(rt: &HostRuntime) -> Result<ExitCode, AllocError> {
    let Ok(mut output) = BufWriter::new(rt.alloc(), rt.stdout()) else {
        return Err(AllocError);
    };
    let mut errors = rt.stderr();
    let status = replay_plain_text(rt.alloc(), BUILT_IN, rt.stdin(), &mut output, &mut errors);
    Ok(ExitCode::from(status))
}

/// Plays events on a share that goes on where memory runs out, and gives the exit status.
fn refuse(rt: &HostRuntime, words: &[String]) -> ExitCode {
    match play_events(rt, words) {
        Ok(()) => ExitCode::SUCCESS,
        Err(fault) => told(rt, fault),
    }
}

/// Prints a fault on standard error, and gives its exit status.
fn told(rt: &HostRuntime, fault: PlayFault) -> ExitCode {
    let _ = eprintln!(rt; "{fault}");
    ExitCode::from(fault.status())
}

/// Does what the words of the command line say: with none it plays rows.
fn run(rt: &HostRuntime) -> Result<ExitCode, AllocError> {
    let words: Vec<String> = match std::env::args(rt) {
        Ok(words) => words.collect(rt.alloc())?,
        Err(_) => return Err(AllocError),
    };
    match words.as_slice() {
        [_, word, ways @ ..] if word.as_str() == "refusals" => Ok(refuse(rt, ways)),
        [_, word] if word.as_str() == "plain" => replay_input(rt),
        [_, word] if word.as_str() == "reasons" => play_input(rt, Printing::Reasons),
        _ => play_input(rt, Printing::Results),
    }
}

fn main(rt: HostRuntime) -> ExitCode {
    match run(&rt) {
        Ok(status) => status,
        Err(error) => told(&rt, PlayFault::from(error)),
    }
}
