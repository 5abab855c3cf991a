//! A replay: the events of a text, and what the share answers.

ghost use Rattle.std.specs.Prelude.{◌≡◌, [], IfOk};
ghost use Rattle.smb_tree.specs.Content.{new_content_within};

use crate::fault::{CommandFault, Detail};
use crate::hears::{Deaf, Hears};
use crate::input::read_input;
use crate::playing::{Playing, ReasonOutput, ReplayWords};
use crate::script::{Part, Unread};
use smb_config::Configuration;
use smb_engine::{Answer, Authenticator, Event, ServeFault, Share};
use smb_handles::HandleTable;
use smb_journal::write_hex;
use smb_nodes::NodeTree;
use smb_opens::{Opens, PlainOpens};
use smb_session::Tokens;
use smb_tree::{PlainTree, Tree, TreeFault};
use std::alloc::Global;
use std::io;
use std::io::{Read, Write};

/// Writes an answer as a line.
pub(crate) fn write_answer<W: Write>(answer: &Answer, output: &mut W) -> io::Result<()> {
    match answer {
        Answer::Frame(connection, frame) => {
            write!(output, "< {connection} ")?;
            write_hex(frame, output)?;
            writeln!(output)
        }
        Answer::End(connection) => writeln!(output, "x {connection}"),
    }
}

/// Writes answers in order, a line each as [`replay_text`] has them, and has them sent. It takes no memory of its own.
///
/// [`CommandFault::OutputFailed`] where the writer fails.
pub fn write_answers<W: Write>(answers: &[Answer], output: &mut W) -> Result<(), CommandFault> {
    for answer in answers {
        write_answer(answer, output).map_err(|_| CommandFault::OutputFailed)?;
    }
    output.flush().map_err(|_| CommandFault::OutputFailed)
}

/// A new share of a configuration over a tree that was made for it, and a list of opens: the root alone, and nothing is open.
fn share_over<T: Tree + Drop, O: Opens + Drop>(
    alloc: Global,
    configuration: Configuration,
    tree: Result<T, TreeFault>,
    opens: O,
) -> Result<Share<Tokens, T, O>, CommandFault>
    requires tree { IfOk tree (λ made. T.content made ≡ new_content_within configuration.limits configuration.config.created configuration.config.capacity) }
    requires opens { O.content opens ≡ [] }
{
    let Ok(tree) = tree else {
        return Err(CommandFault::NoMemory);
    };
    let Configuration {
        limits,
        config,
        authenticator,
        ..
    } = configuration;
    match Share::within(alloc, limits, config, authenticator, tree, opens) {
        Ok(share) => Ok(share),
        Err(ServeFault::NoMemory { done: _ }) => Err(CommandFault::NoMemory),
        Err(_) => Err(CommandFault::ConfigRefused(None)),
    }
}

/// A new share of a configuration: the root alone, and nothing is open.
pub fn new_share(
    alloc: Global,
    configuration: Configuration,
) -> Result<Share<Tokens, NodeTree, HandleTable>, CommandFault> {
    let (limits, config) = (configuration.limits, &configuration.config);
    let tree = NodeTree::within(alloc, limits, config.created, config.capacity);
    share_over(alloc, configuration, tree, HandleTable::new(alloc))
}

/// A new share over the plain tree and the plain list of opens, for tests: it answers the same, and takes longer.
pub fn new_plain_share(
    alloc: Global,
    configuration: Configuration,
) -> Result<Share<Tokens, PlainTree, PlainOpens>, CommandFault> {
    let (limits, config) = (configuration.limits, &configuration.config);
    let tree = PlainTree::within(alloc, limits, config.created, config.capacity);
    share_over(alloc, configuration, tree, PlainOpens::new(alloc))
}

/// Plays the events of a text on a share, part by part, and writes what it answers.
fn run_text<A: Authenticator + Drop, T: Tree + Drop, O: Opens + Drop, W: Write, E: Write, H: Hears>(
    alloc: Global,
    share: &mut Share<A, T, O>,
    text: &[u8],
    playing: &mut Playing<'_, W, E, H>,
) -> Result<(), CommandFault> {
    let mut left = Some(Unread::of(text));
    while let Some(unread) = left {
        let part = Part::read(alloc, unread)?;
        playing.play_script(share, &part.script)?;
        left = part.left;
    }
    Ok(())
}

/// The events of a whole text in order: its lines are as [`replay_text`] reads them.
///
/// [`CommandFault::Unreadable`] with the first line that cannot be read, where there is one, or
/// [`CommandFault::NoMemory`].
pub fn read_events(alloc: Global, text: &[u8]) -> Result<Vec<Event>, CommandFault> {
    let mut events = Vec::new(alloc);
    let mut left = Some(Unread::of(text));
    while let Some(unread) = left {
        let mut part = Part::read(alloc, unread)?;
        events.append(&mut part.script.events)?;
        if let Some((line, expected)) = part.script.unreadable_at {
            return Err(CommandFault::Unreadable(line, expected));
        }
        left = part.left;
    }
    Ok(events)
}

/// What a replay takes: a configuration, and a text of events.
fn read_replay<R: Read + Drop>(
    alloc: Global,
    config: &str,
    input: R,
) -> Result<(Configuration, Vec<u8>), CommandFault> {
    let configuration = Configuration::read(alloc, config)?;
    let text = read_input(alloc, input)?;
    Ok((configuration, text))
}

/// Replays a text on a new share, and writes what the share answers.
fn replay<R: Read + Drop, W: Write, E: Write>(
    alloc: Global,
    config: &str,
    input: R,
    mut playing: Playing<'_, W, E, Deaf>,
) -> Result<(), CommandFault> {
    let (configuration, text) = read_replay(alloc, config, input)?;
    let mut share = new_share(alloc, configuration)?;
    run_text(alloc, &mut share, &text, &mut playing)
}

/// Replays a text on a share in which nothing has happened yet, and writes what the share answers.
fn replay_on<A: Authenticator + Drop, R: Read + Drop, W: Write, E: Write, H: Hears>(
    alloc: Global,
    share: &mut Share<A, NodeTree, HandleTable>,
    input: R,
    mut playing: Playing<'_, W, E, H>,
) -> Result<(), CommandFault> {
    let text = read_input(alloc, input)?;
    run_text(alloc, share, &text, &mut playing)
}

/// Replays a text on a new plain share, and writes what the share answers.
fn replay_plain<R: Read + Drop, W: Write, E: Write>(
    alloc: Global,
    config: &str,
    input: R,
    mut playing: Playing<'_, W, E, Deaf>,
) -> Result<(), CommandFault> {
    let (configuration, text) = read_replay(alloc, config, input)?;
    let mut share = new_plain_share(alloc, configuration)?;
    run_text(alloc, &mut share, &text, &mut playing)
}

/// Writes the fault of a replay, if there is one, and gives the exit status.
fn status_of<E: Write>(
    alloc: Global,
    replayed: Result<(), CommandFault>,
    detail: Detail<'_>,
    errors: &mut E,
) -> u8 {
    match replayed {
        Ok(()) => 0,
        Err(fault) => fault.report(alloc, detail, errors),
    }
}

/// Replays the events of a text on a new share of this configuration, and gives the exit status.
///
/// The input is one event a line: `+ N` opens a connection, `> N MOMENT HEX` brings a piece of its stream,
/// `- N` ends it; a line that is empty or that `#` begins is skipped. It is read whole before anything is
/// written, and then its events are performed in parts, each answered before the next is read. `output` gets a
/// line `< N HEX` for each reply frame and `x N` where the share ends a connection; `errors` gets the first fault,
/// after the answers to the lines before it. The status is 0, 1 for a fault, and 3 for want of memory.
pub fn replay_text<R: Read + Drop, W: Write, E: Write>(
    alloc: Global,
    config: &str,
    input: R,
    output: &mut W,
    errors: &mut E,
) -> u8 {
    replay_in_detail(alloc, config, Detail::Brief, input, output, errors)
}

/// The same; with [`Detail::Explained`] `errors` gets a second line behind a fault, where there is more to say of it, and before it a
/// line `< N, line L: WHY` for each request that the share refuses, and `x N, line L: WHY` for each connection that it ends.
pub fn replay_in_detail<R: Read + Drop, W: Write, E: Write>(
    alloc: Global,
    config: &str,
    detail: Detail<'_>,
    input: R,
    output: &mut W,
    errors: &mut E,
) -> u8 {
    let mut heard = Deaf;
    let reason_output = ReasonOutput::of(detail, false);
    let playing = Playing::new(alloc, reason_output, output, errors, &mut heard);
    let replayed = replay(alloc, config, input, playing);
    status_of(alloc, replayed, detail, errors)
}

/// The same on a share that the caller made, with an authenticator of its own, in which nothing has happened yet.
pub fn replay_on_share<A: Authenticator + Drop, R: Read + Drop, W: Write, E: Write>(
    alloc: Global,
    mut share: Share<A, NodeTree, HandleTable>,
    detail: Detail<'_>,
    input: R,
    output: &mut W,
    errors: &mut E,
) -> u8 {
    let words = ReplayWords::of(detail);
    replay_heard(alloc, &mut share, words, input, output, errors, &mut Deaf)
}

/// The same, where `heard` observes the share, and hears each event with what is answered, before the next is performed. Words with
/// reasons have them written as comments into `output`, each behind the answer that it is of, and not into `errors`.
pub fn replay_heard<A: Authenticator + Drop, R: Read + Drop, W: Write, E: Write, H: Hears>(
    alloc: Global,
    share: &mut Share<A, NodeTree, HandleTable>,
    words: ReplayWords<'_>,
    input: R,
    output: &mut W,
    errors: &mut E,
    heard: &mut H,
) -> u8 {
    let ReplayWords {
        detail,
        with_reasons,
    } = words;
    let reason_output = ReasonOutput::of(detail, with_reasons);
    let playing = Playing::new(alloc, reason_output, output, errors, heard);
    let replayed = replay_on(alloc, share, input, playing);
    status_of(alloc, replayed, detail, errors)
}

/// The same on a share over the plain tree and the plain list of opens, for tests.
pub fn replay_plain_text<R: Read + Drop, W: Write, E: Write>(
    alloc: Global,
    config: &str,
    input: R,
    output: &mut W,
    errors: &mut E,
) -> u8 {
    let mut heard = Deaf;
    let playing = Playing::new(alloc, ReasonOutput::Nowhere, output, errors, &mut heard);
    let replayed = replay_plain(alloc, config, input, playing);
    status_of(alloc, replayed, Detail::Brief, errors)
}
