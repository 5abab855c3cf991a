//! Plays the events of standard input on a share, and goes on where memory runs out, as one who serves a share does: a
//! connection is gone, and the others are served on. It is for tests in which allocations are refused.
//!
//! The input is that of a replay. Two words may be given: `plain` for a share over the plain tree and list of opens,
//! and `served` for one that is served to peers over memory, all at the moment of the first piece. Without them the
//! share is that which the program serves, and takes the events one at a time.
//!
//! A line `event N`, counted from 0, is written out before each event. Behind it are its answers, as a replay writes
//! them, or `no memory, after K requests`. Of a share that is served the answers come last, behind `event N` for the
//! turn after the last event: how often memory ran out, and of each connection how often it was closed, and all bytes
//! that it took.
//!
//! What the program itself takes memory for, it takes before the first of these lines, or behind the last. Where none
//! is there for that, it ends with `no memory` and the status 3.

use crate::fault::PlayFault;
use crate::one_by_one::play;
use crate::served::play_served;
use smb_config::{BUILT_IN, Configuration};
use smb_engine::{Authenticator, Event, Opens, Share, Tree};
use smb_replay::{CommandFault, new_plain_share, new_share, read_events, read_input};
use std::alloc::Global;
use std::io::{BufWriter, Write};

/// What the words of the command line say.
#[derive(Clone, Copy)]
struct Way {
    /// The share is over the plain tree and list of opens.
    is_plain: bool,
    /// It is served to peers over memory.
    is_served: bool,
}

/// What the words of the command line say.
fn way_of(words: &[String]) -> Way {
    Way {
        is_plain: words.iter().any(|word| word.as_str() == "plain"),
        is_served: words.iter().any(|word| word.as_str() == "served"),
    }
}

/// The events of standard input.
fn events(rt: &HostRuntime) -> Result<Vec<Event>, CommandFault> {
    let text = read_input(rt.alloc(), rt.stdin())?;
    read_events(rt.alloc(), &text)
}

/// Plays events on a share, and writes what answers them.
fn play_on<A: Authenticator + Drop, T: Tree + Drop, O: Opens + Drop, W: Write + Drop>(
    alloc: Global,
    way: Way,
    mut share: Share<A, T, O>,
    events: Vec<Event>,
    mut output: W,
) -> Result<(), PlayFault> {
    if way.is_served {
        play_served(alloc, &mut share, events, output)
    } else {
        play(alloc, &mut share, events, &mut output)
    }
}

/// The built-in configuration.
fn configuration(alloc: Global) -> Result<Configuration, CommandFault> {
    Ok(Configuration::read(alloc, BUILT_IN)?)
}

/// Plays the events of standard input, in the way that these words say.
pub(crate) fn play_events(rt: &HostRuntime, words: &[String]) -> Result<(), PlayFault> {
    let alloc = rt.alloc();
    let way = way_of(words);
    let events = events(rt)?;
    let configuration = configuration(alloc)?;
    let Ok(output) = BufWriter::new(alloc, rt.stdout()) else {
        return Err(PlayFault::Command(CommandFault::NoMemory));
    };
    if way.is_plain {
        play_on(
            alloc,
            way,
            new_plain_share(alloc, configuration)?,
            events,
            output,
        )
    } else {
        play_on(alloc, way, new_share(alloc, configuration)?, events, output)
    }
}
