//! Events that a share takes one at a time.

use crate::fault::PlayFault;
use crate::unopened::Unopened;
use smb_engine::{Authenticator, Event, Opens, RunFault, ServeFault, Share, Tree};
use smb_replay::{CommandFault, write_answers};
use std::alloc::Global;
use std::io;
use std::io::Write;

/// Writes out that the event at a place begins.
pub(crate) fn write_begin<W: Write>(place: u64, output: &mut W) -> io::Result<()> {
    writeln!(output, "event {place}")?;
    output.flush()
}

/// Has a share take an event, and writes what it answers. Tells whether memory ran out.
fn play_event<A: Authenticator + Drop, T: Tree + Drop, O: Opens + Drop, W: Write>(
    alloc: Global,
    share: &mut Share<A, T, O>,
    event: Event,
    output: &mut W,
) -> Result<bool, PlayFault> {
    let mut answers = Vec::new(alloc);
    let ran = share.run(&[event], &mut answers);
    write_answers(&answers, output)?;
    match ran {
        Ok(()) => Ok(false),
        Err(
            RunFault {
                fault: ServeFault::NoMemory { done },
                ..
            },
        ) => {
            let fault = ServeFault::NoMemory { done };
            match writeln!(output, "{fault}") {
                Ok(()) => Ok(true),
                Err(_) => Err(PlayFault::Command(CommandFault::OutputFailed)),
            }
        }
        Err(refused) => Err(PlayFault::Refused(refused)),
    }
}

/// Has a share take an event of a text, unless its connection was not opened; notes where it is not.
fn play_in_turn<A: Authenticator + Drop, T: Tree + Drop, O: Opens + Drop, W: Write>(
    alloc: Global,
    share: &mut Share<A, T, O>,
    mut event: Event,
    unopened: &mut Unopened,
    output: &mut W,
) -> Result<(), PlayFault> {
    let connection = event.connection();
    let is_opening = matches!(&event, Event::Opened(_));
    if !unopened.renumber(&mut event) {
        return Ok(());
    }
    let ran_out = play_event(alloc, share, event, output)?;
    if ran_out && is_opening {
        unopened.note(connection)?;
    }
    Ok(())
}

/// Has a share take events one at a time, and writes what it answers. Where memory runs out in a piece its connection
/// has ended, and what comes of it is passed over; so is what comes of a connection that was not opened for want of
/// memory.
pub(crate) fn play<A: Authenticator + Drop, T: Tree + Drop, O: Opens + Drop, W: Write>(
    alloc: Global,
    share: &mut Share<A, T, O>,
    events: Vec<Event>,
    output: &mut W,
) -> Result<(), PlayFault> {
    let mut unopened = Unopened::new(alloc, events.len())?;
    let mut place = 0u64;
    for event in events {
        if write_begin(place, output).is_err() {
            return Err(PlayFault::Command(CommandFault::OutputFailed));
        }
        play_in_turn(alloc, share, event, &mut unopened, output)?;
        place = place.wrapping_add(1);
    }
    match output.flush() {
        Ok(()) => Ok(()),
        Err(_) => Err(PlayFault::Command(CommandFault::OutputFailed)),
    }
}
