//! The events of a text, played on a share one by one.

use crate::fault::{CommandFault, Detail};
use crate::hears::Hears;
use crate::reasons::{Reasoning, Reasons};
use crate::replay::write_answer;
use crate::script::Script;
use smb_engine::{Answer, Authenticator, Event, Opens, RunFault, ServeFault, Share, Tree};
use std::alloc::Global;
use std::io::Write;
use std::slice;

/// Where it is said why the share refuses requests and ends connections.
#[derive(Clone, Copy, Debug, PartialEq, Eq)]
pub(crate) enum ReasonOutput {
    Nowhere,
    /// On standard error, a line for each.
    ToErrors,
    /// Among the answers, a comment behind each that it is of.
    InOutput,
}

impl ReasonOutput {
    /// Where a replay writes reasons that writes faults in this detail, and reasons among the answers or not.
    pub(crate) fn of(detail: Detail<'_>, with_reasons: bool) -> Self {
        match detail {
            _ if with_reasons => ReasonOutput::InOutput,
            Detail::Brief => ReasonOutput::Nowhere,
            Detail::Explained(_) => ReasonOutput::ToErrors,
        }
    }
}

/// What the words of a replay ask for.
#[derive(Clone, Copy, Debug)]
pub struct ReplayWords<'a> {
    /// How much is written of a fault.
    pub detail: Detail<'a>,
    /// Whether the reasons of the share are written among its answers.
    pub with_reasons: bool,
}

impl<'a> ReplayWords<'a> {
    /// Words that ask for no reasons among the answers.
    pub fn of(detail: Detail<'a>) -> Self {
        ReplayWords {
            detail,
            with_reasons: false,
        }
    }
}

/// How many of the first so many connections of a share are open.
fn count_open<A: Authenticator + Drop, T: Tree + Drop, O: Opens + Drop>(
    share: &Share<A, T, O>,
    opened: u64,
) -> usize {
    let numbers = 1..opened.saturating_add(1);
    numbers.filter(|number| share.is_open(*number)).count()
}

/// What a fault of the share is at an event of this line, before which so many connections were opened.
fn fault_at<A: Authenticator + Drop, T: Tree + Drop, O: Opens + Drop>(
    share: &Share<A, T, O>,
    line: u64,
    opened: u64,
    fault: RunFault,
) -> CommandFault {
    match fault.fault {
        ServeFault::TooManyConnections => {
            CommandFault::TooManyConnections(line, count_open(share, opened))
        }
        ServeFault::BadEvent => CommandFault::BadEvent(line, opened.saturating_add(1)),
        ServeFault::NoMemory { done: _ } => CommandFault::NoMemory,
        ServeFault::BadConfig => CommandFault::ConfigRefused(None),
    }
}

/// A replay on its way: what its share answers is written event by event, and said to who hears it.
#[derive(Drop)]
pub(crate) struct Playing<'a, W: Write, E: Write, H: Hears> {
    output: &'a mut W,
    errors: &'a mut E,
    heard: &'a mut H,
    reason_output: ReasonOutput,
    reasons: Reasons,
    answers: Vec<Answer>,
    /// How many connections were opened.
    opened: u64,
}

impl<'a, W: Write, E: Write, H: Hears> Playing<'a, W, E, H> {
    /// A replay in which nothing has happened yet.
    pub(crate) fn new(
        alloc: Global,
        reason_output: ReasonOutput,
        output: &'a mut W,
        errors: &'a mut E,
        heard: &'a mut H,
    ) -> Self {
        Playing {
            output,
            errors,
            heard,
            reason_output,
            reasons: Reasons::new(alloc),
            answers: Vec::new(alloc),
            opened: 0,
        }
    }

    /// Writes the answers to an event of this line, with their reasons where these are written among them.
    fn write_answers(&mut self, line: u64) -> Result<(), CommandFault> {
        for answer in &self.answers {
            write_answer(answer, self.output).map_err(|_| CommandFault::OutputFailed)?;
            if self.reason_output == ReasonOutput::InOutput {
                let written = self.reasons.write_comments(answer, line, self.output);
                written.map_err(|_| CommandFault::OutputFailed)?;
            }
        }
        Ok(())
    }

    /// Has sent what was written.
    fn flush(&mut self) -> Result<(), CommandFault> {
        self.output.flush().map_err(|_| CommandFault::OutputFailed)
    }

    /// Says the reasons of an event of this line on standard error, behind the answers, where these are said there. That the writer
    /// fails is passed over.
    fn say_reasons(&mut self, line: u64) -> Result<(), CommandFault> {
        if self.reason_output == ReasonOutput::ToErrors && !self.reasons.is_empty() {
            self.flush()?;
            let _ = self.reasons.write_all(line, self.errors);
        }
        Ok(())
    }

    /// Has the share perform an event, as who hears the replay observes. Its reasons are kept where they are written.
    fn perform<A: Authenticator + Drop, T: Tree + Drop, O: Opens + Drop>(
        &mut self,
        share: &mut Share<A, T, O>,
        event: &Event,
    ) -> Result<(), RunFault> {
        let events = slice::from_ref(event);
        if self.reason_output == ReasonOutput::Nowhere {
            return share.run_observed(events, &mut self.answers, self.heard);
        }
        let mut reasoning = Reasoning::new(&mut self.reasons, self.heard);
        share.run_observed(events, &mut self.answers, &mut reasoning)
    }

    /// Plays an event of this line.
    fn play<A: Authenticator + Drop, T: Tree + Drop, O: Opens + Drop>(
        &mut self,
        share: &mut Share<A, T, O>,
        event: &Event,
        line: u64,
    ) -> Result<(), CommandFault> {
        self.answers.clear();
        self.reasons.clear();
        let ran = self.perform(share, event);
        if ran.is_ok() {
            self.heard.hear(event, &self.answers);
        }
        self.write_answers(line)?;
        self.say_reasons(line)?;
        match ran {
            Err(fault) => Err(fault_at(share, line, self.opened, fault)),
            Ok(()) if self.reasons.is_lost() => Err(CommandFault::NoMemory),
            Ok(()) => {
                if let Event::Opened(_) = event {
                    self.opened = self.opened.saturating_add(1);
                }
                Ok(())
            }
        }
    }

    /// Plays the events of a script, and has sent what the share answers.
    pub(crate) fn play_script<A: Authenticator + Drop, T: Tree + Drop, O: Opens + Drop>(
        &mut self,
        share: &mut Share<A, T, O>,
        script: &Script,
    ) -> Result<(), CommandFault> {
        for (event, line) in script.events.iter().zip(script.places.iter()) {
            let played = self.play(share, event, *line);
            if played.is_err() {
                self.flush()?;
                return played;
            }
        }
        self.flush()?;
        match script.unreadable_at {
            Some((line, expected)) => Err(CommandFault::Unreadable(line, expected)),
            None => Ok(()),
        }
    }
}
