//! What a recording says, performed on a share.

ghost use Rattle.std.specs.Prelude.{vec_len};

use smb_engine::{Authenticator, Opens, RunFault, ServeFault, Share, Tree};
use smb_journal::{JournalFault, Line, Lines};
use smb_peers::{Acting, Answer, Ending, Event, Observer, Responded};
use std::alloc::Global;
use std::io::Read;
use std::slice;

/// Hears what happens to a share on which a recording is performed: of each event first what the share did.
pub trait Hears: Observer {
    /// Takes an event that the share performed, and what it answered to it.
    fn hear(&mut self, event: &Event, answers: &[Answer]) -> Result<(), JournalFault>;

    /// Takes note that a connection ended where memory had run out for it: the first requests of its last piece were
    /// performed, and not answered.
    fn cut_short(&mut self, _connection: u64) {}
}

/// Hears nothing.
#[derive(Clone, Copy, Debug, Drop)]
pub struct Deaf;

impl Observer for Deaf {
    ghost use Rattle.std.specs.Prelude.{[], false};

    ghost observed = { λ deaf. [] };

    ghost keeps = { λ deaf. false };

    fn listens(&self) -> bool {
        false
    }

    fn performed(&mut self, _connection: u64, _moment: u64, _request: &[u8], _acting: Acting) {}

    fn responded(&mut self, _connection: u64, _response: Responded) {}

    fn ended(&mut self, _connection: u64, _ending: Ending) {}
}

impl Hears for Deaf {
    fn hear(&mut self, _event: &Event, _answers: &[Answer]) -> Result<(), JournalFault> {
        Ok(())
    }
}

/// What is performed of a recording.
#[derive(Drop)]
struct Performing {
    /// The piece that is read, and its line: what it is answered by the authenticator, and whether memory ran out,
    /// comes behind.
    piece: Option<(Event, u64)>,
    answers: Vec<Answer>,
}

/// What a fault of the share is in a line.
fn fault_at(line: u64, fault: RunFault) -> JournalFault {
    match fault.fault {
        ServeFault::NoMemory { .. } => JournalFault::NoMemory,
        _ => JournalFault::BadEvent(line),
    }
}

impl Performing {
    /// Nothing.
    fn new(alloc: Global) -> Self {
        Performing {
            piece: None,
            answers: Vec::new(alloc),
        }
    }

    /// Performs an event of a line.
    fn happen<A: Authenticator + Drop, T: Tree + Drop, O: Opens + Drop, H: Hears>(
        &mut self,
        share: &mut Share<A, T, O>,
        event: Event,
        line: u64,
        heard: &mut H,
    ) -> Result<(), JournalFault> {
        self.answers.clear();
        let ran = share.run_observed(slice::from_ref(&event), &mut self.answers, heard);
        if let Err(fault) = ran {
            return Err(fault_at(line, fault));
        }
        heard.hear(&event, &self.answers)
    }

    /// Performs the piece that was read, where there is one.
    fn happen_piece<A: Authenticator + Drop, T: Tree + Drop, O: Opens + Drop, H: Hears>(
        &mut self,
        share: &mut Share<A, T, O>,
        heard: &mut H,
    ) -> Result<(), JournalFault> {
        match self.piece.take() {
            Some((event, line)) => self.happen(share, event, line, heard),
            None => Ok(()),
        }
    }

    /// Performs the first requests of the piece that was read, in which memory ran out.
    fn cut_short<A: Authenticator + Drop, T: Tree + Drop, O: Opens + Drop, H: Hears>(
        &mut self,
        share: &mut Share<A, T, O>,
        stopped: u64,
        done: usize,
        line: u64,
        heard: &mut H,
    ) -> Result<(), JournalFault> {
        let Some(
            (
                Event::Bytes {
                    connection,
                    moment,
                    piece,
                },
                _,
            ),
        ) = self.piece.take()
        else {
            return Err(JournalFault::BadEvent(line));
        };
        if connection == stopped && share.cut_short(connection, moment, &piece, done) {
            heard.cut_short(connection);
            Ok(())
        } else {
            Err(JournalFault::BadEvent(line))
        }
    }

    /// Performs a line.
    fn take<A: Authenticator + Drop, T: Tree + Drop, O: Opens + Drop, H: Hears>(
        &mut self,
        share: &mut Share<A, T, O>,
        read: Line,
        line: u64,
        heard: &mut H,
    ) -> Result<(), JournalFault> {
        match read {
            Line::Skipped | Line::Answered(_) => Ok(()),
            Line::Stopped { connection, done } => {
                self.cut_short(share, connection, done, line, heard)
            }
            Line::Happens(event) => {
                self.happen_piece(share, heard)?;
                self.piece = Some((event, line));
                Ok(())
            }
        }
    }
}

/// Performs all lines of a recording on a new share, whose authenticator gives the recorded answers. It is read by
/// parts.
///
/// # Errors
/// Those of [`Lines::next_line`]; [`JournalFault::BadEvent`] where an event can't happen, with its line; and
/// [`JournalFault::NoMemory`]. What is before was performed.
pub fn perform<A: Authenticator + Drop, T: Tree + Drop, O: Opens + Drop, R: Read + Drop, H: Hears>(
    alloc: Global,
    share: &mut Share<A, T, O>,
    lines: &mut Lines<R>,
    heard: &mut H,
) -> Result<(), JournalFault> {
    let mut performing = Performing::new(alloc);
    for _ in 0..u64::MAX {
        let Some(read) = lines.next_line()? else {
            break;
        };
        let line = lines.number();
        performing.take(share, read, line, heard)?;
    }
    performing.happen_piece(share, heard)
}
