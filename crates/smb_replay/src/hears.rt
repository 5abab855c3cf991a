//! Who hears what happens in a replay.

use smb_engine::{Answer, Event};
use smb_peers::{Acting, Ending, Observer, Responded};

/// Hears the events of a replay in order, each behind what the share did at it.
pub trait Hears: Observer {
    /// Takes an event that the share performed, and what it answered to it.
    fn hear(&mut self, event: &Event, answers: &[Answer]);
}

/// Hears nothing.
#[derive(Clone, Copy, Debug)]
pub struct Deaf;

impl Observer for Deaf {
    ghost use Rattle.std.specs.Prelude.{[], false};

    ghost observed = { λ deaf. [] };

    ghost keeps = { λ deaf. false };

    fn listens(&self) -> bool {
        false
    }

    fn performed(&mut self, _connection: u64, _moment: u64, _request: &[u8], _acting: Acting) {}

    fn responded(&mut self, _connection: u64, _response: Responded) {}

    fn ended(&mut self, _connection: u64, _ending: Ending) {}
}

impl Hears for Deaf {
    fn hear(&mut self, _event: &Event, _answers: &[Answer]) {}
}
