//! An observer that keeps a list of what it hears.

ghost use Rattle.std.specs.Prelude.{◌≡◌, ◌++◌, ◌∷◌, [], map, true};
ghost use Rattle.smb_peers.specs.Record.{Keeping};
ghost use Rattle.smb_peers.specs.ObservedList.{observed_of};

use super::ending::Ending;
use super::observer::{Acting, Observer, Responded};
use std::alloc::Global;
use std::marker::Model;

/// What an observer hears that is in its record, each with its connection.
#[derive(Drop)]
pub enum Heard {
    /// A request was performed, of these bytes, and acted on this.
    Performed(u64, Vec<u8>, Acting),
    Responded(u64, Responded),
    Ended(u64, Ending),
}

/// An observer that keeps a list of what it hears, for trials. It keeps its record until memory runs out for it.
#[derive(Drop)]
pub struct ListObserver {
    alloc: Global,
    heard: Vec<Heard>,
    keeps: bool,
}

impl Model for ListObserver {
    ghost use Rattle.std.specs.Prelude.{map};
    ghost use Rattle.smb_peers.specs.ObservedList.{ListObserverState, observed_of};

    ghost Value = { ListObserverState };

    ghost view = { λ o. record { heard = map observed_of o.heard.items; keeps = o.keeps } };
}

impl ListObserver {
    /// An observer that heard nothing yet.
    pub fn new(alloc: Global) -> Self
        ensures { result ≡ record { heard = []; keeps = true } }
    {
        ListObserver {
            alloc,
            heard: Vec::new(alloc),
            keeps: true,
        }
    }

    /// What it heard, up to where memory ran out for it.
    pub fn heard(&self) -> &[Heard]
        ensures { map observed_of result.now ≡ self.now.heard }
    {
        self.heard.as_slice()
    }

    /// Adds to the list.
    fn keep(&mut self, heard: Heard)
        ensures { Keeping self.old.keeps self.new.keeps (self.new.heard ≡ self.old.heard ++ observed_of heard ∷ []) }
    {
        match self.heard.push(heard) {
            Ok(()) => {}
            Err(_) => self.keeps = false,
        }
    }
}

impl Observer for ListObserver {
    ghost observed = { λ o. o.heard };

    ghost keeps = { λ o. o.keeps };

    fn listens(&self) -> bool {
        true
    }

    fn performed(&mut self, connection: u64, _moment: u64, request: &[u8], acting: Acting) {
        match Vec::from_slice(self.alloc, request) {
            Ok(request) => self.keep(Heard::Performed(connection, request, acting)),
            Err(_) => self.keeps = false,
        }
    }

    fn responded(&mut self, connection: u64, response: Responded) {
        self.keep(Heard::Responded(connection, response))
    }

    fn ended(&mut self, connection: u64, ending: Ending) {
        self.keep(Heard::Ended(connection, ending))
    }
}
