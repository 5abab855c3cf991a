//! What tells the time.

ghost use Rattle.std.specs.Prelude.{◌≡◌, ◌++◌, ◌∷◌, [], IfOk, true};
ghost use Rattle.smb_peers.specs.Record.{Keeping};

use std::alloc::{AllocError, Global};
use std::marker::Model;

/// A clock. What it tells is any moment: a clock may go back.
pub trait Clock {
    ghost use Rattle.std.specs.Prelude.{ℕ, List, Bool};

    /// The moments that it gave, by a clock whose record is complete.
    ghost moments: { Self → List ℕ };

    /// Whether all moments that it gave are in the record.
    ghost keeps: { Self → Bool };

    /// The moment, in units of 100 ns since 1601.
    fn moment(&mut self) -> u64
        ensures { Keeping (keeps self.old) (keeps self.new) (moments self.new ≡ moments self.old ++ result ∷ []) };
}

/// A clock that tells the moments of a list, for trials: one after the other, then the last again; 0 where the list is empty.
///
/// It keeps its record up to 2^64 - 1 calls.
#[derive(Debug, Drop)]
pub struct ListClock {
    moments: Vec<u64>,
    asked: u64,
    keeps: bool,
}

impl Model for ListClock {
    ghost use Rattle.smb_peers.specs.Clock.{ListClockState};

    ghost Value = { ListClockState };

    ghost view = { λ c. record { moments = c.moments.items; asked = c.asked; keeps = c.keeps } };
}

impl ListClock {
    /// A clock that tells these moments. It was asked for none yet.
    pub fn new(alloc: Global, moments: &[u64]) -> Result<Self, AllocError>
        ensures { IfOk result (λ clock. clock ≡ record { moments = moments.now; asked = 0; keeps = true }) }
    {
        Ok(ListClock {
            moments: Vec::from_slice(alloc, moments)?,
            asked: 0,
            keeps: true,
        })
    }
}

impl Clock for ListClock {
    ghost use Rattle.std.specs.Prelude.{◌==◌, ◌+◌, false, if◌then◌else◌};
    ghost use Rattle.smb_peers.specs.Clock.{moments_told, moment_of};

    ghost moments = { λ c. moments_told c.moments c.asked };

    ghost keeps = { λ c. c.keeps };

    fn moment(&mut self) -> u64
        ensures told { Keeping self.old.keeps self.new.keeps
            (moments_told self.new.moments self.new.asked ≡ moments_told self.old.moments self.old.asked ++ result ∷ []) }
        ensures value { result ≡ moment_of self.old.moments self.old.asked }
        ensures after { self.new ≡ (if self.old.asked == 18446744073709551615 then record self.old { keeps = false }
            else record self.old { asked = self.old.asked + 1 }) }
    {
        let asked = self.asked;
        if asked == u64::MAX {
            self.keeps = false;
        } else {
            self.asked = asked + 1;
        }
        let last = self.moments.len().saturating_sub(1);
        let place = (asked as usize).min(last);
        match self.moments.get(place) {
            Some(moment) => *moment,
            None => 0,
        }
    }
}
