//! The system's clock.

ghost use Rattle.std.specs.Prelude.{◌≡◌, ◌≤◌};

use smb_peers::{Clock, FILETIME_OF_1970, filetime_of};
use std::time;

/// The clock of the system. It never goes back: where the system's does, or cannot be read, it gives the last moment again. It begins with 1970.
#[derive(Debug, Drop)]
pub struct SystemClock<'a, R: time::Clock> {
    system: &'a R,
    last: u64,
}

impl<'a, R: time::Clock> SystemClock<'a, R> {
    /// The clock of a system.
    pub fn new(system: &'a R) -> Self {
        SystemClock {
            system,
            last: FILETIME_OF_1970,
        }
    }

    /// The moment now, or the last one that it gave where that is later.
    fn tell(&mut self) -> u64
        ensures later { self.old.last ≤ result }
        ensures last { self.new.last ≡ result }
    {
        let now = match self.system.since_1970() {
            Ok(since) => filetime_of(since).unwrap_or(self.last),
            Err(_) => self.last,
        };
        self.last = now.max(self.last);
        self.last
    }
}

impl<R: time::Clock> Clock for SystemClock<'_, R> {
    ghost use Rattle.std.specs.Prelude.{[], false};

    ghost moments = { λ clock. [] };

    ghost keeps = { λ clock. false };

    fn moment(&mut self) -> u64 {
        self.tell()
    }
}
