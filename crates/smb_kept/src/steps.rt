//! A clock for what must be the same in every run.

use smb_peers::Clock;

/// A clock that gives this moment to the first piece, and one unit of 100 ns more to each further one.
#[derive(Clone, Copy, Debug, Drop)]
pub struct Steps {
    next: u64,
}

impl Steps {
    /// A clock that begins with a moment, in units of 100 ns since 1601.
    pub fn new(first: u64) -> Self {
        Steps { next: first }
    }
}

impl Clock for Steps {
    ghost use Rattle.std.specs.Prelude.{[], false};

    ghost moments = { λ clock. [] };

    ghost keeps = { λ clock. false };

    fn moment(&mut self) -> u64 {
        let moment = self.next;
        self.next = moment.saturating_add(1);
        moment
    }
}
