//! The clock of a served share.

use smb_kept::Steps;
use smb_peers::Clock;
use smb_tcp::SystemClock;

/// The system's clock, or one for tests.
#[derive(Drop)]
pub enum ServeClock<'a> {
    System(SystemClock<'a, HostRuntime>),
    Steps(Steps),
}

impl<'a> ServeClock<'a> {
    /// The clock that begins with a moment, or the system's where none is given.
    pub fn new(rt: &'a HostRuntime, first: Option<u64>) -> Self {
        match first {
            Some(moment) => ServeClock::Steps(Steps::new(moment)),
            None => ServeClock::System(SystemClock::new(rt)),
        }
    }
}

impl Clock for ServeClock<'_> {
    ghost use Rattle.std.specs.Prelude.{[], false};

    ghost moments = { λ clock. [] };

    ghost keeps = { λ clock. false };

    fn moment(&mut self) -> u64 {
        match self {
            ServeClock::System(clock) => clock.moment(),
            ServeClock::Steps(clock) => clock.moment(),
        }
    }
}
