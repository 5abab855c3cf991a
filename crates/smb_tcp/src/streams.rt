//! How many streams a listener keeps.

ghost use Rattle.std.specs.Prelude.{◌≤◌};

/// For how many connections a listener is made where no number is said: as many as a share has under the default
/// limits.
pub const DEFAULT_CONNECTIONS: usize = 64;

/// For how many connections a listener can be made.
pub const MOST_CONNECTIONS: usize = 4_096;

/// How many streams a listener keeps at most that is made for so many connections: one more. Fewer connections than 1
/// count as 1, and more than 4,096 as 4,096.
pub(crate) fn streams_for(connections: usize) -> usize
    ensures { result ≤ 4097 }
{
    connections.clamp(1, MOST_CONNECTIONS) + 1
}
