//! What happens to a share.

ghost use Rattle.std.specs.Prelude.{◌≡◌};
ghost use Rattle.smb_peers.specs.Event.{text_of, connection_of};

/// An event on a connection, by its number. A share numbers its connections 1, 2, 3 and so on.
#[derive(Debug, Drop)]
pub enum Event {
    /// A connection was opened. It bears the next number.
    Opened(u64),
    /// The next piece of a connection's stream came, at a moment in units of 100 ns since 1601.
    Bytes {
        connection: u64,
        moment: u64,
        piece: Vec<u8>,
    },
    /// A connection's client ended it.
    Ended(u64),
}

impl Event {
    /// The number of its connection.
    pub fn connection(&self) -> u64
        ensures { result ≡ connection_of (text_of self.now) }
    {
        match self {
            Event::Opened(connection) => *connection,
            Event::Bytes { connection, .. } => *connection,
            Event::Ended(connection) => *connection,
        }
    }
}

/// What became of a connection whose piece was taken.
#[derive(Clone, Copy, Debug, PartialEq, Eq)]
pub enum Fate {
    Open,
    Ended,
}
