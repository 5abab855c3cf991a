//! Addresses of which nothing is read for a time.

use std::fmt;

/// Why nothing is read for a time of an address's connections that have no session.
#[derive(Clone, Copy, Debug, PartialEq, Eq)]
pub struct KeptBack {
    /// How many wrong passwords came of it.
    pub wrong: u64,
    /// For how long.
    pub seconds: u64,
}

impl fmt::Display for KeptBack {
    fn fmt<W: fmt::Write>(&self, f: &mut fmt::Formatter<W>) -> fmt::Result {
        let (wrong, seconds) = (self.wrong, self.seconds);
        let unit = if seconds == 1 { "second" } else { "seconds" };
        write!(f, "{wrong} wrong passwords, for {seconds} {unit}")
    }
}
