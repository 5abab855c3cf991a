//! Connections that are closed as they are accepted.

use std::fmt;

/// A second, in units of 100 ns.
const SECOND: u64 = 10_000_000;

/// How many lines such connections have in a second at most.
const MOST_LINES: u64 = 10;

/// Why a connection was closed as it was accepted.
#[derive(Clone, Copy, Debug, PartialEq, Eq)]
pub enum KeptOut {
    /// Its address is none of those that may come.
    Hosts,
    /// So many connections of its address are open, as many as there may be.
    Address(usize),
}

impl fmt::Display for KeptOut {
    fn fmt<W: fmt::Write>(&self, f: &mut fmt::Formatter<W>) -> fmt::Result {
        match self {
            KeptOut::Hosts => f.write_str("not of --hosts"),
            KeptOut::Address(1) => f.write_str("1 connection of its address is open"),
            KeptOut::Address(most) => write!(f, "{most} connections of its address are open"),
        }
    }
}

/// Which of these connections have a line, so that who connects over and over does not fill the log.
#[derive(Clone, Copy)]
pub(crate) struct KeptOutLines {
    /// When the first line of the present second was written.
    since: u64,
    /// How many were written since then.
    written: u64,
    /// How many connections came since the last line, and have none.
    left_out: u64,
}

impl KeptOutLines {
    /// None is written yet.
    pub(crate) fn none() -> Self {
        KeptOutLines {
            since: 0,
            written: 0,
            left_out: 0,
        }
    }

    /// Whether a connection of this moment has a line: how many before it have none, then.
    pub(crate) fn next(&mut self, moment: u64) -> Option<u64> {
        if moment.saturating_sub(self.since) >= SECOND {
            self.since = moment;
            self.written = 0;
        }
        if self.written >= MOST_LINES {
            self.left_out = self.left_out.saturating_add(1);
            return None;
        }
        self.written += 1;
        let before = self.left_out;
        self.left_out = 0;
        Some(before)
    }
}
