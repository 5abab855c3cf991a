//! The line of a minute.

use smb_peers::Usage;
use std::fmt;

/// What is counted from one line to the next.
#[derive(Clone, Copy, Default)]
pub(crate) struct Counts {
    pub(crate) requests: u64,
    pub(crate) bytes_in: u64,
    pub(crate) bytes_out: u64,
    pub(crate) ran_out: u64,
}

/// Adds to a count.
pub(crate) fn add(count: &mut u64, more: usize) {
    *count = count.saturating_add(more as u64);
}

/// What there is, and what was counted.
#[derive(Clone, Copy)]
pub(crate) struct Minute {
    pub(crate) connections: usize,
    pub(crate) usage: Usage,
    pub(crate) counts: Counts,
    /// Whether it says how much the files hold.
    pub(crate) with_files: bool,
}

impl fmt::Display for Minute {
    fn fmt<W: fmt::Write>(&self, f: &mut fmt::Formatter<W>) -> fmt::Result {
        let (connections, usage, counts) = (self.connections, self.usage, self.counts);
        let (sessions, opens, requests) = (usage.sessions, usage.opens, counts.requests);
        let (bytes_in, bytes_out, ran_out) = (counts.bytes_in, counts.bytes_out, counts.ran_out);
        write!(
            f,
            "minute connections={connections} sessions={sessions} opens={opens}"
        )?;
        write!(
            f,
            " requests={requests} bytes_in={bytes_in} bytes_out={bytes_out}"
        )?;
        write!(f, " out_of_memory={ran_out}")?;
        if self.with_files {
            let (files, used) = (usage.entries, usage.used);
            write!(f, " files={files} used_bytes={used}")?;
        }
        Ok(())
    }
}
