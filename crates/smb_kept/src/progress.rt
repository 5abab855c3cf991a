//! How far a folder has come, for whoever waits at a terminal.

use smb_folder::{Counts, Progress};
use std::io::IsTerminal;
use std::time::{Clock, Duration};

/// The time between two lines.
const STEP_SECONDS: u64 = 1;

/// A line a second on standard error, where that is a terminal.
#[derive(Drop)]
pub(crate) struct TerminalProgress<'a> {
    rt: &'a HostRuntime,
    folder: &'a str,
    is_terminal: bool,
    /// When the next line is due.
    next: Duration,
}

impl<'a> TerminalProgress<'a> {
    /// Of a folder of the system, which is named in each line. The first one is due a second from now.
    pub(crate) fn new(rt: &'a HostRuntime, folder: &'a str) -> Self {
        let now = rt.monotonic().unwrap_or(Duration::ZERO);
        TerminalProgress {
            rt,
            folder,
            is_terminal: rt.stderr().is_terminal(),
            next: now.saturating_add(Duration::from_secs(STEP_SECONDS)),
        }
    }
}

impl Progress for TerminalProgress<'_> {
    fn note(&mut self, counts: Counts) {
        if !self.is_terminal {
            return;
        }
        let Ok(now) = self.rt.monotonic() else {
            return;
        };
        if now < self.next {
            return;
        }
        self.next = now.saturating_add(Duration::from_secs(STEP_SECONDS));
        let (rt, folder) = (self.rt, self.folder);
        let _ = eprintln!(rt;
            "{folder}: {} files, {} folders, {} bytes are in the share",
            counts.files, counts.folders, counts.bytes
        );
    }
}
