//! What the words of a command say of a log, and the log that they ask for.

use crate::fault::Fault;
use crate::log_output::LogOutput;
use smb_log::{Level, Log};
use smb_wire::limits::Limits;

/// What the words of a command say of a log.
#[derive(Clone, Copy)]
pub struct LogWords<'a> {
    /// A file, or `-` for standard error.
    pub path: &'a str,
    pub level: Level,
    /// Whether the share is served no more where a line can't be written.
    pub must: bool,
}

/// The log that the words ask for, of a share of these limits, which begins at a moment, and whose first line is
/// written; None where they ask for none.
pub fn log_of<'a>(
    rt: &'a HostRuntime,
    words: Option<LogWords<'a>>,
    limits: Limits,
    moment: u64,
) -> Result<Option<Log<LogOutput<'a>>>, Fault> {
    let Some(words) = words else {
        return Ok(None);
    };
    let output = LogOutput::open(rt, words.path)?;
    let log = Log::new(rt.alloc(), output, words.level, moment);
    Ok(Some(log.with_connections(limits.connections)))
}
