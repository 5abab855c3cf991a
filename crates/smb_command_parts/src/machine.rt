//! What the machine lets the program have, as the system says it in files.

use smb_config::read_past;
use std::fs;

/// Where the system says how much memory there is.
const MEMORY: &str = "/proc/meminfo";

/// Where it says how much the program may have of what.
const RIGHTS: &str = "/proc/self/limits";

/// How many bytes of such a file are read at most.
const READ: u64 = 65_536;

/// How many bytes the system calls a kilobyte.
const KILOBYTE: u64 = 1_024;

/// The number behind a word at the beginning of a line; None where there is none.
fn number_behind(text: &str, word: &str) -> Option<u64> {
    let behind = text.lines().find_map(|line| line.strip_prefix(word))?;
    behind.split_whitespace().next()?.parse().ok()
}

/// The number behind a word at the beginning of a line of a file of the system; None where it can't be read.
fn number_in(rt: &HostRuntime, path: &str, word: &str) -> Option<u64> {
    let file = fs::open(rt, path).ok()?;
    let bytes = read_past(rt.alloc(), file, READ).ok()?;
    number_behind(str::from_utf8(&bytes).ok()?, word)
}

/// How many bytes of memory the machine has; None where the system does not say it.
pub fn memory(rt: &HostRuntime) -> Option<u64> {
    let kilobytes = number_in(rt, MEMORY, "MemTotal:")?;
    Some(kilobytes.saturating_mul(KILOBYTE))
}

/// How many files and connections the program may have open; None where there may be any number, or the system does
/// not say it.
pub fn descriptors(rt: &HostRuntime) -> Option<u64> {
    number_in(rt, RIGHTS, "Max open files")
}
