//! The command `check-journal`: what a journal keeps, and whether it is whole.

use smb_command_parts::Fault;
use smb_engine::Tree;
use smb_journal_start::Space;
use smb_kept::{JournalFiles, journal_files};
use smb_reason::Shown;
use smb_replay::CommandFault;
use smb_tree::Kind;
use std::io;
use std::io::Write;

/// How much there is in the files of a journal.
#[derive(Clone, Copy, Default)]
struct Counts {
    files: u64,
    /// Without the root.
    folders: u64,
    bytes: u64,
}

/// The number of the root.
const ROOT: u64 = 1;

/// How much there is.
fn counts_of(found: &JournalFiles) -> Counts {
    let mut counts = Counts::default();
    for number in found.numbers.iter() {
        match found.tree.entry(*number) {
            Some(view) if view.kind == Kind::File => {
                counts.files = counts.files.saturating_add(1);
                counts.bytes = counts.bytes.saturating_add(view.size);
            }
            Some(_) if *number != ROOT => counts.folders = counts.folders.saturating_add(1),
            _ => {}
        }
    }
    counts
}

/// Writes what a journal keeps, in a line.
fn write_line<W: Write>(path: &str, found: &JournalFiles, output: &mut W) -> io::Result<()> {
    let Counts {
        files,
        folders,
        bytes,
    } = counts_of(found);
    let (path, batches, whole) = (Shown(path.as_bytes()), found.batches, found.whole);
    write!(
        output,
        "{path}: {batches} batches; {files} files and {folders} folders, with {bytes} bytes; {whole} bytes of it are whole"
    )?;
    match found.left_out {
        0 => writeln!(output),
        left_out => writeln!(output, ", and {left_out} behind them of a cut batch"),
    }
}

/// Prints what a journal keeps, and whether its end is cut. A journal that a share can't begin with is named with its
/// damage. Nothing is written to it.
pub fn check_journal(rt: &HostRuntime, path: &str) -> Result<(), Fault> {
    let found = match journal_files(rt, path, Space::greatest()) {
        Ok(found) => found,
        Err(fault) => return Err(Fault::Kept(fault).of_journal(rt.alloc(), path)),
    };
    if write_line(path, &found, &mut rt.stdout()).is_err() {
        return Err(Fault::Command(CommandFault::OutputFailed));
    }
    if found.left_out == 0 {
        Ok(())
    } else {
        Err(Fault::NotWhole)
    }
}
