//! A table of refusals, as docs/PROFILE.md has it.

use smb_refusal_texts::Why;
use smb_refusals::{Refusal, RequestRefusal};
use std::io;
use std::io::Write;

/// The rows of a table, in the order in which they are looked at.
#[derive(Clone, Copy)]
pub(crate) struct Table {
    pub(crate) name: &'static str,
    pub(crate) rows: &'static [Refusal],
}

/// What a row has for its status: its name, without `STATUS_` before it.
fn status_of(refusal: Refusal) -> &'static str {
    match refusal {
        Refusal::Request(RequestRefusal::CreateBeforeRefused(_)) => "that of the CREATE",
        _ => {
            let name = refusal.status().name();
            name.strip_prefix("STATUS_").unwrap_or(name)
        }
    }
}

impl Table {
    /// Writes the table, under a heading.
    pub(crate) fn write<W: Write>(&self, output: &mut W) -> io::Result<()> {
        let name = self.name;
        writeln!(
            output,
            "## {name}\n\n| | condition | status |\n|---|---|---|"
        )?;
        for row in self.rows {
            let (why, status) = (Why::Request(*row), status_of(*row));
            let (label, sentence) = (why.label(), why.sentence());
            writeln!(output, "| {label} | {sentence} | {status} |")?;
        }
        writeln!(output)
    }
}

/// Writes a table of what has no status of its own, under a heading.
pub(crate) fn write_plain<W: Write>(name: &str, rows: &[Why], output: &mut W) -> io::Result<()> {
    writeln!(output, "## {name}\n\n| | condition |\n|---|---|")?;
    for why in rows {
        let (label, sentence) = (why.label(), why.sentence());
        writeln!(output, "| {label} | {sentence} |")?;
    }
    writeln!(output)
}
