//! Which kind of file it is.

use crate::fault::KeptFault;
use crate::files::fault_of_read;
use crate::first_line::{is_journal, read_first, refused};
use crate::journal::FileFault;
use smb_journal::{Form, form_of};
use std::fs;

/// What a file is that keeps what a share has.
#[derive(Clone, Copy, Debug, PartialEq, Eq)]
pub enum Kind {
    /// A journal: its batches are changes of files.
    Journal,
    /// A recording: its lines are events.
    Recording(Form),
}

/// What a file is.
///
/// [`FileFault::Neither`] where it is none of them, and [`FileFault::OtherVersion`].
pub(crate) fn kind_of(rt: &HostRuntime, path: &str) -> Result<Kind, KeptFault> {
    let mut file = fs::open(rt, path).map_err(fault_of_read)?;
    let line = read_first(rt.alloc(), &mut file)?;
    if is_journal(&line) {
        return Ok(Kind::Journal);
    }
    match form_of(&line) {
        Some(form) => Ok(Kind::Recording(form)),
        None => Err(KeptFault::File(match refused(&line) {
            FileFault::NoJournal => FileFault::Neither,
            fault => fault,
        })),
    }
}
