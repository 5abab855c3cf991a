//! A recording of a file, performed on a share.

use crate::fault::KeptFault;
use crate::files::open_lines;
use crate::performed::{Hears, perform};
use smb_engine::{Authenticator, Opens, Share, Tree};
use smb_journal::{GivenAnswer, Header, given_answers};
use std::collections::VecDeque;

/// The first line of a recording, and the answers of the authenticator in it. All of it is read, and nothing is
/// performed.
pub fn read_recording(
    rt: &HostRuntime,
    path: &str,
) -> Result<(Header, VecDeque<GivenAnswer>), KeptFault> {
    let mut lines = open_lines(rt, path)?;
    let header = lines.header()?;
    let given = given_answers(rt.alloc(), &mut lines)?;
    Ok((header, given))
}

/// Performs all of a recording on a new share, and returns how many bytes of a cut last line are left out.
pub fn perform_file<A: Authenticator + Drop, T: Tree + Drop, O: Opens + Drop, H: Hears>(
    rt: &HostRuntime,
    path: &str,
    share: &mut Share<A, T, O>,
    heard: &mut H,
) -> Result<u64, KeptFault> {
    let mut lines = open_lines(rt, path)?;
    let _ = lines.header()?;
    perform(rt.alloc(), share, &mut lines, heard)?;
    Ok(lines.left_out())
}
