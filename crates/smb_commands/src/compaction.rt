//! The command `compact`: a journal of the files that another one or a recording leaves.

use crate::replaying::{STANDARD_INPUT, check_input, say_left_out};
use smb_command_parts::{Fault, random_number};
use smb_kept::KeptFault;
use smb_replay::CommandFault;
use std::io::BufWriter;

/// Writes a journal to standard output of the files that the journal or recording on standard input leaves. Standard
/// error says where its end was cut.
pub fn compact(rt: &HostRuntime) -> Result<(), Fault> {
    check_input(rt)?;
    let seed = random_number()?;
    let Ok(mut output) = BufWriter::new(rt.alloc(), rt.stdout()) else {
        return Err(Fault::Command(CommandFault::NoMemory));
    };
    match smb_kept::compact(rt, STANDARD_INPUT, seed, &mut output) {
        Ok(compacted) => {
            say_left_out(rt, compacted.kind, compacted.left_out);
            Ok(())
        }
        Err(KeptFault::RecordFailed(_)) => Err(Fault::Command(CommandFault::OutputFailed)),
        Err(fault) => Err(Fault::Kept(fault)),
    }
}
