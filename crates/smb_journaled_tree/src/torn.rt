//! Batches are put behind whole ones, and what is no whole batch is taken away first.

ghost use Rattle.std.specs.Prelude.{◌≡◌, ◌++◌, None, Some, OnOk, OnErr, length};
ghost use Rattle.smb_journaled_tree.specs.Journal.{AddsPart};
ghost use Rattle.smb_journaled_tree.specs.Kept.{whole_bytes};

use super::file::{JournalFault, JournalFile};

/// Takes away what an append that failed left behind the whole batches.
pub fn mend<J: JournalFile>(file: &mut J, torn: &mut Option<u64>) -> Result<(), JournalFault>
    ensures whole { OnOk result (torn.new ≡ None) }
    ensures ok { OnOk result (J.held file.new ≡ whole_bytes torn.old (J.held file.old)) }
    ensures same { OnErr result (torn.new ≡ torn.old) }
    ensures err { OnErr result (J.held file.new ≡ J.held file.old) }
{
    if let Some(size) = *torn {
        file.cut(size)?;
        *torn = None;
    }
    Ok(())
}

/// Puts a batch behind the whole ones.
pub fn append<J: JournalFile>(
    file: &mut J,
    torn: &mut Option<u64>,
    batch: &Vec<u8>,
) -> Result<(), JournalFault>
    requires { torn.old ≡ None }
    ensures whole { OnOk result (torn.new ≡ None) }
    ensures ok { OnOk result (J.held file.new ≡ J.held file.old ++ batch.now.items) }
    ensures torn { OnErr result (torn.new ≡ Some (length (J.held file.old))) }
    ensures err { OnErr result (AddsPart (J.held file.old) batch.now.items (J.held file.new)) }
{
    let whole = file.len();
    match file.append(batch) {
        Ok(()) => Ok(()),
        Err(fault) => {
            *torn = Some(whole);
            Err(fault)
        }
    }
}
