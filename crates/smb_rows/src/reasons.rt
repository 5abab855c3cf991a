//! Plays rows, and prints why their requests are refused and their connections ended: of each row its name behind `== `, and then each
//! reason in a line, as `replay --reasons` has it. A row that is no replay, or whose share can't be made, has none.

use crate::row::{Kind, Row};
use smb_config::{Accounts, Configuration};
use smb_engine::{Authenticator, HandleTable, NodeTree, Share};
use smb_replay::{
    CommandFault, Deaf, Detail, ReplayWords, new_ntlm_share, new_share, replay_heard,
};
use std::alloc::Global;

/// What a replay of a row's events on a share gives, with the reasons among the answers.
fn play_on<A: Authenticator + Drop>(
    alloc: Global,
    mut share: Share<A, NodeTree, HandleTable>,
    row: &Row,
) -> Vec<u8> {
    let mut output = Vec::new(alloc);
    let mut errors = Vec::new(alloc);
    let words = ReplayWords {
        detail: Detail::Brief,
        with_reasons: true,
    };
    let input = row.input.as_bytes();
    let (output_of, errors_of) = (&mut output, &mut errors);
    let _ = replay_heard(
        alloc, &mut share, words, input, output_of, errors_of, &mut Deaf,
    );
    output
}

/// What a row gives, with the reasons among the answers.
fn play(alloc: Global, row: &Row) -> Result<Vec<u8>, CommandFault> {
    let configuration = Configuration::read(alloc, row.config.as_str())?;
    match row.kind {
        Kind::Replay => Ok(play_on(alloc, new_share(alloc, configuration)?, row)),
        Kind::Ntlm(seed) => {
            let accounts = Accounts::read(alloc, row.accounts.as_str());
            let accounts = accounts.map_err(CommandFault::of_accounts)?;
            let share = new_ntlm_share(alloc, configuration, accounts, seed)?;
            Ok(play_on(alloc, share, row))
        }
        Kind::Show => Ok(Vec::new(alloc)),
    }
}

/// Prints the name of a row, and its reasons.
pub(crate) fn print_reasons(rt: &HostRuntime, row: &Row) {
    let name = row.name.as_str();
    let _ = println!(rt; "== {name}");
    let Ok(output) = play(rt.alloc(), row) else {
        return;
    };
    let text = std::str::from_utf8(&output).unwrap_or("");
    for line in text.lines() {
        if let Some(reason) = line.strip_prefix("# ") {
            let _ = println!(rt; "{reason}");
        }
    }
}
