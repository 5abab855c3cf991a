//! Plays the rows of standard input: logins, with the answer to each token, from outside vectors. Prints `ok NAME` for
//! each row whose answers are those that an [`smb_ntlm::Ntlm`] gives, and else what it gave; then the status is 1.
//!
//! A row is a line `== NAME` and these: `seed` with 16 bytes; `signing`, where accounts' sessions have a key; `account`
//! with a name and an NT hash; `guest`, where guests may come; `>` with a session's number and a token, and behind it
//! `deny` with the label of the reason and the name that was typed, where one was read, `continue` with a token, or
//! `accept` with a user, flags and a token; `hash` with an NT hash and the password; or `fault` with what is wrong with
//! the accounts. The word `readonly` ends a line of an account, of guests or of a user that may only read, and `key`
//! with 16 bytes that of a user whose session has this key. Bytes are in hex, and `#` begins a comment.
#![tactic(auto)]

mod play;
mod row;

use play::play;
use row::{Row, read_rows};
use std::alloc::AllocError;
use std::io::Read;
use std::process::ExitCode;

/// Prints whether a row is as it says, and tells it.
fn is_well(rt: &HostRuntime, row: &Row) -> Result<bool, AllocError> {
    let name = row.name.as_str();
    match play(rt.alloc(), row)? {
        None => {
            let _ = println!(rt; "ok {name}");
            Ok(true)
        }
        Some(found) => {
            let _ = println!(rt; "{name} gave {found}");
            Ok(false)
        }
    }
}

/// Plays the rows of a text, and tells whether all are well.
fn play_rows(rt: &HostRuntime, text: &str) -> Result<bool, AllocError> {
    let rows = match read_rows(rt.alloc(), text) {
        Ok(rows) => rows,
        Err(fault) => {
            let _ = println!(rt; "{fault}");
            return Ok(false);
        }
    };
    let mut all = !rows.is_empty();
    for row in &rows {
        let well = is_well(rt, row)?;
        all = all && well;
    }
    Ok(all)
}

/// Plays the rows of standard input, and gives the exit status.
fn run(rt: &HostRuntime) -> Result<ExitCode, AllocError> {
    let mut input = Vec::new(rt.alloc());
    if rt.stdin().read_to_end(&mut input).is_err() {
        return Err(AllocError);
    }
    match std::str::from_utf8(&input) {
        Ok(text) => Ok(ExitCode::from(u8::from(!play_rows(rt, text)?))),
        Err(_) => {
            let _ = println!(rt; "not text");
            Ok(ExitCode::FAILURE)
        }
    }
}

fn main(rt: HostRuntime) -> ExitCode {
    match run(&rt) {
        Ok(status) => status,
        Err(_) => ExitCode::from(3),
    }
}
