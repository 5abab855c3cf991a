//! Prints the tables of docs/PROFILE.md by which requests and logins are refused and connections ended, of each row its label,
//! its sentence and its status. `tools/lib/refusals.py` writes them into docs/PROFILE.md.
#![tactic(auto)]

mod create;
mod file;
mod others;
mod query;
mod request;
mod session;
mod set_info;
mod table;

use others::{ENDINGS, LOGINS};
use std::io;
use std::process::ExitCode;
use table::{Table, write_plain};

/// The tables, in the order of docs/PROFILE.md.
const TABLES: &[Table] = &[
    request::EVERY_REQUEST,
    request::NEGOTIATE,
    session::SESSION_SETUP,
    session::LOGOFF,
    session::TREE_CONNECT,
    session::TREE_DISCONNECT,
    create::CREATE,
    file::CLOSE,
    file::READ,
    file::WRITE,
    file::LOCK,
    query::QUERY_DIRECTORY,
    query::QUERY_INFO,
    set_info::SET_INFO,
    set_info::SET_BASIC,
    set_info::SET_DISPOSITION,
    set_info::SET_SIZE,
    set_info::RENAME,
];

/// Prints all tables.
fn print(rt: &HostRuntime) -> io::Result<()> {
    let mut output = rt.stdout();
    for table in TABLES {
        table.write(&mut output)?;
    }
    write_plain("The end of a connection", ENDINGS, &mut output)?;
    write_plain("A login by NTLM", LOGINS, &mut output)
}

fn main(rt: HostRuntime) -> ExitCode {
    match print(&rt) {
        Ok(()) => ExitCode::SUCCESS,
        Err(_) => ExitCode::FAILURE,
    }
}
