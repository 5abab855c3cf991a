//! What a log shows of a fault, of a tree and of a list of opens.

use smb_client::Status;
use smb_config::{ConfigFault, ConfigRule};
use smb_engine::{
    HandleTable, NodeTree, PlainOpens, PlainTree, RunFault, ServeFault, laws_of_shares,
};
use smb_replay::{CommandFault, Expected};
use smb_session::Tokens;
use std::alloc::Global;
use std::error::Error;
use std::fmt::Debug;

/// Whether an error has this text.
fn says<E: Error>(alloc: Global, error: &E, text: &str) -> bool {
    match format!(in alloc; "{error}") {
        Ok(said) => said.as_str() == text,
        Err(_) => false,
    }
}

/// Whether a value is shown so.
fn shows<T: Debug>(alloc: Global, value: &T, text: &str) -> bool {
    match format!(in alloc; "{value:?}") {
        Ok(shown) => shown.as_str() == text,
        Err(_) => false,
    }
}

#[test]
fn says_where_a_run_stopped(rt: HostRuntime) {
    let fault = RunFault {
        place: 2,
        connection: 7,
        fault: ServeFault::BadEvent,
    };
    assert!(rt; says(rt.alloc(), &fault, "event 2, connection 7: a bad event"));
    laws_of_shares::<Tokens>();
}

#[test]
fn says_what_a_configuration_breaks(rt: HostRuntime) {
    let fault = ConfigFault::Refused(ConfigRule::Guid);
    let text = "the configuration is refused: guid: a text of 32 hex digits";
    assert!(rt; says(rt.alloc(), &fault, text));
}

#[test]
fn says_which_line_is_unreadable(rt: HostRuntime) {
    let fault = CommandFault::Unreadable(3, Expected::Piece);
    assert!(rt; says(rt.alloc(), &fault, "line 3: unreadable"));
}

/// Whether a status prints this.
fn prints(alloc: Global, status: Status, text: &str) -> bool {
    match format!(in alloc; "{status}") {
        Ok(printed) => printed.as_str() == text,
        Err(_) => false,
    }
}

#[test]
fn says_a_status_by_its_name(rt: HostRuntime) {
    let named = prints(rt.alloc(), Status(0xC000_0043), "STATUS_SHARING_VIOLATION");
    let unnamed = prints(rt.alloc(), Status(0x0C00_0001), "0x0C000001");
    assert!(rt; named && unnamed);
}

/// Whether a new tree of nodes is shown with its root.
fn shows_nodes(alloc: Global) -> bool {
    match NodeTree::new(alloc, 0, 4_096) {
        Ok(tree) => shows(alloc, &tree, "NodeTree { entries: 1, used: 0, .. }"),
        Err(_) => false,
    }
}

/// Whether a new plain tree is.
fn shows_plain(alloc: Global) -> bool {
    match PlainTree::new(alloc, 0, 4_096) {
        Ok(tree) => shows(alloc, &tree, "PlainTree { entries: 1, used: 0, .. }"),
        Err(_) => false,
    }
}

#[test]
fn shows_how_many_entries_a_tree_has(rt: HostRuntime) {
    assert!(rt; shows_nodes(rt.alloc()));
    assert!(rt; shows_plain(rt.alloc()));
}

#[test]
fn shows_how_many_opens_there_are(rt: HostRuntime) {
    let alloc = rt.alloc();
    assert!(rt;
        shows(
            alloc,
            &HandleTable::new(alloc),
            "HandleTable { opens: 0, .. }"
        )
    );
    assert!(rt;
        shows(
            alloc,
            &PlainOpens::new(alloc),
            "PlainOpens { opens: 0, .. }"
        )
    );
}
