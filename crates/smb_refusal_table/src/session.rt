//! The rows of SESSION_SETUP, LOGOFF, TREE_CONNECT and TREE_DISCONNECT, in the order in which they are looked at.

use crate::table::Table;
use smb_refusals::{
    LogoffRefusal, Refusal, SetupRefusal, TreeConnectRefusal, TreeDisconnectRefusal,
};

pub(crate) const SESSION_SETUP: Table = Table {
    name: "SESSION_SETUP",
    rows: &[
        Refusal::SessionSetup(SetupRefusal::BindingAsked),
        Refusal::SessionSetup(SetupRefusal::NoSessionLeft),
        Refusal::SessionSetup(SetupRefusal::UnknownSession),
        Refusal::SessionSetup(SetupRefusal::SessionFinished),
        Refusal::SessionSetup(SetupRefusal::Denied),
    ],
};

pub(crate) const LOGOFF: Table = Table {
    name: "LOGOFF",
    rows: &[Refusal::Logoff(LogoffRefusal::UnknownSession)],
};

pub(crate) const TREE_CONNECT: Table = Table {
    name: "TREE_CONNECT",
    rows: &[
        Refusal::TreeConnect(TreeConnectRefusal::UnknownSession),
        Refusal::TreeConnect(TreeConnectRefusal::UnknownShare),
        Refusal::TreeConnect(TreeConnectRefusal::NoTreeConnectLeft),
    ],
};

pub(crate) const TREE_DISCONNECT: Table = Table {
    name: "TREE_DISCONNECT",
    rows: &[
        Refusal::TreeDisconnect(TreeDisconnectRefusal::UnknownSession),
        Refusal::TreeDisconnect(TreeDisconnectRefusal::UnknownTreeConnect),
    ],
};
