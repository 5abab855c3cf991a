//! The sentence of a refusal of any table.

use crate::create::create_refusal;
use crate::file::{close_refusal, lock_refusal, read_refusal, write_refusal};
use crate::query::{query_directory_refusal, query_info_refusal};
use crate::request::{negotiate_refusal, request_refusal};
use crate::session::{
    logoff_refusal, setup_refusal, tree_connect_refusal, tree_disconnect_refusal,
};
use crate::set_info::{
    rename_refusal, set_basic_refusal, set_disposition_refusal, set_info_refusal, set_size_refusal,
};
use smb_refusals::Refusal;

/// Why a request is refused.
pub(crate) fn refusal_sentence(refusal: Refusal) -> &'static str {
    match refusal {
        Refusal::Request(refusal) => request_refusal(refusal),
        Refusal::Negotiate(refusal) => negotiate_refusal(refusal),
        Refusal::SessionSetup(refusal) => setup_refusal(refusal),
        Refusal::Logoff(refusal) => logoff_refusal(refusal),
        Refusal::TreeConnect(refusal) => tree_connect_refusal(refusal),
        Refusal::TreeDisconnect(refusal) => tree_disconnect_refusal(refusal),
        Refusal::Create(refusal) => create_refusal(refusal),
        Refusal::Close(refusal) => close_refusal(refusal),
        Refusal::Read(refusal) => read_refusal(refusal),
        Refusal::Write(refusal) => write_refusal(refusal),
        Refusal::Lock(refusal) => lock_refusal(refusal),
        Refusal::QueryDirectory(refusal) => query_directory_refusal(refusal),
        Refusal::QueryInfo(refusal) => query_info_refusal(refusal),
        Refusal::SetInfo(refusal) => set_info_refusal(refusal),
        Refusal::SetBasic(refusal) => set_basic_refusal(refusal),
        Refusal::SetDisposition(refusal) => set_disposition_refusal(refusal),
        Refusal::SetSize(refusal) => set_size_refusal(refusal),
        Refusal::Rename(refusal) => rename_refusal(refusal),
    }
}
