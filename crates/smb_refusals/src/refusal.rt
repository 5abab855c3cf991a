//! Why a request is refused, of all tables.

ghost use Rattle.std.specs.Prelude.{◌≡◌};
ghost use Rattle.smb_refusals.specs.Refusals.{refusal_status, refusal_label};

use super::create::CreateRefusal;
use super::file::{CloseRefusal, LockRefusal, ReadRefusal, WriteRefusal};
use super::query::{QueryDirectoryRefusal, QueryInfoRefusal};
use super::request::{NegotiateRefusal, RequestRefusal};
use super::session::{LogoffRefusal, SetupRefusal, TreeConnectRefusal, TreeDisconnectRefusal};
use super::set_info::{
    RenameRefusal, SetBasicRefusal, SetDispositionRefusal, SetInfoRefusal, SetSizeRefusal,
};
use smb_wire::NtStatus;

/// The row by which a request is refused, by its table.
#[derive(Clone, Copy)]
pub enum Refusal {
    Request(RequestRefusal),
    Negotiate(NegotiateRefusal),
    SessionSetup(SetupRefusal),
    Logoff(LogoffRefusal),
    TreeConnect(TreeConnectRefusal),
    TreeDisconnect(TreeDisconnectRefusal),
    Create(CreateRefusal),
    Close(CloseRefusal),
    Read(ReadRefusal),
    Write(WriteRefusal),
    Lock(LockRefusal),
    QueryDirectory(QueryDirectoryRefusal),
    QueryInfo(QueryInfoRefusal),
    SetInfo(SetInfoRefusal),
    SetBasic(SetBasicRefusal),
    SetDisposition(SetDispositionRefusal),
    SetSize(SetSizeRefusal),
    Rename(RenameRefusal),
}

impl Refusal {
    /// The status that answers it.
    pub fn status(self) -> NtStatus
        ensures { result ≡ refusal_status self }
    {
        match self {
            Refusal::Request(refusal) => refusal.status(),
            Refusal::Negotiate(refusal) => refusal.status(),
            Refusal::SessionSetup(refusal) => refusal.status(),
            Refusal::Logoff(refusal) => refusal.status(),
            Refusal::TreeConnect(refusal) => refusal.status(),
            Refusal::TreeDisconnect(refusal) => refusal.status(),
            Refusal::Create(refusal) => refusal.status(),
            Refusal::Close(refusal) => refusal.status(),
            Refusal::Read(refusal) => refusal.status(),
            Refusal::Write(refusal) => refusal.status(),
            Refusal::Lock(refusal) => refusal.status(),
            Refusal::QueryDirectory(refusal) => refusal.status(),
            Refusal::QueryInfo(refusal) => refusal.status(),
            Refusal::SetInfo(refusal) => refusal.status(),
            Refusal::SetBasic(refusal) => refusal.status(),
            Refusal::SetDisposition(refusal) => refusal.status(),
            Refusal::SetSize(refusal) => refusal.status(),
            Refusal::Rename(refusal) => refusal.status(),
        }
    }

    /// The label of its row in docs/PROFILE.md, such as `C3`.
    pub fn label(self) -> &'static str
        ensures { result.now ≡ refusal_label self }
    {
        match self {
            Refusal::Request(refusal) => refusal.label(),
            Refusal::Negotiate(refusal) => refusal.label(),
            Refusal::SessionSetup(refusal) => refusal.label(),
            Refusal::Logoff(refusal) => refusal.label(),
            Refusal::TreeConnect(refusal) => refusal.label(),
            Refusal::TreeDisconnect(refusal) => refusal.label(),
            Refusal::Create(refusal) => refusal.label(),
            Refusal::Close(refusal) => refusal.label(),
            Refusal::Read(refusal) => refusal.label(),
            Refusal::Write(refusal) => refusal.label(),
            Refusal::Lock(refusal) => refusal.label(),
            Refusal::QueryDirectory(refusal) => refusal.label(),
            Refusal::QueryInfo(refusal) => refusal.label(),
            Refusal::SetInfo(refusal) => refusal.label(),
            Refusal::SetBasic(refusal) => refusal.label(),
            Refusal::SetDisposition(refusal) => refusal.label(),
            Refusal::SetSize(refusal) => refusal.label(),
            Refusal::Rename(refusal) => refusal.label(),
        }
    }
}
