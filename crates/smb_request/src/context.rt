//! What one request of a chain hands on to the next ([MS-SMB2] 3.3.5.2.7.2).

ghost use Rattle.std.specs.Prelude.{◌≡◌, Some};
ghost use Rattle.smb_request.specs.Context.{first_context, open_named, named_on};
ghost use Rattle.smb_request.specs.Parts.{number_named, created_open, is_all_ones};

use smb_wire::{FileId, NtStatus};

/// The SessionId and the TreeId of a request's or a response's header.
#[derive(Clone, Copy, Debug, PartialEq, Eq)]
pub struct HeaderIds {
    pub session_id: u64,
    pub tree_id: u32,
}

/// The open that one request of a chain hands on to the next. A related request takes it by a FileId of all ones.
#[derive(Clone, Copy, Debug, PartialEq, Eq)]
pub enum ContextOpen {
    /// No request named one.
    Nothing,
    /// The one of a FileId, whether it exists or not.
    Named(FileId),
    /// The one that a CREATE was to make, which was refused by this status.
    Refused(NtStatus),
}

/// What one request of a chain hands on to the next, which takes it where it is related.
#[derive(Clone, Copy, Debug, PartialEq, Eq)]
pub struct Context {
    /// The session and the tree connect to act under.
    pub ids: HeaderIds,
    pub last_open: ContextOpen,
}

impl Context {
    /// What a chain begins with: no session, no tree connect and no open.
    pub fn first() -> Context
        ensures { result ≡ first_context }
    {
        Context {
            ids: HeaderIds {
                session_id: 0,
                tree_id: 0,
            },
            last_open: ContextOpen::Nothing,
        }
    }
}

/// Whether a FileId stands for the inherited open.
fn is_all_ones(id: FileId) -> bool
    ensures { result ≡ is_all_ones id }
{
    id.persistent == u64::MAX && id.volatile == u64::MAX
}

/// The open that a FileId names, by the open that its request inherits.
pub(crate) fn open_named(inherited: Option<ContextOpen>, id: FileId) -> ContextOpen
    ensures { result ≡ open_named inherited id }
{
    match inherited {
        Some(open) if is_all_ones(id) => open,
        _ => ContextOpen::Named(id),
    }
}

/// The number of the open that a FileId names, by the open that its request inherits; 0, which no open has, where it names
/// none.
pub(crate) fn open_number(inherited: Option<ContextOpen>, id: FileId) -> u64
    ensures { result ≡ number_named (Some (open_named inherited id)) }
{
    match open_named(inherited, id) {
        ContextOpen::Named(id) => id.persistent,
        ContextOpen::Nothing | ContextOpen::Refused(_) => 0,
    }
}

/// The open that a request other than CREATE hands on, by its FileId, if it has one.
pub(crate) fn named_on(inherited: Option<ContextOpen>, id: Option<FileId>) -> ContextOpen
    ensures { result ≡ named_on inherited id }
{
    match id {
        Some(id) if !is_all_ones(id) => ContextOpen::Named(id),
        _ => match inherited {
            Some(open) => open,
            None => ContextOpen::Nothing,
        },
    }
}

/// The open that a CREATE of this status hands on, by the number that the next open was to have.
pub(crate) fn created_open(next: u64, status: NtStatus) -> ContextOpen
    ensures { result ≡ created_open next status }
{
    match status {
        NtStatus::Success => ContextOpen::Named(FileId {
            persistent: next,
            volatile: next,
        }),
        status => ContextOpen::Refused(status),
    }
}
