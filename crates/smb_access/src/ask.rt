//! What a CREATE request asks.

use smb_wire::{Access, CreateDispositionCode, CreateOptions, FileAttributes, ShareAccess, Units};

/// What a CREATE request asks ([MS-SMB2] 2.2.13). Every value may be asked: what is wrong is for
/// smb_opens's `Store::create` to say.
#[derive(Clone, Copy, Debug)]
pub struct CreateAsk<'a> {
    /// The path from the share's root, in UTF-16 units.
    pub name: Units<'a>,
    /// The access, generic bits and MAXIMUM_ALLOWED among it.
    pub access: Access,
    /// The attributes of a new file or folder, of which a tree keeps some.
    pub attributes: FileAttributes,
    /// What others may do meanwhile; bits without a name are ignored.
    pub share: ShareAccess,
    pub disposition: CreateDispositionCode,
    /// Options, of which those without a name are ignored.
    pub options: CreateOptions,
    /// The number of the session that asks.
    pub session: u64,
    /// The number of the tree connect, in that session, under which it asks.
    pub tree: u32,
    /// Whether the session that asks may only read.
    pub read_only: bool,
}
