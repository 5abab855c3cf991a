//! What a SET_INFO asks of times and attributes.

use smb_wire::FileAttributes;

/// The times and attributes that a SET_INFO asks for ([MS-FSCC] 2.4.7), as the client's buffer has them. Times are in units
/// of 100 ns since 1601. Every value may be asked: what is wrong is for smb_opens's `Store::set_basic` to say.
///
/// A time of 0, 2^64 - 1 or 2^64 - 2 leaves that of the entry as it is; but for a 0 the change time becomes the moment.
#[derive(Clone, Copy, Debug, PartialEq, Eq)]
pub struct BasicAsk {
    pub creation_time: u64,
    pub last_access_time: u64,
    pub last_write_time: u64,
    pub change_time: u64,
    /// The attributes, of which a tree keeps some; 0 leaves those of the entry.
    pub attributes: FileAttributes,
}
