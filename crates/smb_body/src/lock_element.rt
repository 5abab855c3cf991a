//! An element of a LOCK.

use smb_wire::LockFlags;

/// An element of a LOCK: a range and what to do with it ([MS-SMB2] 2.2.26.1).
#[derive(Clone, Copy, PartialEq, Eq)]
pub struct LockElement {
    pub offset: u64,
    pub length: u64,
    pub flags: LockFlags,
    pub reserved: u32,
}
