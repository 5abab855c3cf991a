//! Types that several bodies share.

/// The DialectRevision that a NEGOTIATE response tells ([MS-SMB2] 2.2.4), as 0x0202: a dialect's, or 0x02FF.
#[derive(Clone, Copy, PartialEq, Eq)]
pub struct DialectRevision(pub u16);

/// A GUID, as its 16 bytes stand on the wire.
#[derive(Clone, Copy)]
pub struct Guid(pub [u8; 16]);

/// Capabilities of a client, a server or a share ([MS-SMB2] 2.2.3, 2.2.5, 2.2.10). The profile ignores
/// them.
#[derive(Clone, Copy)]
pub struct Capabilities(pub u32);

/// The channel of a request ([MS-SMB2] 2.2.5, 2.2.19). The profile ignores it.
#[derive(Clone, Copy)]
pub struct Channel(pub u32);

/// What information is about ([MS-SMB2] 2.2.37).
#[derive(Clone, Copy, PartialEq, Eq)]
pub struct InfoType(pub u8);

impl InfoType {
    /// A file or a folder.
    pub const FILE: InfoType = InfoType(1);
    /// The share as a file system.
    pub const FILESYSTEM: InfoType = InfoType(2);
    /// A security descriptor.
    pub const SECURITY: InfoType = InfoType(3);
    /// Quotas.
    pub const QUOTA: InfoType = InfoType(4);
}

/// An information class ([MS-FSCC] 2.4, 2.5).
#[derive(Clone, Copy)]
pub struct InformationClass(pub u8);

/// Additional information of a query or a change ([MS-SMB2] 2.2.37, 2.2.39). The profile ignores it.
#[derive(Clone, Copy)]
pub struct AdditionalInformation(pub u32);
