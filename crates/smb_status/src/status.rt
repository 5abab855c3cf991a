//! What is going on in a share at a moment.

ghost use Rattle.std.specs.Prelude.{◌≡◌, ◌-◌};

use crate::counts::Counts;
use smb_wire::{Access, Dialect, ShareAccess};

/// How much there is of something, and how much there may be.
#[derive(Clone, Copy, Debug, PartialEq, Eq)]
pub struct Room {
    pub used: u64,
    pub most: u64,
}

/// What is left of each limit.
#[derive(Clone, Copy, Debug, PartialEq, Eq)]
pub struct Rooms {
    pub connections: Room,
    pub opens: Room,
    /// Files and folders, without the root.
    pub entries: Room,
    /// The bytes that all files take, against the capacity.
    pub bytes: Room,
    /// The bytes that all clients are owed.
    pub owed: Room,
}

/// The journal that the share is kept in.
#[derive(Clone, Copy, Debug, PartialEq, Eq)]
pub struct Journal {
    /// Its length in bytes.
    pub bytes: u64,
    /// How many bytes of room are taken for it on its disk, where it has a file of room.
    pub room: Option<u64>,
    /// When it was last written, where that is known, in units of 100 ns since 1601.
    pub written: Option<u64>,
    /// When it was last put on the disk, where that is done with each write.
    pub synced: Option<u64>,
}

/// A session, as it is shown.
#[derive(Drop)]
pub struct SessionRow {
    pub number: u64,
    /// Its user, None while nobody is let in.
    pub user: Option<String>,
    /// Its messages are signed.
    pub is_signed: bool,
    /// Its user may only read.
    pub is_read_only: bool,
}

/// A connection, as it is shown.
#[derive(Drop)]
pub struct ConnectionRow {
    pub number: u64,
    /// Its client's address, empty where it is not known.
    pub address: String,
    /// When it was opened, in units of 100 ns since 1601.
    pub since: u64,
    pub dialect: Option<Dialect>,
    pub sessions: Vec<SessionRow>,
}

/// An open, as it is shown.
#[derive(Drop)]
pub struct OpenedRow {
    pub number: u64,
    /// The connection that has it, and its user, where these are shown.
    pub connection: Option<u64>,
    pub user: Option<String>,
    /// The number of its file or folder.
    pub entry: u64,
    /// The name, where names are asked for.
    pub name: Option<String>,
    pub access: Access,
    pub share: ShareAccess,
    pub is_deleted_on_close: bool,
    /// How many locks its file has, of all opens.
    pub locks: u64,
}

/// Rows that are shown, and how many more there are.
#[derive(Drop)]
pub struct Rows<T> {
    pub shown: Vec<T>,
    pub more: u64,
}

/// What is going on in a share at a moment. Moments are in units of 100 ns since 1601.
#[derive(Drop)]
pub struct Status {
    pub moment: u64,
    /// Since when the share is served.
    pub since: u64,
    pub counts: Counts,
    pub rooms: Rooms,
    /// How many sessions there are, those that are not finished among them.
    pub sessions: u64,
    /// The journal, where there is one.
    pub journal: Option<Journal>,
    pub connections: Rows<ConnectionRow>,
    pub opens: Rows<OpenedRow>,
}

impl Room {
    /// How much is left.
    pub fn left(self) -> u64
        ensures { result ≡ self.most - self.used }
    {
        self.most.saturating_sub(self.used)
    }
}

impl Rooms {
    /// Each by its name.
    pub(crate) fn named(&self) -> [(&'static str, Room); 5] {
        [
            ("connections", self.connections),
            ("opens", self.opens),
            ("entries", self.entries),
            ("bytes", self.bytes),
            ("owed_bytes", self.owed),
        ]
    }
}
