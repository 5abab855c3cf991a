//! A look at a share that is served.

use crate::status::{ConnectionRow, Journal, OpenedRow, Room, Rooms, Rows, SessionRow, Status};
use crate::watch::{Client, Watch};
use smb_access::OpenRow;
use smb_engine::{Authenticator, Opens, Share, Tree};
use smb_log_text::{put_file_name, put_user};
use smb_wire::{Access, ShareAccess};
use std::alloc::{AllocError, Global};
use std::collections::BTreeMap;

/// The most rows that are shown in all.
pub const MOST_ROWS: usize = 1_000;

/// From this row on no other connection is shown, so that opens have room.
const MOST_OF_CONNECTIONS: usize = 500;

/// What is shown beside what a share and its watch know.
#[derive(Clone, Copy)]
pub struct Around {
    /// The moment, in units of 100 ns since 1601.
    pub moment: u64,
    /// The bytes that all clients are owed, and may be.
    pub owed: Room,
    /// The journal that the share is kept in, where there is one.
    pub journal: Option<Journal>,
    /// Whether the names of files are shown.
    pub shows_names: bool,
}

/// A look at a share, with what was noted of it.
#[derive(Drop)]
struct View<'s, A: Authenticator + Drop, T: Tree + Drop, O: Opens + Drop> {
    alloc: Global,
    share: &'s Share<A, T, O>,
    watch: &'s Watch,
    around: Around,
}

/// What is shown of an open's row: a row has room for a pattern besides, and is too long to be copied for each page.
#[derive(Clone, Copy)]
struct Opened {
    number: u64,
    session: u64,
    entry: u64,
    access: Access,
    share: ShareAccess,
    is_deleted_on_close: bool,
}

impl Opened {
    /// Of a row.
    fn of(row: &OpenRow) -> Self {
        Opened {
            number: row.number,
            session: row.session,
            entry: row.entry,
            access: row.access,
            share: row.share,
            is_deleted_on_close: row.delete_on_close,
        }
    }
}

/// The connection of a session, and its user as it is shown, None for that of no finished session.
#[derive(Drop)]
struct Owner {
    connection: u64,
    user: Option<String>,
}

/// The owners of sessions, by the sessions' numbers: of those that are asked for, None where it is not known.
type Owners = BTreeMap<u64, Option<Owner>>;

/// How many rows a connection has: one for each session, and one where it has none.
fn rows_of(row: &ConnectionRow) -> usize {
    row.sessions.len().max(1)
}

/// How many more there are than are shown.
fn more(all: usize, shown: usize) -> u64 {
    all.saturating_sub(shown) as u64
}

impl<'s, A: Authenticator + Drop, T: Tree + Drop, O: Opens + Drop> View<'s, A, T, O> {
    /// Of a share, with what was noted of it.
    fn of(share: &'s Share<A, T, O>, watch: &'s Watch, around: Around) -> Self {
        View {
            alloc: watch.alloc,
            share,
            watch,
            around,
        }
    }

    /// A user as it is shown, None for that of no finished session.
    fn user(&self, connection: u64, session: u64) -> Result<Option<String>, AllocError> {
        let Some(user) = self.share.server().sessions().user(connection, session) else {
            return Ok(None);
        };
        let mut text = String::new(self.alloc);
        put_user(user, &mut text)?;
        Ok(Some(text))
    }

    /// A session as it is shown.
    fn session(&self, connection: u64, number: u64) -> Result<SessionRow, AllocError> {
        let sessions = self.share.server().sessions();
        let is_signed = sessions.signing(connection, number).is_some();
        let is_read_only = sessions.read_only(connection, number) == Some(true);
        let user = self.user(connection, number)?;
        Ok(SessionRow {
            number,
            user,
            is_signed,
            is_read_only,
        })
    }

    /// The sessions of a connection.
    fn sessions(&self, connection: u64) -> Result<Vec<SessionRow>, AllocError> {
        let mut rows = Vec::new(self.alloc);
        for number in self.share.server().sessions().of_connection(connection) {
            let row = self.session(connection, *number)?;
            rows.push(row)?;
        }
        Ok(rows)
    }

    /// A connection as it is shown.
    fn connection(&self, client: &Client) -> Result<ConnectionRow, AllocError> {
        let number = client.connection;
        let sessions = self.sessions(number)?;
        let address = client.address.clone()?;
        Ok(ConnectionRow {
            number,
            address,
            since: client.since,
            dialect: self.share.dialect(number),
            sessions,
        })
    }

    /// The first connections, and how many rows they have.
    fn connections(&self) -> Result<(Vec<ConnectionRow>, usize), AllocError> {
        let mut rows = Vec::new(self.alloc);
        let mut count = 0usize;
        for client in self.watch.clients.values() {
            if count >= MOST_OF_CONNECTIONS {
                break;
            }
            let row = self.connection(client)?;
            count = count.saturating_add(rows_of(&row));
            rows.push(row)?;
        }
        Ok((rows, count))
    }

    /// The first opens, `most` of them at most.
    fn first_opens(&self, most: usize) -> Result<Vec<Opened>, AllocError> {
        let opens = self.share.server().store().opens();
        let mut rows = Vec::with_capacity(self.alloc, most.min(self.share.usage().opens))?;
        let mut last = None;
        for _ in 0..most {
            let Some(number) = opens.after(last) else {
                break;
            };
            if let Some(row) = opens.get(number) {
                rows.push(Opened::of(row))?;
            }
            last = Some(number);
        }
        Ok(rows)
    }

    /// The owners of the sessions that have these opens.
    fn owners(&self, opens: &[Opened]) -> Result<Owners, AllocError> {
        let mut owners = BTreeMap::new(self.alloc);
        for open in opens {
            if !owners.contains_key(&open.session) {
                owners.insert(open.session, None)?;
            }
        }
        for client in self.watch.clients.values() {
            let connection = client.connection;
            for session in self.share.server().sessions().of_connection(connection) {
                if let Some(owner) = owners.get_mut(session) {
                    let user = self.user(connection, *session)?;
                    *owner = Some(Owner { connection, user });
                }
            }
        }
        Ok(owners)
    }

    /// The name of the file of an open, where names are asked for.
    fn name(&self, number: u64) -> Result<Option<String>, AllocError> {
        if !self.around.shows_names {
            return Ok(None);
        }
        let name = self.share.server().store().open_name(self.alloc, number);
        let mut text = String::new(self.alloc);
        put_file_name(name.as_ref().map(|name| name.as_slice()), &mut text)?;
        Ok(Some(text))
    }

    /// An open as it is shown, of an owner where it is known.
    fn open(&self, open: &Opened, owner: Option<&Owner>) -> Result<OpenedRow, AllocError> {
        let user = match owner.and_then(|owner| owner.user.as_ref()) {
            Some(user) => Some(user.clone()?),
            None => None,
        };
        let name = self.name(open.number)?;
        let locks = self.share.server().store().locks().count_on(open.entry);
        Ok(OpenedRow {
            number: open.number,
            connection: owner.map(|owner| owner.connection),
            user,
            entry: open.entry,
            name,
            access: open.access,
            share: open.share,
            is_deleted_on_close: open.is_deleted_on_close,
            locks: locks as u64,
        })
    }

    /// The first opens as they are shown, `most` of them at most.
    fn opens(&self, most: usize) -> Result<Vec<OpenedRow>, AllocError> {
        let opens = self.first_opens(most)?;
        let owners = self.owners(opens.as_slice())?;
        let mut rows = Vec::with_capacity(self.alloc, opens.len())?;
        for open in opens.iter() {
            let owner = owners.get(&open.session).and_then(|owner| owner.as_ref());
            let row = self.open(open, owner)?;
            rows.push(row)?;
        }
        Ok(rows)
    }

    /// What is left of each limit.
    fn rooms(&self) -> Rooms {
        let limits = self.share.server().limits();
        let usage = self.share.usage();
        Rooms {
            connections: Room {
                used: self.watch.clients.len() as u64,
                most: limits.connections as u64,
            },
            opens: Room {
                used: usage.opens as u64,
                most: limits.opens as u64,
            },
            entries: Room {
                used: usage.entries as u64,
                most: limits.entries as u64,
            },
            bytes: Room {
                used: usage.used,
                most: self.share.server().store().tree().capacity(),
            },
            owed: self.around.owed,
        }
    }

    /// All that is shown. The opens have the rows that the connections leave of `most`.
    fn status(&self, most: usize) -> Result<Status, AllocError> {
        let (connections, rows) = self.connections()?;
        let opens = self.opens(most.saturating_sub(rows))?;
        let usage = self.share.usage();
        let connections = Rows {
            more: more(self.watch.clients.len(), connections.len()),
            shown: connections,
        };
        let opens = Rows {
            more: more(usage.opens, opens.len()),
            shown: opens,
        };
        Ok(Status {
            moment: self.around.moment,
            since: self.watch.since,
            counts: self.watch.counts,
            rooms: self.rooms(),
            sessions: usage.sessions as u64,
            journal: self.around.journal,
            connections,
            opens,
        })
    }
}

/// What is going on in a share of which this was noted. It takes time for the rows that are shown, and for the
/// sessions that there are; of the opens no other is looked at.
pub fn status_of<A: Authenticator + Drop, T: Tree + Drop, O: Opens + Drop>(
    share: &Share<A, T, O>,
    watch: &Watch,
    around: Around,
) -> Result<Status, AllocError> {
    View::of(share, watch, around).status(MOST_ROWS)
}

/// The same with none of the opens, which metrics only count.
pub(crate) fn status_without_opens<A: Authenticator + Drop, T: Tree + Drop, O: Opens + Drop>(
    share: &Share<A, T, O>,
    watch: &Watch,
    around: Around,
) -> Result<Status, AllocError> {
    View::of(share, watch, around).status(0)
}
