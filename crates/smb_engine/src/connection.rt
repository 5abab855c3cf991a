//! A connection, and the unread bytes of its stream ([MS-SMB2] 3.3.1.7).

ghost use Rattle.std.specs.Prelude.{◌≡◌, ◌<◌, OnOk, OnErr};
ghost use Rattle.std.specs.List.{AllByRecursion};
ghost use Rattle.std.specs.Map.{remove_entry};
ghost use Rattle.std.specs.BTreeMap.{is_at, insert_entry};
ghost use Rattle.std.specs.Ordering.{nat_cmp};
ghost use Rattle.smb_request.specs.State.{connection_added};
ghost use Rattle.smb_engine.specs.State.{new_stream};

use super::session_keys::SessionKeys;
use smb_frame::FrameBuffer;
use smb_opens::Opens;
use smb_request::Server;
use smb_session::{Authenticator, Window};
use smb_tree::Tree;
use smb_wire::Dialect;
use smb_wire::limits::LONGEST_PAYLOAD;
use std::alloc::{AllocError, Global};
use std::collections::BTreeMap;
use std::marker::Model;

/// What a connection has agreed on, which MessageIds its client may use, and the keys of its sessions.
#[derive(Drop)]
pub struct Connection {
    pub(crate) payload_came: bool,
    pub(crate) dialect: Option<Dialect>,
    pub(crate) window: Window,
    pub(crate) keys: SessionKeys,
}

/// A connection with the unread bytes of its stream.
#[derive(Drop)]
pub struct ConnectionStream {
    pub(crate) buffer: FrameBuffer,
    pub(crate) connection: Connection,
}

impl Model for ConnectionStream {
    ghost use Rattle.std.specs.Prelude.{◌≡◌};
    ghost use Rattle.smb_wire.specs.Limits.{longest_payload};
    ghost use Rattle.smb_engine.specs.State.{StreamState};

    ghost Value = { StreamState };

    ghost view = { λ s. record { received = s.buffer.bytes; connection = s.connection } };

    ghost invariant = { λ s. s.buffer.limit ≡ longest_payload };
}

/// The stream of a new connection: nothing was received, no dialect is negotiated, and the window is {0}.
pub(crate) fn new_stream(alloc: Global) -> ConnectionStream
    ensures { result ≡ new_stream }
{
    ConnectionStream {
        buffer: FrameBuffer::new(alloc, LONGEST_PAYLOAD),
        connection: Connection {
            payload_came: false,
            dialect: None,
            window: Window::new(0),
            keys: SessionKeys::new(),
        },
    }
}

/// Adds a connection's stream.
fn add_stream(
    streams: &mut BTreeMap<u64, ConnectionStream>,
    connection: u64,
    stream: ConnectionStream,
) -> Result<(), AllocError>
    ensures ok { OnOk result (streams.new.entries ≡ insert_entry nat_cmp streams.old.entries connection stream) }
    ensures err { OnErr result (streams.new.entries ≡ streams.old.entries) }
{
    streams.insert(connection, stream)?;
    Ok(())
}

/// Takes a connection's stream out.
pub(crate) fn remove_stream(streams: &mut BTreeMap<u64, ConnectionStream>, connection: u64)
    ensures { streams.new.entries ≡ remove_entry (is_at (nat_cmp connection)) streams.old.entries }
{
    let _ = streams.remove(&connection);
}

/// Adds a connection, which may begin sessions from now on. An error changes nothing.
pub(crate) fn add_connection<A: Authenticator + Drop, T: Tree + Drop, O: Opens + Drop>(
    server: &mut Server<A, T, O>,
    streams: &mut BTreeMap<u64, ConnectionStream>,
    connection: u64,
    stream: ConnectionStream,
) -> Result<(), AllocError>
    requires { AllByRecursion (λ entry. entry.0 < connection) streams.old.entries }
    ensures server { OnOk result (server.new ≡ connection_added server.old connection) }
    ensures streams { OnOk result (streams.new.entries ≡ insert_entry nat_cmp streams.old.entries connection stream) }
    ensures err_server { OnErr result (server.new ≡ server.old) }
    ensures err_streams { OnErr result (streams.new.entries ≡ streams.old.entries) }
{
    add_stream(streams, connection, stream)?;
    match server.connect(connection) {
        Ok(()) => Ok(()),
        Err(fault) => {
            remove_stream(streams, connection);
            Err(fault)
        }
    }
}
