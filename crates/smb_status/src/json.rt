//! What is going on in a share, as JSON.

use crate::counts::{COMMAND_NAMES, Counts, REFUSALS, RULES};
use crate::status::{ConnectionRow, Journal, OpenedRow, Rooms, SessionRow, Status};
use crate::text::{put_decimal, put_json_text, put_seconds, put_unix_time};
use crate::words::{dialect_name, put_access, put_share};
use std::alloc::AllocError;

/// Adds what is before the next of several things, of which the first is none.
fn put_comma(is_first: &mut bool, text: &mut String) -> Result<(), AllocError> {
    if !*is_first {
        text.push_str(",")?;
    }
    *is_first = false;
    Ok(())
}

/// Adds a text, or null.
fn put_text(said: Option<&str>, text: &mut String) -> Result<(), AllocError> {
    match said {
        Some(said) => put_json_text(said, text),
        None => text.push_str("null"),
    }
}

/// Adds a number, or null.
fn put_number(number: Option<u64>, text: &mut String) -> Result<(), AllocError> {
    match number {
        Some(number) => put_decimal(number, text),
        None => text.push_str("null"),
    }
}

/// Adds a session.
fn put_session(session: &SessionRow, text: &mut String) -> Result<(), AllocError> {
    let SessionRow {
        number,
        is_signed,
        is_read_only,
        ..
    } = session;
    write!(text, "{{\"number\":{number},\"user\":")?;
    put_text(session.user.as_ref().map(|user| user.as_str()), text)?;
    write!(
        text,
        ",\"signed\":{is_signed},\"read_only\":{is_read_only}}}"
    )
}

/// Adds the sessions of a connection.
fn put_sessions(sessions: &[SessionRow], text: &mut String) -> Result<(), AllocError> {
    let mut is_first = true;
    for session in sessions {
        put_comma(&mut is_first, text)?;
        put_session(session, text)?;
    }
    Ok(())
}

/// Adds a connection.
fn put_connection(row: &ConnectionRow, text: &mut String) -> Result<(), AllocError> {
    let number = row.number;
    write!(text, "{{\"number\":{number},\"address\":")?;
    put_json_text(row.address.as_str(), text)?;
    text.push_str(",\"since\":")?;
    put_unix_time(row.since, text)?;
    text.push_str(",\"dialect\":")?;
    put_text(row.dialect.map(dialect_name), text)?;
    text.push_str(",\"sessions\":[")?;
    put_sessions(row.sessions.as_slice(), text)?;
    text.push_str("]}")
}

/// Adds the connections.
fn put_connections(status: &Status, text: &mut String) -> Result<(), AllocError> {
    text.push_str(",\n\"connections\":[")?;
    let mut is_first = true;
    for row in status.connections.shown.iter() {
        put_comma(&mut is_first, text)?;
        text.push_str("\n")?;
        put_connection(row, text)?;
    }
    let more = status.connections.more;
    write!(text, "],\n\"more_connections\":{more}")
}

/// Adds who has an open, and of which entry it is.
fn put_owner(row: &OpenedRow, text: &mut String) -> Result<(), AllocError> {
    text.push_str("{\"number\":")?;
    put_decimal(row.number, text)?;
    text.push_str(",\"connection\":")?;
    put_number(row.connection, text)?;
    text.push_str(",\"user\":")?;
    put_text(row.user.as_ref().map(|user| user.as_str()), text)?;
    text.push_str(",\"entry\":")?;
    put_decimal(row.entry, text)
}

/// Adds what an open may do, and what others may.
fn put_rights(row: &OpenedRow, text: &mut String) -> Result<(), AllocError> {
    text.push_str(",\"access\":\"")?;
    put_access(row.access, text)?;
    text.push_str("\",\"shares\":\"")?;
    put_share(row.share, text)?;
    text.push_str(if row.is_deleted_on_close {
        "\",\"delete_on_close\":true,\"locks\":"
    } else {
        "\",\"delete_on_close\":false,\"locks\":"
    })?;
    put_decimal(row.locks, text)
}

/// Adds an open.
fn put_open(row: &OpenedRow, text: &mut String) -> Result<(), AllocError> {
    put_owner(row, text)?;
    put_rights(row, text)?;
    if let Some(name) = &row.name {
        text.push_str(",\"name\":")?;
        put_json_text(name.as_str(), text)?;
    }
    text.push_str("}")
}

/// Adds the opens.
fn put_opens(status: &Status, text: &mut String) -> Result<(), AllocError> {
    text.push_str(",\n\"opens\":[")?;
    let mut is_first = true;
    for row in status.opens.shown.iter() {
        put_comma(&mut is_first, text)?;
        text.push_str("\n")?;
        put_open(row, text)?;
    }
    let more = status.opens.more;
    write!(text, "],\n\"more_opens\":{more}")
}

/// Adds how much there is of everything, and how much there may be.
fn put_rooms(rooms: &Rooms, text: &mut String) -> Result<(), AllocError> {
    text.push_str(",\n\"limits\":{")?;
    let mut is_first = true;
    for (name, room) in rooms.named() {
        let (used, most) = (room.used, room.most);
        put_comma(&mut is_first, text)?;
        write!(text, "\"{name}\":{{\"used\":{used},\"most\":{most}}}")?;
    }
    text.push_str("}")
}

/// Adds a moment, or null.
fn put_moment(moment: Option<u64>, text: &mut String) -> Result<(), AllocError> {
    match moment {
        Some(moment) => put_unix_time(moment, text),
        None => text.push_str("null"),
    }
}

/// Adds the journal, or null.
fn put_journal(journal: Option<Journal>, text: &mut String) -> Result<(), AllocError> {
    let Some(journal) = journal else {
        return text.push_str(",\n\"journal\":null");
    };
    let bytes = journal.bytes;
    write!(text, ",\n\"journal\":{{\"bytes\":{bytes},\"room_bytes\":")?;
    put_number(journal.room, text)?;
    text.push_str(",\"written\":")?;
    put_moment(journal.written, text)?;
    text.push_str(",\"synced\":")?;
    put_moment(journal.synced, text)?;
    text.push_str("}")
}

/// Adds a count under its name.
fn put_count(
    name: &str,
    count: u64,
    is_first: &mut bool,
    text: &mut String,
) -> Result<(), AllocError> {
    put_comma(is_first, text)?;
    write!(text, "\"{name}\":{count}")
}

/// Adds the requests by command.
fn put_requests(counts: &Counts, text: &mut String) -> Result<(), AllocError> {
    text.push_str(",\n\"requests\":{")?;
    let mut is_first = true;
    for (name, count) in COMMAND_NAMES.iter().zip(counts.requests.iter()) {
        put_count(*name, *count, &mut is_first, text)?;
    }
    text.push_str("}")
}

/// Adds the refusals by status.
fn put_refusals(counts: &Counts, text: &mut String) -> Result<(), AllocError> {
    text.push_str(",\n\"refusals\":{")?;
    let mut is_first = true;
    for (status, count) in REFUSALS.iter().zip(counts.refusals.iter()) {
        put_count(status.name(), *count, &mut is_first, text)?;
    }
    text.push_str("}")
}

/// Adds the endings by rule.
fn put_endings(counts: &Counts, text: &mut String) -> Result<(), AllocError> {
    text.push_str(",\n\"endings\":{")?;
    let mut is_first = true;
    for (rule, count) in RULES.iter().zip(counts.endings.iter()) {
        put_count(rule.label(), *count, &mut is_first, text)?;
    }
    text.push_str("}")
}

/// Adds how many bytes came and went, and how long the longest turn took.
fn put_traffic(counts: &Counts, text: &mut String) -> Result<(), AllocError> {
    let (received, sent) = (counts.received, counts.sent);
    write!(
        text,
        ",\n\"received_bytes\":{received},\"sent_bytes\":{sent}"
    )?;
    text.push_str(",\"longest_turn_seconds\":")?;
    put_seconds(counts.longest_turn, text)
}

/// Adds the moments, and how many sessions there are.
fn put_front(status: &Status, text: &mut String) -> Result<(), AllocError> {
    text.push_str("{\"moment\":")?;
    put_unix_time(status.moment, text)?;
    text.push_str(",\"since\":")?;
    put_unix_time(status.since, text)?;
    let sessions = status.sessions;
    write!(text, ",\"sessions\":{sessions}")
}

/// Adds all that is counted.
fn put_counts(counts: &Counts, text: &mut String) -> Result<(), AllocError> {
    put_requests(counts, text)?;
    put_refusals(counts, text)?;
    put_endings(counts, text)?;
    put_traffic(counts, text)
}

/// Adds a JSON object, in lines. Its moments are in seconds since 1970. An error leaves a part of it.
pub fn put_json(status: &Status, text: &mut String) -> Result<(), AllocError> {
    put_front(status, text)?;
    put_rooms(&status.rooms, text)?;
    put_journal(status.journal, text)?;
    put_counts(&status.counts, text)?;
    put_connections(status, text)?;
    put_opens(status, text)?;
    text.push_str("}\n")
}
