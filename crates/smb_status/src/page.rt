//! What is going on in a share, as a page for a browser.

use crate::counts::{COMMAND_NAMES, Counts, REFUSALS, RULES};
use crate::status::{ConnectionRow, Journal, OpenedRow, Room, SessionRow, Status};
use crate::text::{put_decimal, put_html, put_seconds};
use crate::words::{dialect_name, put_access, put_share};
use smb_log_text::put_moment;
use std::alloc::AllocError;

/// What is before the first moment. The page has itself read again every two seconds.
const FRONT: &str = "<!DOCTYPE html>\n\
     <html lang=\"en\">\n<head>\n<meta charset=\"utf-8\">\n\
     <meta http-equiv=\"refresh\" content=\"2\">\n\
     <meta name=\"viewport\" content=\"width=device-width\">\n\
     <title>smbshare</title>\n<style>\n\
     :root { color-scheme: light dark; font: 14px/1.4 system-ui, sans-serif; }\n\
     body { margin: 1.5rem; }\n\
     h1 { font-size: 1.4rem; margin: 0; }\n\
     h2 { font-size: 1.1rem; margin: 1.5rem 0 0.3rem; }\n\
     table { border-collapse: collapse; }\n\
     th, td { text-align: left; padding: 0.15rem 0.8rem 0.15rem 0; border-bottom: 1px solid #8884; }\n\
     .n { text-align: right; font-variant-numeric: tabular-nums; }\n\
     </style>\n</head>\n<body>\n<h1>smbshare</h1>\n";

const BACK: &str = "</body>\n</html>\n";

const CONNECTION_COLUMNS: [&str; 8] = [
    "Connection",
    "Address",
    "Since (UTC)",
    "Dialect",
    "Session",
    "User",
    "Signed",
    "May only read",
];

const OPEN_COLUMNS: [&str; 9] = [
    "Open",
    "Connection",
    "User",
    "Entry",
    "Access",
    "Shares",
    "Deleted on close",
    "Locks of the file",
    "Name",
];

const ROOM_COLUMNS: [&str; 4] = ["Of", "Used", "Most", "Left"];

/// Begins a table with its columns under a heading.
fn open_table(heading: &str, columns: &[&str], text: &mut String) -> Result<(), AllocError> {
    write!(text, "<h2>{heading}</h2>\n<table>\n<tr>")?;
    for column in columns {
        let column = *column;
        write!(text, "<th>{column}</th>")?;
    }
    text.push_str("</tr>\n")
}

/// Ends a table, and says how many rows more there are.
fn close_table(more: u64, text: &mut String) -> Result<(), AllocError> {
    text.push_str("</table>\n")?;
    if more > 0 {
        write!(text, "<p>and {more} more</p>\n")?;
    }
    Ok(())
}

/// Adds a field of a row that has a number.
fn put_number(number: u64, text: &mut String) -> Result<(), AllocError> {
    text.push_str("<td class=\"n\">")?;
    put_decimal(number, text)?;
    text.push_str("</td>")
}

/// Adds a field of a row that anybody may have typed, `-` for none.
fn put_typed(said: Option<&str>, text: &mut String) -> Result<(), AllocError> {
    text.push_str("<td>")?;
    put_html(said.unwrap_or("-"), text)?;
    text.push_str("</td>")
}

/// Adds a field of a row that says yes or no.
fn put_flag(is_set: bool, text: &mut String) -> Result<(), AllocError> {
    text.push_str(if is_set {
        "<td>yes</td>"
    } else {
        "<td>no</td>"
    })
}

/// Adds the fields of a connection.
fn put_connection(row: &ConnectionRow, text: &mut String) -> Result<(), AllocError> {
    let address = row.address.as_str();
    put_number(row.number, text)?;
    put_typed((!address.is_empty()).then_some(address), text)?;
    text.push_str("<td>")?;
    put_moment(row.since, text)?;
    let dialect = row.dialect.map_or("-", dialect_name);
    write!(text, "</td><td>{dialect}</td>")
}

/// Adds the fields of a session.
fn put_session(session: &SessionRow, text: &mut String) -> Result<(), AllocError> {
    put_number(session.number, text)?;
    put_typed(session.user.as_ref().map(|user| user.as_str()), text)?;
    put_flag(session.is_signed, text)?;
    put_flag(session.is_read_only, text)
}

/// Adds the rows of a connection, one for each session.
fn put_connection_rows(row: &ConnectionRow, text: &mut String) -> Result<(), AllocError> {
    for session in row.sessions.iter() {
        text.push_str("<tr>")?;
        put_connection(row, text)?;
        put_session(session, text)?;
        text.push_str("</tr>\n")?;
    }
    if row.sessions.is_empty() {
        text.push_str("<tr>")?;
        put_connection(row, text)?;
        text.push_str("<td class=\"n\">-</td><td>-</td><td>-</td><td>-</td></tr>\n")?;
    }
    Ok(())
}

/// Adds the table of the connections and their sessions.
fn put_connections(status: &Status, text: &mut String) -> Result<(), AllocError> {
    open_table("Connections", &CONNECTION_COLUMNS, text)?;
    for row in status.connections.shown.iter() {
        put_connection_rows(row, text)?;
    }
    close_table(status.connections.more, text)
}

/// Adds the fields of who has an open.
fn put_owner(row: &OpenedRow, text: &mut String) -> Result<(), AllocError> {
    match row.connection {
        Some(connection) => put_number(connection, text)?,
        None => text.push_str("<td class=\"n\">-</td>")?,
    }
    put_typed(row.user.as_ref().map(|user| user.as_str()), text)
}

/// Adds the fields of what an open may do, and what others may.
fn put_rights(row: &OpenedRow, text: &mut String) -> Result<(), AllocError> {
    text.push_str("<td>")?;
    put_access(row.access, text)?;
    text.push_str("</td><td>")?;
    put_share(row.share, text)?;
    text.push_str("</td>")?;
    put_flag(row.is_deleted_on_close, text)
}

/// Adds the row of an open.
fn put_open(row: &OpenedRow, text: &mut String) -> Result<(), AllocError> {
    text.push_str("<tr>")?;
    put_number(row.number, text)?;
    put_owner(row, text)?;
    put_number(row.entry, text)?;
    put_rights(row, text)?;
    put_number(row.locks, text)?;
    put_typed(row.name.as_ref().map(|name| name.as_str()), text)?;
    text.push_str("</tr>\n")
}

/// Adds the table of the opens.
fn put_opens(status: &Status, text: &mut String) -> Result<(), AllocError> {
    open_table("Opens", &OPEN_COLUMNS, text)?;
    for row in status.opens.shown.iter() {
        put_open(row, text)?;
    }
    close_table(status.opens.more, text)
}

/// Adds the row of a limit.
fn put_room(name: &str, room: Room, text: &mut String) -> Result<(), AllocError> {
    write!(text, "<tr><td>{name}</td>")?;
    put_number(room.used, text)?;
    put_number(room.most, text)?;
    put_number(room.left(), text)?;
    text.push_str("</tr>\n")
}

/// Adds what is left of each limit.
fn put_rooms(status: &Status, text: &mut String) -> Result<(), AllocError> {
    open_table("Limits", &ROOM_COLUMNS, text)?;
    let rooms = &status.rooms;
    put_room("connections", rooms.connections, text)?;
    put_room("opens", rooms.opens, text)?;
    put_room("files and folders", rooms.entries, text)?;
    put_room("bytes of files", rooms.bytes, text)?;
    put_room("bytes owed to clients", rooms.owed, text)?;
    close_table(0, text)
}

/// Adds what is known of the journal.
fn put_journal(journal: Journal, text: &mut String) -> Result<(), AllocError> {
    let bytes = journal.bytes;
    write!(text, "<h2>Journal</h2>\n<p>{bytes} bytes")?;
    if let Some(room) = journal.room {
        write!(text, ", {room} bytes of room")?;
    }
    let (said, moment) = match journal.synced {
        Some(synced) => (", synced last ", Some(synced)),
        None => (", written last ", journal.written),
    };
    if let Some(moment) = moment {
        text.push_str(said)?;
        put_moment(moment, text)?;
        text.push_str(" UTC")?;
    }
    text.push_str("</p>\n")
}

/// Adds the row of a count, where it is not 0.
fn put_count(name: &str, count: u64, text: &mut String) -> Result<(), AllocError> {
    if count == 0 {
        return Ok(());
    }
    write!(text, "<tr><td>{name}</td>")?;
    put_number(count, text)?;
    text.push_str("</tr>\n")
}

/// Adds the requests by command.
fn put_requests(counts: &Counts, text: &mut String) -> Result<(), AllocError> {
    open_table("Requests", &["Command", "Count"], text)?;
    for (name, count) in COMMAND_NAMES.iter().zip(counts.requests.iter()) {
        put_count(*name, *count, text)?;
    }
    close_table(0, text)
}

/// Adds the refusals by status.
fn put_refusals(counts: &Counts, text: &mut String) -> Result<(), AllocError> {
    open_table("Refusals", &["Status", "Count"], text)?;
    for (status, count) in REFUSALS.iter().zip(counts.refusals.iter()) {
        put_count(status.name(), *count, text)?;
    }
    close_table(0, text)
}

/// Adds the endings by rule.
fn put_endings(counts: &Counts, text: &mut String) -> Result<(), AllocError> {
    open_table("Endings by the share", &["Rule", "Count"], text)?;
    for (rule, count) in RULES.iter().zip(counts.endings.iter()) {
        put_count(rule.label(), *count, text)?;
    }
    close_table(0, text)
}

/// Adds how many bytes came and went, and how long the longest turn took.
fn put_traffic(counts: &Counts, text: &mut String) -> Result<(), AllocError> {
    let (received, sent) = (counts.received, counts.sent);
    write!(text, "<p>{received} bytes received, {sent} bytes sent, ")?;
    text.push_str("longest turn ")?;
    put_seconds(counts.longest_turn, text)?;
    text.push_str(" seconds</p>\n")
}

/// Adds what is before the tables.
fn put_front(status: &Status, text: &mut String) -> Result<(), AllocError> {
    text.push_str(FRONT)?;
    text.push_str("<p>")?;
    put_moment(status.moment, text)?;
    text.push_str(" UTC, served since ")?;
    put_moment(status.since, text)?;
    text.push_str("</p>\n")?;
    put_traffic(&status.counts, text)
}

/// Adds all that is counted.
fn put_counts(counts: &Counts, text: &mut String) -> Result<(), AllocError> {
    put_requests(counts, text)?;
    put_refusals(counts, text)?;
    put_endings(counts, text)
}

/// Adds a page for a browser, without a script, that is read again every two seconds. An error leaves a part of it.
pub fn put_page(status: &Status, text: &mut String) -> Result<(), AllocError> {
    put_front(status, text)?;
    put_rooms(status, text)?;
    if let Some(journal) = status.journal {
        put_journal(journal, text)?;
    }
    put_connections(status, text)?;
    put_opens(status, text)?;
    put_counts(&status.counts, text)?;
    text.push_str(BACK)
}
