//! What is going on in a share, as metrics for Prometheus, in its text format.

use crate::counts::{COMMAND_NAMES, Counts, REFUSALS, RULES};
use crate::status::{Journal, Rooms, Status};
use crate::text::{put_label, put_seconds, put_unix_time};
use std::alloc::{AllocError, Global};
use std::collections::BTreeMap;

/// Adds the lines that say what a metric is.
fn put_meta(name: &str, kind: &str, help: &str, text: &mut String) -> Result<(), AllocError> {
    write!(text, "# HELP {name} {help}\n# TYPE {name} {kind}\n")
}

/// Adds a metric that has one whole number.
fn put_metric(
    name: &str,
    kind: &str,
    help: &str,
    value: u64,
    text: &mut String,
) -> Result<(), AllocError> {
    put_meta(name, kind, help, text)?;
    write!(text, "{name} {value}\n")
}

/// Adds a gauge that has one whole number.
fn put_gauge(name: &str, help: &str, value: u64, text: &mut String) -> Result<(), AllocError> {
    put_metric(name, "gauge", help, value, text)
}

/// Adds a gauge that is a moment.
fn put_moment(name: &str, help: &str, moment: u64, text: &mut String) -> Result<(), AllocError> {
    put_meta(name, "gauge", help, text)?;
    write!(text, "{name} ")?;
    put_unix_time(moment, text)?;
    text.push_str("\n")
}

/// Adds a line of a metric that has a label.
fn put_labelled(
    name: &str,
    label: &str,
    said: &str,
    value: u64,
    text: &mut String,
) -> Result<(), AllocError> {
    write!(text, "{name}{{{label}=")?;
    put_label(said, text)?;
    write!(text, "}} {value}\n")
}

/// A gauge of how much there is, and one of how much there may be.
struct RoomMetric {
    used: &'static str,
    used_help: &'static str,
    most: &'static str,
    most_help: &'static str,
}

/// The gauges of the limits, in the order of the limits.
const ROOMS: [RoomMetric; 5] = [
    RoomMetric {
        used: "smbshare_connections",
        used_help: "Connections that are open.",
        most: "smbshare_connections_limit",
        most_help: "Connections that may be open.",
    },
    RoomMetric {
        used: "smbshare_opens",
        used_help: "Files and folders that are open, each as often as it is.",
        most: "smbshare_opens_limit",
        most_help: "Opens that there may be.",
    },
    RoomMetric {
        used: "smbshare_entries",
        used_help: "Files and folders, without the root.",
        most: "smbshare_entries_limit",
        most_help: "Files and folders that there may be.",
    },
    RoomMetric {
        used: "smbshare_used_bytes",
        used_help: "Room that all files take.",
        most: "smbshare_capacity_bytes",
        most_help: "Room that all files may take.",
    },
    RoomMetric {
        used: "smbshare_owed_bytes",
        used_help: "Bytes that all clients are owed.",
        most: "smbshare_owed_limit_bytes",
        most_help: "Bytes that all clients may be owed.",
    },
];

/// Adds how much there is of everything, and how much there may be.
fn put_rooms(rooms: &Rooms, text: &mut String) -> Result<(), AllocError> {
    for (metric, (_, room)) in ROOMS.iter().zip(rooms.named()) {
        put_gauge(metric.used, metric.used_help, room.used, text)?;
        put_gauge(metric.most, metric.most_help, room.most, text)?;
    }
    Ok(())
}

/// Adds the length of the journal and its room, and when it was last written and put on the disk.
fn put_journal(journal: Journal, text: &mut String) -> Result<(), AllocError> {
    let help = "Length of the journal of changes.";
    put_gauge("smbshare_journal_bytes", help, journal.bytes, text)?;
    if let Some(room) = journal.room {
        let help = "Room that is taken for the journal before it is needed.";
        put_gauge("smbshare_journal_room_bytes", help, room, text)?;
    }
    if let Some(written) = journal.written {
        let name = "smbshare_journal_last_write_timestamp_seconds";
        let help = "When the journal was last written, since 1970.";
        put_moment(name, help, written, text)?;
    }
    if let Some(synced) = journal.synced {
        let name = "smbshare_journal_last_sync_timestamp_seconds";
        let help = "When the journal was last put on the disk, since 1970.";
        put_moment(name, help, synced, text)?;
    }
    Ok(())
}

/// Adds the requests by command.
fn put_requests(counts: &Counts, text: &mut String) -> Result<(), AllocError> {
    let name = "smbshare_requests_total";
    put_meta(name, "counter", "Requests that were performed.", text)?;
    for (command, count) in COMMAND_NAMES.iter().zip(counts.requests.iter()) {
        put_labelled(name, "command", *command, *count, text)?;
    }
    Ok(())
}

/// Adds the refusals by status.
fn put_refusals(counts: &Counts, text: &mut String) -> Result<(), AllocError> {
    let name = "smbshare_refusals_total";
    put_meta(name, "counter", "Requests that were refused.", text)?;
    for (status, count) in REFUSALS.iter().zip(counts.refusals.iter()) {
        put_labelled(name, "status", status.name(), *count, text)?;
    }
    Ok(())
}

/// Adds the endings by rule.
fn put_endings(counts: &Counts, text: &mut String) -> Result<(), AllocError> {
    let name = "smbshare_endings_total";
    let help = "Connections that the share ended, whose clients broke a rule.";
    put_meta(name, "counter", help, text)?;
    for (rule, count) in RULES.iter().zip(counts.endings.iter()) {
        put_labelled(name, "rule", rule.label(), *count, text)?;
    }
    Ok(())
}

/// Adds how many bytes came and went.
fn put_traffic(counts: &Counts, text: &mut String) -> Result<(), AllocError> {
    let (received, sent) = (counts.received, counts.sent);
    let help = "Bytes that came of clients.";
    put_metric(
        "smbshare_received_bytes_total",
        "counter",
        help,
        received,
        text,
    )?;
    let help = "Bytes that clients took.";
    put_metric("smbshare_sent_bytes_total", "counter", help, sent, text)
}

/// Adds how long the longest turn took.
fn put_turn(counts: &Counts, text: &mut String) -> Result<(), AllocError> {
    let name = "smbshare_longest_turn_seconds";
    put_meta(name, "gauge", "Time of the longest turn so far.", text)?;
    write!(text, "{name} ")?;
    put_seconds(counts.longest_turn, text)?;
    text.push_str("\n")
}

/// How many sessions each user has, of the connections that are shown.
fn sessions_by_user<'s>(
    alloc: Global,
    status: &'s Status,
) -> Result<BTreeMap<&'s str, u64>, AllocError> {
    let mut counts = BTreeMap::new(alloc);
    for row in status.connections.shown.iter() {
        for session in row.sessions.iter() {
            if let Some(user) = &session.user {
                let count = counts.entry(user.as_str())?.or_insert(0u64);
                *count = count.saturating_add(1);
            }
        }
    }
    Ok(counts)
}

/// Adds how many sessions each user has.
fn put_users(alloc: Global, status: &Status, text: &mut String) -> Result<(), AllocError> {
    let name = "smbshare_user_sessions";
    let help = "Sessions of a user, on the connections that the page shows.";
    put_meta(name, "gauge", help, text)?;
    let counts = sessions_by_user(alloc, status)?;
    for (user, count) in counts.iter() {
        put_labelled(name, "user", *user, *count, text)?;
    }
    Ok(())
}

/// Adds since when the share is served, and how many sessions there are.
fn put_front(status: &Status, text: &mut String) -> Result<(), AllocError> {
    let help = "Since when the share is served, since 1970.";
    put_moment("smbshare_start_time_seconds", help, status.since, text)?;
    let help = "Sessions, those that are not finished among them.";
    put_gauge("smbshare_sessions", help, status.sessions, text)
}

/// Adds all that is counted.
fn put_counts(counts: &Counts, text: &mut String) -> Result<(), AllocError> {
    put_requests(counts, text)?;
    put_refusals(counts, text)?;
    put_endings(counts, text)?;
    put_traffic(counts, text)?;
    put_turn(counts, text)
}

/// Adds metrics, whose names begin with `smbshare_`. An error leaves a part of them.
pub fn put_metrics(alloc: Global, status: &Status, text: &mut String) -> Result<(), AllocError> {
    put_front(status, text)?;
    put_rooms(&status.rooms, text)?;
    if let Some(journal) = status.journal {
        put_journal(journal, text)?;
    }
    put_counts(&status.counts, text)?;
    put_users(alloc, status, text)
}
