//! The numbers of connections, where some were not opened.

use smb_engine::Event;
use std::alloc::{AllocError, Global};

/// The connections of a text whose opening found no memory. The share gives their numbers to those that open behind
/// them.
#[derive(Drop)]
pub(crate) struct Unopened {
    connections: Vec<u64>,
}

impl Unopened {
    /// None so far, with room for so many: these are then noted without any memory.
    pub(crate) fn new(alloc: Global, room: usize) -> Result<Self, AllocError> {
        Ok(Unopened {
            connections: Vec::with_capacity(alloc, room)?,
        })
    }

    /// Notes a connection of the text.
    pub(crate) fn note(&mut self, connection: u64) -> Result<(), AllocError> {
        self.connections.push(connection)?;
        Ok(())
    }

    /// The number that the share has for a connection of the text; None where it was not opened.
    fn number_of(&self, connection: u64) -> Option<u64> {
        if self.connections.contains(&connection) {
            return None;
        }
        let before = self.connections.iter().filter(|other| **other < connection);
        Some(connection.saturating_sub(before.count() as u64))
    }

    /// Gives an event the number that the share has for its connection, and returns whether that was opened.
    pub(crate) fn renumber(&self, event: &mut Event) -> bool {
        let Some(number) = self.number_of(event.connection()) else {
            return false;
        };
        match event {
            Event::Opened(connection) => *connection = number,
            Event::Bytes { connection, .. } => *connection = number,
            Event::Ended(connection) => *connection = number,
        }
        true
    }
}
