//! The rows of a text.

use crate::row::{Row, RowFault, row_of};
use crate::words::{Definition, Words};
use std::alloc::{AllocError, Global};

/// The rows of a text in order, up to the first line that cannot be read, if there is one, with its number and what is
/// wrong with it.
#[derive(Drop)]
pub(crate) struct Book {
    pub(crate) rows: Vec<Row>,
    pub(crate) fault: Option<(u64, RowFault)>,
    definitions: Vec<Definition>,
    alloc: Global,
}

impl Book {
    /// What the words of a line are read by.
    fn words(&self, turn: u64) -> Words<'_> {
        Words {
            alloc: self.alloc,
            definitions: &self.definitions,
            turn,
        }
    }

    /// Names bytes: `NAME = WORDS`.
    fn define(&mut self, rest: &str) -> Result<(), RowFault> {
        let (name, words) = rest.split_once(" = ").ok_or(RowFault::UnknownLine)?;
        let mut bytes = String::new(self.alloc);
        self.words(0).put(words, &mut bytes)?;
        let name = String::from_str(self.alloc, name)?;
        let definition = Definition { name, bytes };
        self.definitions.push(definition).map_err(AllocError::from)?;
        Ok(())
    }

    /// Begins a row.
    fn begin(&mut self, name: &str) -> Result<(), RowFault> {
        if row_of(name, &self.rows).is_ok() {
            return Err(RowFault::NamedTwice);
        }
        let row = Row::new(self.alloc, name)?;
        self.rows.push(row).map_err(AllocError::from)?;
        Ok(())
    }

    /// Adds a line to the last row so many times.
    fn add_to_last(&mut self, line: &str, times: u64) -> Result<(), RowFault> {
        let mut last = self.rows.pop().ok_or(RowFault::NoRow)?;
        for turn in 0..times {
            last.add(line, self.words(turn), &self.rows)?;
        }
        self.rows.push(last).map_err(AllocError::from)?;
        Ok(())
    }

    /// Adds a line to the last row as often as its number says: `NUMBER LINE`.
    fn repeat(&mut self, rest: &str) -> Result<(), RowFault> {
        let (times, line) = rest.split_once(' ').ok_or(RowFault::UnknownLine)?;
        let times = times.parse::<u64>().map_err(|_| RowFault::UnknownLine)?;
        self.add_to_last(line, times)
    }

    /// Adds a line.
    fn add(&mut self, line: &str) -> Result<(), RowFault> {
        if line.is_empty() || line.starts_with("##") {
            return Ok(());
        }
        if let Some(name) = line.strip_prefix("== ") {
            return self.begin(name);
        }
        if let Some(rest) = line.strip_prefix("times ") {
            return self.repeat(rest);
        }
        match line.strip_prefix("let ") {
            Some(rest) => self.define(rest),
            None => self.add_to_last(line, 1),
        }
    }

    /// Reads a text.
    pub(crate) fn read(alloc: Global, text: &str) -> Result<Book, AllocError> {
        let mut book = Book {
            rows: Vec::new(alloc),
            fault: None,
            definitions: Vec::new(alloc),
            alloc,
        };
        let mut number = 0u64;
        for line in text.lines() {
            number = number.wrapping_add(1);
            if let Err(fault) = book.add(line) {
                book.fault = Some((number, fault));
                return Ok(book);
            }
        }
        Ok(book)
    }
}
