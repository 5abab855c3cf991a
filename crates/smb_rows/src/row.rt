//! A row: what happens, and what answers it.

use crate::words::{Words, put_unescaped};
use hex::FromHex;
use smb_config::BUILT_IN;
use std::alloc::{AllocError, AllocFailed, Global};
use std::fmt;

/// The moment of a piece where the row names none: the start of 1970, in units of 100 ns since 1601.
const MOMENT: &str = "116444736000000000";

/// What is wrong with a row.
#[derive(Clone, Copy, PartialEq, Eq)]
pub(crate) enum RowFault {
    UnknownLine,
    UnknownWord,
    UnknownName,
    UnknownRow,
    NotInTheConfiguration,
    NoRow,
    NamedTwice,
    NoComment,
    NoAnswer,
    NoMemory,
}

impl fmt::Display for RowFault {
    fn fmt<W: fmt::Write>(&self, f: &mut fmt::Formatter<W>) -> fmt::Result {
        f.write_str(match self {
            RowFault::UnknownLine => "a line that says nothing known",
            RowFault::UnknownWord => "a word that says no bytes",
            RowFault::UnknownName => "a name that no line above gives bytes",
            RowFault::UnknownRow => "a name of no row above",
            RowFault::NotInTheConfiguration => "a text that is not in the configuration",
            RowFault::NoRow => "a line before the first row",
            RowFault::NamedTwice => "a name of a row above",
            RowFault::NoComment => "no line that says what it shows",
            RowFault::NoAnswer => "no answer",
            RowFault::NoMemory => "no memory",
        })
    }
}

impl From<AllocError> for RowFault {
    fn from(_error: AllocError) -> RowFault {
        RowFault::NoMemory
    }
}

/// What a row's input is given to.
#[derive(Clone, Copy, PartialEq, Eq)]
pub(crate) enum Kind {
    /// The replay of a text of events.
    Replay,
    /// The same on a share to which clients log in by NTLM, whose challenges come from this seed.
    Ntlm([u8; 16]),
    /// The listing of a stream.
    Show,
}

/// A row.
#[derive(Drop)]
pub(crate) struct Row {
    pub(crate) name: String,
    pub(crate) kind: Kind,
    pub(crate) config: String,
    /// The accounts of a login by NTLM, as the text of a file of them.
    pub(crate) accounts: String,
    pub(crate) input: String,
    pub(crate) output: String,
    pub(crate) errors: String,
    pub(crate) status: u8,
    alloc: Global,
    moment: String,
    is_told: bool,
    is_answered: bool,
}

impl Row {
    /// A row of this name, with the built-in configuration.
    pub(crate) fn new(alloc: Global, name: &str) -> Result<Row, AllocError> {
        Ok(Row {
            name: String::from_str(alloc, name)?,
            kind: Kind::Replay,
            config: String::from_str(alloc, BUILT_IN)?,
            accounts: String::new(alloc),
            input: String::new(alloc),
            output: String::new(alloc),
            errors: String::new(alloc),
            status: 0,
            alloc,
            moment: String::from_str(alloc, MOMENT)?,
            is_told: false,
            is_answered: false,
        })
    }

    /// What is wrong with the row whatever the share answers: nobody said what it shows, or what answers it.
    pub(crate) fn standing_fault(&self) -> Option<RowFault> {
        if !self.is_told {
            Some(RowFault::NoComment)
        } else if !self.is_answered {
            Some(RowFault::NoAnswer)
        } else {
            None
        }
    }

    /// Begins with the configuration, the accounts, the events and the answers of another row.
    fn begin_with(&mut self, other: &Row) -> Result<(), RowFault> {
        self.kind = other.kind;
        self.config = other.config.clone()?;
        self.accounts = other.accounts.clone()?;
        self.input.push_str(other.input.as_str())?;
        self.output.push_str(other.output.as_str())?;
        self.moment = other.moment.clone()?;
        Ok(())
    }

    /// Puts one text of the configuration in place of another.
    fn configure(&mut self, change: &str) -> Result<(), RowFault> {
        let Some((old, new)) = change.split_once(" => ") else {
            return Err(RowFault::UnknownLine);
        };
        let mut from = String::new(self.alloc);
        let _ = put_unescaped(old, &mut from)?;
        let Some((front, back)) = self.config.as_str().split_once(from.as_str()) else {
            return Err(RowFault::NotInTheConfiguration);
        };
        let mut config = String::from_str(self.alloc, front)?;
        let _ = put_unescaped(new, &mut config)?;
        config.push_str(back)?;
        self.config = config;
        Ok(())
    }

    /// Has clients log in by NTLM, with the seed that these hex digits spell.
    fn log_in_by_ntlm(&mut self, digits: &str) -> Result<(), RowFault> {
        let seed = <[u8; 16] as FromHex>::from_hex(digits).map_err(|_| RowFault::UnknownWord)?;
        self.kind = Kind::Ntlm(seed);
        Ok(())
    }

    /// Adds an account: `NAME HASH`, and behind it `readonly` where it may only read.
    fn add_account(&mut self, rest: &str) -> Result<(), RowFault> {
        let (name, rest) = rest.split_once(' ').ok_or(RowFault::UnknownLine)?;
        let (nt_hash, right) = rest.split_once(' ').unwrap_or((rest, ""));
        self.accounts.push_str("[[account]]\nname = \"")?;
        self.accounts.push_str(name)?;
        self.accounts.push_str("\"\nnt_hash = \"")?;
        self.accounts.push_str(nt_hash)?;
        self.accounts.push_str("\"\n")?;
        match right {
            "" => Ok(()),
            "readonly" => Ok(self.accounts.push_str("readonly = true\n")?),
            _ => Err(RowFault::UnknownLine),
        }
    }

    /// Begins the line of a piece on a connection.
    fn begin_piece(&mut self, connection: &str) -> Result<(), AllocError> {
        self.input.push_str("> ")?;
        self.input.push_str(connection)?;
        self.input.push_str(" ")?;
        self.input.push_str(self.moment.as_str())?;
        self.input.push_str(" ")
    }

    /// Adds pieces on a connection: the bytes of words, cut where a word `|` is.
    fn add_pieces(&mut self, rest: &str, words: Words<'_>) -> Result<(), RowFault> {
        let (connection, bytes) = rest.split_once(' ').ok_or(RowFault::UnknownLine)?;
        self.begin_piece(connection)?;
        for word in bytes.split_whitespace() {
            if word == "|" {
                self.input.push_str("\n")?;
                self.begin_piece(connection)?;
            } else {
                words.put_word(word, &mut self.input)?;
            }
        }
        self.input.push_str("\n")?;
        Ok(())
    }

    /// Adds pieces on a connection: each byte of words by itself.
    fn add_bytes(&mut self, rest: &str, words: Words<'_>) -> Result<(), RowFault> {
        let (connection, bytes) = rest.split_once(' ').ok_or(RowFault::UnknownLine)?;
        let mut spelled = String::new(self.alloc);
        words.put(bytes, &mut spelled)?;
        for digits in spelled.as_bytes().chunks(2) {
            self.begin_piece(connection)?;
            self.input
                .push_str(std::str::from_utf8(digits).unwrap_or("?"))?;
            self.input.push_str("\n")?;
        }
        Ok(())
    }

    /// Adds a frame that answers on a connection.
    fn add_answer(&mut self, rest: &str, words: Words<'_>) -> Result<(), RowFault> {
        let (connection, bytes) = rest.split_once(' ').ok_or(RowFault::UnknownLine)?;
        self.output.push_str("< ")?;
        self.output.push_str(connection)?;
        self.output.push_str(" ")?;
        words.put(bytes, &mut self.output)?;
        self.output.push_str("\n")?;
        self.is_answered = true;
        Ok(())
    }

    /// Adds a line of output as it is.
    fn add_output(&mut self, line: &str) -> Result<(), RowFault> {
        self.output.push_str(line)?;
        self.output.push_str("\n")?;
        self.is_answered = true;
        Ok(())
    }

    /// Adds a line of input, whose end is left out where a backslash ends it.
    fn add_input(&mut self, line: &str) -> Result<(), RowFault> {
        if !put_unescaped(line, &mut self.input)? {
            self.input.push_str("\n")?;
        }
        Ok(())
    }

    /// Ends with a line on standard error and a status: `STATUS TEXT`.
    fn end_with(&mut self, rest: &str) -> Result<(), RowFault> {
        let (status, text) = rest.split_once(' ').unwrap_or((rest, ""));
        self.status = status.parse::<u8>().map_err(|_| RowFault::UnknownLine)?;
        if !text.is_empty() {
            self.errors.push_str(text)?;
            self.errors.push_str("\n")?;
        }
        self.is_answered = true;
        Ok(())
    }

    /// Adds what a word alone says.
    fn add_word(&mut self, line: &str) -> Result<(), RowFault> {
        match line {
            "show" => self.kind = Kind::Show,
            "nothing" => self.is_answered = true,
            _ => return Err(RowFault::UnknownLine),
        }
        Ok(())
    }

    /// Adds what a line says.
    pub(crate) fn add(
        &mut self,
        line: &str,
        words: Words<'_>,
        above: &[Row],
    ) -> Result<(), RowFault> {
        let Some((word, rest)) = line.split_once(' ') else {
            return self.add_word(line);
        };
        match word {
            "#" => self.is_told = true,
            "after" => self.begin_with(row_of(rest, above)?)?,
            "config" => self.configure(rest)?,
            "ntlm" => self.log_in_by_ntlm(rest)?,
            "account" => self.add_account(rest)?,
            "at" => self.moment = String::from_str(self.alloc, rest)?,
            "+" | "-" => self.add_input(line)?,
            "=" => self.add_input(rest)?,
            ">" => self.add_pieces(rest, words)?,
            ">>" => self.add_bytes(rest, words)?,
            "hex" => words.put(rest, &mut self.input)?,
            "<" => self.add_answer(rest, words)?,
            "x" => self.add_output(line)?,
            ":" => self.add_output(rest)?,
            "!" => self.end_with(rest)?,
            _ => return Err(RowFault::UnknownLine),
        }
        Ok(())
    }
}

/// The row of a name.
pub(crate) fn row_of<'a>(name: &str, rows: &'a [Row]) -> Result<&'a Row, RowFault> {
    for row in rows {
        if row.name.as_str() == name {
            return Ok(row);
        }
    }
    Err(RowFault::UnknownRow)
}
