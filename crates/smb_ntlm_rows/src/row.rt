//! A row: who may log in, what tokens come, and what answers each.

use hex::{FromHex, decode};
use smb_ntlm::{Account, SigningMode};
use std::alloc::{AllocError, Global};
use thiserror::Error;

/// What is wrong with a row.
#[derive(Clone, Copy, Debug, PartialEq, Eq, Error)]
pub enum RowFault {
    #[error("a line that says nothing known")]
    UnknownLine,
    #[error("a word that is no bytes in hex")]
    NoBytes,
    #[error("a word that is no number")]
    NoNumber,
    #[error("a line before the first row")]
    NoRow,
    #[error("a token without an answer")]
    NoAnswer,
    #[error("an answer without a token")]
    NoToken,
    #[error("no memory")]
    NoMemory,
}

impl From<AllocError> for RowFault {
    fn from(_error: AllocError) -> RowFault {
        RowFault::NoMemory
    }
}

/// A token in a session, and the answer to it, in words.
#[derive(Drop)]
pub struct Step {
    pub session: u64,
    pub token: Vec<u8>,
    pub answer: String,
    /// The key of the session, where it has one.
    pub key: Option<[u8; 16]>,
}

/// A password, and its NT hash.
#[derive(Drop)]
pub struct Hashed {
    pub password: String,
    pub nt_hash: [u8; 16],
}

/// A row.
#[derive(Drop)]
pub struct Row {
    pub name: String,
    pub seed: [u8; 16],
    pub guest: bool,
    pub guest_read_only: bool,
    pub signing: SigningMode,
    pub accounts: Vec<Account>,
    /// What is wrong with the accounts, in words; else empty.
    pub fault: String,
    pub steps: Vec<Step>,
    pub hashed: Vec<Hashed>,
}

/// Bytes in hex.
fn bytes_of(alloc: Global, word: &str) -> Result<Vec<u8>, RowFault> {
    decode(alloc, word).map_err(|_| RowFault::NoBytes)
}

/// 16 bytes in hex.
fn sixteen_of(word: &str) -> Result<[u8; 16], RowFault> {
    <[u8; 16] as FromHex>::from_hex(word).map_err(|_| RowFault::NoBytes)
}

/// Whether a word is `readonly`; no word is the other.
fn is_read_only(word: &str) -> Result<bool, RowFault> {
    match word {
        "" => Ok(false),
        "readonly" => Ok(true),
        _ => Err(RowFault::UnknownLine),
    }
}

impl Row {
    /// A row without accounts and tokens, whose seed is zeros.
    pub fn named(alloc: Global, name: &str) -> Result<Row, AllocError> {
        Ok(Row {
            name: String::from_str(alloc, name)?,
            seed: [0; 16],
            guest: false,
            guest_read_only: false,
            signing: SigningMode::Off,
            accounts: Vec::new(alloc),
            fault: String::new(alloc),
            steps: Vec::new(alloc),
            hashed: Vec::new(alloc),
        })
    }

    /// Takes guests, who may write too where no word says that they may not.
    fn take_guests(&mut self, words: &str) -> Result<(), RowFault> {
        self.guest = true;
        self.guest_read_only = is_read_only(words)?;
        Ok(())
    }

    /// Takes an account: its name and its NT hash, in hex, and whether it may only read.
    fn take_account(&mut self, alloc: Global, words: &str) -> Result<(), RowFault> {
        let (name, words) = words.split_once(' ').ok_or(RowFault::UnknownLine)?;
        let (nt_hash, right) = words.split_once(' ').unwrap_or((words, ""));
        let account = Account {
            name: bytes_of(alloc, name)?,
            nt_hash: sixteen_of(nt_hash)?,
            read_only: is_read_only(right)?,
        };
        self.accounts.push(account).map_err(|_| RowFault::NoMemory)
    }

    /// Takes a token: the session's number, and the bytes in hex.
    fn take_token(&mut self, alloc: Global, words: &str) -> Result<(), RowFault> {
        let (session, token) = words.split_once(' ').ok_or(RowFault::UnknownLine)?;
        let step = Step {
            session: session.parse::<u64>().map_err(|_| RowFault::NoNumber)?,
            token: bytes_of(alloc, token)?,
            answer: String::new(alloc),
            key: None,
        };
        self.steps.push(step).map_err(|_| RowFault::NoMemory)
    }

    /// Takes the answer to the last token, and behind `key` the key of the session.
    fn take_answer(&mut self, line: &str) -> Result<(), RowFault> {
        let Some(step) = self.steps.last_mut() else {
            return Err(RowFault::NoToken);
        };
        let (answer, key) = line.split_once(" key ").unwrap_or((line, ""));
        if !key.is_empty() {
            step.key = Some(sixteen_of(key)?);
        }
        step.answer.push_str(answer).map_err(|_| RowFault::NoMemory)
    }

    /// Takes an NT hash in hex, and behind it the password.
    fn take_hash(&mut self, alloc: Global, words: &str) -> Result<(), RowFault> {
        let (nt_hash, password) = words.split_once(' ').ok_or(RowFault::UnknownLine)?;
        let hashed = Hashed {
            password: String::from_str(alloc, password)?,
            nt_hash: sixteen_of(nt_hash)?,
        };
        self.hashed.push(hashed).map_err(|_| RowFault::NoMemory)
    }

    /// Takes a line of the row.
    fn take(&mut self, alloc: Global, line: &str) -> Result<(), RowFault> {
        let (word, words) = line.split_once(' ').unwrap_or((line, ""));
        match word {
            "seed" => self.seed = sixteen_of(words)?,
            "signing" => self.signing = SigningMode::Offered,
            "guest" => self.take_guests(words)?,
            "account" => self.take_account(alloc, words)?,
            "fault" => self.fault = String::from_str(alloc, words)?,
            "hash" => self.take_hash(alloc, words)?,
            ">" => self.take_token(alloc, words)?,
            "continue" | "accept" | "deny" => self.take_answer(line)?,
            _ => return Err(RowFault::UnknownLine),
        }
        Ok(())
    }
}

/// Takes a line: `== NAME` begins a row, and `#` a comment; any other is of the row before it.
fn take_line(alloc: Global, rows: &mut Vec<Row>, line: &str) -> Result<(), RowFault> {
    if line.is_empty() || line.starts_with("#") {
        return Ok(());
    }
    if let Some(name) = line.strip_prefix("== ") {
        let row = Row::named(alloc, name)?;
        return rows.push(row).map_err(|_| RowFault::NoMemory);
    }
    match rows.last_mut() {
        Some(row) => row.take(alloc, line),
        None => Err(RowFault::NoRow),
    }
}

/// The rows of a text.
pub fn read_rows(alloc: Global, text: &str) -> Result<Vec<Row>, RowFault> {
    let mut rows = Vec::new(alloc);
    for line in text.lines() {
        take_line(alloc, &mut rows, line)?;
    }
    Ok(rows)
}
