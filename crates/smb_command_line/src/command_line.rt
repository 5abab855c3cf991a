//! The words of the command line as the system has them: a file's name need not be text.

use std::alloc::{AllocError, Global};
use std::env::{Env, FillError};

/// How many bytes Linux lets a word have at most.
const LONGEST_WORD: usize = 131_072;

/// A file that a command is given by an option.
#[derive(Clone, Copy, Debug, PartialEq, Eq)]
pub enum FileOption {
    Config,
    Accounts,
}

impl FileOption {
    /// The option's name, as the command line's matches know it.
    pub fn id(self) -> &'static str {
        match self {
            FileOption::Config => "config",
            FileOption::Accounts => "accounts",
        }
    }

    /// The option as a word, before the file's name in the next one.
    fn word(self) -> &'static str {
        match self {
            FileOption::Config => "--config",
            FileOption::Accounts => "--accounts",
        }
    }

    /// The option as the front of a word with the file's name.
    fn front(self) -> &'static [u8] {
        match self {
            FileOption::Config => b"--config=",
            FileOption::Accounts => b"--accounts=",
        }
    }
}

/// The words of a command line.
#[derive(Drop)]
pub struct CommandLine {
    /// The words as text. Of a file's name that is not UTF-8 it is what can be shown of it.
    pub words: Vec<String>,
    /// The name of the configuration's file, where it is not UTF-8.
    config: Option<Vec<u8>>,
    /// The name of the accounts' file, where it is not UTF-8.
    accounts: Option<Vec<u8>>,
}

impl CommandLine {
    /// The command line of this run; None where a word is not UTF-8 that is no file's name.
    pub fn read(rt: &HostRuntime) -> Result<Option<Self>, AllocError> {
        let alloc = rt.alloc();
        let mut line = CommandLine {
            words: Vec::new(alloc),
            config: None,
            accounts: None,
        };
        let mut word = Vec::new(alloc);
        word.resize(LONGEST_WORD, 0u8)?;
        for number in 0..usize::MAX {
            match rt.arg(number, &mut word) {
                Ok(length) if line.add(alloc, &word[..length])? => {}
                Err(FillError::NotPresent) => return Ok(Some(line)),
                _ => return Ok(None),
            }
        }
        Ok(None)
    }

    /// The name of a file, where it is not UTF-8.
    pub fn file_name(&self, option: FileOption) -> Option<&[u8]> {
        let name = match option {
            FileOption::Config => &self.config,
            FileOption::Accounts => &self.accounts,
        };
        name.as_ref().map(|name| name.as_slice())
    }

    /// Adds a word; false where it is not UTF-8 and no file's name.
    fn add(&mut self, alloc: Global, word: &[u8]) -> Result<bool, AllocError> {
        if std::str::from_utf8(word).is_err() {
            let Some((option, name)) = self.file_in(word) else {
                return Ok(false);
            };
            let name = Some(Vec::from_slice(alloc, name)?);
            match option {
                FileOption::Config => self.config = name,
                FileOption::Accounts => self.accounts = name,
            }
        }
        self.words.push(String::from_utf8_lossy(alloc, word)?)?;
        Ok(true)
    }

    /// The file's name that the next word brings, and the option that it belongs to.
    fn file_in<'a>(&self, word: &'a [u8]) -> Option<(FileOption, &'a [u8])> {
        for option in [FileOption::Config, FileOption::Accounts] {
            let is_named = match self.words.last() {
                Some(last) => last.as_str() == option.word(),
                None => false,
            };
            if is_named {
                return Some((option, word));
            }
            if let Some(name) = word.strip_prefix(option.front()) {
                return Some((option, name));
            }
        }
        None
    }
}
