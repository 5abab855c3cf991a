//! The texts that a command is given in files.

use crate::command_line::{CommandLine, FileOption};
use crate::named_file::NamedFile;
use clap::ArgMatches;
use smb_config::{BUILT_IN, ConfigFault, read_config};
use smb_replay::CommandFault;
use std::alloc::{AllocError, Global};

/// The texts of a command's files.
#[derive(Drop)]
pub struct Texts {
    pub config: String,
    /// Whether that is the one that is built in.
    pub is_built_in: bool,
    /// Whether everyone may write to its file.
    pub everyone_writes: bool,
    /// The accounts; None where no file of them is named.
    pub accounts: Option<String>,
}

/// The name of a file, where the words have one.
fn name_of<'a>(
    line: &'a CommandLine,
    words: &'a ArgMatches<'_>,
    option: FileOption,
) -> Option<&'a [u8]> {
    match line.file_name(option) {
        Some(name) => Some(name),
        None => Some(words.get_str(option.id())?.as_bytes()),
    }
}

/// The text of a file of accounts, which nobody but its owner has a right to.
fn accounts_text(rt: &HostRuntime, name: &[u8]) -> Result<String, ConfigFault> {
    read_config(rt.alloc(), NamedFile::open_private(rt, name)?)
}

impl Texts {
    /// No texts but the configuration that is built in.
    pub fn built_in(alloc: Global) -> Result<Self, AllocError> {
        Ok(Texts {
            config: String::from_str(alloc, BUILT_IN)?,
            is_built_in: true,
            everyone_writes: false,
            accounts: None,
        })
    }

    /// The texts of the files that the words name; of the configuration the built-in one where they name none.
    pub fn read(
        rt: &HostRuntime,
        line: &CommandLine,
        words: &ArgMatches<'_>,
    ) -> Result<Self, CommandFault> {
        let mut texts = Texts::built_in(rt.alloc())?;
        if let Some(name) = name_of(line, words, FileOption::Config) {
            let file = NamedFile::open(name)?;
            texts.everyone_writes = file.is_writable(rt);
            texts.config = read_config(rt.alloc(), file)?;
            texts.is_built_in = false;
        }
        if let Some(name) = name_of(line, words, FileOption::Accounts) {
            let accounts = accounts_text(rt, name).map_err(CommandFault::of_accounts)?;
            texts.accounts = Some(accounts);
        }
        Ok(texts)
    }

    /// The text of the accounts, where there is one.
    pub fn accounts(&self) -> Option<&str> {
        self.accounts.as_ref().map(|text| text.as_str())
    }
}
