//! The command `account`: its words, and what they ask for.

use crate::options::{CommandRow, Needed, OptionRow, Takes};
use clap::ArgMatches;

/// The end of the help of `account`.
const HELP: &str =
    "FILE is a file of accounts as `serve` takes it, its owner's alone; `add` makes it where there is none. All else in it
stays as it is, and each change is whole or not at all. It is for the next start of `serve`. Names that differ in the
case of letters alone are one.

The password is the one line of standard input, in UTF-8, and never a word of the command line; the script
smbshare-account asks for it unseen.

Examples:
  printf %s Password | smbshare account add accounts.toml ann --readonly
  printf %s Password | smbshare account password accounts.toml ann
  smbshare account remove accounts.toml ann
  smbshare account list accounts.toml";

/// What is done.
const ACTION: OptionRow = OptionRow {
    name: "action",
    takes: Takes::FirstWord("ACTION", &["add", "remove", "password", "list"]),
    needed: Needed::Always,
    bars: &[],
    help: "What to do: add or remove an account, give it another password, or list all",
};

/// The file.
const FILE: OptionRow = OptionRow {
    name: "file",
    takes: Takes::Second("FILE"),
    needed: Needed::Always,
    bars: &[],
    help: "The file of accounts",
};

/// The account.
const NAME: OptionRow = OptionRow {
    name: "name",
    takes: Takes::Third("NAME"),
    needed: Needed::Never,
    bars: &[],
    help: "The account's name; of all but list",
};

/// What the account may do.
const READONLY: OptionRow = OptionRow {
    name: "readonly",
    takes: Takes::Nothing,
    needed: Needed::Never,
    bars: &[],
    help: "Adds an account that may only read",
};

/// The command.
pub(crate) const ACCOUNT: CommandRow = CommandRow {
    name: "account",
    about: "Adds, removes or lists accounts of a file, or gives one another password, read from standard input",
    examples: HELP,
    options: &[ACTION, FILE, NAME, READONLY],
};

/// What is done with a file of accounts.
#[derive(Clone, Copy, Debug)]
pub enum AccountAction<'a> {
    /// An account of this name is added.
    Add { name: &'a str, read_only: bool },
    /// The account of this name is taken away.
    Remove { name: &'a str },
    /// The account of this name gets another password.
    Password { name: &'a str },
    List,
}

/// What the words of `account` ask for.
#[derive(Clone, Copy, Debug)]
pub struct AccountWords<'a> {
    /// The file's name.
    pub file: &'a str,
    pub action: AccountAction<'a>,
}

/// What is asked for of the account of a name, or of all.
fn action_of<'a>(
    action: &str,
    name: Option<&'a str>,
    read_only: bool,
) -> Result<AccountAction<'a>, &'static str> {
    match (action, name) {
        ("list", None) => Ok(AccountAction::List),
        ("list", Some(_)) => Err("`account list` takes no NAME"),
        (_, None) => Err("`account add`, `account remove` and `account password` want a NAME"),
        ("add", Some(name)) => Ok(AccountAction::Add { name, read_only }),
        ("remove", Some(name)) => Ok(AccountAction::Remove { name }),
        (_, Some(name)) => Ok(AccountAction::Password { name }),
    }
}

/// What the words of `account` ask for; where they do not go together, what is wrong with them.
pub fn account_of<'a>(words: &ArgMatches<'a>) -> Result<AccountWords<'a>, &'static str> {
    let read_only = words.get_flag("readonly");
    let action = words.get_str("action").unwrap_or("");
    if read_only && action != "add" {
        return Err("--readonly is only taken by `account add`");
    }
    Ok(AccountWords {
        file: words.get_str("file").unwrap_or(""),
        action: action_of(action, words.get_str("name"), read_only)?,
    })
}
