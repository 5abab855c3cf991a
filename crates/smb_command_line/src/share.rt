//! The words of `share`.

use super::clients::{HOSTS, PER_ADDRESS};
use super::commands::SKIP;
use super::options::{CommandRow, Needed, OptionRow, Takes};

/// The end of its help.
const SHARE_HELP: &str =
    "The passwords are read from standard input or the file of --passwords, one a line, in the order of --account.
Without an account everyone on this machine comes in as a guest. All who come in may write. Files are held in memory:
changes are lost at the end, and never made in FOLDER, unless --journal keeps them.

Examples, for everyone on this machine, and for ann from others:
  smbshare share FOLDER
  printf '%s\\n' Password | smbshare share FOLDER --account ann --listen 0.0.0.0:4450 --journal a.journal";

/// The folder.
const FOLDER: OptionRow = OptionRow {
    name: "folder",
    takes: Takes::First("FOLDER"),
    needed: Needed::Always,
    bars: &[],
    help: "The folder whose files are served; it is never changed",
};

/// The share's name.
const NAME: OptionRow = OptionRow {
    name: "name",
    takes: Takes::Text("NAME"),
    needed: Needed::Never,
    bars: &[],
    help: "The share's name [default: the last name of FOLDER]",
};

/// Who may log in.
const ACCOUNT: OptionRow = OptionRow {
    name: "account",
    takes: Takes::Texts("NAME"),
    needed: Needed::Never,
    bars: &[],
    help: "Who may come in by a password; again for each account [default: guests alone]",
};

/// Their passwords.
const PASSWORDS: OptionRow = OptionRow {
    name: "passwords",
    takes: Takes::Text("FILE"),
    needed: Needed::Never,
    bars: &[],
    help: "The accounts' passwords, one a line [default: standard input]",
};

/// Guests.
const GUESTS: OptionRow = OptionRow {
    name: "guests",
    takes: Takes::Nothing,
    needed: Needed::Never,
    bars: &[],
    help: "Lets in guests from other machines, and beside accounts",
};

/// How much room there is.
const CAPACITY: OptionRow = OptionRow {
    name: "capacity",
    takes: Takes::Size("SIZE"),
    needed: Needed::Never,
    bars: &[],
    help: "The room for all files, in bytes or with KiB, MiB, GiB or TiB, such as 10GiB [default: 64MiB more than FOLDER takes]",
};

/// An address.
const LISTEN: OptionRow = OptionRow {
    name: "listen",
    takes: Takes::Texts("ADDR"),
    needed: Needed::Never,
    bars: &[],
    help: "The IP address and port to listen on; again for each address [default: 127.0.0.1:4450]",
};

/// A journal.
const JOURNAL: OptionRow = OptionRow {
    name: "journal",
    takes: Takes::Text("FILE"),
    needed: Needed::Never,
    bars: &[],
    help: "Keeps the share's files in FILE, before what changes them is answered; where FILE exists, begins with its files and not with FOLDER",
};

/// The command.
pub(crate) const SHARE: CommandRow = CommandRow {
    name: "share",
    about: "Serves a folder's files over TCP, by a configuration that is made for them",
    examples: SHARE_HELP,
    options: &[
        FOLDER,
        NAME,
        ACCOUNT,
        PASSWORDS,
        GUESTS,
        CAPACITY,
        LISTEN,
        HOSTS,
        PER_ADDRESS,
        JOURNAL,
        SKIP,
    ],
};
