//! The words that the command line may have.

use super::account::ACCOUNT;
use super::clients::{HOSTS, PER_ADDRESS};
use super::options::{CommandRow, Needed, OptionRow, Takes, command_of};
use super::share::SHARE;
use clap::Command;
use smb_journal::VERSION;
use std::alloc::{AllocError, Global};

/// The end of the program's help.
const HELP: &str =
    "Built in, where no configuration is given: the share `data` with room for 64 MiB, and one user, `ann`,
whose token is 61 in hex, the letter `a`; guests are not let in. A token is the whole security buffer of a
SESSION_SETUP and no password: no client of Samba's sends `a`, so serve with --config guest.toml.

Who has an account logs in by NTLM, with the password that `account` made a hash of in the file of accounts.
Who comes in may write too, but for a user or an account with `readonly = true`, and for guests where the configuration
has `guest_readonly = true`: these may only read.

Examples:
  smbshare share FOLDER
  smbshare replay --explain < examples/two_clients
  smbshare serve --listen 127.0.0.1:4450 --config guest.toml --login ntlm
  smbshare serve --listen 127.0.0.1:4450 --login ntlm --accounts accounts.toml
  printf %s Password | smbshare account add accounts.toml ann
  echo 00000044fe534d42 | smbshare show

With --explain, and always on a terminal, `replay` and `serve` say in a second line what is wrong: of a
configuration the key, the line and the value, of accounts never a hash, of an address the system's reason, of a
line what was expected. A replay then says why the share refused a request or ended a connection.";

/// The end of the help of `replay`.
const REPLAY_HELP: &str = "Example:
  smbshare replay --config share.toml --explain < examples/two_clients

By NTLM the challenges come from --seed, so that each run of one text answers the same.";

/// The end of the help of `serve`.
const SERVE_HELP: &str =
    "Examples, of a share that lets guests in, and of one that lets in who has an account:
  smbshare serve --listen 127.0.0.1:4450 --config guest.toml --login ntlm
  smbshare serve --listen 127.0.0.1:4450 --login ntlm --accounts accounts.toml

A file of accounts, which `account` makes and changes, has a table for each, and nobody but its owner has a right to it:
  [[account]]
  name = \"ann\"
  nt_hash = \"a4f49c406510bdcab6824ee7c30fd852\"
  readonly = true    # where it may only read";

/// The end of the help of `check`.
const CHECK_HELP: &str = "Example:
  smbshare check --explain --config share.toml --login ntlm --accounts accounts.toml";

/// The end of the help of `nt-hash`.
const NT_HASH_HELP: &str =
    "The password is all of standard input, in UTF-8, but for one line feed at its end. Who has its hash can log in.

Example:
  printf %s Password | smbshare nt-hash";

/// The end of the help of `extract`.
const EXTRACT_HELP: &str = "Example:
  smbshare serve --listen 127.0.0.1:4450 --journal data.journal
  smbshare extract folder < data.journal";

/// The end of the help of `compact`.
const COMPACT_HELP: &str =
    "NEW has the same files, with their names, bytes, times, attributes and numbers, and nothing of what was before.
A journal that an older program made is one of events: this makes a journal of its files, which `serve` takes.

Example:
  smbshare compact < data.journal > shorter.journal";

/// The end of the help of `check-journal`.
const CHECK_JOURNAL_HELP: &str = "Nothing is written to it: it can be checked while it is served.

Example:
  smbshare check-journal data.journal";

/// The end of the help of `show`.
const SHOW_HELP: &str = "No share is made, so nothing is built in.

Examples, of a frame that ends too early, and of what a replay answers:
  echo 00000044fe534d42 | smbshare show
  smbshare replay < examples/two_clients | smbshare show --fields";

/// The configuration.
const CONFIG: OptionRow = OptionRow {
    name: "config",
    takes: Takes::Text("FILE"),
    needed: Needed::Never,
    bars: &[],
    help: "The configuration, a TOML file of at most 1 MiB [default: a share `data` of 64 MiB, the user `ann` with the token 61, no guests]",
};

/// More words on a fault.
const EXPLAIN: OptionRow = OptionRow {
    name: "explain",
    takes: Takes::Nothing,
    needed: Needed::Never,
    bars: &[],
    help: "Says in a second line what is wrong, and in a replay why a request was refused or a connection ended; always so on a terminal",
};

/// Reasons among the answers.
const REASONS: OptionRow = OptionRow {
    name: "reasons",
    takes: Takes::Nothing,
    needed: Needed::Never,
    bars: &["recording"],
    help: "Writes behind each answer, as a comment, why a request was refused or the connection ended",
};

/// An address.
const LISTEN: OptionRow = OptionRow {
    name: "listen",
    takes: Takes::Texts("ADDR"),
    needed: Needed::Always,
    bars: &[],
    help: "The IP address and port to listen on, such as 127.0.0.1:4450; port 0 for a free one; again for each address",
};

/// How clients log in.
const LOGIN: OptionRow = OptionRow {
    name: "login",
    takes: Takes::Word("HOW", &["token", "ntlm"]),
    needed: Needed::Never,
    bars: &[],
    help: "How clients log in: by a token of the configuration, or by NTLM as an account or a guest [default: token]",
};

/// Accounts.
const ACCOUNTS: OptionRow = OptionRow {
    name: "accounts",
    takes: Takes::Text("FILE"),
    needed: Needed::Never,
    bars: &[],
    help: "Who may log in by NTLM, a TOML file of at most 1 MiB, its owner's alone [default: guests alone]",
};

/// How sessions of accounts are signed.
const SIGNING: OptionRow = OptionRow {
    name: "signing",
    takes: Takes::Word("MODE", &["off", "offered", "required"]),
    needed: Needed::Never,
    bars: &[],
    help: "Whether accounts may sign what they send, or have to [default: the configuration's `signing`, or offered; of a replay off]",
};

/// What a seed is.
const SEED_HELP: &str =
    "The seed of NTLM's challenges, 32 hex digits, for tests [default, of `serve` alone: the system's]";

/// A seed.
const SEED: OptionRow = OptionRow {
    name: "seed",
    takes: Takes::Text("HEX"),
    needed: Needed::Never,
    bars: &[],
    help: SEED_HELP,
};

/// How long is served.
const TURNS: OptionRow = OptionRow {
    name: "turns",
    takes: Takes::Number("N", 1),
    needed: Needed::Never,
    bars: &[],
    help: "How many turns to serve [default: until it is ended]",
};

/// How long a client may be silent.
const IDLE: OptionRow = OptionRow {
    name: "idle",
    takes: Takes::Number("SECONDS", 0),
    needed: Needed::Never,
    bars: &[],
    help: "After how long a client is gone that says nothing and takes nothing, 0 for never [default: 3600]",
};

/// How long a client may be silent that was never answered.
const IDLE_NEW: OptionRow = OptionRow {
    name: "idle-new",
    takes: Takes::Number("SECONDS", 0),
    needed: Needed::Never,
    bars: &[],
    help: "After how long a client is gone that was never answered anything, 0 for never [default: 30]",
};

/// How much all clients may be owed.
const OWED: OptionRow = OptionRow {
    name: "owed",
    takes: Takes::Number("BYTES", 33_554_432),
    needed: Needed::Never,
    bars: &[],
    help: "How much all clients together may leave untaken before the one owed most is gone [default: 1073741824]",
};

/// A journal.
const JOURNAL: OptionRow = OptionRow {
    name: "journal",
    takes: Takes::Text("FILE"),
    needed: Needed::Never,
    bars: &["record"],
    help: "Keeps the share's files in FILE: what changes, before it is answered, and nothing else; begins with the files that FILE keeps where it exists",
};

/// A record.
const RECORD: OptionRow = OptionRow {
    name: "record",
    takes: Takes::Text("FILE"),
    needed: Needed::Never,
    bars: &[],
    help: "Writes all that happens into a new FILE, as text for a replay",
};

/// What is kept is to be on the disk.
const SYNC: OptionRow = OptionRow {
    name: "sync",
    takes: Takes::Nothing,
    needed: Needed::Never,
    bars: &[],
    help: "Has the system write FILE to the disk before anything is answered",
};

/// A log.
const LOG: OptionRow = OptionRow {
    name: "log",
    takes: Takes::Text("FILE"),
    needed: Needed::Never,
    bars: &[],
    help: "Adds a line for each event to FILE, or to standard error where FILE is -",
};

/// How much is logged.
const LOG_LEVEL: OptionRow = OptionRow {
    name: "log-level",
    takes: Takes::Word("LEVEL", &["sessions", "refusals", "requests"]),
    needed: Needed::Never,
    bars: &[],
    help: "Which requests are logged: those of sessions, those that were refused, or all [default: refusals]",
};

/// A log that has to be written.
const LOG_MUST: OptionRow = OptionRow {
    name: "log-must",
    takes: Takes::Nothing,
    needed: Needed::Never,
    bars: &[],
    help: "Ends the server where a line of the log can't be written",
};

/// A status.
const STATUS: OptionRow = OptionRow {
    name: "status",
    takes: Takes::Text("ADDR"),
    needed: Needed::Never,
    bars: &[],
    help: "Answers at this address and port what is going on: a page, /status.json, and /metrics for Prometheus",
};

/// A status for others.
const STATUS_ANYWHERE: OptionRow = OptionRow {
    name: "status-anywhere",
    takes: Takes::Nothing,
    needed: Needed::Never,
    bars: &[],
    help: "Lets the address of --status be one that other machines reach",
};

/// A status with names.
const STATUS_NAMES: OptionRow = OptionRow {
    name: "status-names",
    takes: Takes::Nothing,
    needed: Needed::Never,
    bars: &[],
    help: "Shows the names of open files in the status",
};

/// A folder to begin with.
const FROM: OptionRow = OptionRow {
    name: "from",
    takes: Takes::Text("FOLDER"),
    needed: Needed::Never,
    bars: &[],
    help: "Begins a new share with the files and folders of FOLDER; not where the file of --journal exists",
};

/// What of a folder is left out.
pub(crate) const SKIP: OptionRow = OptionRow {
    name: "skip",
    takes: Takes::Nothing,
    needed: Needed::Never,
    bars: &[],
    help: "Leaves out what of FOLDER can't be in the share, in place of ending there; standard error names it",
};

/// What is whole of a damaged journal.
const SALVAGE: OptionRow = OptionRow {
    name: "salvage",
    takes: Takes::Nothing,
    needed: Needed::Never,
    bars: &[],
    help: "Takes of a damaged journal what is whole before and behind the damage, and says what may be missing",
};

/// A clock.
const CLOCK: OptionRow = OptionRow {
    name: "clock",
    takes: Takes::Number("MOMENT", 0),
    needed: Needed::Never,
    bars: &[],
    help: "The moment of the first piece, in units of 100 ns since 1601; each further one comes a unit later, for tests [default: the system's clock]",
};

/// A recording.
const RECORDING: OptionRow = OptionRow {
    name: "recording",
    takes: Takes::Text("FILE"),
    needed: Needed::Never,
    bars: &["config", "login", "accounts", "signing", "seed"],
    help: "Replays what `serve` wrote into FILE by --record, which says itself of what share it is",
};

/// A folder to make.
const FOLDER: OptionRow = OptionRow {
    name: "folder",
    takes: Takes::First("FOLDER"),
    needed: Needed::Always,
    bars: &[],
    help: "The folder, which is made and must not exist",
};

/// A journal to look at.
const JOURNAL_FILE: OptionRow = OptionRow {
    name: "file",
    takes: Takes::First("FILE"),
    needed: Needed::Always,
    bars: &[],
    help: "The journal",
};

/// Fields.
const FIELDS: OptionRow = OptionRow {
    name: "fields",
    takes: Takes::Nothing,
    needed: Needed::Never,
    bars: &[],
    help: "Shows the fields of each request; or, of a replay's output, the status of each reply",
};

/// The seed of a replay, which has no other.
const SEED_OF_REPLAY: OptionRow = OptionRow {
    name: "seed",
    takes: Takes::Text("HEX"),
    needed: Needed::With("login", "ntlm"),
    bars: &[],
    help: SEED_HELP,
};

// The commands are in the order of the program's help, in three lists, each with a function of its own: one of all of them
// is too long for the search that proves its function safe.

/// The commands that perform what comes.
const PERFORMING: &[CommandRow] = &[
    CommandRow {
        name: "replay",
        about: "Replays the events of standard input on a new share, and prints what it answers",
        examples: REPLAY_HELP,
        options: &[
            CONFIG,
            EXPLAIN,
            REASONS,
            LOG,
            LOG_LEVEL,
            LOGIN,
            ACCOUNTS,
            SIGNING,
            SEED_OF_REPLAY,
            RECORDING,
        ],
    },
    CommandRow {
        name: "serve",
        about: "Serves a share over TCP",
        examples: SERVE_HELP,
        options: &[
            CONFIG,
            EXPLAIN,
            LISTEN,
            HOSTS,
            PER_ADDRESS,
            LOGIN,
            ACCOUNTS,
            SIGNING,
            SEED,
            TURNS,
            IDLE,
            IDLE_NEW,
            OWED,
            JOURNAL,
            RECORD,
            SYNC,
            LOG,
            LOG_LEVEL,
            LOG_MUST,
            STATUS,
            STATUS_ANYWHERE,
            STATUS_NAMES,
            FROM,
            SKIP,
            CLOCK,
        ],
    },
];

/// The command that serves a folder, and the one that says what would be served.
const SHARING: &[CommandRow] = &[
    SHARE,
    CommandRow {
        name: "check",
        about: "Prints what `serve` would serve by these files, for whom and within which limits; or what is wrong with them",
        examples: CHECK_HELP,
        options: &[CONFIG, EXPLAIN, LOGIN, ACCOUNTS, SIGNING],
    },
];

/// The commands that read or write files and serve nothing.
const OF_FILES: &[CommandRow] = &[
    CommandRow {
        name: "show",
        about: "Lists the requests of a client's stream, hex on standard input",
        examples: SHOW_HELP,
        options: &[FIELDS],
    },
    CommandRow {
        name: "extract",
        about: "Makes a new folder of the files that a journal or record on standard input leaves",
        examples: EXTRACT_HELP,
        options: &[FOLDER, SALVAGE],
    },
    CommandRow {
        name: "compact",
        about: "Writes a journal of the files that a journal or record on standard input leaves",
        examples: COMPACT_HELP,
        options: &[],
    },
    CommandRow {
        name: "check-journal",
        about: "Prints how much a journal keeps and how many of its bytes are whole",
        examples: CHECK_JOURNAL_HELP,
        options: &[JOURNAL_FILE],
    },
    CommandRow {
        name: "nt-hash",
        about: "Prints the NT hash of the password on standard input, for a file of accounts",
        examples: NT_HASH_HELP,
        options: &[],
    },
    ACCOUNT,
];

/// Adds commands.
fn with_rows<'a>(
    alloc: Global,
    mut command: Command<'a>,
    rows: &[CommandRow],
) -> Result<Command<'a>, AllocError> {
    for row in rows {
        command = command.subcommand(command_of(alloc, row)?)?;
    }
    Ok(command)
}

fn with_performing<'a>(alloc: Global, command: Command<'a>) -> Result<Command<'a>, AllocError> {
    with_rows(alloc, command, PERFORMING)
}

fn with_sharing<'a>(alloc: Global, command: Command<'a>) -> Result<Command<'a>, AllocError> {
    with_rows(alloc, command, SHARING)
}

fn with_files<'a>(alloc: Global, command: Command<'a>) -> Result<Command<'a>, AllocError> {
    with_rows(alloc, command, OF_FILES)
}

/// The command line.
pub fn command<'a>(alloc: Global) -> Result<Command<'a>, AllocError> {
    let command = Command::new(alloc, "smbshare")
        .version(VERSION)
        .about("A proved SMB2 file share. Without a command it replays standard input.")
        .after_help(HELP);
    let command = with_performing(alloc, command)?;
    let command = with_sharing(alloc, command)?;
    with_files(alloc, command)
}
