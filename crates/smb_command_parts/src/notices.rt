//! What is said where all goes on: by `serve` who cannot log in and what is not safe, and of a recording that its last
//! line is cut.

use crate::machine::{descriptors, memory};
use crate::standard_error::{Severity, say};
use smb_command_line::{Login, Texts};
use smb_config::Configuration;
use smb_journal::Form;
use smb_reason::Shown;

/// What is said of the configuration that is built in.
const BUILT_IN_USER: &str =
    "no client of Samba's can log in: the built-in configuration takes the token `a` alone; --config guest.toml lets guests in";

/// What is said where clients log in by tokens, and there is none.
const NO_USER: &str =
    "no client can log in: the configuration has no user, and its `guest` is false; add a [[user]], or set `guest`";

/// What is said of a configuration with users where clients log in by NTLM.
const NO_TOKENS: &str =
    "login by NTLM: of the configuration `guest`, `guest_readonly` and `signing` count; its users' tokens are not used, accounts are in the file of --accounts";

/// What is said where clients log in by NTLM, and no login is right.
const NO_ACCOUNT: &str =
    "no client can log in: there is no account (--accounts FILE), and the configuration's `guest` is false; `smbshare account add` adds one";

/// What is said where the challenges of NTLM come from a seed that was given.
const SEED_IS_GIVEN: &str =
    "login by NTLM: the challenges come from --seed, so a login that was seen once can be played again; leave it out where it is no test";

/// What is said where accounts have to sign what they send, and guests come in too.
const GUESTS_DO_NOT_SIGN: &str =
    "signing is required of accounts alone: guests come in too, and what they send is not signed; `guest = false` keeps them out";

/// What is said where who may write to the configuration is everyone, and it has tokens.
const EVERYONE_WRITES: &str =
    "the configuration holds users' tokens, and everyone may write to its file (chmod o-w)";

/// What is said of a share whose name is that of something else.
const NAMED_IPC: &str =
    "the share is named IPC$: clients ask a share of that name for other things than files, and may not show these; give it another name";

/// How many descriptors the program has beside those of its clients.
const OWN_DESCRIPTORS: u64 = 16;

/// Who may come in to a share, and what it may want of the machine.
#[derive(Clone, Copy, Debug)]
pub struct Entrance {
    /// Whether guests may come.
    pub guest: bool,
    /// How many users of the configuration have a token.
    pub users: usize,
    /// How many accounts there are; none where clients do not log in by NTLM.
    pub accounts: usize,
    /// Whether accounts have to sign what they send.
    pub requires_signing: bool,
    /// Whether the share's name is `IPC$`, in any case.
    pub is_named_ipc: bool,
    /// How many bytes its files may take.
    pub capacity: u64,
    /// How many clients may be connected at a time.
    pub connections: u64,
}

impl Entrance {
    /// Who may come in by a configuration and so many accounts, which need not sign what they send, and what its share
    /// may want.
    pub fn of(configuration: &Configuration, accounts: usize) -> Self {
        Entrance {
            guest: configuration.guest,
            users: configuration.users,
            accounts,
            requires_signing: false,
            is_named_ipc: configuration.config.share.eq_ignore_ascii_case("IPC$"),
            capacity: configuration.config.capacity,
            connections: configuration.limits.connections as u64,
        }
    }
}

/// Says a line on standard error, where it holds.
fn say_where(rt: &HostRuntime, holds: bool, line: &str) {
    if holds {
        say(rt, Severity::Warning, line);
    }
}

/// Says on standard error where the files of a share may take more bytes than the machine has, and where the program
/// may not have as many descriptors as clients may want. Nothing is said where the system does not say it.
fn say_wants(rt: &HostRuntime, capacity: u64, connections: u64) {
    if let Some(memory) = memory(rt)
        && capacity > memory
    {
        let line = format_args!(
            "capacity: {capacity} bytes, more than the {memory} of this machine's memory: clients are ended where it runs out; a smaller capacity does not come to that"
        );
        say(rt, Severity::Warning, line);
    }
    let wanted = connections.saturating_add(OWN_DESCRIPTORS);
    if let Some(descriptors) = descriptors(rt)
        && wanted > descriptors
    {
        let line = format_args!(
            "connections: {connections} clients want {wanted} descriptors, and the program may have {descriptors} (ulimit -n): the last clients are not let in; raise that, or lower limits.connections"
        );
        say(rt, Severity::Warning, line);
    }
}

/// Says on standard error who cannot log in, what is not safe, and what else may not be wanted.
pub fn say_notices(rt: &HostRuntime, texts: &Texts, login: Login, entrance: Entrance) {
    let Entrance {
        guest,
        users,
        accounts,
        requires_signing,
        is_named_ipc,
        capacity,
        connections,
    } = entrance;
    match login {
        Login::Token => {
            say_where(rt, texts.is_built_in, BUILT_IN_USER);
            say_where(rt, !guest && users == 0, NO_USER);
        }
        Login::Ntlm(words) => {
            say_where(rt, users > 0, NO_TOKENS);
            say_where(rt, !guest && accounts == 0, NO_ACCOUNT);
            say_where(rt, words.seed.is_some(), SEED_IS_GIVEN);
            say_where(rt, requires_signing && guest, GUESTS_DO_NOT_SIGN);
        }
    }
    say_where(rt, texts.everyone_writes && users > 0, EVERYONE_WRITES);
    say_where(rt, is_named_ipc, NAMED_IPC);
    say_wants(rt, capacity, connections);
}

/// Says on standard error that the end of a file was cut, where bytes of it are left out.
fn say_left_out(rt: &HostRuntime, word: &str, name: &str, end: &str, left_out: u64) {
    if left_out == 0 {
        return;
    }
    let name = Shown(name.as_bytes());
    let bytes = if left_out == 1 {
        "byte is"
    } else {
        "bytes are"
    };
    let line = format_args!("{word}: {name}: its last {end} was cut: {left_out} {bytes} left out");
    say(rt, Severity::Warning, line);
}

/// Says on standard error that the last line of a recording was cut, where bytes of it are left out.
pub fn say_cut(rt: &HostRuntime, form: Form, name: &str, left_out: u64) {
    say_left_out(rt, form.word(), name, "line", left_out);
}

/// Says on standard error that the end of a journal was cut, where bytes of it are left out.
pub fn say_cut_batch(rt: &HostRuntime, name: &str, left_out: u64) {
    say_left_out(rt, "journal", name, "batch", left_out);
}
