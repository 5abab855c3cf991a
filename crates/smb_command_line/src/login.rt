//! How clients log in, and which options go with that and with one another.

use clap::ArgMatches;
use hex::FromHex;
use smb_config::{SigningMode, signing_mode};

/// How clients log in.
#[derive(Clone, Copy)]
pub enum Login {
    /// By one token, as the configuration's users have them.
    Token,
    /// By NTLM, a login of two messages.
    Ntlm(NtlmWords),
}

/// What the words of a command say of logins by NTLM.
#[derive(Clone, Copy)]
pub struct NtlmWords {
    /// The seed of the challenges; None for one of the system's.
    pub seed: Option<[u8; 16]>,
    /// How accounts' sessions are signed; None where the configuration says it.
    pub signing: Option<SigningMode>,
}

/// The seed that the words give.
fn seed_of(words: &ArgMatches<'_>) -> Result<Option<[u8; 16]>, &'static str> {
    let Some(digits) = words.get_str("seed") else {
        return Ok(None);
    };
    match <[u8; 16] as FromHex>::from_hex(digits) {
        Ok(seed) => Ok(Some(seed)),
        Err(_) => Err("the value of --seed is not 32 hex digits"),
    }
}

/// How accounts' sessions are signed, where the words say it.
fn signing_of(words: &ArgMatches<'_>) -> Option<SigningMode> {
    words.get_str("signing").and_then(signing_mode)
}

impl Login {
    /// How the words of a command say that clients log in; where words do not go together, what is wrong with them.
    fn of(words: &ArgMatches<'_>) -> Result<Login, &'static str> {
        let seed = seed_of(words)?;
        let signing = signing_of(words);
        let has_accounts = words.get_str("accounts").is_some();
        let is_signed = matches!(signing, Some(SigningMode::Offered | SigningMode::Required));
        if is_signed && !has_accounts {
            return Err(
                "--signing offered and required are only taken with --login ntlm and --accounts",
            );
        }
        if words.get_str("login") == Some("ntlm") {
            return Ok(Login::Ntlm(NtlmWords { seed, signing }));
        }
        if seed.is_some() || has_accounts {
            return Err("--accounts and --seed are only taken with --login ntlm");
        }
        Ok(Login::Token)
    }
}

/// How clients log in to the share of a command, if it has one; where its words do not go together, what is wrong with them.
pub fn login_of(command: Option<(&str, &ArgMatches<'_>)>) -> Result<Login, &'static str> {
    match command {
        Some(("serve", words))
            if words.get_flag("sync")
                && words.get_str("journal").is_none()
                && words.get_str("record").is_none() => {
            Err("--sync is only taken with --journal or --record")
        }
        Some(("serve", words))
            if words.get_str("status").is_none()
                && (words.get_flag("status-anywhere") || words.get_flag("status-names")) => {
            Err("--status-anywhere and --status-names are only taken with --status")
        }
        Some(("serve", words)) if words.get_flag("log-must") && words.get_str("log").is_none() => {
            Err("--log-level and --log-must are only taken with --log")
        }
        Some(("serve" | "replay", words))
            if words.get_str("log-level").is_some() && words.get_str("log").is_none() => {
            Err("--log-level and --log-must are only taken with --log")
        }
        Some(("serve" | "check" | "replay", words)) => Login::of(words),
        _ => Ok(Login::Token),
    }
}
