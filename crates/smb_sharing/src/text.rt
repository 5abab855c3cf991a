//! Texts of a configuration and of accounts, in TOML.

use smb_ntlm::Account;
use smb_request::Config;
use smb_wire::limits::Limits;
use std::alloc::{AllocError, Global};

/// Adds a text in quotes. It has no control characters.
fn put_quoted(text: &str, out: &mut String) -> Result<(), AllocError> {
    out.push('"')?;
    for character in text.chars() {
        if character == '"' || character == '\\' {
            out.push('\\')?;
        }
        out.push(character)?;
    }
    out.push('"')
}

/// Adds a line with a text under a key.
fn put_text(key: &str, text: &str, out: &mut String) -> Result<(), AllocError> {
    write!(out, "{key} = ")?;
    put_quoted(text, out)?;
    out.push('\n')
}

/// Adds the table of limits.
fn put_limits(limits: Limits, out: &mut String) -> Result<(), AllocError> {
    let Limits {
        connections,
        opens,
        locks,
        entries,
        file_bytes,
        capacity,
        ..
    } = limits;
    write!(
        out,
        "[limits]\nconnections = {connections}\nopens = {opens}\nlocks = {locks}\n"
    )?;
    write!(
        out,
        "entries = {entries}\nfile_bytes = {file_bytes}\ncapacity = {capacity}\n"
    )
}

/// The text of a configuration, as [`smb_config::Configuration`] reads it, of a share whose clients log in by NTLM, and
/// whether guests may come.
pub(crate) fn configuration_text(
    alloc: Global,
    limits: Limits,
    config: &Config,
    guest: bool,
) -> Result<String, AllocError> {
    let mut text = String::new(alloc);
    put_text("share", &config.share, &mut text)?;
    put_text("label", &config.label, &mut text)?;
    let guid = hex::encode(alloc, &config.guid)?;
    put_text("guid", &guid, &mut text)?;
    let (capacity, created) = (config.capacity, config.created);
    write!(
        text,
        "capacity = {capacity}\ncreated = {created}\nhello = \"\"\nguest = {guest}\n"
    )?;
    put_limits(limits, &mut text)?;
    Ok(text)
}

/// Adds the table of an account.
fn put_account(alloc: Global, account: &Account, out: &mut String) -> Result<(), AllocError> {
    out.push_str("[[account]]\n")?;
    put_text("name", str::from_utf8(&account.name).unwrap_or(""), out)?;
    let hash = hex::encode(alloc, &account.nt_hash)?;
    put_text("nt_hash", &hash, out)
}

/// The text of accounts, as [`smb_config::Accounts`] reads it.
pub fn accounts_text(alloc: Global, accounts: &[Account]) -> Result<String, AllocError> {
    let mut text = String::new(alloc);
    for account in accounts {
        put_account(alloc, account, &mut text)?;
    }
    Ok(text)
}
