//! Plays a row.

use crate::row::{Hashed, Row, Step};
use hex::encode;
use smb_ntlm::{Account, Ntlm, account_fault, nt_hash_of};
use smb_session::{Answer, Authenticator, Denial, Signing};
use smb_signing::Key;
use std::alloc::{AllocError, Global};

/// A denial in words: `deny`, with the label of the reason and the name in hex, where one was read.
fn denial_words(alloc: Global, denial: Option<Denial<'_>>) -> Result<String, AllocError> {
    let Some(denial) = denial else {
        return String::from_str(alloc, "deny");
    };
    let label = denial.reason.label();
    if denial.name.is_empty() {
        return format!(in alloc; "deny {label}");
    }
    let name = encode(alloc, denial.name)?;
    format!(in alloc; "deny {label} {name}")
}

/// An answer in words: of a denial its own; `continue` with the token in hex; `accept` with the user in hex, the flags
/// and the token, and `readonly` where the user may only read.
fn words_of(
    alloc: Global,
    answer: &Answer,
    denial: Option<Denial<'_>>,
) -> Result<String, AllocError> {
    match answer {
        Answer::Deny => denial_words(alloc, denial),
        Answer::Continue(token) => {
            let token = encode(alloc, token.as_slice())?;
            format!(in alloc; "continue {token}")
        }
        Answer::Accept {
            user,
            flags,
            read_only,
            token,
            ..
        } => {
            let user = encode(alloc, user.as_slice())?;
            let token = encode(alloc, token.as_slice())?;
            let right = if *read_only { " readonly" } else { "" };
            format!(in alloc; "accept {user} {flags} {token}{right}")
        }
    }
}

/// Copies of accounts.
fn copies(alloc: Global, accounts: &[Account]) -> Result<Vec<Account>, AllocError> {
    let mut copies = Vec::new(alloc);
    for account in accounts {
        let name = account.name.clone()?;
        copies.push(Account {
            name,
            nt_hash: account.nt_hash,
            read_only: account.read_only,
        })?;
    }
    Ok(copies)
}

/// How the session of an answer is signed, if it is.
fn signing_of(answer: &Answer) -> Option<Signing> {
    match answer {
        Answer::Accept { signing, .. } => *signing,
        Answer::Continue(_) | Answer::Deny => None,
    }
}

/// Whether a session has this key, or none where there is none. A key shows by its signature of a header of zeros.
fn has_key(signing: Option<Signing>, key: Option<[u8; 16]>) -> bool {
    match (signing, key) {
        (None, None) => true,
        (Some(signing), Some(bytes)) => {
            let message = [0; 64];
            signing.key.signature(&message) == Key::new(bytes).signature(&message)
        }
        (None, Some(_)) | (Some(_), None) => false,
    }
}

/// What a step gave in place of its answer, or None where it gave that.
fn differs(alloc: Global, ntlm: &mut Ntlm, step: &Step) -> Result<Option<String>, AllocError> {
    let answer = ntlm.step(step.session, step.token.as_slice())?;
    let words = words_of(alloc, &answer, ntlm.denial())?;
    if words.as_str() != step.answer.as_str() {
        return Ok(Some(words));
    }
    if has_key(signing_of(&answer), step.key) {
        Ok(None)
    } else {
        Ok(Some(String::from_str(alloc, "another key, or none")?))
    }
}

/// What the first step that differs gave, or None where each gave its answer.
fn play_steps(
    alloc: Global,
    ntlm: &mut Ntlm,
    steps: &[Step],
) -> Result<Option<String>, AllocError> {
    for step in steps {
        let found = differs(alloc, ntlm, step)?;
        if found.is_some() {
            return Ok(found);
        }
    }
    Ok(None)
}

/// The first password whose NT hash is another, or None where there is none.
fn play_hashes(alloc: Global, hashed: &[Hashed]) -> Result<Option<String>, AllocError> {
    for one in hashed {
        if nt_hash_of(alloc, one.password.as_str())? != one.nt_hash {
            return Ok(Some(one.password.clone()?));
        }
    }
    Ok(None)
}

/// What a row of accounts and tokens gave in place of what it says, or None where it gave that.
fn play_login(alloc: Global, row: &Row) -> Result<Option<String>, AllocError> {
    let accounts = copies(alloc, row.accounts.as_slice())?;
    match account_fault(&accounts) {
        Some(fault) => {
            let words = format!(in alloc; "{fault}")?;
            if words.as_str() == row.fault.as_str() {
                Ok(None)
            } else {
                Ok(Some(words))
            }
        }
        None if row.fault.is_empty() => {
            let mut ntlm = Ntlm::with_signing(
                alloc,
                row.seed,
                accounts,
                row.guest,
                row.guest_read_only,
                row.signing,
            )?;
            play_steps(alloc, &mut ntlm, row.steps.as_slice())
        }
        None => Ok(Some(String::from_str(alloc, "no fault")?)),
    }
}

/// What a row gave in place of what it says, or None where it gave that.
pub fn play(alloc: Global, row: &Row) -> Result<Option<String>, AllocError> {
    let found = play_hashes(alloc, row.hashed.as_slice())?;
    if found.is_some() {
        return Ok(found);
    }
    play_login(alloc, row)
}
