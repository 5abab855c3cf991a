//! Changes of a file of accounts, and its list.

use crate::change::{Change, changed};
use crate::fault::AccountsFault;
use crate::files::Held;
use crate::reading::{fault_of_text, read_accounts};
use smb_ntlm::Account;
use std::fs;

/// Changes a file that this program has to itself.
fn change_held(
    rt: &HostRuntime,
    path: &str,
    held: &Held,
    change: Change<'_>,
) -> Result<(), AccountsFault> {
    let document = match held.text(rt) {
        Ok(document) => document,
        Err(fault) => return Err(fault_of_text(rt.alloc(), "", fault)),
    };
    let text = changed(rt.alloc(), document.as_str(), change)?;
    held.replace(rt, path, &text)
}

/// Changes a file of accounts; one that is not there is made by [`Change::Add`] alone.
///
/// The new text is read before it is written, to a file beside the old one, `.new` behind its name, which nobody but
/// its owner has a right to, and which then gets the old one's name. The owner stays the same. After a fault the old
/// file is as it was, and the new one gone, but for [`AccountsFault::Unsettled`]. Names that differ in the case of
/// letters alone are one. It takes time in proportion to the text.
pub fn change_accounts(
    rt: &HostRuntime,
    path: &str,
    change: Change<'_>,
) -> Result<(), AccountsFault> {
    let held = match change {
        Change::Add(_) => Held::open_or_make(rt, path)?,
        Change::Remove(_) | Change::Password(_, _) => Held::open(rt, path)?,
    };
    held.lock(rt, path)?;
    let ended = change_held(rt, path, &held, change);
    if ended.is_err() && held.is_new {
        let _ = fs::remove_file(rt, path);
    }
    ended
}

/// The accounts of a file, in their order. Nobody but its owner may have a right to it.
pub fn list_accounts(rt: &HostRuntime, path: &str) -> Result<Vec<Account>, AccountsFault> {
    let held = Held::open(rt, path)?;
    let document = match held.text(rt) {
        Ok(document) => document,
        Err(fault) => return Err(fault_of_text(rt.alloc(), "", fault)),
    };
    match read_accounts(rt.alloc(), document.as_str()) {
        Ok(accounts) => Ok(accounts),
        Err(fault) => Err(fault_of_text(rt.alloc(), document.as_str(), fault)),
    }
}
