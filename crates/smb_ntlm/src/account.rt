//! Accounts: who may log in.

ghost use Rattle.std.specs.Prelude.{◌≡◌, [], map, length, nat_le, ◌&&◌};
ghost use Rattle.std.specs.List.{list_all, list_any};
ghost use Rattle.smb_wire.specs.Names.{folded_unit, is_same_name};
ghost use Rattle.smb_ntlm.specs.Accounts.{known, is_printable, fault_rows, first_fault, fault_behind};

use std::fmt;
use thiserror::Error;

/// Who may log in, and by which password.
#[derive(Drop)]
pub struct Account {
    /// 1 to 256 bytes of printable ASCII.
    pub name: Vec<u8>,
    /// MD4 of the password in UTF-16LE ([MS-NLMP] 3.3.1, NTOWFv1). Who has it can log in.
    pub nt_hash: [u8; 16],
    /// Whether the account may only read.
    pub read_only: bool,
}

/// Shows the name, and no hash.
impl fmt::Debug for Account {
    fn fmt<W: fmt::Write>(&self, f: &mut fmt::Formatter<W>) -> fmt::Result {
        let name = std::str::from_utf8(&self.name).unwrap_or("?");
        write!(f, "Account({name:?})")
    }
}

/// What is wrong with an account, by its place in the list.
#[derive(Clone, Copy, Debug, PartialEq, Eq, Error)]
pub enum AccountFault {
    /// The name has not 1 to 256 bytes.
    #[error("account {0}: the name has not 1 to 256 bytes")]
    NameLength(usize),
    /// The name has a byte that is no printable ASCII, 0x20 to 0x7E.
    #[error("account {0}: the name has a character that is not printable ASCII")]
    NameCharacter(usize),
    /// The name is `guest`, in any case.
    #[error("account {0}: the name is that of guests")]
    NameIsGuest(usize),
    /// An account before it has the same name, in any case.
    #[error("account {0}: an account before it has the same name")]
    NameTaken(usize),
}

/// A byte of ASCII in capitals.
fn capital(byte: u8) -> u8
    ensures { result ≡ folded_unit byte }
{
    if (97..=122).contains(&byte) {
        byte - 32
    } else {
        byte
    }
}

/// Whether two names in ASCII are the same, whatever the case of their letters.
fn is_same_name(left: &[u8], right: &[u8]) -> bool
    ensures { result ≡ is_same_name left.now right.now }
{
    if left.len() != right.len() {
        return false;
    }
    for i in 0..left.len() {
        if capital(left[i]) != capital(right[i]) {
            return false;
        }
    }
    true
}

/// Whether a name has 1 to 256 bytes.
fn has_lawful_length(name: &[u8]) -> bool
    ensures { result ≡ (nat_le 1 (length name.now) && nat_le (length name.now) 256) }
{
    !name.is_empty() && name.len() <= 256
}

/// Whether a name is printable ASCII.
fn is_printable(name: &[u8]) -> bool
    ensures { result ≡ list_all is_printable name.now }
{
    name.iter().all(|byte| 0x20 <= *byte && *byte <= 0x7E)
}

/// Whether one of these accounts has this name.
fn is_taken(others: &[Account], name: &[u8]) -> bool
    ensures { result ≡ list_any (λ other. is_same_name other.name.items name.now) others.now }
{
    others.iter().any(|other| is_same_name(&other.name, name))
}

/// What is wrong with the account behind these others.
fn fault_of(others: &[Account], account: &Account) -> Option<AccountFault>
    ensures { result ≡ first_fault (fault_rows (map known others.now) (known account.now)) }
{
    let place = others.len();
    let name = account.name.as_slice();
    if !has_lawful_length(name) {
        Some(AccountFault::NameLength(place))
    } else if !is_printable(name) {
        Some(AccountFault::NameCharacter(place))
    } else if is_same_name(b"guest", name) {
        Some(AccountFault::NameIsGuest(place))
    } else if is_taken(others, name) {
        Some(AccountFault::NameTaken(place))
    } else {
        None
    }
}

/// What is wrong with the first faulty account, or None where a [`Ntlm`](crate::Ntlm) may have these accounts. The time
/// is square in their number.
pub fn account_fault(accounts: &[Account]) -> Option<AccountFault>
    ensures { result ≡ fault_behind [] (map known accounts.now) }
{
    for (place, account) in accounts.iter().enumerate() {
        let fault = fault_of(&accounts[..place], account);
        if fault.is_some() {
            return fault;
        }
    }
    None
}
