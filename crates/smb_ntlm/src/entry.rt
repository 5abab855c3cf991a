//! An account, ready for logins.

ghost use Rattle.std.specs.Prelude.{◌≡◌};
ghost use Rattle.smb_wire.specs.Pairs.{units_in};
ghost use Rattle.smb_wire.specs.Names.{folded};
ghost use Rattle.smb_ntlm.specs.Proof.{capitals};

use super::account::Account;
use super::capitals::capitals_of;
use super::hmac::hmac_md5;
use super::messages::Login;
use smb_wire::{Units, same_name};
use std::alloc::{AllocError, Global};

/// The shortest response of NTLM's second version: a proof of 16 bytes and a blob of 28 ([MS-NLMP] 2.2.2.7, 2.2.2.8).
const SHORTEST_RESPONSE: usize = 44;

/// The length of a proof, in bytes.
const PROOF: usize = 16;

/// An account, with its name in capitals, in UTF-16LE.
#[derive(Drop)]
pub struct Entry {
    pub account: Account,
    pub name_units: Vec<u8>,
    ghost spelled: { name_units.items ≡ capitals account.name.items },
    ghost read: { units_in name_units.items ≡ folded account.name.items },
}

impl Entry {
    ghost use Rattle.std.specs.Prelude.{IfOk, IfSome, is_some, drop};
    ghost use Rattle.smb_ntlm.specs.Accounts.{known};
    ghost use Rattle.smb_ntlm.specs.Messages.{login_asked};
    ghost use Rattle.smb_ntlm.specs.Proof.{response_key, session_key, has_proof, is_named};

    /// An account made ready. Fails where its name in capitals cannot be made.
    pub fn of(alloc: Global, account: Account) -> Result<Entry, AllocError>
        ensures { IfOk result (λ entry. entry.account ≡ account) }
    {
        let name_units = capitals_of(alloc, &account.name).map_err(|_| AllocError)?;
        Ok(Entry {
            account,
            name_units,
        })
    }

    /// Whether a user, as a client sent it, is the account's name.
    #[tactic(auto, unfolding(crate::specs::Proof::is_named))]
    pub fn is_named(&self, user: &[u8]) -> bool
        ensures { result ≡ is_named user.now (known self.now.account) }
    {
        let Some(user) = Units::of(user) else {
            return false;
        };
        let Some(name) = Units::of(&self.name_units) else {
            return false;
        };
        same_name(user, name)
    }

    /// ResponseKeyNT ([MS-NLMP] 3.3.2), for a domain as a client sent it.
    fn response_key(&self, domain: &[u8]) -> [u8; 16]
        ensures { result ≡ response_key (known self.now.account) domain.now }
    {
        hmac_md5(&self.account.nt_hash, &self.name_units, domain)
    }

    /// SessionBaseKey ([MS-NLMP] 3.3.2) of a login whose response shows that its client knows the account's password,
    /// and None of any other.
    #[tactic(auto, unfolding(crate::specs::Proof::has_proof, crate::specs::Proof::proof, crate::specs::Proof::session_key))]
    pub fn session_key(&self, challenge: &[u8; 8], login: &Login<'_>) -> Option<[u8; 16]>
        ensures proved { is_some result ≡ has_proof (known self.now.account) challenge.now (login_asked login.now) }
        ensures key { IfSome result (λ key. key ≡
            session_key (known self.now.account) login.now.domain.now challenge.now (drop 16 login.now.response.now)) }
    {
        if login.response.len() < SHORTEST_RESPONSE {
            return None;
        }
        let (given, blob) = login.response.split_at(PROOF);
        let response_key = self.response_key(login.domain);
        let proof = hmac_md5(&response_key, challenge.as_slice(), blob);
        if given != proof.as_slice() {
            return None;
        }
        Some(hmac_md5(&response_key, proof.as_slice(), &[]))
    }
}
