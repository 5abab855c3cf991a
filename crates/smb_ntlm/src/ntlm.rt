//! The authenticator.

ghost use Rattle.std.specs.Prelude.{◌≡◌, map, IfOk};
ghost use Rattle.smb_session.specs.Authenticator.{IsLawful};
ghost use Rattle.smb_ntlm.specs.Accounts.{known, AreLawful};
ghost use Rattle.smb_ntlm.specs.Gates.{decided};
ghost use Rattle.smb_ntlm.specs.Login.{login_answer};
ghost use Rattle.smb_ntlm.specs.declared.signing.SigningMode.TheVariants.{Off};

use super::account::Account;
use super::decision::{Decision, KeptDenial};
use super::entry::Entry;
use super::login::{Gate, answer_to};
use super::signing::SigningMode;
use super::token::hello_token;
use smb_session::{Answer, Authenticator, Denial};
use std::alloc::{AllocError, Global};
use std::marker::Model;

/// Lets in who knows an account's password, by NTLM's second version ([MS-NLMP] 3.3.2), and guests where these may
/// come. Where signing is on ([`SigningMode`]) an account's session has a key, that of its proof, and is that of a user
/// to its client; any other session has no key, and the session flag of a guest.
///
/// An account's user is its name. A guest's is `guest`, a zero byte, and the session's number in decimal digits, so the
/// guests of two sessions are two users. Steps change nothing, also those that end without memory, but for the denial
/// that is kept: why the last step denied, with the name that was typed where memory could be had for it.
#[derive(Drop)]
pub struct Ntlm {
    alloc: Global,
    seed: [u8; 16],
    entries: Vec<Entry>,
    guest: bool,
    guest_read_only: bool,
    signing: SigningMode,
    denial: Option<KeptDenial>,
}

impl Model for Ntlm {
    ghost use Rattle.std.specs.Prelude.{map};
    ghost use Rattle.smb_ntlm.specs.Accounts.{known, AreLawful};
    ghost use Rattle.smb_ntlm.specs.Login.{NtlmState};

    ghost Value = { NtlmState };

    ghost view = { λ n. record {
      seed = n.seed;
      accounts = map (λ entry. known entry.account) n.entries.items;
      guest = n.guest;
      guest_read_only = n.guest_read_only;
      signing = n.signing;
    } };

    ghost invariant = { λ n. AreLawful (map (λ entry. known entry.account) n.entries.items) };
}

/// Accounts made ready.
fn entries_of(alloc: Global, accounts: Vec<Account>) -> Result<Vec<Entry>, AllocError>
    ensures { IfOk result (λ entries. map (λ entry. known entry.account) entries.items ≡ map known accounts.items) }
{
    let mut entries = Vec::new(alloc);
    for account in accounts {
        entries.push(Entry::of(alloc, account)?)?;
    }
    Ok(entries)
}

impl Ntlm {
    /// An authenticator with these accounts, in which [`account_fault`](crate::account_fault) finds no fault, and
    /// guests where these may come; guests may only read where `guest_read_only` holds. Signing is off: it is
    /// [`Ntlm::with_signing`] with [`SigningMode::Off`].
    pub fn new(
        alloc: Global,
        seed: [u8; 16],
        accounts: Vec<Account>,
        guest: bool,
        guest_read_only: bool,
    ) -> Result<Ntlm, AllocError>
        requires { AreLawful (map known accounts.items) }
        ensures { IfOk result (λ ntlm. ntlm ≡ record {
          seed = seed;
          accounts = map known accounts.items;
          guest = guest;
          guest_read_only = guest_read_only;
          signing = Off;
        }) }
    {
        Ntlm::with_signing(
            alloc,
            seed,
            accounts,
            guest,
            guest_read_only,
            SigningMode::Off,
        )
    }

    /// An authenticator with these accounts, in which [`account_fault`](crate::account_fault) finds no fault, and
    /// guests where these may come; guests may only read where `guest_read_only` holds. The mode says whether the
    /// messages of accounts' sessions are signed.
    ///
    /// The seed is to be fresh in each run, from a source of random bytes: under a seed of an earlier run a login that
    /// was seen then is good again, in the session with the same number. Fails where an account's name in capitals
    /// cannot be made.
    pub fn with_signing(
        alloc: Global,
        seed: [u8; 16],
        accounts: Vec<Account>,
        guest: bool,
        guest_read_only: bool,
        signing: SigningMode,
    ) -> Result<Ntlm, AllocError>
        requires { AreLawful (map known accounts.items) }
        ensures { IfOk result (λ ntlm. ntlm ≡ record {
          seed = seed;
          accounts = map known accounts.items;
          guest = guest;
          guest_read_only = guest_read_only;
          signing = signing;
        }) }
    {
        let entries = entries_of(alloc, accounts)?;
        Ok(Ntlm {
            alloc,
            seed,
            entries,
            guest,
            guest_read_only,
            signing,
            denial: None,
        })
    }

    /// What a token is answered.
    fn decide<'a>(&self, session: u64, token: &'a [u8]) -> Result<Decision<'a>, AllocError>
        ensures answer { IfOk result (λ decision. decided decision ≡ login_answer self.now session token.now) }
        ensures lawful { IfOk result (λ decision. IsLawful (decided decision)) }
    {
        let gate = Gate {
            alloc: self.alloc,
            seed: &self.seed,
            entries: &self.entries,
            guest: self.guest,
            guest_read_only: self.guest_read_only,
            signing: self.signing,
        };
        answer_to(gate, session, token)
    }
}

impl Authenticator for Ntlm {
    ghost use Rattle.smb_ntlm.specs.Login.{by_ntlm};

    ghost meaning = { by_ntlm };

    fn hello(&self) -> &[u8] {
        hello_token()
    }

    fn requires_signing(&self) -> bool {
        self.signing.is_required()
    }

    fn step(&mut self, session: u64, token: &[u8]) -> Result<Answer, AllocError> {
        self.denial = None;
        match self.decide(session, token)? {
            Decision::Answers(answer) => Ok(answer),
            Decision::Denies(denial) => {
                self.denial = Some(KeptDenial::of(self.alloc, denial));
                Ok(Answer::Deny)
            }
        }
    }

    fn denial(&self) -> Option<Denial<'_>> {
        match &self.denial {
            Some(denial) => Some(denial.denial()),
            None => None,
        }
    }
}
